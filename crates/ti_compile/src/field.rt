// What is wrong with a field.
ghost use Rattle.std.specs.Prelude.{◌≤◌, length};
ghost use Rattle.positions.specs.Taken.{text_room};

use crate::used;
use edition::Edition;
use names::Found;
use text::TextRefusal;
use ti_common::complain;
use ti_common::output::complain_quoted;

// Says a name that the edition knows no capability of.
fn complain_nameless(rt: HostRuntime, name: &[u8]) {
    if matches!(name, b"use") {
        complain(rt, b"'use' names a description, and is written with =");
    } else {
        ti_refusals::complain_unknown(rt, name);
    }
}

// Says a name that is unknown, or whose capability is written in another way.
fn complain_unknown(rt: HostRuntime, name: &[u8], edition: Edition) {
    match lookup::find(name, edition) {
        None => complain_nameless(rt, name),
        Some(Found::Boolean(_)) => {
            complain_quoted(rt, name);
            complain(rt, b" is a boolean, which is written alone");
        }
        Some(Found::Number(_)) => {
            complain_quoted(rt, name);
            complain(rt, b" is a number, which is written with #");
        }
        Some(Found::String(_)) => {
            complain_quoted(rt, name);
            complain(rt, b" is a string, which is written with =");
        }
    }
}

// Says the limit that a field of the name is past; one of no capability is `use`, with a string.
fn complain_limit(rt: HostRuntime, name: &[u8], edition: Edition) {
    complain_quoted(rt, name);
    match lookup::find(name, edition) {
        Some(Found::Boolean(_)) => complain(rt, b" is past a limit"),
        Some(Found::Number(_)) => complain(rt, b" is above 32,767, or has more than 99 digits"),
        Some(Found::String(_)) | None => complain(rt, b" is longer than 1,000 bytes"),
    }
}

// Says what is wrong with a field of the name, whose form starts at a place.
fn complain_named(
    rt: HostRuntime,
    name: &[u8],
    edition: Edition,
    why: TextRefusal,
    text: &[u8],
    form: usize,
)
    requires { form ≤ text_room }
{
    match why {
        TextRefusal::Malformed => complain(rt, b"malformed field"),
        TextRefusal::Unknown => complain_unknown(rt, name, edition),
        TextRefusal::Limit => complain_limit(rt, name, edition),
        TextRefusal::NotFound => used::complain_missing(rt, text, form + 1),
        TextRefusal::Circular => used::complain_circular(rt, text, form + 1),
        TextRefusal::NinthUse => used::complain_ninth(rt, text, form + 1),
    }
}

// Says what is wrong with the field at a place.
pub fn complain_field(
    rt: HostRuntime,
    text: &[u8],
    edition: Edition,
    why: TextRefusal,
    place: usize,
)
    requires { length text.now ≤ text_room }
{
    let end = text_bytes::name_end(text, place);
    if text.len() < end || end < place {
        return;
    }
    complain_named(rt, &text[place..end], edition, why, text, end);
}
