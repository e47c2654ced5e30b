// The fields of source text (document 01: Source text). Proved: each function answers every text and place as
// text/specs says. Assumed: nothing.
#![tactic(auto)]

ghost use Rattle.std.specs.Prelude.{◌≡◌, ◌+◌, ◌-◌, ◌≤◌, ◌<◌, length};
ghost use Rattle.text.specs.Fields.{form_at, named_at, field_at};

use text::{Field, FieldForm, Formed};
use text_numbers::number_at;

// What stands behind a name.
fn form_at(text: &[u8], at: usize) -> Option<Formed>
    requires { at ≤ length text.now }
    ensures { result ≡ form_at text.now at }
{
    match text_bytes::byte_at(text, at) {
        b',' => Some(Formed {
            form: FieldForm::Boolean,
            next: at,
        }),
        b'@' => Some(Formed {
            form: FieldForm::Cancelled,
            next: at + 1,
        }),
        b'#' => number_at(text, at + 1),
        b'=' => {
            let content = contents::content_at(text, at + 1)?;
            Some(Formed {
                form: FieldForm::String(at + 1, content.length),
                next: content.comma,
            })
        }
        _ => None,
    }
}

// The field whose name starts at a place.
fn named_at(text: &[u8], dropped: bool, at: usize) -> Option<Field>
    requires { at ≤ length text.now }
    ensures { result ≡ named_at text.now dropped at }
{
    let end = text_bytes::name_end(text, at);
    if end == at {
        return None;
    }
    let formed = form_at(text, end)?;
    if text_bytes::byte_at(text, formed.next) != b',' {
        return None;
    }
    Some(Field {
        dropped,
        name: at,
        end,
        form: formed.form,
        next: formed.next + 1,
    })
}

// The field at a place.
pub fn field_at(text: &[u8], at: usize) -> Option<Field>
    requires { at < length text.now }
    ensures { result ≡ field_at text.now at }
{
    let dropped = text[at] == b'.';
    let name = if dropped { at + 1 } else { at };
    named_at(text, dropped, name)
}
