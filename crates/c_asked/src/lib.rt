// The work of the calls for C that ask: states at places, names by their places, places and states by names, each as
// one 64-bit number (include/terminfo_c.h). Proved: each says as much as what it asks. Assumed: nothing.
#![tactic(auto)]

ghost use Rattle.std.specs.Prelude.{◌≡◌, Some, get_or};
ghost use Rattle.base.specs.Tabulate.{tabulate};
ghost use Rattle.entry.specs.Asking.{opening};
ghost use Rattle.entry.specs.Says.{says_file};
ghost use Rattle.c_numbers.specs.Numbers.{numbered};
ghost use Rattle.c_asked.specs.Asked.{kind_of, kind_state, found_state, asked_code, naming_by, find_number};
ghost use Rattle.c_asked.specs.Asked.{named_state};

use edition::{Edition, Kind, Place};
use entry::{FileRefusal, Opening};
use names::Found;

// The kind of a number.
fn kind_of(kind: u8) -> Option<Kind>
    ensures { result ≡ kind_of kind }
{
    if kind == 0 {
        return Some(Kind::Boolean);
    }
    if kind == 1 {
        return Some(Kind::Number);
    }
    if kind == 2 {
        return Some(Kind::String);
    }
    None
}

// The state at a place of a kind's list, by what opening answered.
fn state_at(
    file: &[u8],
    e: Edition,
    o: Result<Opening, FileRefusal>,
    kind: Kind,
    place: Place,
) -> u64
    requires { says_file o ≡ opening e file.now }
    ensures { result ≡ kind_state e file.now kind place }
{
    match kind {
        Kind::Boolean => c_numbers::state_number(opened_file::boolean_if_opened(file, e, o, place)),
        Kind::Number => c_numbers::state_number(opened_file::number_if_opened(file, e, o, place)),
        Kind::String => c_numbers::state_number(opened_file::string_if_opened(file, e, o, place)),
    }
}

// The state at a place of the list of a kind's number.
#[tactic(auto, unfolding(crate::specs::Asked::asked_code))]
fn asked_number(
    file: &[u8],
    e: Edition,
    o: Result<Opening, FileRefusal>,
    kind: u8,
    place: usize,
) -> u64
    requires { says_file o ≡ opening e file.now }
    ensures { result ≡ asked_code e file.now kind place }
{
    match kind_of(kind) {
        Some(kind) => state_at(file, e, o, kind, Place(place)),
        None => c_numbers::refused_number(17),
    }
}

// The states at eight places.
pub fn asked_numbers(
    file: &[u8],
    e: Edition,
    o: Result<Opening, FileRefusal>,
    kinds: &[u8; 8],
    places: &[usize; 8],
) -> [u64; 8]
    requires { says_file o ≡ opening e file.now }
    ensures { result ≡ tabulate (λ i. asked_code e file.now (get_or kinds.now i 0)
        (get_or places.now i 0)) 8 }
{
    let mut answers = [0u64; 8];
    for i in 0..8 {
        answers[i] = asked_number(file, e, o, kinds[i], places[i]);
    }
    answers
}

// The name at a place of a kind's list: its bytes, low byte first.
#[tactic(auto, unfolding(crate::specs::Asked::naming_by, c_numbers::specs::Numbers::numbered))]
pub fn capability(kind: u8, place: usize) -> u64
    ensures { result ≡ numbered (λ w. w) (naming_by kind place) }
{
    match kind_of(kind) {
        Some(kind) => c_numbers::name_number(names::name_of(kind, Place(place))),
        None => 17 * c_numbers::TOP,
    }
}

// The capability that a name means in an edition: its kind and its place, or 11.
pub fn find(name: &[u8], edition: Edition) -> u64
    ensures { result ≡ find_number edition.booleans edition.numbers edition.strings name.now }
{
    c_numbers::found_number(lookup::find(name, edition))
}

// The state of a capability that is found.
fn state_of(file: &[u8], e: Edition, found: Found) -> u64
    ensures { result ≡ found_state e file.now (Some found) }
{
    match found {
        Found::Boolean(p) => c_numbers::state_number(states::boolean(file, e, p)),
        Found::Number(p) => c_numbers::state_number(states::number(file, e, p)),
        Found::String(p) => c_numbers::state_number(states::string(file, e, p)),
    }
}

// The state of the capability that a name means: 11 for a name that the edition doesn't know, else the state.
pub fn state(file: &[u8], edition: Edition, name: &[u8]) -> u64
    ensures { result ≡ named_state edition.booleans edition.numbers edition.strings file.now name.now }
{
    let found = lookup::find(name, edition);
    match found {
        Some(capability) => state_of(file, edition, capability),
        None => c_numbers::refused_number(refusal_numbers::of_found(found)),
    }
}
