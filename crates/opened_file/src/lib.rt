// Names and states of a file that is opened in the edition: the caller holds the tables or the answer that opening
// gave, and the file is not checked again. Proved: each function answers as the definition of entry/specs that its
// contract names. Assumed: nothing.
#![tactic(auto)]

ghost use Rattle.std.specs.Prelude.{◌≡◌, ◌+◌, ◌*◌, ◌<◌, ◌≤◌, length};
ghost use Rattle.entry.specs.Limits.{short_width};
ghost use Rattle.entry.specs.State.{boolean_of};
ghost use Rattle.base.specs.Answer.{gives};
ghost use Rattle.word.specs.Nul.{nul_from};
ghost use Rattle.entry.specs.Layout.{sizes_of};
ghost use Rattle.entry.specs.Reading.{slot_in, offset_in, content_at};
ghost use Rattle.entry.specs.Asking.{opening, asking_names, asking_boolean, asking_number, asking_string};
ghost use Rattle.entry.specs.Says.{says_file, state_meant, says_state};
ghost use Rattle.opened_file.specs.Opened.{OpenedAs, CodeFits};
ghost use Rattle.opened_file.specs.Kinds.{kind_given, present_or};

use edition::{Edition, Place};
use entry::{
    ABSENT, ABSENT_MARK, CANCELLED, CANCELLED_BYTE, CANCELLED_MARK, FileRefusal, HEADER_SIZE,
    Offset, Opening, PRESENT, Part, State, Tables,
};

// The names without their NUL.
pub fn names_opened(file: &[u8], edition: Edition, t: Tables) -> Part
    requires { OpenedAs edition file.now t }
    ensures { gives result ≡ asking_names edition file.now }
{
    Part {
        start: HEADER_SIZE,
        length: t.booleans_at - HEADER_SIZE - 1,
    }
}

// What a boolean's byte says.
fn boolean_of(c: u8) -> State<()>
    ensures { state_meant result ≡ boolean_of c }
{
    if c == 0 {
        return State::Absent;
    }
    if c == CANCELLED_BYTE {
        return State::Cancelled;
    }
    State::Present(())
}

// One for each list and no generic one: the three differ in the table, in its slots and in what a slot means.
pub fn boolean_opened(file: &[u8], edition: Edition, t: Tables, place: Place) -> Option<State<()>>
    requires { OpenedAs edition file.now t }
    ensures { says_state result ≡ asking_boolean edition file.now place }
{
    if edition.booleans <= place.0 {
        return None;
    }
    if t.booleans <= place.0 {
        return Some(State::Absent);
    }
    Some(boolean_of(file[t.booleans_at + place.0]))
}

// The slot at a place of a table of n slots from at on; absent past the table.
fn slot_at(file: &[u8], at: usize, n: usize, place: Place) -> State<usize>
    requires { at + short_width * n ≤ length file.now }
    ensures { (state_meant result ≡ slot_in short_width file.now at n place) × CodeFits result }
{
    if n <= place.0 {
        return State::Absent;
    }
    let c = word::short_at(file, at + 2 * place.0);
    if c == ABSENT_MARK {
        return State::Absent;
    }
    if c == CANCELLED_MARK {
        return State::Cancelled;
    }
    State::Present(c)
}

pub fn number_opened(file: &[u8], edition: Edition, t: Tables, place: Place) -> Option<State<u32>>
    requires { OpenedAs edition file.now t }
    ensures { says_state result ≡ asking_number edition file.now place }
{
    if edition.numbers <= place.0 {
        return None;
    }
    match slot_at(file, t.numbers_at, t.numbers, place) {
        State::Absent => Some(State::Absent),
        State::Cancelled => Some(State::Cancelled),
        State::Present(c) => Some(State::Present(c as u32)),
    }
}

// The slot of the string at a place: an offset into the string table, or a mark.
fn offset_at(file: &[u8], edition: Edition, t: Tables, place: Place) -> State<Offset>
    requires { OpenedAs edition file.now t }
    ensures { state_meant result ≡ offset_in file.now (sizes_of file.now) place }
{
    match slot_at(file, t.strings_at, t.strings, place) {
        State::Absent => State::Absent,
        State::Cancelled => State::Cancelled,
        State::Present(c) => State::Present(Offset(c)),
    }
}

// The content at an offset of the string table, up to the first NUL, which is there.
fn content_at(file: &[u8], edition: Edition, t: Tables, offset: Offset) -> Part
    requires { OpenedAs edition file.now t
        × (nul_from file.now (t.table_at + offset.0) (length file.now) < length file.now) }
    ensures { result ≡ content_at file.now (sizes_of file.now) offset }
{
    let start = t.table_at + offset.0;
    let end = word::nul_from(file, start);
    Part {
        start,
        length: end - start,
    }
}

pub fn string_opened(file: &[u8], edition: Edition, t: Tables, place: Place) -> Option<State<Part>>
    requires { OpenedAs edition file.now t }
    ensures { says_state result ≡ asking_string edition file.now place }
{
    if edition.strings <= place.0 {
        return None;
    }
    match offset_at(file, edition, t, place) {
        State::Absent => Some(State::Absent),
        State::Cancelled => Some(State::Cancelled),
        State::Present(o) => Some(State::Present(content_at(file, edition, t, o))),
    }
}

// The same by what opening answered.
pub fn boolean_if_opened(
    file: &[u8],
    edition: Edition,
    o: Result<Opening, FileRefusal>,
    place: Place,
) -> Option<State<()>>
    requires { says_file o ≡ opening edition file.now }
    ensures { says_state result ≡ asking_boolean edition file.now place }
{
    let opened = o.ok()?;
    boolean_opened(file, edition, opened.tables, place)
}

// The same by what opening answered.
pub fn number_if_opened(
    file: &[u8],
    edition: Edition,
    o: Result<Opening, FileRefusal>,
    place: Place,
) -> Option<State<u32>>
    requires { says_file o ≡ opening edition file.now }
    ensures { says_state result ≡ asking_number edition file.now place }
{
    let opened = o.ok()?;
    number_opened(file, edition, opened.tables, place)
}

// The same by what opening answered.
pub fn string_if_opened(
    file: &[u8],
    edition: Edition,
    o: Result<Opening, FileRefusal>,
    place: Place,
) -> Option<State<Part>>
    requires { says_file o ≡ opening edition file.now }
    ensures { says_state result ≡ asking_string edition file.now place }
{
    let opened = o.ok()?;
    string_opened(file, edition, opened.tables, place)
}

// The kind of a state, as the writer takes it. A refused place counts as absent.
pub fn kind_of<T: Copy>(s: Option<State<T>>) -> u8
    ensures { result ≡ kind_given (says_state s) }
{
    match s {
        Some(State::Present(_)) => PRESENT,
        Some(State::Cancelled) => CANCELLED,
        _ => ABSENT,
    }
}

// What is present, or the other where nothing is.
pub fn present_or<T: Copy>(s: Option<State<T>>, other: T) -> T
    ensures { result ≡ present_or other (says_state s) }
{
    match s {
        Some(State::Present(x)) => x,
        _ => other,
    }
}
