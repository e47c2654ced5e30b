// The calls for a Rattle program: an entry that keeps hold of its file, and expansion with lasting variables that are
// lent (document 01: Compiled entry; Expansion). Each call over such a struct passes its slice and numbers on to
// `entry_numbers`. Proved: each answers every value as the definition that its contract names. Assumed: nothing.
#![tactic(auto)]

ghost use Rattle.std.specs.Prelude.{◌≡◌, [], ◌+◌, ◌≤◌, length};
ghost use Rattle.base.specs.Answer.{gives};
ghost use Rattle.entry.specs.Asking.{asking_string, part_given};
ghost use Rattle.entry.specs.Says.{says_asked, says_state, state_meant};
ghost use Rattle.expansion.specs.Limits.{room_for};
ghost use Rattle.expansion.specs.Counting.{room_of};
ghost use Rattle.expansion.specs.Arguments.{numbers_given};
ghost use Rattle.expansion.specs.Expanding.{expanding};
ghost use Rattle.expand_output.specs.Answers.{LentAs};
ghost use Rattle.terminfo.specs.Entries.{opened_entry};
ghost use Rattle.entry_numbers.specs.Entries.{entry_refusal, entry_names, entry_boolean, entry_number, entry_string};
ghost use Rattle.entry_numbers.specs.Entries.{entry_beyond, says_refusal};
ghost use Rattle.terminfo.specs.Lent.{zero_lasting, expanding_asked, expanding_at, WrittenAs};
ghost use Rattle.terminfo.specs.Parts.{NamesAs, StringAs};

use edition::{Edition, Place};
use entry::{Beyond, Part, State};
use entry_numbers::{EntryNumbers, EntryRefusal};
use expansion::{Argument, ExpansionRefusal, Lasting, Output};

// An entry: the caller's bytes and what opening gave for them.
#[derive(Clone, Copy)]
pub struct Entry<'a> {
    file: &'a [u8],
    numbers: EntryNumbers,
}

// The names, and their bytes in the caller's.
#[derive(Clone, Copy)]
pub struct NamesPart<'a> {
    pub names: Option<Part>,
    pub bytes: &'a [u8],
}

// A string's state, and its content's bytes in the caller's.
#[derive(Clone, Copy)]
pub struct StringPart<'a> {
    pub state: Option<State<Part>>,
    pub bytes: &'a [u8],
}

// Opens a file in an edition.
pub fn open<'a>(file: &'a [u8], edition: Edition) -> Entry<'a>
    ensures { result ≡ opened_entry file.entry edition }
{
    let numbers = entry_numbers::numbers_in(file, edition);
    Entry { file, numbers }
}

// What opening said of the file: accepted, or why not, with the position of the first bad byte or slot; 17 for an
// entry that opening would not give.
pub fn refusal<'a>(e: Entry<'a>) -> Result<(), EntryRefusal>
    ensures { says_refusal result ≡ entry_refusal e.entry.file.now e.entry.numbers }
{
    entry_numbers::refusal_in(e.file, e.numbers)
}

// The names, without their NUL.
pub fn names<'a>(e: Entry<'a>) -> Option<Part>
    ensures { says_asked result ≡ entry_names e.entry.file.now e.entry.numbers }
{
    entry_numbers::names_in(e.file, e.numbers)
}

// The names, and their bytes as that part of the caller's; the empty part at the file's start where they are refused.
pub fn names_part<'a>(e: Entry<'a>) -> NamesPart<'a>
    ensures { NamesAs e.entry.file (entry_names e.entry.file.now e.entry.numbers) result }
{
    let names = entry_numbers::names_in(e.file, e.numbers);
    let bytes = entry_numbers::names_bytes(e.file, names);
    NamesPart { names, bytes }
}

// The state of the boolean at a place.
pub fn boolean<'a>(e: Entry<'a>, place: Place) -> Option<State<()>>
    ensures { says_state result ≡ entry_boolean e.entry.file.now e.entry.numbers place }
{
    entry_numbers::boolean_in(e.file, e.numbers, place)
}

// The state of the number at a place.
pub fn number<'a>(e: Entry<'a>, place: Place) -> Option<State<u32>>
    ensures { says_state result ≡ entry_number e.entry.file.now e.entry.numbers place }
{
    entry_numbers::number_in(e.file, e.numbers, place)
}

// The state of the string at a place: where its content stands in the file.
pub fn string<'a>(e: Entry<'a>, place: Place) -> Option<State<Part>>
    ensures { says_state result ≡ entry_string e.entry.file.now e.entry.numbers place }
{
    entry_numbers::string_in(e.file, e.numbers, place)
}

// The state of the string at a place, and its content as that part of the caller's bytes; the empty part at the
// file's start where there is no content.
pub fn string_part<'a>(e: Entry<'a>, place: Place) -> StringPart<'a>
    ensures { StringAs e.entry.file (entry_string e.entry.file.now e.entry.numbers place) result }
{
    let state = entry_numbers::string_in(e.file, e.numbers, place);
    let bytes = entry_numbers::string_bytes(e.file, state);
    StringPart { state, bytes }
}

// How many slots of the file lie beyond the edition, in each list.
pub fn beyond<'a>(e: Entry<'a>) -> Option<Beyond>
    ensures { says_asked result ≡ entry_beyond e.entry.file.now e.entry.numbers }
{
    entry_numbers::beyond_in(e.file, e.numbers)
}

// Opens a file and gives the string at a place, as `string_part` does.
pub fn open_string<'a>(file: &'a [u8], edition: Edition, place: Place) -> StringPart<'a>
    ensures { StringAs file.entry (asking_string edition file.now place) result }
{
    string_part(open(file, edition), place)
}

// Expands a string with nine numbers into the free part of the buffer from place at on. The lasting variables are lent
// and change in place; on a refusal they and the buffer are as they were. The output holds no NUL (`numbers_no_nul` of
// output_laws/proofs/NoNul.antt).
pub fn expand(
    string: &[u8],
    arguments: [i32; 9],
    lasting: &mut Lasting,
    out: &mut [u8],
    at: usize,
) -> Result<Output, ExpansionRefusal>
    ensures { LentAs (length string.now) (room_for (length string.now))
        (expanding string.now (numbers_given arguments) [] lasting.old.values
        (length out.old) at) lasting.old.values lasting.new.values
        out.old at out.new result }
{
    let e = expand::expand(string, arguments, *lasting, out, at);
    *lasting = e.lasting;
    e.answer
}

// The same with arguments that are numbers or parts of a block of texts. The output holds no NUL where no text holds
// one (`expanding_no_nul` of output_laws/proofs/NoNul.antt).
pub fn expand_texts(
    string: &[u8],
    arguments: [Argument; 9],
    texts: &[u8],
    lasting: &mut Lasting,
    out: &mut [u8],
    at: usize,
) -> Result<Output, ExpansionRefusal>
    ensures { LentAs (length string.now) (room_of string.now)
        (expanding string.now arguments texts.now lasting.old.values
        (length out.old) at) lasting.old.values lasting.new.values
        out.old at out.new result }
{
    let e = expand::expand_texts(string, arguments, texts, *lasting, out, at);
    *lasting = e.lasting;
    e.answer
}

// The variables A to Z, all 0.
pub fn zero_lasting() -> Lasting
    ensures { result.values ≡ zero_lasting }
{
    Lasting { values: [0; 26] }
}

// Opens a file and expands the string at a place with nine numbers, and with lasting variables that are 0 at first and
// are not given back. An absent or a cancelled string is not expanded, and its state is the answer; 17 also where
// opening would refuse, or the place is beyond the edition. Its parameters are plain: a caller's proof is made by the
// check. The output holds no NUL (`numbers_at_no_nul` of specs/NoNul.antt).
pub fn open_expand(
    file: &[u8],
    edition: Edition,
    place: Place,
    arguments: [i32; 9],
    out: &mut [u8],
    at: usize,
) -> Result<State<Output>, ExpansionRefusal>
    ensures { WrittenAs (expanding_at edition file.now place (numbers_given arguments) []
        (length out.old) at) out.old at out.new result }
{
    open_expand_texts(
        file,
        edition,
        place,
        arguments::numbers(arguments),
        b"",
        out,
        at,
    )
}

// What a file's string gives that has a state: a present one is expanded.
pub fn expand_state(
    file: &[u8],
    state: State<Part>,
    arguments: [Argument; 9],
    texts: &[u8],
    out: &mut [u8],
    at: usize,
) -> Result<State<Output>, ExpansionRefusal>
    requires { (part_given (gives (state_meant state))).start + (part_given (gives (state_meant state))).length
        ≤ length file.now }
    ensures { WrittenAs (expanding_asked file.now arguments texts.now (length out.old) at
        (gives (state_meant state))) out.old at out.new result }
{
    match state {
        State::Present(p) => {
            let string = states::part(file, p);
            let e = expand::expand_texts(string, arguments, texts, zero_lasting(), out, at);
            let answer = e.answer;
            match answer {
                Ok(output) => Ok(State::Present(output)),
                Err(why) => Err(why),
            }
        }
        State::Absent => Ok(State::Absent),
        State::Cancelled => Ok(State::Cancelled),
    }
}

// As `open_expand`, with arguments that are numbers or parts of a block of texts. The output holds no NUL where no text
// holds one (`expanding_at_no_nul` of specs/NoNul.antt).
pub fn open_expand_texts(
    file: &[u8],
    edition: Edition,
    place: Place,
    arguments: [Argument; 9],
    texts: &[u8],
    out: &mut [u8],
    at: usize,
) -> Result<State<Output>, ExpansionRefusal>
    ensures { WrittenAs (expanding_at edition file.now place arguments texts.now
        (length out.old) at) out.old at out.new result }
{
    if out.len() < at {
        return Err(ExpansionRefusal::Place);
    }
    if !arguments::all_lie_in(arguments, texts.len()) {
        return Err(ExpansionRefusal::Place);
    }
    match states::string(file, edition, place) {
        Some(state) => expand_state(file, state, arguments, texts, out, at),
        None => Err(ExpansionRefusal::Place),
    }
}
