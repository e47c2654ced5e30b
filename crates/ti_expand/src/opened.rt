// A string of a file that is opened, expanded; the bounds of its expansion.
ghost use Rattle.std.specs.Prelude.{◌≡◌, ◌≤◌, length};
ghost use Rattle.expansion.specs.Limits.{string_most};
ghost use Rattle.expansion.specs.Counting.{room_with};
ghost use Rattle.terminfo.specs.Lent.{expanding_at, WrittenAs};

use edition::Place;
use entry::State;
use expansion::{Argument, ExpansionRefusal, Output};
use show_names::OpenFile;

// Expands the string at a place into the free part of the buffer from at on, as `terminfo::open_expand_texts` does, by
// what opening answered. The output holds no NUL where no text holds one (`expanding_at_no_nul` of
// terminfo/specs/NoNul.antt).
pub fn expand_opened(
    opened: OpenFile,
    place: Place,
    arguments: [Argument; 9],
    texts: &[u8],
    out: &mut [u8],
    at: usize,
) -> Result<State<Output>, ExpansionRefusal>
    ensures { WrittenAs (expanding_at opened.entry.edition opened.entry.file.now place arguments texts.now
        (length out.old) at) out.old at out.new result }
{
    if out.len() < at {
        return Err(ExpansionRefusal::Place);
    }
    if !arguments::all_lie_in(arguments, texts.len()) {
        return Err(ExpansionRefusal::Place);
    }
    match opened_file::string_if_opened(opened.file, opened.edition, opened.answer, place) {
        Some(state) => terminfo::expand_state(opened.file, state, arguments, texts, out, at),
        None => Err(ExpansionRefusal::Place),
    }
}

// The most bytes of a string that is expanded.
const STRING_MOST: usize = 1000;

// The bytes of output for a byte of the string, at most, besides texts.
const ROOM_FOR_BYTE: usize = 25;

// How many steps and how many bytes of output an expansion has at most.
#[derive(Clone, Copy)]
pub struct Bounds {
    pub steps: usize,
    pub bytes: usize,
}

// The bounds for a string, where no text has more bytes than the longest; 0 for one that is too long to be expanded.
fn bounds_of(string: &[u8], longest: u16) -> Bounds
    ensures { length string.now ≤ string_most
        → (result.steps ≡ length string.now) × (result.bytes ≡ room_with longest string.now) }
{
    if STRING_MOST < string.len() {
        return Bounds { steps: 0, bytes: 0 };
    }
    let n = string.len();
    let texts = text_items::count(string);
    Bounds {
        steps: n,
        bytes: ROOM_FOR_BYTE * n + (longest as usize) * texts,
    }
}

// The bounds for the string at a place; 0 where there is none.
pub fn bounds_at(opened: OpenFile, place: Place, longest: u16) -> Bounds {
    match opened_file::string_if_opened(opened.file, opened.edition, opened.answer, place) {
        Some(State::Present(p)) => bounds_of(states::part(opened.file, p), longest),
        _ => Bounds { steps: 0, bytes: 0 },
    }
}
