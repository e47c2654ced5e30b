// Writes compiled entries (document 01: Compiled entry, order of writing). Proved: `write` answers every edition and
// every slice as `writing` of entry/specs says, and a refusal leaves the buffer as it was. Assumed: nothing.
#![tactic(auto)]

ghost use Rattle.std.specs.Prelude.{length};
ghost use Rattle.base.specs.Answer.{Leaves};
ghost use Rattle.entry.specs.Writing.{writing};
ghost use Rattle.entry.specs.Says.{says_written};
ghost use Rattle.entry.specs.Handed.{handed_by};
ghost use Rattle.write_laws.specs.Answers.{LimitsPassed, Wrote};

use edition::Edition;
use entry::{FILE_MOST, States, WriteRefusal};

// Writes what is handed over, if its states are within the limits and the file fits. There are states enough, the
// names fit, and the strings lie in what is lent.
fn write_lent(
    edition: Edition,
    names: &[u8],
    states: &States<'_>,
    lent: &[u8],
    buffer: &mut [u8],
) -> Result<usize, WriteRefusal>
    requires { LimitsPassed edition (handed_by names.now states.now lent.now) }
    ensures { Wrote edition (handed_by names.now states.now lent.now) buffer.old
        buffer.new (says_written result) }
{
    if !write_limits::states_fit(edition, states, lent) {
        return Err(WriteRefusal::Limit);
    }
    let s = write_file::sizes(edition, names, &states.strings);
    let size = write_file::file_size(s);
    if FILE_MOST < size {
        return Err(WriteRefusal::Size);
    }
    if buffer.len() < size {
        return Err(WriteRefusal::Room(size));
    }
    write_file::write_sure(buffer, s, edition, names, states, lent, &lent[0..0]);
    Ok(size)
}

// Writes the entry handed over at the buffer's start, or refuses and leaves the buffer as it is. A list's states are
// given by kinds, 0 absent, 1 present, 2 cancelled, and contents by place; a string's bytes are those of lent.
pub fn write(
    edition: Edition,
    names: &[u8],
    states: &States<'_>,
    lent: &[u8],
    buffer: &mut [u8],
) -> Result<usize, WriteRefusal>
    ensures { Leaves (writing edition (handed_by names.now states.now lent.now) (length buffer.old))
        buffer.old buffer.new (says_written result) }
{
    if !write_limits::enough_states(edition, states) {
        return Err(WriteRefusal::Counts);
    }
    if !write_limits::names_fit(names) {
        return Err(WriteRefusal::Names);
    }
    let strings = edition.strings;
    if write_limits::find_not_lent(&states.strings, lent, strings) != strings {
        return Err(WriteRefusal::Lent);
    }
    write_lent(edition, names, states, lent, buffer)
}
