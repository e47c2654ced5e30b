// What stands at the position that a file's refusal gives: a slot of a list, or the pad byte (document 02, 2026-05).
// Proved: it is what specs/Slots.antt says, which is the first bad byte or slot of a file that reading refuses.
// Assumed: nothing.
#![tactic(auto)]

ghost use Rattle.std.specs.Prelude.{◌≡◌, ◌-◌, ◌≤◌, length};
ghost use Rattle.entry.specs.Layout.{sizes_of};
ghost use Rattle.file_tables.specs.Framed.{Shorts};
ghost use Rattle.bad_slots.specs.Slots.{boolean_or_pad, bad_slot_of, bad_slot_at, holds_offset};

use edition::{Kind, Place};
use entry::{FileRefusal, HEADER_SIZE, NUMBER_WIDTH, OFFSET_WIDTH, Sizes};

#[derive(Clone, Copy, PartialEq, Eq)]
pub enum BadSlot {
    Pad,
    Slot(Kind, Place),
}

// The byte of a boolean, or the pad's behind them.
fn boolean_slot(s: Sizes, index: usize) -> BadSlot
    ensures { result ≡ boolean_or_pad s index }
{
    if index < s.booleans {
        return BadSlot::Slot(Kind::Boolean, Place(index));
    }
    BadSlot::Pad
}

// 1 to 4 are of no slot.
fn slot_of(s: Sizes, why: FileRefusal) -> Option<BadSlot>
    requires { Shorts s }
    ensures { result ≡ bad_slot_of s why }
{
    let t = read::tables_for(s);
    match why {
        FileRefusal::Length => None,
        FileRefusal::Magic => None,
        FileRefusal::Counts => None,
        FileRefusal::Names(_) => None,
        FileRefusal::Boolean(at) => Some(boolean_slot(s, at.saturating_sub(t.booleans_at))),
        FileRefusal::Number(at) => {
            let index = at.saturating_sub(t.numbers_at) / NUMBER_WIDTH;
            Some(BadSlot::Slot(Kind::Number, Place(index)))
        }
        FileRefusal::Slot(at) => {
            let index = at.saturating_sub(t.strings_at) / OFFSET_WIDTH;
            Some(BadSlot::Slot(Kind::String, Place(index)))
        }
    }
}

// What stands at the position of a refusal of the file.
pub fn slot_at(file: &[u8], why: FileRefusal) -> Option<BadSlot>
    ensures { result ≡ bad_slot_at file.now why }
{
    if file.len() < HEADER_SIZE {
        return None;
    }
    slot_of(read::sizes(file), why)
}

// Whether the slot at a position holds an offset that lies in the string table.
pub fn holds_offset(file: &[u8], at: usize) -> bool
    ensures { result ≡ holds_offset file.now at }
{
    if file.len() < HEADER_SIZE {
        return false;
    }
    if file.len() - OFFSET_WIDTH < at {
        return false;
    }
    let s = read::sizes(file);
    word::short_at(file, at) < s.table
}
