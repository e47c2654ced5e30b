// The whole file put into a buffer, once it is known to fit (document 01: Compiled entry). Proved: `write_sure` puts
// `encode` of entry/specs. Assumed: nothing.
#![tactic(auto)]

ghost use Rattle.std.specs.Prelude.{◌≡◌, [], ◌++◌, ◌+◌, ◌<◌, ◌≤◌, ◌^◌, length};
ghost use Rattle.base.specs.Overwrite.{put_at};
ghost use Rattle.entry.specs.Layout.{size_of, numbers_at, table_at};
ghost use Rattle.entry.specs.Writing.{encode, entry_of};
ghost use Rattle.put.specs.Table.{total};
ghost use Rattle.entry.specs.Handed.{handed_by};
ghost use Rattle.write_laws.specs.File.{sizes_with, head, slots, front, HeadFits, SlotsFit, FrontFits};
ghost use Rattle.write_laws.specs.File.{Sure};

use edition::Edition;
use entry::{HEADER_SIZE, NUMBER_WIDTH, OFFSET_WIDTH, Sizes, States, Strings};

// The header's sizes, with a string table of so many bytes.
pub fn sizes_with(e: Edition, names: &[u8], table: usize) -> Sizes
    ensures { result ≡ sizes_with e names.now table }
{
    Sizes {
        names: names.len() + 1,
        booleans: e.booleans,
        numbers: e.numbers,
        strings: e.strings,
        table,
    }
}

// The header's sizes for what is handed over.
pub fn sizes(e: Edition, names: &[u8], strings: &Strings<'_>) -> Sizes
    requires { (e.strings ≤ length strings.now.kinds.now)
        × ((e.strings ≤ length strings.now.lengths.now)
        × (total strings.now.kinds.now strings.now.lengths.now e.strings < 2 ^ 64)) }
    ensures { result ≡ sizes_with e names.now
        (total strings.now.kinds.now strings.now.lengths.now e.strings) }
{
    let table = put::table_size(strings.kinds, strings.lengths, e.strings);
    sizes_with(e, names, table)
}

// Where the numbers' slots start.
pub fn numbers_at(s: Sizes) -> usize
    requires { size_of s < 2 ^ 64 }
    ensures { result ≡ numbers_at s }
{
    HEADER_SIZE + s.names + s.booleans + (s.names + s.booleans) % 2
}

// Where the string table starts.
pub fn table_at(s: Sizes) -> usize
    requires { size_of s < 2 ^ 64 }
    ensures { result ≡ table_at s }
{
    numbers_at(s) + NUMBER_WIDTH * s.numbers + OFFSET_WIDTH * s.strings
}

// The file's length.
pub fn file_size(s: Sizes) -> usize
    requires { size_of s < 2 ^ 64 }
    ensures { result ≡ size_of s }
{
    table_at(s) + s.table
}

// The header, the names, the booleans and the pad byte.
fn put_head(b: &mut [u8], s: Sizes, names: &[u8], states: &States<'_>)
    requires { HeadFits b.old s (handed_by names.now states.now []) }
    ensures { b.new ≡ put_at b.old 0 (head s (handed_by names.now states.now [])) }
{
    put::put_header(b, s);
    put::put_string(b, HEADER_SIZE, names);
    let at = HEADER_SIZE + s.names;
    put::put_booleans(b, at, states.boolean_kinds, s.booleans);
    put::put_pad(b, at + s.booleans, (s.names + s.booleans) % 2);
}

// The slots of the numbers and of the strings, from at on.
fn put_slots(b: &mut [u8], at: usize, s: Sizes, states: &States<'_>)
    requires { SlotsFit b.old at s (handed_by [] states.now []) }
    ensures { b.new ≡ put_at b.old at (slots s (handed_by [] states.now [])) }
{
    let numbers = &states.numbers;
    let strings = &states.strings;
    put::put_numbers(b, at, numbers, s.numbers);
    put::put_slots(b, at + NUMBER_WIDTH * s.numbers, strings, s.strings);
}

// All that stands before the string table.
pub fn put_front(b: &mut [u8], s: Sizes, names: &[u8], states: &States<'_>)
    requires { FrontFits b.old s (handed_by names.now states.now []) }
    ensures { b.new ≡ put_at b.old 0 (front s (handed_by names.now states.now [])) }
{
    put_head(b, s, names, states);
    put_slots(b, numbers_at(s), s, states);
}

// The file of what is handed over, whose sizes are s and whose strings stand in two lent slices.
pub fn write_sure(
    b: &mut [u8],
    s: Sizes,
    e: Edition,
    names: &[u8],
    states: &States<'_>,
    first: &[u8],
    second: &[u8],
)
    requires { Sure b.old s e (handed_by names.now states.now (first.now ++ second.now)) first.now
        second.now }
    ensures { b.new ≡ put_at b.old 0
        (encode (entry_of e (handed_by names.now states.now (first.now ++ second.now)))) }
{
    put_front(b, s, names, states);
    put::put_table(b, table_at(s), &states.strings, first, second, e.strings);
}
