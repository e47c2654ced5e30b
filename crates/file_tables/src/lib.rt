// The checks of a file's tables, each of them over every byte or slot of its table (document 01: Compiled entry), and
// the position of the first bad one where a check fails (document 02, 2026-05), which is looked for then only. Proved:
// each function is its definition of entry/specs. Assumed: nothing.
#![tactic(auto)]

ghost use Rattle.std.specs.Prelude.{◌≡◌, ◌&&◌, ◌+◌, ◌*◌, ◌<◌, ◌≤◌, ltb, length, get_or};
ghost use Rattle.base.specs.Scan.{scan};
ghost use Rattle.word.specs.Word.{word};
ghost use Rattle.entry.specs.Limits.{short_width};
ghost use Rattle.entry.specs.State.{ok_boolean, ok_slot};
ghost use Rattle.entry.specs.Reading.{ok_names, ok_booleans, ok_pad, ok_numbers, ok_strings};
ghost use Rattle.entry.specs.Reading.{bad_names, bad_boolean, bad_number, bad_string};
ghost use Rattle.file_tables.specs.Framed.{Framed, OffsetsEnd};

use entry::{
    ABSENT_MARK, CANCELLED_BYTE, CANCELLED_MARK, HALF, HEADER_SIZE, NUMBER_WIDTH, OFFSET_WIDTH,
    Sizes, Tables,
};

#[tactic(auto, unfolding(entry::specs::State::ok_boolean))]
fn boolean_ok(c: u8) -> bool
    ensures { result ≡ ok_boolean c }
{
    c == 0 || c == 1 || c == CANCELLED_BYTE
}

// The first bad boolean byte of n from at on; n where there is none.
fn first_bad_boolean(file: &[u8], at: usize, n: usize) -> usize
    requires { at + n ≤ length file.now }
    ensures { result ≡ scan (λ i. ok_boolean (get_or file.now (at + i) 0)) 0 n }
{
    for i in 0..n {
        if !boolean_ok(file[at + i]) {
            return i;
        }
    }
    n
}

// A mark, or a code below the bound.
#[tactic(auto, unfolding(entry::specs::State::ok_slot))]
fn slot_ok(c: usize, bound: usize) -> bool
    ensures { result ≡ ok_slot short_width (λ d. ltb d bound) c }
{
    c < bound || c == ABSENT_MARK || c == CANCELLED_MARK
}

// The first bad slot of n from at on, where codes below the bound are good; n where there is none.
fn first_bad_slot(file: &[u8], at: usize, n: usize, bound: usize) -> usize
    requires { at + short_width * n ≤ length file.now }
    ensures { result ≡ scan (λ i. ok_slot short_width (λ d. ltb d bound)
        (word short_width file.now (at + short_width * i))) 0 n }
{
    for i in 0..n {
        if !slot_ok(word::short_at(file, at + 2 * i), bound) {
            return i;
        }
    }
    n
}

// One past the last NUL of the table of n bytes from at on, counted from at; 0 where it has none. The offsets below
// it, and no others, have a NUL at or after them in the table.
fn offsets_end(file: &[u8], at: usize, n: usize) -> usize
    requires { at + n ≤ length file.now }
    ensures { OffsetsEnd file.now at n result }
{
    for i in (0..n).rev() {
        if file[at + i] == 0 {
            return i + 1;
        }
    }
    0
}

// The first NUL of the names is their last byte.
pub fn names_ok(file: &[u8], s: Sizes, t: Tables) -> bool
    requires { Framed file.now s t }
    ensures { result ≡ ok_names file.now s }
{
    word::find_nul(file, HEADER_SIZE, t.booleans_at) == t.booleans_at - 1
}

// The booleans and the pad byte.
pub fn booleans_ok(file: &[u8], s: Sizes, t: Tables) -> bool
    requires { Framed file.now s t }
    ensures { result ≡ (ok_booleans file.now s && ok_pad file.now s) }
{
    if first_bad_boolean(file, t.booleans_at, t.booleans) != t.booleans {
        return false;
    }
    if (s.names + s.booleans) % 2 == 0 {
        return true;
    }
    file[t.booleans_at + t.booleans] == 0
}

pub fn numbers_ok(file: &[u8], s: Sizes, t: Tables) -> bool
    requires { Framed file.now s t }
    ensures { result ≡ ok_numbers file.now s }
{
    first_bad_slot(file, t.numbers_at, t.numbers, HALF) == t.numbers
}

pub fn strings_ok(file: &[u8], s: Sizes, t: Tables) -> bool
    requires { Framed file.now s t }
    ensures { result ≡ ok_strings file.now s }
{
    let end = offsets_end(file, t.table_at, s.table);
    first_bad_slot(file, t.strings_at, t.strings, end) == t.strings
}

// The first NUL among the names bytes but the last; the last one where there is none.
pub fn bad_names(file: &[u8], s: Sizes, t: Tables) -> usize
    requires { Framed file.now s t }
    ensures { result ≡ bad_names file.now s }
{
    let last = t.booleans_at - 1;
    word::find_nul(file, HEADER_SIZE, last)
}

// The first bad boolean; the byte behind them, where the pad stands, if there is none.
pub fn bad_boolean(file: &[u8], s: Sizes, t: Tables) -> usize
    requires { Framed file.now s t }
    ensures { result ≡ bad_boolean file.now s }
{
    t.booleans_at + first_bad_boolean(file, t.booleans_at, t.booleans)
}

pub fn bad_number(file: &[u8], s: Sizes, t: Tables) -> usize
    requires { Framed file.now s t }
    ensures { result ≡ bad_number file.now s }
{
    t.numbers_at + NUMBER_WIDTH * first_bad_slot(file, t.numbers_at, t.numbers, HALF)
}

pub fn bad_string(file: &[u8], s: Sizes, t: Tables) -> usize
    requires { Framed file.now s t }
    ensures { result ≡ bad_string file.now s }
{
    let end = offsets_end(file, t.table_at, s.table);
    t.strings_at + OFFSET_WIDTH * first_bad_slot(file, t.strings_at, t.strings, end)
}
