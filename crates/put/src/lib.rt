// The parts of a written file, each put into a buffer from a place on; the buffer's other bytes stay (document 01:
// Compiled entry). Proved: each part as `encode` of entry/specs has it. Assumed: nothing.
#![tactic(auto)]

ghost use Rattle.std.specs.Prelude.{◌≡◌, [], ◌∷◌, ◌++◌, map, ◌+◌, ◌*◌, ◌<◌, ◌≤◌, ◌^◌, length};
ghost use Rattle.base.specs.Overwrite.{put_at};
ghost use Rattle.word.specs.Word.{bytes, words};
ghost use Rattle.entry.specs.Limits.{number_width, offset_width, short_width};
ghost use Rattle.entry.specs.State.{boolean_code, code_of};
ghost use Rattle.entry.specs.Writing.{header, padding, number_code, offset_code, string_table, state_of};
ghost use Rattle.put.specs.Table.{booleans_of, numbers_of, slots_of, string_of, strings_of, table_bytes, total};
ghost use Rattle.put.specs.Table.{InPools, TableFits};

use entry::{
    ABSENT, ABSENT_MARK, CANCELLED_BYTE, CANCELLED_MARK, MAGIC, NUMBER_WIDTH, Numbers,
    OFFSET_WIDTH, Offset, PRESENT, Sizes, Strings,
};

// The bytes of an absent and of a present boolean.
const ABSENT_BYTE: u8 = 0;

const PRESENT_BYTE: u8 = 1;

// The header.
pub fn put_header(b: &mut [u8], s: Sizes)
    requires { 12 ≤ length b.old }
    ensures { b.new ≡ put_at b.old 0 (words short_width (header s)) }
{
    word::put_short(b, 0, MAGIC);
    word::put_short(b, 2, s.names);
    word::put_short(b, 4, s.booleans);
    word::put_short(b, 6, s.numbers);
    word::put_short(b, 8, s.strings);
    word::put_short(b, 10, s.table);
}

// A run of bytes.
pub fn put_bytes(b: &mut [u8], at: usize, s: &[u8])
    requires { at + length s.now ≤ length b.old }
    ensures { b.new ≡ put_at b.old at s.now }
{
    for i in 0..s.len() {
        b[at + i] = s[i];
    }
}

// A run of bytes and a NUL.
pub fn put_string(b: &mut [u8], at: usize, s: &[u8])
    requires { at + length s.now + 1 ≤ length b.old }
    ensures { b.new ≡ put_at b.old at (s.now ++ (0 ∷ [])) }
{
    put_bytes(b, at, s);
    b[at + s.len()] = 0;
}

// The pad byte, where pad is not 0.
pub fn put_pad(b: &mut [u8], at: usize, pad: usize)
    requires { at + pad ≤ length b.old }
    ensures { b.new ≡ put_at b.old at (padding pad) }
{
    if pad != 0 {
        b[at] = 0;
    }
}

// The byte of a boolean of a kind.
pub fn boolean_code(kind: u8) -> u8
    ensures { result ≡ boolean_code (state_of kind tt) }
{
    if kind == ABSENT {
        return ABSENT_BYTE;
    }
    if kind == PRESENT {
        return PRESENT_BYTE;
    }
    CANCELLED_BYTE
}

// The bytes of the first n booleans.
pub fn put_booleans(b: &mut [u8], at: usize, kinds: &[u8], n: usize)
    requires { (at + n ≤ length b.old) × (n ≤ length kinds.now) }
    ensures { b.new ≡ put_at b.old at (map boolean_code (booleans_of kinds.now n)) }
{
    for i in 0..n {
        b[at + i] = boolean_code(kinds[i]);
    }
}

// The slot of a state of a kind, where code is a present one's.
pub fn slot_code(kind: u8, code: usize) -> usize
    ensures { result ≡ code_of short_width (state_of kind code) }
{
    if kind == ABSENT {
        return ABSENT_MARK;
    }
    if kind == PRESENT {
        return code;
    }
    CANCELLED_MARK
}

// The slots of the first n numbers.
pub fn put_numbers(b: &mut [u8], at: usize, numbers: &Numbers<'_>, n: usize)
    requires { (at + short_width * n ≤ length b.old)
        × ((n ≤ length numbers.now.kinds.now) × (n ≤ length numbers.now.values.now)) }
    ensures { b.new ≡ put_at b.old at
        (words number_width (map number_code (numbers_of numbers.now.kinds.now numbers.now.values.now n))) }
{
    for i in 0..n {
        let code = slot_code(numbers.kinds[i], numbers.values[i] as usize);
        word::put_short(b, at + NUMBER_WIDTH * i, code);
    }
}

// The slot of a string of a kind; a present one's content starts at o.
pub fn put_slot(b: &mut [u8], at: usize, kind: u8, o: Offset)
    requires { at + 2 ≤ length b.old }
    ensures { b.new ≡ put_at b.old at (bytes short_width (offset_code (state_of kind o))) }
{
    let code = slot_code(kind, o.0);
    word::put_short(b, at, code);
}

// How many bytes of the string table a string of a kind takes.
pub fn bytes_in_table(kind: u8, size: usize) -> usize
    requires { table_bytes (state_of kind size) < 2 ^ 64 }
    ensures { result ≡ table_bytes (state_of kind size) }
{
    if kind == PRESENT {
        return size + 1;
    }
    0
}

// How many bytes of the string table the first n strings take.
pub fn table_size(kinds: &[u8], lengths: &[usize], n: usize) -> usize
    requires { (n ≤ length kinds.now) × ((n ≤ length lengths.now)
        × (total kinds.now lengths.now n < 2 ^ 64)) }
    ensures { result ≡ total kinds.now lengths.now n }
{
    let mut sum = 0;
    for i in 0..n {
        sum += bytes_in_table(kinds[i], lengths[i]);
    }
    sum
}

// The slots of the first n strings.
pub fn put_slots(b: &mut [u8], at: usize, strings: &Strings<'_>, n: usize)
    requires { (at + short_width * n ≤ length b.old) × ((n ≤ length strings.now.kinds.now)
        × ((n ≤ length strings.now.lengths.now)
        × (total strings.now.kinds.now strings.now.lengths.now n < 2 ^ 64))) }
    ensures { b.new ≡ put_at b.old at
        (words offset_width (map offset_code (slots_of strings.now.kinds.now strings.now.lengths.now n))) }
{
    let mut next = 0;
    for i in 0..n {
        let kind = strings.kinds[i];
        put_slot(b, at + OFFSET_WIDTH * i, kind, Offset(next));
        next += bytes_in_table(kind, strings.lengths[i]);
    }
}

// A string's part of the table, a present one's content and its NUL; gives the place behind it. The content stands in
// one of two lent slices; start counts through both.
pub fn put_content(
    b: &mut [u8],
    at: usize,
    kind: u8,
    start: usize,
    size: usize,
    first: &[u8],
    second: &[u8],
) -> usize
    requires { (at + table_bytes (state_of kind size) ≤ length b.old)
        × (kind ≡ 1 → InPools start size first.now second.now) }
    ensures { (b.new ≡ put_at b.old at
        (string_table (string_of kind start size (first.now ++ second.now) ∷ [])))
        × (result ≡ at + table_bytes (state_of kind size)) }
{
    if kind != PRESENT {
        return at;
    }
    let skipped = first.len();
    if start < skipped {
        let end = start + size;
        put_string(b, at, &first[start..end]);
        return at + size + 1;
    }
    let from = start - skipped;
    let end = from + size;
    put_string(b, at, &second[from..end]);
    at + size + 1
}

// The string table of the first n strings.
pub fn put_table(
    b: &mut [u8],
    at: usize,
    strings: &Strings<'_>,
    first: &[u8],
    second: &[u8],
    n: usize,
)
    requires { TableFits b.old at strings.now.kinds.now strings.now.starts.now strings.now.lengths.now
        first.now second.now n }
    ensures { b.new ≡ put_at b.old at
        (string_table (strings_of strings.now.kinds.now strings.now.starts.now strings.now.lengths.now
        (first.now ++ second.now) n)) }
{
    let mut p = at;
    for i in 0..n {
        let size = strings.lengths[i];
        p = put_content(
            b,
            p,
            strings.kinds[i],
            strings.starts[i],
            size,
            first,
            second,
        );
    }
}
