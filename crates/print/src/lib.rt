// Numbers and bytes put into a buffer where they fit (document 01: Expansion). Proved: the length and the bytes are
// those of `printed` of expansion/specs, put as `emitted` of specs/ says. Assumed: nothing.
#![tactic(auto)]

ghost use Rattle.std.specs.Prelude.{◌≡◌, [], ◌∷◌, ℕ, ◌+◌, ◌-◌, ◌≤◌, ◌<◌, length, replicate};
ghost use Rattle.base.specs.Overwrite.{put_at};
ghost use Rattle.print.specs.Bounds.{printed_most, output_most};
ghost use Rattle.expansion.specs.Print.{digit_byte, digits, printed};
ghost use Rattle.decimals.specs.Decimals.{decimal_digits};
ghost use Rattle.print.specs.Emit.{emitted, begun};
ghost use Rattle.print.specs.Numeral.{minus_sign, front, before, is_plain, bytes_of, NumeralOf};

use expansion::Base;

// What a value is printed from: its sign and its magnitude, with the base's radix and its first letter.
#[derive(Clone, Copy)]
pub struct Numeral {
    pub minus: bool,
    pub magnitude: u32,
    pub radix: u32,
    pub letters: u8,
}

fn numeral_of(base: Base, value: i32) -> Numeral
    ensures { NumeralOf base value result }
{
    let bits = value.cast_unsigned();
    match base {
        Base::Decimal => Numeral {
            minus: value < 0,
            magnitude: value.unsigned_abs(),
            radix: 10,
            letters: b'a',
        },
        Base::Octal => Numeral {
            minus: false,
            magnitude: bits,
            radix: 8,
            letters: b'a',
        },
        Base::SmallHex => Numeral {
            minus: false,
            magnitude: bits,
            radix: 16,
            letters: b'a',
        },
        Base::CapitalHex => Numeral {
            minus: false,
            magnitude: bits,
            radix: 16,
            letters: b'A',
        },
    }
}

// How many digits a number has in a base.
fn count_digits(n: u32, radix: u32) -> usize
    requires { (2 ≤ radix) × (radix ≤ 16) }
    ensures { (letters : ℕ) → result ≡ length (digits radix letters n) }
{
    let number = n as u64;
    let factor = radix as u64;
    let mut limit = factor;
    let mut count: usize = 1;
    // the count is what the loop finds: no range counts it
    while limit <= number {
        limit *= factor;
        count += 1;
    }
    count
}

fn digit_byte(letters: u8, digit: u32) -> u8
    requires { (letters ≤ 97) × (digit < 16) }
    ensures { result ≡ digit_byte letters digit }
{
    if digit < 10 {
        b'0' + digit as u8
    } else {
        letters + (digit - 10) as u8
    }
}

// The digits of any base, the last of them before a place.
fn put_in_base(out: &mut [u8], end: usize, n: u32, radix: u32, letters: u8)
    requires { (2 ≤ radix) × (radix ≤ 16) × (letters ≤ 97) × (length (digits radix letters n) ≤ end)
        × (end ≤ length out.old) }
    ensures { out.new ≡ put_at out.old (end - length (digits radix letters n))
        (digits radix letters n) }
{
    let mut at = end;
    let mut left = n;
    // as many turns as digits are left: no range counts them
    while left >= radix {
        at -= 1;
        out[at] = digit_byte(letters, left % radix);
        left /= radix;
    }
    at -= 1;
    out[at] = digit_byte(letters, left);
}

fn sign_length(minus: bool) -> usize
    ensures { result ≡ length (minus_sign minus) }
{
    usize::from(minus)
}

fn put_sign(out: &mut [u8], at: usize, minus: bool)
    requires { at + length (minus_sign minus) ≤ length out.old }
    ensures { out.new ≡ put_at out.old at (minus_sign minus) }
{
    if minus {
        out[at] = b'-';
    }
}

// A byte so many times.
fn put_fill(out: &mut [u8], at: usize, byte: u8, count: usize)
    requires { at + count ≤ length out.old }
    ensures { out.new ≡ put_at out.old at (replicate count byte) }
{
    out[at..at + count].fill(byte);
}

// What stands before the digits: the sign, with blanks before it or zeros after it.
fn put_front(out: &mut [u8], at: usize, minus: bool, zero: bool, missing: usize)
    requires { at + (length (minus_sign minus) + missing) ≤ length out.old }
    ensures { out.new ≡ put_at out.old at (front minus zero missing) }
{
    if missing == 0 {
        put_sign(out, at, minus);
        return;
    }
    if zero {
        put_sign(out, at, minus); // the zeros stand after it
        put_fill(out, at + sign_length(minus), b'0', missing);
        return;
    }
    put_fill(out, at, b' ', missing);
    put_sign(out, at + missing, minus);
}

// How many bytes a width asks for beyond a length.
fn missing_of(width: u8, length: usize) -> usize
    ensures { result ≡ width - length }
{
    usize::from(width).saturating_sub(length)
}

// Puts what stands before so many digits where they fit behind it, and gives its length in any case. Fill and width
// stay apart, as the item has them: a struct would be made only to be taken apart.
fn put_before(out: &mut [u8], at: usize, minus: bool, zero: bool, width: u8, count: usize) -> usize
    requires { (at ≤ output_most) × (count ≤ 32) }
    ensures { (result ≡ length (before minus zero width count))
        × (out.new ≡ begun out.old at (before minus zero width count) count) }
{
    let sign = sign_length(minus);
    let missing = missing_of(width, count + sign);
    if out.len() < at + (sign + missing + count) {
        return sign + missing;
    }
    put_front(out, at, minus, zero, missing);
    sign + missing
}

// Whether nothing stands before the digits.
fn is_plain(minus: bool, width: u8) -> bool
    ensures { result ≡ is_plain minus width }
{
    !minus && width == 0
}

// What `put_before` does, for decimal digits; at once where nothing stands before them.
fn put_before_decimal(
    out: &mut [u8],
    at: usize,
    minus: bool,
    zero: bool,
    width: u8,
    n: u32,
) -> usize
    requires { at ≤ output_most }
    ensures { (result ≡ length (before minus zero width (length (decimal_digits n))))
        × (out.new ≡ begun out.old at (before minus zero width (length (decimal_digits n)))
        (length (decimal_digits n))) }
{
    if is_plain(minus, width) {
        return 0;
    }
    put_before(out, at, minus, zero, width, decimals::count(n))
}

// Puts decimal digits where they fit, and gives their count in any case.
fn put_decimal(out: &mut [u8], at: usize, n: u32) -> usize
    requires { at ≤ output_most + printed_most }
    ensures { (result ≡ length (decimal_digits n))
        × (out.new ≡ emitted out.old at (decimal_digits n)) }
{
    if n < 10 {
        put_byte(out, at, b'0' + n as u8);
        return 1;
    }
    let count = decimals::count(n);
    if out.len() < at + count {
        return count;
    }
    decimals::put(out, at + count, n, count);
    count
}

// Puts a numeral of any base, a digit at a time, where it fits, and gives its length in any case.
fn put_by_digit(out: &mut [u8], at: usize, n: Numeral, zero: bool, width: u8) -> usize
    requires { (2 ≤ n.radix) × ((n.radix ≤ 16) × ((n.letters ≤ 97) × (at ≤ output_most))) }
    ensures { (result ≡ length (bytes_of n zero width))
        × (out.new ≡ emitted out.old at (bytes_of n zero width)) }
{
    let count = count_digits(n.magnitude, n.radix);
    let before = put_before(out, at, n.minus, zero, width, count);
    let total = before + count;
    if out.len() < at + total {
        return total;
    }
    put_in_base(out, at + total, n.magnitude, n.radix, n.letters);
    total
}

// Puts a number in a base where it fits, and gives its length in any case.
pub fn put_number(out: &mut [u8], at: usize, base: Base, zero: bool, width: u8, value: i32) -> usize
    requires { at ≤ output_most }
    ensures { (result ≡ length (printed base zero width value)) × (result ≤ printed_most)
        × (out.new ≡ emitted out.old at (printed base zero width value)) }
{
    let n = numeral_of(base, value);
    if n.radix != 10 {
        return put_by_digit(out, at, n, zero, width);
    }
    let before = put_before_decimal(out, at, n.minus, zero, width, n.magnitude);
    before + put_decimal(out, at + before, n.magnitude)
}

// Puts a byte at a place where it fits.
pub fn put_byte(out: &mut [u8], at: usize, b: u8)
    ensures { out.new ≡ emitted out.old at (b ∷ []) }
{
    if at < out.len() {
        out[at] = b;
    }
}
