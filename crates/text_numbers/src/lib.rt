// The numbers of source text (document 01: Source text). Proved: `number_at` is number_at of text/specs. Assumed:
// nothing.
#![tactic(auto)]

ghost use Rattle.std.specs.Prelude.{◌≡◌, ◌+◌, ◌-◌, ◌≤◌, ◌<◌, ◌^◌, min, length};
ghost use Rattle.text.specs.Bytes.{base_of};
ghost use Rattle.entry.specs.Limits.{number_most};
ghost use Rattle.text.specs.Numbers.{with_digits, number_form, digits_at, number_at};
ghost use Rattle.text_numbers.specs.Bases.{base_at, first_digit};

use text::{ByteClass, DIGITS_MOST, FieldForm, Formed, NUMBER_MOST, NumberBase};

fn base_of(base: NumberBase) -> usize
    ensures { result ≡ base_of base }
{
    match base {
        NumberBase::Octal => 8,
        NumberBase::Decimal => 10,
        NumberBase::Hexadecimal => 16,
    }
}

// The value of the digits from at to end, or, where it is above the most of a number, one above that.
fn value_of(text: &[u8], base: usize, at: usize, end: usize) -> usize
    requires { ((1 ≤ base) × (base ≤ 16)) × ((at ≤ «end») × («end» ≤ length text.now)) }
    ensures { result ≡ min (with_digits base text.now at («end» - at) 0) (number_most + 1) }
{
    let mut v = 0;
    for i in at..end {
        v = v * base + text_bytes::digit(text[i]) as usize;
        if NUMBER_MOST < v {
            return NUMBER_MOST + 1;
        }
    }
    v
}

// What the digits from at to past say: a number, or that it is past a limit.
fn number_form(text: &[u8], base: NumberBase, at: usize, past: usize) -> FieldForm
    requires { (at ≤ past) × (past ≤ length text.now) }
    ensures { result ≡ number_form (with_digits (base_of base) text.now at (past - at) 0) (past - at) }
{
    if DIGITS_MOST < past - at {
        return FieldForm::LargeNumber;
    }
    let value = value_of(text, base_of(base), at, past);
    if NUMBER_MOST < value {
        return FieldForm::LargeNumber;
    }
    FieldForm::Number(value as u32)
}

// The number that stands in the digits from at on.
fn digits_at(text: &[u8], base: NumberBase, at: usize) -> Option<Formed>
    ensures { result ≡ digits_at base text.now at }
{
    let past = text_bytes::run_end(text, ByteClass::Digit(base), at);
    if past == at {
        return None;
    }
    Some(Formed {
        form: number_form(text, base, at, past),
        next: past,
    })
}

// The base of the number at a place.
fn base_at(text: &[u8], at: usize) -> NumberBase
    requires { at ≤ length text.now }
    ensures { result ≡ base_at text.now at }
{
    if text_bytes::byte_at(text, at) != b'0' {
        return NumberBase::Decimal;
    }
    match text_bytes::byte_at(text, at + 1) {
        b'x' | b'X' => NumberBase::Hexadecimal,
        _ => NumberBase::Octal,
    }
}

// The first digit of a number at a place: `0x` is no part of the digits.
fn first_digit(base: NumberBase, at: usize) -> usize
    requires { at + 2 < 2 ^ 64 }
    ensures { result ≡ first_digit base at }
{
    match base {
        NumberBase::Octal | NumberBase::Decimal => at,
        NumberBase::Hexadecimal => at + 2,
    }
}

// The number at a place.
pub fn number_at(text: &[u8], at: usize) -> Option<Formed>
    requires { at ≤ length text.now }
    ensures { result ≡ number_at text.now at }
{
    let base = base_at(text, at);
    digits_at(text, base, first_digit(base, at))
}
