// What stands at a place of a string of source text: a byte, an escape, a line end that is removed, the comma; and a
// byte of a string as it is stored (document 01: Source text). Proved: `item_at` is string_item_at of text/specs, and
// `stored_byte` is its stored_byte. Assumed: nothing.
#![tactic(auto)]

ghost use Rattle.std.specs.Prelude.{◌≡◌, ◌+◌, ◌≤◌, ◌<◌, ◌^◌, length};
ghost use Rattle.text.specs.Strings.{letter_of, is_control, octal_of, escape_at, caret_at, line_end_at, stored_byte};
ghost use Rattle.text.specs.Strings.{string_item_at};

use text::{ByteClass, StringItem};
use text_bytes::{byte_at, digit, is_in, run_end};

// What a letter behind a backslash stands for, or 0.
fn letter(b: u8) -> u8
    ensures { result ≡ letter_of b }
{
    match b {
        b'E' | b'e' => 27,
        b'n' | b'l' => 10,
        b'r' => 13,
        b't' => 9,
        b'b' => 8,
        b'f' => 12,
        b's' => 32,
        b'^' | b'\\' | b',' | b':' => b,
        _ => 0,
    }
}

// Octal digits of values a, b and c, the first of them at a place; 8 or more is no digit.
fn octal(a: u8, b: u8, c: u8, at: usize) -> StringItem
    requires { (a < 8) × (at + 3 < 2 ^ 64) }
    ensures { result ≡ octal_of a b c at }
{
    if b < 8 {
        if c < 8 {
            let v = a as usize * 64 + b as usize * 8 + c as usize;
            if v <= 255 {
                return StringItem::Byte(v as u8, at + 3);
            }
            return StringItem::Malformed;
        }
        return StringItem::Byte(a * 8 + b, at + 2);
    }
    StringItem::Byte(a, at + 1)
}

// Behind a backslash.
fn escape_at(text: &[u8], at: usize) -> StringItem
    requires { at ≤ length text.now }
    ensures { result ≡ escape_at text.now at }
{
    let b = byte_at(text, at);
    let a = digit(b);
    if a < 8 {
        return octal(
            a,
            digit(byte_at(text, at + 1)),
            digit(byte_at(text, at + 2)),
            at,
        );
    }
    let v = letter(b);
    if v == 0 {
        return StringItem::Malformed;
    }
    StringItem::Byte(v, at + 1)
}

// `^` and this byte are a control character.
pub fn is_control(b: u8) -> bool
    ensures { result ≡ is_control b }
{
    match b {
        64..=95 | 97..=122 => true,
        _ => false,
    }
}

// Behind a caret.
fn caret_at(text: &[u8], at: usize) -> StringItem
    requires { at ≤ length text.now }
    ensures { result ≡ caret_at text.now at }
{
    let b = byte_at(text, at);
    if b == b'?' {
        return StringItem::Byte(127, at + 1);
    }
    if is_control(b) {
        return StringItem::Byte(b % 32, at + 1);
    }
    StringItem::Malformed
}

// Behind a line end.
fn line_end_at(text: &[u8], at: usize) -> StringItem
    requires { at ≤ length text.now }
    ensures { result ≡ line_end_at text.now at }
{
    if is_in(ByteClass::Blank, byte_at(text, at)) {
        return StringItem::Removed(run_end(text, ByteClass::Blank, at + 1));
    }
    StringItem::Malformed
}

// A byte of a string as it is stored.
pub fn stored_byte(b: u8) -> u8
    ensures { result ≡ stored_byte b }
{
    if b == 0 { 128 } else { b }
}

// What stands at a place of a string.
pub fn item_at(text: &[u8], at: usize) -> StringItem
    requires { at < length text.now }
    ensures { result ≡ string_item_at text.now at }
{
    let b = text[at];
    match b {
        b',' => StringItem::End,
        b'\\' => escape_at(text, at + 1),
        b'^' => caret_at(text, at + 1),
        10 => line_end_at(text, at + 1),
        32..=126 => StringItem::Byte(b, at + 1),
        _ => StringItem::Malformed,
    }
}
