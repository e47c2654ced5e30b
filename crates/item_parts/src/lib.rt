// The bytes of items: digits, letters, constants in braces and in quotes, an argument that is tested (document 01:
// Expansion). Proved: each function is its definition of expansion/specs or of specs/. Assumed: nothing.
#![tactic(auto)]

ghost use Rattle.std.specs.Prelude.{◌≡◌, true, ◌+◌, ◌≤◌, ◌<◌, length};
ghost use Rattle.expansion.specs.Items.{byte_at, is_digit, is_nonzero, is_letter, braced_at};
ghost use Rattle.item_parts.specs.Classes.{quoted, lexed_constant};
ghost use Rattle.item_parts.specs.Right.{ArgumentTested};

use expansion::{Class, Classed};

// The largest constant.
const CONSTANT_MOST: u64 = 2147483647;

// The byte at a place, or NUL past the end.
pub fn byte_at(s: &[u8], i: usize) -> u8
    ensures { result ≡ byte_at s.now i }
{
    if i < s.len() { s[i] } else { 0 }
}

pub fn is_digit(c: u8) -> bool
    ensures { result ≡ is_digit c }
{
    c.is_ascii_digit()
}

pub fn is_nonzero(c: u8) -> bool
    ensures { result ≡ is_nonzero c }
{
    matches!(c, b'1'..=b'9')
}

pub fn is_letter(c: u8) -> bool
    ensures { result ≡ is_letter c }
{
    c.is_ascii_alphabetic()
}

// An item's class and the place behind it.
pub fn classed(class: Class, next: usize) -> Classed
    ensures { result ≡ record { class = class; next = next } }
{
    Classed {
        class: class,
        next: next,
    }
}

// A constant in braces and the place behind it.
#[derive(Clone, Copy)]
pub struct Braced {
    pub value: i32,
    pub next: usize,
}

// `%{digits}`
pub fn braced_at(s: &[u8], j: usize) -> Option<Braced>
    requires { j ≤ length s.now }
    ensures { lexed_constant result j ≡ braced_at s.now j }
{
    if !is_digit(byte_at(s, j + 1)) {
        return None;
    }
    let mut v: u64 = 0;
    for i in j + 1..s.len() {
        let c = s[i];
        if c == b'}' {
            return Some(Braced {
                value: v as i32,
                next: i + 1,
            });
        }
        if !is_digit(c) {
            return None;
        }
        v = v * 10 + (c - b'0') as u64;
        if v > CONSTANT_MOST {
            return None;
        }
    }
    None
}

// Whether the two bytes behind `%'` are a byte that is no NUL and `'`.
pub fn is_quoted(s: &[u8], j: usize) -> bool
    requires { j ≤ length s.now }
    ensures { result ≡ quoted s.now j }
{
    if byte_at(s, j + 1) == 0 {
        return false;
    }
    byte_at(s, j + 2) == b'\''
}

// Whether `%p`, a digit from 1 on and `%t` stand at a place. The last byte tells most often that they don't: a pattern
// of five bytes tests the first one first, and is slower.
pub fn tests_argument(s: &[u8], i: usize) -> bool
    requires { i ≤ length s.now }
    ensures { result ≡ true → ArgumentTested s.now i }
{
    if s.len() < i + 5 {
        return false;
    }
    if s[i + 4] != b't' {
        return false;
    }
    if s[i] != b'%' {
        return false;
    }
    if s[i + 1] != b'p' {
        return false;
    }
    if s[i + 3] != b'%' {
        return false;
    }
    is_nonzero(s[i + 2])
}
