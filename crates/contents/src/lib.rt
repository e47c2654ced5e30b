// The content of a string of source text, counted and put into a buffer (document 01: Source text). Proved: each
// function answers every text and place as text/specs says. Assumed: nothing.
#![tactic(auto)]

ghost use Rattle.std.specs.Prelude.{◌≡◌, ◌+◌, ◌<◌, ◌^◌, length};
ghost use Rattle.base.specs.Overwrite.{put_at};
ghost use Rattle.text.specs.Bytes.{between};
ghost use Rattle.text.specs.Strings.{read_at, read_bytes, content_of};
ghost use Rattle.contents.specs.Fits.{Fits};
ghost use Rattle.contents.specs.Usual.{is_escape, is_control_at, is_octal, pair_of, octal_value, Tells};

use escapes::{is_control, item_at, stored_byte};
use text::{Content, StringItem};
use text_bytes::byte_at;

// What stands at a place of a string, where it is usual and has a short way here: a byte that stands for itself, the
// comma, an escape of two bytes, a backslash and three digits. Anything may be called Other.
#[derive(Clone, Copy)]
enum Usual {
    Itself,
    End,
    Pair,
    Octal,
    Other,
}

// `\E` stands at a place.
fn is_escape(text: &[u8], at: usize) -> bool
    requires { at < length text.now }
    ensures { result ≡ is_escape text.now at }
{
    if text[at] == b'\\' {
        return byte_at(text, at + 1) == b'E';
    }
    false
}

// `^` stands at a place, with a byte that it makes a control character.
fn is_control_at(text: &[u8], at: usize) -> bool
    requires { at < length text.now }
    ensures { result ≡ is_control_at text.now at }
{
    if text[at] == b'^' {
        return is_control(byte_at(text, at + 1));
    }
    false
}

// A digit from 0 up to another.
fn is_digit(b: u8, most: u8) -> bool
    ensures { result ≡ between 48 most b }
{
    b'0' <= b && b <= most
}

// A backslash and three octal digits of at most 255 stand at a place.
fn is_octal(text: &[u8], at: usize) -> bool
    requires { at < length text.now }
    ensures { result ≡ is_octal text.now at }
{
    if text[at] == b'\\' {
        if is_digit(byte_at(text, at + 1), b'3') {
            if is_digit(byte_at(text, at + 2), b'7') {
                return is_digit(byte_at(text, at + 3), b'7');
            }
        }
    }
    false
}

// The byte that an escape of two bytes stands for.
fn pair(text: &[u8], at: usize) -> u8
    requires { at < length text.now }
    ensures { result ≡ pair_of text.now at }
{
    if text[at] == b'^' {
        return byte_at(text, at + 1) % 32;
    }
    27
}

// The byte that a backslash and three digits stand for. (48, the code of 0, is a multiple of 8.)
fn octal(text: &[u8], at: usize) -> u8
    requires { at < length text.now }
    ensures { result ≡ octal_value text.now at }
{
    byte_at(text, at + 1) % 4 * 64 + byte_at(text, at + 2) % 8 * 8 + byte_at(text, at + 3) % 8
}

// A usual escape at a place. (In this order `\E` takes the fewest instructions.)
fn usual_escape(text: &[u8], at: usize) -> Usual
    requires { at < length text.now }
    ensures { Tells result text.now at }
{
    if is_control_at(text, at) {
        return Usual::Pair;
    }
    if is_escape(text, at) {
        return Usual::Pair;
    }
    if is_octal(text, at) {
        return Usual::Octal;
    }
    Usual::Other
}

// What stands at a place of a string, where it is usual. The commonest bytes take the fewest tests.
fn usual_at(text: &[u8], at: usize) -> Usual
    requires { at < length text.now }
    ensures { Tells result text.now at }
{
    let b = text[at];
    if b < b'\\' {
        if b',' < b {
            return Usual::Itself;
        }
        if b == b',' {
            return Usual::End;
        }
        if 32 <= b {
            return Usual::Itself;
        }
        return Usual::Other;
    }
    if b <= b'^' {
        return usual_escape(text, at);
    }
    if b <= 126 {
        return Usual::Itself;
    }
    Usual::Other
}

// The string that starts at a place, its bytes counted.
pub fn content_at(text: &[u8], at: usize) -> Option<Content>
    ensures { result ≡ content_of (read_at text.now at) }
{
    // a cursor that moves by an item's size: no range counts it
    let mut i = at;
    let mut n = 0;
    while i < text.len() {
        match usual_at(text, i) {
            Usual::Itself => {
                n += 1;
                i += 1;
            }
            Usual::End => {
                return Some(Content {
                    length: n,
                    comma: i,
                });
            }
            Usual::Pair => {
                n += 1;
                i += 2;
            }
            Usual::Octal => {
                n += 1;
                i += 4;
            }
            Usual::Other => match item_at(text, i) {
                StringItem::End => {
                    return Some(Content {
                        length: n,
                        comma: i,
                    });
                }
                StringItem::Byte(_, k) => {
                    n += 1;
                    i = k;
                }
                StringItem::Removed(k) => {
                    i = k;
                }
                StringItem::Malformed => {
                    return None;
                }
            },
        }
    }
    None
}

// The bytes that the string at from stands for, of which there are size, put into a buffer from at on.
pub fn put_read(b: &mut [u8], at: usize, text: &[u8], from: usize, size: usize)
    requires { Fits b.old at text.now from size }
    ensures { b.new ≡ put_at b.old at (read_bytes (read_at text.now from)) }
{
    // two cursors that move by an item's size and by what it stands for: no range counts them
    let mut i = from;
    let mut p = at;
    let end = at + size;
    while p < end {
        match usual_at(text, i) {
            Usual::Itself => {
                b[p] = text[i];
                p += 1;
                i += 1;
            }
            Usual::End => {
                return;
            }
            Usual::Pair => {
                b[p] = stored_byte(pair(text, i));
                p += 1;
                i += 2;
            }
            Usual::Octal => {
                b[p] = stored_byte(octal(text, i));
                p += 1;
                i += 4;
            }
            Usual::Other => match item_at(text, i) {
                StringItem::End => {
                    return;
                }
                StringItem::Byte(v, k) => {
                    b[p] = stored_byte(v);
                    p += 1;
                    i = k;
                }
                StringItem::Removed(k) => {
                    i = k;
                }
                StringItem::Malformed => {
                    return;
                }
            },
        }
    }
}
