// Puts what lines are made of: texts, decimal numbers, and capabilities by their names or, where the list has no name
// at the place, by kind and place; and what the lines of a file are made from, `OpenFile`. Proved: each function puts
// what its contract says, by specs/Naming.antt. Assumed: nothing.
#![tactic(auto)]

ghost use Rattle.std.specs.Prelude.{◌++◌, ◌+◌, ◌≤◌, length};
ghost use Rattle.names.specs.Naming.{unpacked};
ghost use Rattle.shown.specs.Puts.{Puts};
ghost use Rattle.show_names.specs.Naming.{decimal, kind_word, name_of, name_room};

use edition::{Kind, Place};

mod open_file;

pub use open_file::OpenFile;

// Puts bytes, and answers the place behind them.
pub fn put_text(out: &mut [u8], at: usize, text: &[u8]) -> usize
    requires { at + length text.now ≤ length out.old }
    ensures { Puts out.old out.new at text.now
        (length text.now) result }
{
    put::put_bytes(out, at, text);
    at + text.len()
}

// Puts a number and what stands behind it.
pub fn put_number(out: &mut [u8], at: usize, n: u64, behind: &[u8]) -> usize
    requires { at + (20 + length behind.now) ≤ length out.old }
    ensures { Puts out.old out.new at (decimal n ++ behind.now)
        (20 + length behind.now) result }
{
    let mut digits = [0u8; 20];
    let k = io::decimal(n, &mut digits);
    let end = put_text(out, at, &digits[..k]);
    put_text(out, end, behind)
}

// Puts a name whose bytes are those of a number, low byte first, up to the first NUL.
fn put_packed(out: &mut [u8], name: u64) -> usize
    requires { 8 ≤ length out.old }
    ensures { Puts out.old out.new 0 (unpacked name) 8 result }
{
    let bytes = name.to_le_bytes();
    match bytes.iter().position(|c| *c == 0) {
        Some(n) => put_text(out, 0, &bytes[..n]),
        None => put_text(out, 0, &bytes),
    }
}

// Puts what stands before a place.
fn put_kind(out: &mut [u8], kind: Kind) -> usize
    requires { 8 ≤ length out.old }
    ensures { Puts out.old out.new 0 (kind_word kind) 8 result }
{
    match kind {
        Kind::Boolean => put_text(out, 0, b"boolean "),
        Kind::Number => put_text(out, 0, b"number "),
        Kind::String => put_text(out, 0, b"string "),
    }
}

// Puts a capability's name, or its kind and place, and what stands behind it.
pub fn put_named(out: &mut [u8], kind: Kind, place: Place, behind: &[u8]) -> usize
    requires { name_room + length behind.now ≤ length out.old }
    ensures { Puts out.old out.new 0 (name_of kind place ++ behind.now)
        (name_room + length behind.now) result }
{
    match names::name_of(kind, place) {
        Some(name) => {
            let end = put_packed(out, name);
            put_text(out, end, behind)
        }
        None => {
            let end = put_kind(out, kind);
            put_number(out, end, place.0 as u64, behind)
        }
    }
}
