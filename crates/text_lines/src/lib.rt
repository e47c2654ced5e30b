// The lines of source text: what stands past blank lines and comment lines (document 01: Source text). Proved: each
// function answers every text and place as text/specs says. Assumed: nothing.
#![tactic(auto)]

ghost use Rattle.std.specs.Prelude.{◌≡◌, ◌+◌, ◌<◌};
ghost use Rattle.text.specs.Lines.{line_at, next_at};
ghost use Rattle.text_lines.specs.Usual.{is_usual};

use text::{ByteClass, Line};
use text_bytes::{blanks_end, byte_at, run_end};

// What stands past blank lines and comment lines, from the start of a line.
pub fn line_at(text: &[u8], at: usize) -> Line
    ensures { result ≡ line_at text.now at }
{
    // a cursor that moves by a line's length: no range counts it
    let mut i = at;
    loop {
        let j = blanks_end(text, i);
        if text.len() <= j {
            return Line::End;
        }
        let b = text[j];
        if b == 10 {
            i = j + 1;
        } else if b == b'#' {
            i = run_end(text, ByteClass::Line, j) + 1;
        } else if j == i {
            return Line::Column(i);
        } else {
            return Line::Indented(j);
        }
    }
}

// A line end, one tab and a byte above white space and `#`: the usual line with a field.
fn is_usual(text: &[u8], at: usize) -> bool
    ensures { result ≡ is_usual text.now at }
{
    if byte_at(text, at) == 10 {
        if byte_at(text, at + 1) == 9 {
            return 36 <= byte_at(text, at + 2);
        }
    }
    false
}

// What stands past the white space behind a comma.
fn next_past_blanks(text: &[u8], at: usize) -> Line
    ensures { result ≡ next_at text.now at }
{
    let j = blanks_end(text, at);
    if text.len() <= j {
        return Line::End;
    }
    if text[j] == 10 {
        return line_at(text, j + 1);
    }
    Line::Indented(j)
}

// What stands past blank lines and comment lines, from the place past a comma.
pub fn next_at(text: &[u8], at: usize) -> Line
    ensures { result ≡ next_at text.now at }
{
    if is_usual(text, at) {
        return Line::Indented(at + 2);
    }
    next_past_blanks(text, at)
}
