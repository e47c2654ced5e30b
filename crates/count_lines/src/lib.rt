// The lines of counts that show a compiled file in an edition: how many places of each list the edition knows, and how
// many slots of the file lie beyond it. Proved: each line is the one of specs/Counts.antt. Assumed: nothing.
#![tactic(auto)]

ghost use Rattle.std.specs.Prelude.{◌+◌, ◌≤◌, length};
ghost use Rattle.shown.specs.Puts.{Puts, Holds};
ghost use Rattle.show_names.specs.Line.{line_room};
ghost use Rattle.count_lines.specs.Counts.{counts_line, edition_line, beyond_line};

use edition::Edition;
use show_names::{OpenFile, put_number, put_text};

// Puts words, and a count for each list.
fn put_counts(
    out: &mut [u8],
    words: &[u8],
    booleans: usize,
    numbers: usize,
    strings: usize,
) -> usize
    requires { length words.now + 90 ≤ length out.old }
    ensures { Puts out.old out.new 0
        (counts_line words.now booleans numbers strings) (length words.now + 90) result }
{
    let a = put_text(out, 0, words);
    let b = put_number(out, a, booleans as u64, b" booleans, ");
    let c = put_number(out, b, numbers as u64, b" numbers, ");
    put_number(out, c, strings as u64, b" strings\n")
}

// The line of the edition.
pub fn edition_line(edition: Edition, out: &mut [u8]) -> usize
    requires { 128 ≤ length out.old }
    ensures { Holds result out.new (edition_line edition) }
{
    put_counts(
        out,
        b"edition: ",
        edition.booleans,
        edition.numbers,
        edition.strings,
    )
}

// The line of the slots beyond the edition; a refused file has none.
pub fn beyond_line(opened: OpenFile, out: &mut [u8]) -> usize
    requires { line_room opened.file.now ≤ length out.old }
    ensures { Holds result out.new (beyond_line opened.entry.edition opened.entry.file.now) }
{
    match opened.answer {
        Ok(opening) => {
            let beyond = opening.beyond;
            put_counts(
                out,
                b"beyond the edition: ",
                beyond.booleans,
                beyond.numbers,
                beyond.strings,
            )
        }
        Err(_) => 0,
    }
}
