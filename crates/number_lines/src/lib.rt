// The line that shows a number of a compiled file in an edition, by its state. The caller opens the file. Proved: the
// line is the one of specs/Numbers.antt. Assumed: nothing.
#![tactic(auto)]

ghost use Rattle.std.specs.Prelude.{◌∷◌, ◌++◌, ◌≤◌, length};
ghost use Rattle.shown.specs.Puts.{Puts, Holds};
ghost use Rattle.show_names.specs.Line.{line_end, line_room};
ghost use Rattle.show_names.specs.Naming.{decimal, name_of};
ghost use Rattle.number_lines.specs.Numbers.{number_line};

use edition::{Kind, Place};
use entry::State;
use show_names::{OpenFile, put_named, put_number};

// Puts the line of a number's value.
fn put_value(out: &mut [u8], place: Place, n: u32) -> usize
    requires { 50 ≤ length out.old }
    ensures { Puts out.old out.new 0
        (name_of Kind.Number place ++ (35 ∷ (decimal n ++ line_end))) 50 result }
{
    let at = put_named(out, Kind::Number, place, b"#");
    put_number(out, at, n as u64, b"\n")
}

// The line of the number at a place.
pub fn number_line(opened: OpenFile, place: Place, out: &mut [u8]) -> usize
    requires { line_room opened.file.now ≤ length out.old }
    ensures { Holds result out.new (number_line opened.entry.edition opened.entry.file.now place) }
{
    match opened_file::number_if_opened(opened.file, opened.edition, opened.answer, place) {
        Some(State::Present(n)) => put_value(out, place, n),
        Some(State::Cancelled) => put_named(out, Kind::Number, place, b"@\n"),
        Some(State::Absent) => 0,
        None => 0,
    }
}
