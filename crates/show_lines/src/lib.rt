// The lines that show a compiled file in an edition: its names and each capability. The caller opens the file, once
// for all lines. Proved: each line is the one of specs/Lines.antt. Assumed: nothing.
#![tactic(auto)]

ghost use Rattle.std.specs.Prelude.{◌≡◌, ◌∷◌, ◌++◌, ◌+◌, ◌*◌, ◌≤◌, length};
ghost use Rattle.entry.specs.Asking.{opening};
ghost use Rattle.shown.specs.Puts.{Puts, Holds};
ghost use Rattle.shown.specs.Shown.{shown};
ghost use Rattle.show_names.specs.Line.{line_end, line_room};
ghost use Rattle.show_names.specs.Naming.{name_of};
ghost use Rattle.show_lines.specs.Lines.{boolean_line, string_line, capability_line, count_in, found_line, names_line};

use edition::{Kind, Place};
use entry::State;
use names::Found;
use number_lines::number_line;
use show_names::{OpenFile, put_named, put_text};
use shown::{CONTENT_LEAST, NAMES_LEAST};

// Puts bytes as they are shown, and the line's end.
fn put_shown(out: &mut [u8], at: usize, least: u8, bytes: &[u8]) -> usize
    requires { at + (4 * length bytes.now + 1) ≤ length out.old }
    ensures { Puts out.old out.new at (shown least bytes.now ++ line_end)
        (4 * length bytes.now + 1) result }
{
    let end = shown::show(out, at, least, bytes);
    put_text(out, end, b"\n")
}

// Puts the line of a string's content.
fn put_content(out: &mut [u8], place: Place, content: &[u8]) -> usize
    requires { 29 + (4 * length content.now + 1) ≤ length out.old }
    ensures { Puts out.old out.new 0
        (name_of Kind.String place ++ (61 ∷ (shown 33 content.now ++ line_end)))
        (29 + (4 * length content.now + 1)) result }
{
    let at = put_named(out, Kind::String, place, b"=");
    put_shown(out, at, CONTENT_LEAST, content)
}

// The line of the boolean at a place.
fn boolean_line(opened: OpenFile, place: Place, out: &mut [u8]) -> usize
    requires { line_room opened.file.now ≤ length out.old }
    ensures { Holds result out.new (boolean_line opened.entry.edition opened.entry.file.now place) }
{
    match opened_file::boolean_if_opened(opened.file, opened.edition, opened.answer, place) {
        Some(State::Present(())) => put_named(out, Kind::Boolean, place, b"\n"),
        Some(State::Cancelled) => put_named(out, Kind::Boolean, place, b"@\n"),
        Some(State::Absent) => 0,
        None => 0,
    }
}

// The line of the string at a place.
fn string_line(opened: OpenFile, place: Place, out: &mut [u8]) -> usize
    requires { line_room opened.file.now ≤ length out.old }
    ensures { Holds result out.new (string_line opened.entry.edition opened.entry.file.now place) }
{
    match opened_file::string_if_opened(opened.file, opened.edition, opened.answer, place) {
        Some(State::Present(p)) => put_content(out, place, states::part(opened.file, p)),
        Some(State::Cancelled) => put_named(out, Kind::String, place, b"@\n"),
        Some(State::Absent) => 0,
        None => 0,
    }
}

// The line of the edition's k-th capability: its booleans, its numbers, its strings.
pub fn capability_line(opened: OpenFile, k: usize, out: &mut [u8]) -> usize
    requires { line_room opened.file.now ≤ length out.old }
    ensures { Holds result out.new (capability_line opened.entry.edition opened.entry.file.now k) }
{
    let edition = opened.edition;
    if k < edition.booleans {
        return boolean_line(opened, Place(k), out);
    }
    let behind = k - edition.booleans;
    if behind < edition.numbers {
        return number_line(opened, Place(behind), out);
    }
    string_line(opened, Place(behind - edition.numbers), out)
}

// How many capabilities the edition counts; none where the file is refused.
pub fn count(opened: OpenFile) -> usize
    ensures { result ≡ count_in opened.entry.edition (opening opened.entry.edition opened.entry.file.now) }
{
    let edition = opened.edition;
    match opened.answer {
        Ok(_) => edition.booleans + edition.numbers + edition.strings,
        Err(_) => 0,
    }
}

// The line of the capability that looking a name up gave.
pub fn found_line(opened: OpenFile, found: Option<Found>, out: &mut [u8]) -> usize
    requires { line_room opened.file.now ≤ length out.old }
    ensures { Holds result out.new (found_line opened.entry.edition opened.entry.file.now found) }
{
    let Some(found) = found else {
        return 0;
    };
    match found {
        Found::Boolean(place) => boolean_line(opened, place, out),
        Found::Number(place) => number_line(opened, place, out),
        Found::String(place) => string_line(opened, place, out),
    }
}

// The line of the names; of a refused file they are empty.
pub fn names_line(opened: OpenFile, out: &mut [u8]) -> usize
    requires { line_room opened.file.now ≤ length out.old }
    ensures { Holds result out.new (names_line opened.entry.edition opened.entry.file.now) }
{
    let at = put_text(out, 0, b"names: ");
    match opened.answer {
        Ok(opening) => {
            let p = opened_file::names_opened(opened.file, opened.edition, opening.tables);
            put_shown(out, at, NAMES_LEAST, states::part(opened.file, p))
        }
        Err(_) => put_text(out, at, b"\n"),
    }
}
