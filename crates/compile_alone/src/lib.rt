// Compiles the text's first description, if it is alone and wanted: it is walked at once. Proved: what `try_first`
// answers is what `building_text` and `fitted` of text/specs give; where it answers nothing, the buffer is as it was.
// Assumed: nothing.
#![tactic(auto)]

ghost use Rattle.std.specs.Prelude.{◌≡◌, true, ◌<◌, length};
ghost use Rattle.edition.specs.Edition.{ok_edition};
ghost use Rattle.text.specs.declared.CompileRefusal.TheVariants as Compiles;
ghost use Rattle.text.specs.declared.Line.TheVariants as Lines;
ghost use Rattle.text.specs.Lines.{line_at};
ghost use Rattle.text.specs.Heading.{names_to, header_at};
ghost use Rattle.text.specs.Building.{Wanted, building_text};
ghost use Rattle.text.specs.Compiling.{fitted};
ghost use Rattle.building_laws.specs.Alone.{HasWanted};
ghost use Rattle.wanted.specs.Wanted.{wanted_by};
ghost use Rattle.compile_alone.specs.Tries.{Tries};

use edition::{BOOLEANS_MOST, Edition, NUMBERS_MOST, STRINGS_MOST};
use entry::ABSENT;
use kept_states::StateArrays;
use text::{CompileRefusal, Line, TextRefusal, TextRefused};
use text_file::UNSET;

// A refusal that gives a place.
fn refused(why: TextRefusal, at: usize) -> Option<Result<usize, CompileRefusal>>
    ensures { result ≡ Some (Err (Compiles.Refused (record { why = why; at = at }))) }
{
    Some(Err(CompileRefusal::Refused(TextRefused { why, at })))
}

// Compiles the description whose header starts at a place and has its comma at another, if it is alone: None where it
// has a use or another header stands behind it.
fn try_fields(
    text: &[u8],
    at: usize,
    comma: usize,
    edition: Edition,
    buffer: &mut [u8],
) -> Option<Result<usize, CompileRefusal>>
    requires { (ok_edition edition ≡ true) × ((line_at text.now 0 ≡ Lines.Column at)
        × (header_at text.now at ≡ Ok comma)) }
    ensures { (w : Wanted) → HasWanted w (names_to text.now at comma)
        → Tries (fitted (length buffer.old) (building_text edition text.now w))
        buffer.old buffer.new result }
{
    let mut boolean_kinds = [ABSENT; BOOLEANS_MOST];
    let mut number_kinds = [ABSENT; NUMBERS_MOST];
    let mut number_values = [0u32; NUMBERS_MOST];
    let mut string_kinds = [ABSENT; STRINGS_MOST];
    let mut string_starts = [UNSET; STRINGS_MOST];
    let mut string_lengths = [UNSET; STRINGS_MOST];
    let mut states = StateArrays {
        boolean_kinds: &mut boolean_kinds,
        number_kinds: &mut number_kinds,
        number_values: &mut number_values,
        string_kinds: &mut string_kinds,
        string_starts: &mut string_starts,
        string_lengths: &mut string_lengths,
    };
    match walk_fields::walk(text, comma + 1, edition, &mut states) {
        Ok(is_alone) => {
            if is_alone {
                let names = &text[at..comma];
                return Some(text_file::write(text, names, edition, &states.lent(), buffer));
            }
            None
        }
        Err(refused) => Some(Err(CompileRefusal::Refused(refused))),
    }
}

// Compiles the text's first description, whose header starts at a place, if it is alone and wanted.
#[tactic(auto, using(crate::proofs::Alone::header_bad))]
fn try_headed(
    text: &[u8],
    at: usize,
    edition: Edition,
    wanted: Option<&[u8]>,
    buffer: &mut [u8],
) -> Option<Result<usize, CompileRefusal>>
    requires { (ok_edition edition ≡ true) × ((line_at text.now 0 ≡ Lines.Column at)
        × (at < length text.now)) }
    ensures { Tries (fitted (length buffer.old) (building_text edition text.now
        (wanted_by wanted.entry))) buffer.old buffer.new result }
{
    match text_header::header_at(text, at) {
        Ok(comma) => {
            if wanted::is_wanted(&text[at..comma], wanted) {
                return try_fields(text, at, comma, edition, buffer);
            }
            None
        }
        Err(why) => refused(why, 0),
    }
}

// Compiles the text's first description, if it is alone and wanted: None where there are several descriptions, or a
// use, or the first isn't the wanted one.
pub fn try_first(
    text: &[u8],
    edition: Edition,
    wanted: Option<&[u8]>,
    buffer: &mut [u8],
) -> Option<Result<usize, CompileRefusal>>
    requires { ok_edition edition ≡ true }
    ensures { Tries (fitted (length buffer.old) (building_text edition text.now
        (wanted_by wanted.entry))) buffer.old buffer.new result }
{
    match text_lines::line_at(text, 0) {
        Line::End => refused(TextRefusal::Malformed, 0),
        Line::Column(at) => try_headed(text, at, edition, wanted, buffer),
        Line::Indented(_) => refused(TextRefusal::Malformed, 0),
    }
}
