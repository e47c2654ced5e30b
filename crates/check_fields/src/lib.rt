// The fields of a description, judged one after the other without keeping their states; the places of its uses are kept
// (document 02, 2026-02). Proved: `check` comes to what `sayings_from` of text/specs gives. Assumed: nothing.
#![tactic(auto)]

ghost use Rattle.std.specs.Prelude.{◌*◌, ◌≤◌, length};
ghost use Rattle.text.specs.Bytes.{text_most};
ghost use Rattle.compile_laws.specs.Listed.{uses_room};
ghost use Rattle.each_field.specs.Each.{Recorded};

use each_field::{Keeping, Passed};
use edition::Edition;
use kept_states::StateArrays;
use text::TextRefused;

// Judges the fields from the place past a comma on, up to the next header, the text's end or the first bad field, and
// keeps the places of uses, of which there are some already.
pub fn check(
    text: &[u8],
    at: usize,
    edition: Edition,
    places: &mut [u16],
    uses: usize,
) -> Result<Passed, TextRefused>
    requires { (length text.now ≤ text_most) × ((at ≤ length text.now)
        × ((uses_room ≤ length places.old) × (uses * 5 ≤ at))) }
    ensures { Recorded edition text.now at places.old uses places.new result }
{
    let mut keeping = Keeping::Uses(places);
    // no state is kept
    let mut states = StateArrays {
        boolean_kinds: &mut [],
        number_kinds: &mut [],
        number_values: &mut [],
        string_kinds: &mut [],
        string_starts: &mut [],
        string_lengths: &mut [],
    };
    let answer = each_field::each(text, at, edition, &mut keeping, &mut states, uses);
    if let Keeping::Uses(places) = keeping {
        let _ = places; // they are lent no more
    }
    let passed = answer?;
    Ok(passed)
}
