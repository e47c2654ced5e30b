// The walk along the uses of a wanted description (document 02, 2026-02): the states of each description that it leads
// to are kept once, and a description whose walk is finished is passed over if the chain can take its height. Proved:
// `walk` comes to what `fast` of uses/specs gives, which is the plain recursion `built` there. Assumed: nothing.
#![tactic(auto)]

ghost use Rattle.std.specs.Prelude.{[], ◌<◌, length, get_or};
ghost use Rattle.text.specs.Building.{description_at};
ghost use Rattle.kept_states.specs.States.{held_in, SameArrays};
ghost use Rattle.compile_laws.specs.Held.{Holds};
ghost use Rattle.compile_laws.specs.Listed.{text_descriptions};
ghost use Rattle.use_walk.specs.Own.{PutsOwn};
ghost use Rattle.use_walk.specs.Walks.{FieldsFrom, Arrays, WalksUses};

use edition::Edition;
use kept_states::StateArrays;
use text::TextRefused;
use use_turns::{Frames, Uses};

// Puts a description's own states under those that are there.
fn put_own(text: &[u8], edition: Edition, commas: &[usize], d: usize, states: &mut StateArrays)
    requires { (d < length commas.now) × (FieldsFrom edition text.now (get_or commas.now d 0)
        (description_at (text_descriptions edition text.now) d) × Holds edition (held_in states.old text.now [])) }
    ensures lent { SameArrays states.old states.new }
    ensures put { PutsOwn edition d (held_in states.old text.now) (held_in states.new text.now) }
{
    // the fields are right, so the answer is no refusal
    let _ = walk_fields::walk(text, commas[d] + 1, edition, states);
}

// Keeps the states of the wanted description, and those of all that its uses lead to, from left to right.
pub fn walk(
    text: &[u8],
    edition: Edition,
    commas: &[usize],
    uses: &Uses,
    wanted: usize,
    states: &mut StateArrays,
) -> Result<(), TextRefused>
    requires { (wanted < uses.now.count) × (Arrays edition text.now commas.now uses.now.starts.now uses.now.places.now
        uses.now.targets.now uses.now.count × Holds edition (held_in states.old text.now [])) }
    ensures lent { SameArrays states.old states.new }
    ensures walked { WalksUses edition wanted (held_in states.old text.now) (held_in states.new text.now) result }
{
    let mut frames = Frames::start(uses, wanted);
    put_own(text, edition, commas, wanted, states);
    while let Some(d) = frames.advance(uses)? {
        put_own(text, edition, commas, d, states);
    }
    Ok(())
}
