// The states that the fields of a description give (document 01: Source text). Proved: `walk` keeps what `sayings_from`
// of text/specs gives. Assumed: nothing.
#![tactic(auto)]

ghost use Rattle.std.specs.Prelude.{[]};
ghost use Rattle.kept_states.specs.States.{held_in, SameArrays};
ghost use Rattle.compile_laws.specs.Held.{Holds};
ghost use Rattle.walk_fields.specs.Walks.{Walks};

use each_field::Keeping;
use edition::Edition;
use kept_states::StateArrays;
use text::TextRefused;

// Keeps what the fields from the place past a comma on say, up to the next header, the text's end or the first bad
// field. Answers whether the text ends behind them and none is a use.
pub fn walk(
    text: &[u8],
    at: usize,
    edition: Edition,
    states: &mut StateArrays,
) -> Result<bool, TextRefused>
    requires { Holds edition (held_in states.old text.now []) }
    ensures lent { SameArrays states.old states.new }
    ensures walked { Walks edition at (held_in states.old text.now) (held_in states.new text.now) result }
{
    let mut keeping = Keeping::States;
    let passed = each_field::each(text, at, edition, &mut keeping, states, 0)?;
    Ok(passed.next.is_none() && passed.uses == 0)
}
