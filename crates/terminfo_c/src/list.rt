// The answer of listing every state, as a number.
ghost use Rattle.std.specs.Prelude.{◌≡◌};
ghost use Rattle.c_numbers.specs.Numbers.{numbered, none};
ghost use Rattle.list_states.specs.Listing.{says_listed, ValueFits};

use list_states::ListRefusal;

#[tactic(auto, unfolding(c_numbers::specs::Numbers::numbered))]
pub fn listed_number(answer: Result<(), ListRefusal>) -> u64
    requires { ValueFits answer }
    ensures { result ≡ numbered none (says_listed answer) }
{
    match answer {
        Ok(_) => 0,
        Err(why) => c_numbers::refusal(why),
    }
}
