// The nine arguments of an expansion as C lends them: four arrays (document 02, 2026-07). Proved: `given` is
// arguments_given of specs/. Assumed: nothing.
#![tactic(auto)]

ghost use Rattle.std.specs.Prelude.{◌≡◌};
ghost use Rattle.c_arguments.specs.Given.{argument_given, arguments_given};

use expansion::{Argument, Operand};

// An argument of kind 0 is a number, of any other a text.
fn argument(kind: u8, number: i32, start: usize, length: usize) -> Argument
    ensures { result ≡ argument_given kind number start length }
{
    if kind == 0 {
        Argument {
            operand: Operand::Number(number),
        }
    } else {
        Argument {
            operand: Operand::Text { start, length },
        }
    }
}

// The nine arguments.
pub fn given(
    kinds: &[u8; 9],
    numbers: &[i32; 9],
    starts: &[usize; 9],
    lengths: &[usize; 9],
) -> [Argument; 9]
    ensures { result ≡ arguments_given kinds.now numbers.now starts.now
        lengths.now }
{
    [
        argument(kinds[0], numbers[0], starts[0], lengths[0]),
        argument(kinds[1], numbers[1], starts[1], lengths[1]),
        argument(kinds[2], numbers[2], starts[2], lengths[2]),
        argument(kinds[3], numbers[3], starts[3], lengths[3]),
        argument(kinds[4], numbers[4], starts[4], lengths[4]),
        argument(kinds[5], numbers[5], starts[5], lengths[5]),
        argument(kinds[6], numbers[6], starts[6], lengths[6]),
        argument(kinds[7], numbers[7], starts[7], lengths[7]),
        argument(kinds[8], numbers[8], starts[8], lengths[8]),
    ]
}
