// The nine arguments of an expansion: numbers, and texts that lie in what was lent (document 02, 2026-07). Proved:
// each function is its definition of expansion/specs. Assumed: nothing.
#![tactic(auto)]

ghost use Rattle.std.specs.Prelude.{◌≡◌, List, ℕ, length};
ghost use Rattle.expansion.specs.declared.Operand.TheVariants.{Number};
ghost use Rattle.expansion.specs.Arguments.{lies_in, is_short, each_passes, numbers_given};
ghost use Rattle.arguments.specs.Raised.{raised_of};

use expansion::{Argument, Operand};

// The longest text.
const TEXT_MOST: usize = 1000;

// Whether an operand lies in a block of so many bytes; start and length are never added.
fn lies_in(operand: Operand, lent: usize) -> bool
    ensures { (block : List ℕ) → lent ≡ length block → result ≡ lies_in block operand }
{
    match operand {
        Operand::Number(_) => true,
        Operand::Text { start, length } => {
            if lent < start {
                return false; // of an empty text too
            }
            length <= lent - start
        }
    }
}

fn is_short(operand: Operand) -> bool
    ensures { result ≡ is_short operand }
{
    match operand {
        Operand::Number(_) => true,
        Operand::Text { start: _, length } => length <= TEXT_MOST,
    }
}

// Whether every text lies in a block of so many bytes.
pub fn all_lie_in(arguments: [Argument; 9], lent: usize) -> bool
    ensures { (block : List ℕ) → lent ≡ length block → result ≡ each_passes (lies_in block) arguments }
{
    arguments.iter().all(|a| lies_in(a.operand, lent)) // used or not
}

// Whether no text is longer than a text may be.
pub fn all_short(arguments: [Argument; 9]) -> bool
    ensures { result ≡ each_passes is_short arguments }
{
    arguments.iter().all(|a| is_short(a.operand))
}

fn number(v: i32) -> Argument
    ensures { result ≡ record { operand = Number v } }
{
    Argument {
        operand: Operand::Number(v),
    }
}

// Nine numbers as arguments.
pub fn numbers(values: [i32; 9]) -> [Argument; 9]
    ensures { result ≡ numbers_given values }
{
    [
        number(values[0]),
        number(values[1]),
        number(values[2]),
        number(values[3]),
        number(values[4]),
        number(values[5]),
        number(values[6]),
        number(values[7]),
        number(values[8]),
    ]
}

// What `%i` makes of an argument.
pub fn raised(a: Argument) -> Argument
    ensures { result ≡ raised_of a }
{
    let operand = a.operand;
    match operand {
        Operand::Number(v) => number(signed::wrapping_add(v, 1)),
        Operand::Text { start, length } => Argument {
            operand: Operand::Text { start, length },
        },
    }
}
