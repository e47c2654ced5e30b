// What items compute of the values on the stack (document 01: Expansion). Proved: each function is its definition of
// expansion/specs/Machine.antt for all values. Assumed: nothing.
#![tactic(auto)]

ghost use Rattle.std.specs.Prelude.{◌≡◌};
ghost use Rattle.signed.specs.Signed.{is_zero};
ghost use Rattle.expansion.specs.Machine.{applied, inverted, truth};

use expansion::Operator;

// What an operator gives; a is the left operand.
pub fn applied(o: Operator, a: i32, b: i32) -> i32
    ensures { result ≡ applied o a b }
{
    match o {
        Operator::Add => signed::wrapping_add(a, b),
        Operator::Subtract => signed::wrapping_subtract(a, b),
        Operator::Multiply => signed::wrapping_multiply(a, b),
        Operator::Divide => signed::quotient(a, b),
        Operator::Remainder => signed::remainder_of(a, b),
        Operator::BitAnd => a & b,
        Operator::BitOr => a | b,
        Operator::BitXor => a ^ b,
        Operator::Equal => i32::from(a == b),
        Operator::Greater => i32::from(a > b),
        Operator::Less => i32::from(a < b),
        Operator::And => i32::from(a != 0 && b != 0),
        Operator::Or => i32::from(a != 0 || b != 0),
    }
}

// `%!`
pub fn negated(v: i32) -> i32
    ensures { result ≡ truth (is_zero v) }
{
    i32::from(v == 0)
}

// `%~`
pub fn inverted(v: i32) -> i32
    ensures { result ≡ inverted v }
{
    !v
}
