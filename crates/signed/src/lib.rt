// 32-bit signed arithmetic as expansion has it (document 01: Expansion). Proved: each function is its definition of
// specs/Signed.antt for all values. Assumed: nothing.
#![tactic(auto)]

ghost use Rattle.std.specs.Prelude.{◌≡◌};
ghost use Rattle.std.specs.Int.{w32};
ghost use Rattle.std.proofs.Common.{to_z};
ghost use Rattle.signed.specs.Signed.{add, subtract, multiply, divide, remainder};

// The value that has these bits.
pub fn value_of(n: u32) -> i32
    ensures { result ≡ to_z w32 n }
{
    n.cast_signed()
}

pub fn wrapping_add(a: i32, b: i32) -> i32
    ensures { result ≡ add a b }
{
    a.wrapping_add(b)
}

pub fn wrapping_subtract(a: i32, b: i32) -> i32
    ensures { result ≡ subtract a b }
{
    a.wrapping_sub(b)
}

#[tactic(auto, using(crate::proofs::Laws::product_bits, crate::proofs::Laws::product_is))]
pub fn wrapping_multiply(a: i32, b: i32) -> i32
    ensures { result ≡ multiply a b }
{
    a.wrapping_mul(b)
}

#[tactic(auto, using(crate::proofs::Laws::quotient_is))]
pub fn quotient(a: i32, b: i32) -> i32
    ensures { result ≡ divide a b }
{
    if b == 0 {
        return 0; // a zero divisor
    }
    a.wrapping_div(b)
}

#[tactic(auto, using(crate::proofs::Laws::remainder_is, crate::proofs::Laws::none_left))]
pub fn remainder_of(a: i32, b: i32) -> i32
    ensures { result ≡ remainder a b }
{
    if b == 0 {
        return 0;
    }
    a.wrapping_rem(b)
}
