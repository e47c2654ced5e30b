// Decimal digits (document 01: Expansion; document 02, 2026-03), two at a time from the table of pairs. Proved: their
// count and their bytes are those of `digits` of expansion/specs; at most five rounds. Assumed: nothing.
#![tactic(auto)]

ghost use Rattle.std.specs.Prelude.{◌≡◌, ◌-◌, ◌*◌, ◌/◌, ◌^◌, ◌≤◌, length};
ghost use Rattle.base.specs.Overwrite.{put_at};
ghost use Rattle.decimals.specs.Decimals.{decimal_digits, last_pairs};

// How many digits a number has, by comparisons.
pub fn count(n: u32) -> usize
    ensures { result ≡ length (decimal_digits n) }
{
    if n < 100 {
        return if n < 10 { 1 } else { 2 };
    }
    if n < 10000 {
        return if n < 1000 { 3 } else { 4 };
    }
    if n < 1000000 {
        return if n < 100000 { 5 } else { 6 };
    }
    if n < 100000000 {
        return if n < 10000000 { 7 } else { 8 };
    }
    if n < 1000000000 { 9 } else { 10 }
}

// Puts a number's last digits before a place, two in each round, and gives the number without them.
fn put_pairs(out: &mut [u8], end: usize, n: u32, rounds: usize) -> u32
    requires { (rounds ≤ 5) × ((2 * rounds ≤ end) × (end ≤ length out.old)) }
    ensures { (result ≡ n / 100 ^ rounds)
        × (out.new ≡ put_at out.old (end - 2 * rounds) (last_pairs rounds n)) }
{
    let mut at = end;
    let mut left = n;
    for _ in 0..rounds {
        let pair = digit_pairs::pair_of(left % 100);
        at -= 2;
        // both stores are compiled into one
        out[at + 1] = (pair / 256) as u8;
        out[at] = (pair % 256) as u8;
        left = left / 100;
    }
    left
}

// Puts a number's digits, as many as it has, before a place.
pub fn put(out: &mut [u8], end: usize, n: u32, count: usize)
    requires { (count ≡ length (decimal_digits n)) × ((count ≤ end) × (end ≤ length out.old)) }
    ensures { out.new ≡ put_at out.old (end - count) (decimal_digits n) }
{
    let left = put_pairs(out, end, n, count / 2);
    if count % 2 == 1 {
        out[end - count] = b'0' + left as u8;
    }
}
