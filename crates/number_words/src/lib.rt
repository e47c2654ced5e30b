// Numbers as words of a command line. Proved: `parse`, `numeral` and `is_numeral` give what specs/Number.antt says of
// every word. Assumed: nothing.
#![tactic(auto)]

ghost use Rattle.std.specs.Prelude.{◌≡◌, ◌≤◌, true, false, IfSome};
ghost use Rattle.number_words.specs.Number.{is_numeral, large_magnitude, signed_of, value_of, with_digit, numeral_in};
ghost use Rattle.number_words.specs.Number.{magnitude_of};

// The largest magnitude of a number.
const MAGNITUDE_MOST: u64 = 2147483648;

// A larger magnitude is taken as this one.
pub const LARGE_MAGNITUDE: u64 = 2147483649;

// A magnitude with a digit more; none where the byte is no digit, or the number no magnitude.
fn with_digit(n: u64, c: u8) -> Option<u64>
    ensures value { result ≡ with_digit n c }
    ensures few { IfSome result (λ m. m ≤ large_magnitude) }
{
    if c < b'0' || b'9' < c {
        return None;
    }
    if LARGE_MAGNITUDE < n {
        return None;
    }
    let m = n * 10 + u64::from(c - b'0');
    if MAGNITUDE_MOST < m {
        return Some(LARGE_MAGNITUDE);
    }
    Some(m)
}

// The magnitude that digits are, 0 where there are none.
pub fn magnitude(digits: &[u8]) -> Option<u64>
    ensures { result ≡ magnitude_of digits.now }
{
    let mut n = 0;
    for c in digits {
        n = with_digit(n, *c)?;
    }
    Some(n)
}

// The magnitude of one or more digits.
#[tactic(auto, using(crate::proofs::Laws::numeral_empty, crate::proofs::Laws::numeral_some))]
pub fn numeral(word: &[u8]) -> Option<u64>
    ensures { result ≡ numeral_in word.now }
{
    if word.is_empty() {
        return None;
    }
    magnitude(word)
}

// Whether a word is one or more digits.
#[tactic(auto, using(crate::proofs::Laws::numeral_test))]
pub fn is_numeral(word: &[u8]) -> bool
    ensures { result ≡ is_numeral word.now }
{
    numeral(word).is_some()
}

fn positive(n: u64) -> Option<i32>
    ensures { result ≡ signed_of false n }
{
    if MAGNITUDE_MOST <= n {
        return None;
    }
    Some(signed::value_of(n as u32))
}

fn negative(n: u64) -> Option<i32>
    ensures { result ≡ signed_of true n }
{
    if MAGNITUDE_MOST < n {
        return None;
    }
    if n == 0 {
        return Some(0);
    }
    Some(signed::value_of((4294967296 - n) as u32))
}

// The value of a word: decimal digits, after a minus where it is negative.
pub fn parse(word: &[u8]) -> Option<i32>
    ensures { result ≡ value_of word.now }
{
    match word.strip_prefix(b"-") {
        Some(digits) => negative(numeral(digits)?),
        None => positive(numeral(word)?),
    }
}
