// Editions as words of a command line: `1`, `2`, or three counts as `21,8,138`. Proved: `parse` gives what
// specs/Words.antt says of every word. Assumed: nothing.
#![tactic(auto)]

ghost use Rattle.std.specs.Prelude.{◌≡◌, MatchOption};
ghost use Rattle.edition_words.specs.Words.{edition_of, numbered, counted_by, count_in, Uncut, Cut};

use edition::Edition;

// The count that a part of a word is. A large one is `number_words::LARGE_MAGNITUDE`, which is too large in each list.
fn count(part: &[u8]) -> Option<usize>
    ensures { result ≡ count_in part.now }
{
    Some(number_words::numeral(part)? as usize)
}

// A word's part before its first comma, and what stands behind it.
#[tactic(auto, using(crate::proofs::Laws::before_found, crate::proofs::Laws::before_none))]
fn cut(word: &[u8]) -> Option<(&[u8], &[u8])>
    ensures { MatchOption result (Uncut word.now) (λ p. Cut word.now p.0.now p.1.now) }
{
    let n = word.iter().position(|c| *c == b',')?;
    Some((&word[..n], &word[n + 1..]))
}

// The edition of three parts.
#[tactic(auto, using(crate::proofs::Laws::three_counts))]
fn counted_by(booleans: &[u8], numbers: &[u8], strings: &[u8]) -> Option<Edition>
    ensures { result ≡ counted_by booleans.now numbers.now strings.now }
{
    Some(Edition {
        booleans: count(booleans)?,
        numbers: count(numbers)?,
        strings: count(strings)?,
    })
}

// The edition of one byte.
#[tactic(auto, unfolding(crate::specs::Words::numbered))]
fn numbered(c: u8) -> Option<Edition>
    ensures { result ≡ numbered c }
{
    match c {
        b'1' => Some(names::FIRST_EDITION),
        b'2' => Some(names::SECOND_EDITION),
        _ => None,
    }
}

// The edition that a word names; none for a word that is neither `1` nor `2` nor three counts.
#[tactic(auto, using(crate::proofs::Laws::words))]
pub fn parse(word: &[u8]) -> Option<Edition>
    ensures { result ≡ edition_of word.now }
{
    if word.len() == 1 {
        return numbered(word[0]);
    }
    let (booleans, rest) = cut(word)?;
    let (numbers, strings) = cut(rest)?;
    counted_by(booleans, numbers, strings)
}
