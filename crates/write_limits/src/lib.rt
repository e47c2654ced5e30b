// Judges what is handed to the writer (document 01: Compiled entry). Each loop gives the first place that fails, or
// the number of places. Proved: each function is its definition of entry/specs. Assumed: nothing.
#![tactic(auto)]

ghost use Rattle.std.specs.Prelude.{◌≡◌, true, ◌&&◌, ◌||◌, not, [], ◌+◌, ◌≤◌, min, eqb, leb, length};
ghost use Rattle.base.specs.Scan.{scan, every};
ghost use Rattle.word.specs.Nul.{nul_from};
ghost use Rattle.entry.specs.Writing.{state_of, is_kind, enough_states, names_fit, is_lent, number_fits, content_fits};
ghost use Rattle.entry.specs.Writing.{boolean_fits_at, number_fits_at, string_fits_at, states_fit};
ghost use Rattle.put.specs.Table.{string_of};
ghost use Rattle.entry.specs.Handed.{booleans_handed, handed_by, numbers_by, strings_by};

use edition::Edition;
use entry::{
    CANCELLED, CONTENT_MOST, GIVEN_NAMES_LEAST, GIVEN_NAMES_MOST, NUMBER_MOST, Numbers, PRESENT,
    States, Strings,
};

fn least(a: usize, b: usize) -> usize
    ensures { result ≡ min a b }
{
    if a < b {
        return a;
    }
    b
}

// The edition is no larger than allowed, and each list has as many states as it counts.
pub fn enough_states(e: Edition, states: &States<'_>) -> bool
    ensures { result ≡ enough_states e (handed_by [] states.now []) }
{
    if !edition::edition_ok(e) {
        return false;
    }
    if states.boolean_kinds.len() < e.booleans {
        return false;
    }
    let numbers = &states.numbers;
    if least(numbers.kinds.len(), numbers.values.len()) < e.numbers {
        return false;
    }
    let strings = &states.strings;
    let content = least(strings.starts.len(), strings.lengths.len());
    e.strings <= least(strings.kinds.len(), content)
}

fn no_nul(s: &[u8]) -> bool
    ensures { result ≡ eqb (nul_from s.now 0 (length s.now)) (length s.now) }
{
    let n = s.len();
    word::find_nul(s, 0, n) == n
}

pub fn names_fit(names: &[u8]) -> bool
    ensures { result ≡ names_fit names.now }
{
    let n = names.len();
    if n < GIVEN_NAMES_LEAST {
        return false;
    }
    if GIVEN_NAMES_MOST < n {
        return false;
    }
    no_nul(names)
}

// A string of a kind lies in what is lent, of which there are so many bytes, or isn't present.
fn is_lent(kind: u8, start: usize, size: usize, lent: usize) -> bool
    ensures { result ≡ (not (eqb kind 1) || leb (start + size) lent) }
{
    if kind != PRESENT {
        return true;
    }
    if lent < start {
        return false;
    }
    size <= lent - start
}

// The first of n strings that is present and doesn't lie in what is lent.
pub fn find_not_lent(strings: &Strings<'_>, lent: &[u8], n: usize) -> usize
    requires { (n ≤ length strings.now.kinds.now)
        × ((n ≤ length strings.now.starts.now) × (n ≤ length strings.now.lengths.now)) }
    ensures { result ≡ scan (is_lent (strings_by strings.now lent.now)) 0 n }
{
    let most = lent.len();
    for i in 0..n {
        if !is_lent(
            strings.kinds[i],
            strings.starts[i],
            strings.lengths[i],
            most,
        ) {
            return i;
        }
    }
    n
}

// The first of n booleans that is past a limit.
fn find_boolean_past(kinds: &[u8], n: usize) -> usize
    requires { n ≤ length kinds.now }
    ensures { result ≡ scan (boolean_fits_at (booleans_handed kinds.now)) 0 n }
{
    for i in 0..n {
        if CANCELLED < kinds[i] {
            return i;
        }
    }
    n
}

fn number_fits(kind: u8, value: u32) -> bool
    ensures { result ≡ (is_kind kind && number_fits (state_of kind value)) }
{
    if CANCELLED < kind {
        return false;
    }
    if kind != PRESENT {
        return true;
    }
    value <= NUMBER_MOST
}

// The first of n numbers that is past a limit.
fn find_number_past(numbers: &Numbers<'_>, n: usize) -> usize
    requires { (n ≤ length numbers.now.kinds.now) × (n ≤ length numbers.now.values.now) }
    ensures { result ≡ scan (number_fits_at (numbers_by numbers.now)) 0 n }
{
    for i in 0..n {
        if !number_fits(numbers.kinds[i], numbers.values[i]) {
            return i;
        }
    }
    n
}

fn string_fits(kind: u8, start: usize, size: usize, lent: &[u8]) -> bool
    requires { kind ≡ 1 → start + size ≤ length lent.now }
    ensures { result ≡ (is_kind kind && content_fits (string_of kind start size lent.now)) }
{
    if CANCELLED < kind {
        return false;
    }
    if kind != PRESENT {
        return true;
    }
    if CONTENT_MOST < size {
        return false;
    }
    let end = start + size;
    no_nul(&lent[start..end])
}

// The first of n strings that is past a limit.
fn find_string_past(strings: &Strings<'_>, lent: &[u8], n: usize) -> usize
    requires { (n ≤ length strings.now.kinds.now) × ((n ≤ length strings.now.starts.now)
        × ((n ≤ length strings.now.lengths.now)
        × (every (is_lent (strings_by strings.now lent.now)) n ≡ true))) }
    ensures { result ≡ scan (string_fits_at (strings_by strings.now lent.now)) 0 n }
{
    for i in 0..n {
        if !string_fits(
            strings.kinds[i],
            strings.starts[i],
            strings.lengths[i],
            lent,
        ) {
            return i;
        }
    }
    n
}

// Each state is within the limits.
pub fn states_fit(e: Edition, states: &States<'_>, lent: &[u8]) -> bool
    requires { (enough_states e (handed_by [] states.now lent.now) ≡ true)
        × (every (is_lent (handed_by [] states.now lent.now)) e.strings ≡ true) }
    ensures { result ≡ states_fit e (handed_by [] states.now lent.now) }
{
    if find_boolean_past(states.boolean_kinds, e.booleans) != e.booleans {
        return false;
    }
    if find_number_past(&states.numbers, e.numbers) != e.numbers {
        return false;
    }
    find_string_past(&states.strings, lent, e.strings) == e.strings
}
