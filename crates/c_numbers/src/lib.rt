// Answers as 64-bit numbers, for the calls for C and Rust (include/terminfo_c.h): the refusal's number in the top
// byte, 0 for success, and below it what the refusal or the call gives. Proved: each number is the one that
// specs/Numbers.antt gives for what the answer says. Assumed: nothing.
#![tactic(auto)]

ghost use Rattle.std.specs.Prelude.{◌≡◌, ◌+◌, ◌*◌, ◌^◌, ◌<◌, ℕ, get_or, Err};
ghost use Rattle.entry.specs.Says.{says_asked, says_state, refused_merge, says_merged};
ghost use Rattle.names.specs.Finding.{says_found};
ghost use Rattle.names.specs.Naming.{says_name};
ghost use Rattle.expansion.specs.Limits.{string_most, expansion_most};
ghost use Rattle.expansion.specs.Expanding.{says_expansion, Within};
ghost use Rattle.c_numbers.specs.Numbers.{numbered, merging_number, none, part_code, refused_number};
ghost use Rattle.c_numbers.specs.Numbers.{kinded, state_code};
ghost use Rattle.c_numbers.specs.Numbers.{opening_array, counts_code, capability_number};
ghost use Rattle.c_numbers.specs.Numbers.{PartWithin, NamesWithin, StateWithin, LengthWithin};
ghost use Rattle.c_numbers.specs.Numbers.{MergedWithin, FoundWithin, Any};
ghost use Rattle.refusal_numbers.specs.Refusals.{says_by};

use entry::{MergeRefusal, Opening, Part, State};
use expansion::{ExpansionRefusal, Output};
use names::Found;
use refusal_numbers::Refusal;

// A refusal's number stands in the top byte.
pub const TOP: u64 = 72057594037927936;

// A state's kind, or the file that a merge refuses, stands in the byte below it.
const KIND: u64 = 281474976710656;

// A part's start stands above its length.
const START: u64 = 16777216;

// A refusal's number in the top byte.
pub fn top(number: u8) -> u64
    ensures { result ≡ number * 2 ^ 56 }
{
    (number as u64) * TOP
}

// A refused state or name: the refusal's number, and a kind that no state and no capability has.
pub fn refused_number(number: u8) -> u64
    ensures { result ≡ refused_number number }
{
    top(number) + 3 * KIND
}

// What opening gives, as an array.
pub fn opening_array(o: Opening) -> [u64; 10]
    ensures { result ≡ opening_array o }
{
    let t = o.tables;
    let b = o.beyond;
    [
        t.booleans as u64,
        t.numbers as u64,
        t.strings as u64,
        t.booleans_at as u64,
        t.numbers_at as u64,
        t.strings_at as u64,
        t.table_at as u64,
        b.booleans as u64,
        b.numbers as u64,
        b.strings as u64,
    ]
}

// The content of a present state as a number, which stands below the state's kind.
pub trait Content {
    ghost code: { Self → ℕ };

    ghost within: { Self → Type 0 };

    fn number(self) -> u64
        requires { within self }
        ensures { (result ≡ code self) × (result < 2 ^ 48) };
}

impl Content for () {
    ghost code = { none };

    ghost within = { Any };

    fn number(self) -> u64 {
        0
    }
}

impl Content for u32 {
    ghost code = { λ n. n };

    ghost within = { Any };

    fn number(self) -> u64 {
        self as u64
    }
}

impl Content for Part {
    ghost code = { part_code };

    ghost within = { PartWithin };

    fn number(self) -> u64 {
        (self.start as u64) * START + self.length as u64
    }
}

#[tactic(auto, unfolding(crate::specs::Numbers::numbered))]
pub fn names_number(names: Option<Part>) -> u64
    requires { NamesWithin names }
    ensures { result ≡ numbered part_code (says_asked names) }
{
    match names {
        Some(part) => part.number(),
        None => top(refusal_numbers::of_asked(names)),
    }
}

// A state: its kind, and a present one's content.
#[tactic(auto, unfolding(crate::specs::Numbers::kinded, crate::specs::Numbers::state_code))]
pub fn state_number<T: Content + Copy>(state: Option<State<T>>) -> u64
    requires { StateWithin T.within state }
    ensures { result ≡ kinded (state_code T.code) (says_state state) }
{
    match state {
        Some(State::Absent) => 0,
        Some(State::Present(content)) => KIND + content.number(),
        Some(State::Cancelled) => 2 * KIND,
        None => refused_number(refusal_numbers::of_asked(state)),
    }
}

// A refusal: its number, and the first value that it gives.
pub fn refusal<R: Refusal + Copy>(why: R) -> u64
    requires { get_or (R.refusal_values why) 0 0 < 2 ^ 48 }
    ensures { result ≡ R.refusal_number why * 2 ^ 56 + get_or (R.refusal_values why) 0 0 }
{
    top(why.number()) + why.value() as u64
}

// A file's or an output's length, or why there is none.
#[tactic(auto, unfolding(crate::specs::Numbers::numbered))]
pub fn length_number<R: Refusal + Copy>(answer: Result<usize, R>) -> u64
    requires { LengthWithin R.refusal_values answer }
    ensures { result ≡ numbered (λ n. n) (says_by R.refusal_number R.refusal_values answer) }
{
    match answer {
        Ok(length) => length as u64,
        Err(why) => refusal(why),
    }
}

// Why nothing is merged; of a refused file, which one it is stands below the number and the position below that.
fn merge_refusal(why: MergeRefusal) -> u64
    requires { MergedWithin (Err why) }
    ensures { result ≡ merging_number (λ n. n) (refused_merge why) }
{
    match why {
        MergeRefusal::First(first) => refusal(first) + KIND,
        MergeRefusal::Second(second) => refusal(second) + 2 * KIND,
        MergeRefusal::Edition => refusal(why),
        MergeRefusal::Size => refusal(why),
        MergeRefusal::Room(_) => refusal(why),
    }
}

#[tactic(auto, unfolding(crate::specs::Numbers::merging_number))]
pub fn merged_number(answer: Result<usize, MergeRefusal>) -> u64
    requires { MergedWithin answer }
    ensures { result ≡ merging_number (λ n. n) (says_merged answer) }
{
    match answer {
        Ok(length) => length as u64,
        Err(why) => merge_refusal(why),
    }
}

#[tactic(auto, unfolding(crate::specs::Numbers::numbered))]
pub fn name_number(name: Option<u64>) -> u64
    ensures { result ≡ numbered (λ w. w) (says_name name) }
{
    match name {
        Some(packed) => packed,
        None => top(refusal_numbers::of_asked(name)),
    }
}

// An expansion of a string of at most 1,000 bytes: its steps and its output's length are within their bits.
#[tactic(auto, unfolding(crate::specs::Numbers::numbered))]
pub fn expansion_number(answer: Result<Output, ExpansionRefusal>) -> u64
    requires { Within string_most expansion_most answer }
    ensures { result ≡ numbered counts_code (says_expansion answer) }
{
    match answer {
        Ok(output) => (output.steps as u64) * START + output.length as u64,
        Err(refused) => refusal(refused),
    }
}

// A capability that a name means: its kind and its place.
#[tactic(auto, unfolding(crate::specs::Numbers::kinded))]
pub fn found_number(found: Option<Found>) -> u64
    requires { FoundWithin found }
    ensures { result ≡ capability_number (says_found found) }
{
    match found {
        Some(Found::Boolean(p)) => p.0 as u64,
        Some(Found::Number(p)) => KIND + p.0 as u64,
        Some(Found::String(p)) => 2 * KIND + p.0 as u64,
        None => refused_number(refusal_numbers::of_found(found)),
    }
}
