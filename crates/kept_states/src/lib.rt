// The states that fields give, kept by place: the first field for a capability stands (document 01: Source text).
// Proved: each function keeps what compile_laws/specs says. Assumed: nothing.
#![tactic(auto)]

ghost use Rattle.std.specs.Prelude.{◌≡◌, List, ℕ, [], ◌<◌, eqb, length, get_or};
ghost use Rattle.entry.specs.Handed.{handed_by};
ghost use Rattle.judge.specs.Judged.{SaidIn};
ghost use Rattle.compile_laws.specs.Held.{Holds, Keeps, kept};
ghost use Rattle.kept_states.specs.States.{held, none_held, held_in, SameArrays};

use edition::{BOOLEANS_MOST, Edition, NUMBERS_MOST, Place, STRINGS_MOST};
use entry::{ABSENT, Numbers, States as Lent, Strings};
use text::Said;

// The states of one entry, by place: kinds and contents, as the writer takes them. A present string is the part of the
// text that starts at its start; its length is how many bytes it stands for.
#[derive(Drop)]
pub struct States {
    pub boolean_kinds: [u8; BOOLEANS_MOST],
    pub number_kinds: [u8; NUMBERS_MOST],
    pub number_values: [u32; NUMBERS_MOST],
    pub string_kinds: [u8; STRINGS_MOST],
    pub string_starts: [usize; STRINGS_MOST],
    pub string_lengths: [usize; STRINGS_MOST],
}

// The same in arrays of the caller's, as long as `Holds` asks.
#[derive(Drop)]
pub struct StateArrays<'a> {
    pub boolean_kinds: &'a mut [u8],
    pub number_kinds: &'a mut [u8],
    pub number_values: &'a mut [u32],
    pub string_kinds: &'a mut [u8],
    pub string_starts: &'a mut [usize],
    pub string_lengths: &'a mut [usize],
}

// The capability at a place has no state yet.
fn is_new(kinds: &[u8], place: Place) -> bool
    requires { place.0 < length kinds.now }
    ensures { result ≡ eqb (get_or kinds.now place.0 0) 0 }
{
    let p = place.0;
    kinds[p] == ABSENT
}

fn keep_boolean(kinds: &mut [u8], place: Place, kind: u8)
    requires { place.0 < length kinds.old }
    ensures { kinds.new ≡ kept kinds.old kinds.old place.0 kind }
{
    let p = place.0;
    if is_new(kinds, place) {
        kinds[p] = kind;
    }
}

fn keep_number(kinds: &mut [u8], values: &mut [u32], place: Place, kind: u8, value: u32)
    requires { (place.0 < length kinds.old) × (place.0 < length values.old) }
    ensures { (kinds.new ≡ kept kinds.old kinds.old place.0 kind)
        × (values.new ≡ kept kinds.old values.old place.0 value) }
{
    let p = place.0;
    if is_new(kinds, place) {
        kinds[p] = kind;
        values[p] = value;
    }
}

fn keep_string(
    kinds: &mut [u8],
    starts: &mut [usize],
    lengths: &mut [usize],
    place: Place,
    kind: u8,
    start: usize,
    size: usize,
)
    requires { (place.0 < length kinds.old) × ((place.0 < length starts.old)
        × (place.0 < length lengths.old)) }
    ensures { (kinds.new ≡ kept kinds.old kinds.old place.0 kind)
        × ((starts.new ≡ kept kinds.old starts.old place.0 start)
        × (lengths.new ≡ kept kinds.old lengths.old place.0 size)) }
{
    let p = place.0;
    if is_new(kinds, place) {
        kinds[p] = kind;
        starts[p] = start;
        lengths[p] = size;
    }
}

impl StateArrays<'_> {
    // Keeps what a field says.
    pub fn keep(&mut self, text: &[u8], edition: Edition, said: Said)
        requires { SaidIn edition text.now said × Holds edition (held_in self.old text.now []) }
        ensures lent { SameArrays self.old self.new }
        ensures kept { Keeps edition (held_in self.old text.now) (held_in self.new text.now) said }
    {
        match said {
            Said::Nothing => {}
            Said::Boolean(place, kind) => keep_boolean(self.boolean_kinds, place, kind),
            Said::Number(place, kind, value) => {
                keep_number(self.number_kinds, self.number_values, place, kind, value)
            }
            Said::String(place, kind, start, size) => keep_string(
                self.string_kinds,
                self.string_starts,
                self.string_lengths,
                place,
                kind,
                start,
                size,
            ),
            Said::Use(_, _) => {}
        }
    }

    // The states as the writer takes them.
    pub fn lent(&self) -> Lent<'_>
        ensures { (text names : List ℕ) → handed_by names result text ≡ held_in self.now text names }
    {
        Lent {
            boolean_kinds: &*self.boolean_kinds,
            numbers: Numbers {
                kinds: &*self.number_kinds,
                values: &*self.number_values,
            },
            strings: Strings {
                kinds: &*self.string_kinds,
                starts: &*self.string_starts,
                lengths: &*self.string_lengths,
            },
        }
    }
}

impl States {
    // All states are absent. (All arrays are of zeros, so that one call clears them where they stand: an array of
    // another word is cleared, filled, and then copied to its place.)
    pub fn new() -> States
        ensures { result ≡ none_held }
    {
        States {
            boolean_kinds: [ABSENT; BOOLEANS_MOST],
            number_kinds: [ABSENT; NUMBERS_MOST],
            number_values: [0; NUMBERS_MOST],
            string_kinds: [ABSENT; STRINGS_MOST],
            string_starts: [0; STRINGS_MOST],
            string_lengths: [0; STRINGS_MOST],
        }
    }

    // Keeps what a field says.
    pub fn keep(&mut self, text: &[u8], edition: Edition, said: Said)
        requires { SaidIn edition text.now said × Holds edition (held self.old text.now []) }
        ensures { Keeps edition (held self.old text.now) (held self.new text.now) said }
    {
        let mut arrays = StateArrays {
            boolean_kinds: &mut self.boolean_kinds,
            number_kinds: &mut self.number_kinds,
            number_values: &mut self.number_values,
            string_kinds: &mut self.string_kinds,
            string_starts: &mut self.string_starts,
            string_lengths: &mut self.string_lengths,
        };
        arrays.keep(text, edition, said);
    }

    // The states as the writer takes them.
    pub fn lent(&self) -> Lent<'_>
        ensures { (text names : List ℕ) → handed_by names result text ≡ held self.now text names }
    {
        Lent {
            boolean_kinds: &self.boolean_kinds,
            numbers: Numbers {
                kinds: &self.number_kinds,
                values: &self.number_values,
            },
            strings: Strings {
                kinds: &self.string_kinds,
                starts: &self.string_starts,
                lengths: &self.string_lengths,
            },
        }
    }
}

#[cfg(test)]
mod tests {
    use super::*;
    use entry::PRESENT;

    const THREE_NUMBERS: Edition = Edition {
        booleans: 0,
        numbers: 3,
        strings: 0,
    };

    // The first of two fields stands, and what no field says is absent.
    #[test]
    fn first_number_stands(rt: HostRuntime) {
        let mut states = States::new();
        states.keep(b"", THREE_NUMBERS, Said::Number(Place(2), PRESENT, 24));
        states.keep(b"", THREE_NUMBERS, Said::Number(Place(2), PRESENT, 25));
        let lent = states.lent();
        assert_eq!(rt; lent.numbers.kinds.get(2).copied(), Some(PRESENT));
        assert_eq!(rt; lent.numbers.values.get(2).copied(), Some(24));
        assert_eq!(rt; lent.numbers.kinds.get(1).copied(), Some(ABSENT));
    }
}
