// The states that a merge hands to the writer, by place: the first file's unless absent, then the second's (document
// 01: Compiled entry). Proved: each function fills its arrays as specs/ says. Assumed: nothing.
#![tactic(auto)]

ghost use Rattle.std.specs.Prelude.{◌≡◌, ◌<◌, ◌≤◌, length};
ghost use Rattle.base.specs.Answer.{gives};
ghost use Rattle.entry.specs.Merging.{merged_boolean, merged_number};
ghost use Rattle.entry.specs.Says.{says_state};
ghost use Rattle.merge_states.specs.Filled.{AreOpened, BooleansFilled, NumbersFilled, StringFilled, StringsMeasured};
ghost use Rattle.merge_states.specs.Filled.{StringsGiven};

use edition::{Edition, Place};
use entry::{ABSENT, FILE_MOST, Part, State, Tables};

// What stands for the part of a string that is not present.
const NO_PART: Part = Part {
    start: 0,
    length: 0,
};

// A string as the writer takes it: its kind, a number, and a part of the first file and the second behind it.
#[derive(Clone, Copy)]
struct HandedString {
    kind: u8,
    part: Part,
}

// Two files with their tables, opened in the edition; the first is merged over the second.
#[derive(Clone, Copy)]
pub struct Both<'a> {
    pub first: &'a [u8],
    pub t: Tables,
    pub second: &'a [u8],
    pub u: Tables,
    pub edition: Edition,
}

impl Both<'_> {
    // The boolean at a place. (One for each list, as the calls of `opened_file`; the second file is asked only where
    // the first has nothing.)
    fn boolean(&self, place: Place) -> Option<State<()>>
        requires { AreOpened self.now × (place.0 < self.now.edition.booleans) }
        ensures { says_state result ≡ gives (merged_boolean self.now.first.now self.now.second.now place) }
    {
        let boolean = opened_file::boolean_opened(self.first, self.edition, self.t, place);
        if opened_file::kind_of(boolean) != ABSENT {
            return boolean;
        }
        opened_file::boolean_opened(self.second, self.edition, self.u, place)
    }

    // The number at a place.
    fn number(&self, place: Place) -> Option<State<u32>>
        requires { AreOpened self.now × (place.0 < self.now.edition.numbers) }
        ensures { says_state result ≡ gives (merged_number self.now.first.now self.now.second.now place) }
    {
        let number = opened_file::number_opened(self.first, self.edition, self.t, place);
        if opened_file::kind_of(number) != ABSENT {
            return number;
        }
        opened_file::number_opened(self.second, self.edition, self.u, place)
    }

    // The string at a place. The second file's bytes count behind the first's.
    fn string(&self, place: Place) -> HandedString
        requires { AreOpened self.now × (place.0 < self.now.edition.strings) }
        ensures { StringFilled self.now.first.now self.now.second.now place result.kind result.part.start
            result.part.length }
    {
        let string = opened_file::string_opened(self.first, self.edition, self.t, place);
        let kind = opened_file::kind_of(string);
        let part = opened_file::present_or(string, NO_PART);
        if kind != ABSENT {
            return HandedString { kind, part };
        }
        let string = opened_file::string_opened(self.second, self.edition, self.u, place);
        let kind = opened_file::kind_of(string);
        let part = opened_file::present_or(string, NO_PART);
        let start = self.first.len() + part.start;
        HandedString {
            kind,
            part: Part {
                start,
                length: part.length,
            },
        }
    }

    // The booleans of the places that the edition knows.
    pub fn fill_booleans(&self, kinds: &mut [u8])
        requires { AreOpened self.now × (self.now.edition.booleans ≤ length kinds.old) }
        ensures { BooleansFilled self.now.edition.booleans self.now.first.now self.now.second.now kinds.new }
    {
        for i in 0..self.edition.booleans {
            kinds[i] = opened_file::kind_of(self.boolean(Place(i)));
        }
    }

    // The numbers.
    pub fn fill_numbers(&self, kinds: &mut [u8], values: &mut [u32])
        requires { AreOpened self.now × ((self.now.edition.numbers ≤ length kinds.old)
            × (self.now.edition.numbers ≤ length values.old)) }
        ensures { NumbersFilled self.now.edition.numbers self.now.first.now self.now.second.now kinds.new
            values.new }
    {
        for i in 0..self.edition.numbers {
            let s = self.number(Place(i));
            kinds[i] = opened_file::kind_of(s);
            values[i] = opened_file::present_or(s, 0);
        }
    }

    // The strings, and the size of their string table. None where it alone is longer than a file may be; then not all
    // strings are filled.
    pub fn fill_strings(
        &self,
        kinds: &mut [u8],
        starts: &mut [usize],
        lengths: &mut [usize],
    ) -> Option<usize>
        requires { AreOpened self.now × StringsGiven self.now.edition kinds.old starts.old lengths.old }
        ensures { StringsMeasured self.now.edition self.now.first.now self.now.second.now kinds.new
            starts.new lengths.new result }
    {
        let mut table = 0;
        for i in 0..self.edition.strings {
            let s = self.string(Place(i));
            kinds[i] = s.kind;
            starts[i] = s.part.start;
            lengths[i] = s.part.length;
            table += put::bytes_in_table(s.kind, s.part.length);
            if FILE_MOST < table {
                return None;
            }
        }
        Some(table)
    }
}
