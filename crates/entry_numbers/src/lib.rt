// What opening gave for a file, as numbers, and the questions about them (document 01: Compiled entry): numbers that
// opening wouldn't give for the file are answered 17. Proved: each function answers every file and all numbers as
// specs/ says. Assumed: nothing.
#![tactic(auto)]

ghost use Rattle.std.specs.Prelude.{◌≡◌, ◌+◌, ◌≤◌, length, Err};
ghost use Rattle.base.specs.Answer.{number_of};
ghost use Rattle.entry.specs.Asking.{part_given, names_given};
ghost use Rattle.entry.specs.Says.{says_asked, says_file, says_state};
ghost use Rattle.states.specs.Held.{IsPart};
ghost use Rattle.refusal_numbers.specs.Refusals.{values_of};
ghost use Rattle.entry_numbers.specs.Entries.{entry_refusal, entry_names, entry_boolean, entry_number, entry_string};
ghost use Rattle.entry_numbers.specs.Entries.{entry_beyond, numbers_of, opened, same_edition};
ghost use Rattle.entry_numbers.specs.Entries.{same_tables, same_beyond, same, says_refusal, refusal_of, refusal_else};
ghost use Rattle.entry_numbers.specs.Entries.{OpenedAs};

use edition::{Edition, Place};
use entry::{Beyond, FileRefusal, Opening, Part, State, Tables};
use refusal_numbers::Refusal;

// What opening gave: the edition, the tables, the slots beyond the edition. On a refusal all are 0 but the refusal's
// number and, for 4 to 7, its position, which are 0 otherwise.
#[derive(Clone, Copy)]
pub struct EntryNumbers {
    edition: Edition,
    tables: Tables,
    beyond: Beyond,
    refusal: usize,
    position: usize,
}

// Why an entry isn't accepted.
#[derive(Clone, Copy)]
pub enum EntryRefusal {
    // 1 to 7, 4 to 7 with the position
    File(FileRefusal),
    // 17: opening would not give the entry
    NotOpened,
}

impl Refusal for EntryRefusal {
    ghost refusal_number = { λ why. number_of (says_refusal (Err why)) };

    ghost refusal_values = { λ why. values_of (says_refusal (Err why)) };

    fn number(self) -> u8 {
        match self {
            EntryRefusal::File(why) => why.number(),
            EntryRefusal::NotOpened => 17,
        }
    }

    // The position of a file's first bad byte or slot.
    fn value(self) -> usize {
        match self {
            EntryRefusal::File(why) => why.value(),
            EntryRefusal::NotOpened => 0,
        }
    }
}

const NO_EDITION: Edition = Edition {
    booleans: 0,
    numbers: 0,
    strings: 0,
};

const NO_TABLES: Tables = Tables {
    booleans: 0,
    numbers: 0,
    strings: 0,
    booleans_at: 0,
    numbers_at: 0,
    strings_at: 0,
    table_at: 0,
};

const NO_BEYOND: Beyond = Beyond {
    booleans: 0,
    numbers: 0,
    strings: 0,
};

const EDITION_REFUSED: EntryNumbers = EntryNumbers {
    edition: NO_EDITION,
    tables: NO_TABLES,
    beyond: NO_BEYOND,
    refusal: 3,
    position: 0,
};

// What opening in an edition answered, as numbers.
fn numbers_of(edition: Edition, answer: Result<Opening, FileRefusal>) -> EntryNumbers
    ensures { result ≡ numbers_of edition (says_file answer) }
{
    match answer {
        Ok(opening) => EntryNumbers {
            edition,
            tables: opening.tables,
            beyond: opening.beyond,
            refusal: 0,
            position: 0,
        },
        Err(why) => EntryNumbers {
            edition: NO_EDITION,
            tables: NO_TABLES,
            beyond: NO_BEYOND,
            refusal: why.number() as usize,
            position: why.value(),
        },
    }
}

pub fn numbers_in(file: &[u8], edition: Edition) -> EntryNumbers
    ensures { result ≡ opened edition file.now }
{
    numbers_of(edition, read::open(file, edition))
}

// By hand and without a branch, which a derived `==` has at each field: asking has a bar of speed, and the edits
// table_start_not_compared and position_not_compared turn a field's comparison.
fn same_edition(a: Edition, b: Edition) -> bool
    ensures { result ≡ same_edition a b }
{
    (a.booleans == b.booleans) & ((a.numbers == b.numbers) & (a.strings == b.strings))
}

fn same_tables(a: Tables, b: Tables) -> bool
    ensures { result ≡ same_tables a b }
{
    (a.booleans == b.booleans)
        & ((a.numbers == b.numbers)
            & ((a.strings == b.strings)
                & ((a.booleans_at == b.booleans_at)
                    & ((a.numbers_at == b.numbers_at)
                        & ((a.strings_at == b.strings_at) & (a.table_at == b.table_at))))))
}

fn same_beyond(a: Beyond, b: Beyond) -> bool
    ensures { result ≡ same_beyond a b }
{
    (a.booleans == b.booleans) & ((a.numbers == b.numbers) & (a.strings == b.strings))
}

fn same_numbers(a: EntryNumbers, b: EntryNumbers) -> bool
    ensures { result ≡ same a b }
{
    same_edition(a.edition, b.edition)
        & (same_tables(a.tables, b.tables)
            & (same_beyond(a.beyond, b.beyond)
                & ((a.refusal == b.refusal) & (a.position == b.position))))
}

// What opening the file answers, where the entry has the numbers that it gives.
fn opened_as(file: &[u8], n: EntryNumbers) -> Option<Result<Opening, FileRefusal>>
    ensures { OpenedAs file.now n result }
{
    let e = n.edition;
    let answer = read::open(file, e);
    if same_numbers(n, numbers_of(e, answer)) {
        return Some(answer);
    }
    None
}

// What an entry is refused for that has none of the numbers which opening gives in its edition.
fn refusal_else(n: EntryNumbers) -> EntryRefusal
    ensures { says_refusal (Err result) ≡ refusal_else n }
{
    if same_numbers(n, EDITION_REFUSED) {
        return EntryRefusal::File(FileRefusal::Counts);
    }
    EntryRefusal::NotOpened
}

// What opening said, but for what it gives.
fn refusal_of(answer: Result<Opening, FileRefusal>) -> Result<(), EntryRefusal>
    ensures { says_refusal result ≡ refusal_of (says_file answer) }
{
    match answer {
        Ok(_) => Ok(()),
        Err(why) => Err(EntryRefusal::File(why)),
    }
}

// What opening said of the file of an entry.
pub fn refusal_in(file: &[u8], n: EntryNumbers) -> Result<(), EntryRefusal>
    ensures { says_refusal result ≡ entry_refusal file.now n }
{
    match opened_as(file, n) {
        Some(answer) => refusal_of(answer),
        None => Err(refusal_else(n)),
    }
}

pub fn names_in(file: &[u8], n: EntryNumbers) -> Option<Part>
    ensures { says_asked result ≡ entry_names file.now n }
{
    let opening = opened_as(file, n)?.ok()?;
    Some(opened_file::names_opened(file, n.edition, opening.tables))
}

#[tactic(auto, unfolding(crate::specs::Entries::asked))]
pub fn boolean_in(file: &[u8], n: EntryNumbers, place: Place) -> Option<State<()>>
    ensures { says_state result ≡ entry_boolean file.now n place }
{
    opened_file::boolean_if_opened(file, n.edition, opened_as(file, n)?, place)
}

#[tactic(auto, unfolding(crate::specs::Entries::asked))]
pub fn number_in(file: &[u8], n: EntryNumbers, place: Place) -> Option<State<u32>>
    ensures { says_state result ≡ entry_number file.now n place }
{
    opened_file::number_if_opened(file, n.edition, opened_as(file, n)?, place)
}

#[tactic(auto, unfolding(crate::specs::Entries::asked))]
pub fn string_in(file: &[u8], n: EntryNumbers, place: Place) -> Option<State<Part>>
    ensures { says_state result ≡ entry_string file.now n place }
{
    opened_file::string_if_opened(file, n.edition, opened_as(file, n)?, place)
}

// How many slots lie beyond the edition; none (17) where opening would not give the entry.
pub fn beyond_in(file: &[u8], n: EntryNumbers) -> Option<Beyond>
    ensures { says_asked result ≡ entry_beyond file.now n }
{
    let opening = opened_as(file, n)?.ok()?;
    Some(opening.beyond)
}

// The empty part at a file's start.
const NO_PART: Part = Part {
    start: 0,
    length: 0,
};

// The bytes of names that lie in the file; the empty part at the file's start where they are refused. Names are never
// empty.
pub fn names_bytes(file: &[u8], names: Option<Part>) -> &[u8]
    requires { (names_given (says_asked names)).start + (names_given (says_asked names)).length ≤ length file.now }
    ensures { IsPart file.entry result (names_given (says_asked names)) }
{
    match names {
        Some(p) => states::part(file, p),
        None => states::part(file, NO_PART),
    }
}

// The bytes of a content that lies in the file; the empty part at the file's start where the state has none.
pub fn string_bytes(file: &[u8], state: Option<State<Part>>) -> &[u8]
    requires { (part_given (says_state state)).start + (part_given (says_state state)).length ≤ length file.now }
    ensures { IsPart file.entry result (part_given (says_state state)) }
{
    match state {
        Some(State::Present(p)) => states::part(file, p),
        _ => states::part(file, NO_PART),
    }
}
