// Document 01's number of each refusal (Numbers of refusal), and the value that the refusal gives with it. Proved: each
// is that of the definition which says what the refusal means. Assumed: nothing.
#![tactic(auto)]

ghost use Rattle.std.specs.Prelude.{◌≡◌, [], ◌∷◌, List, ℕ, Err, get_or};
ghost use Rattle.base.specs.Answer.{number_of};
ghost use Rattle.entry.specs.Says.{file_number, file_values, says_asked, write_number, write_values, refused_merge};
ghost use Rattle.list_states.specs.Listing.{says_listed};
ghost use Rattle.names.specs.Finding.{says_found, string_found};
ghost use Rattle.text.specs.Refusals.{text_number};
ghost use Rattle.text.specs.Compiling.{says_compiled};
ghost use Rattle.expansion.specs.Expanding.{refused_expansion};
ghost use Rattle.refusal_numbers.specs.Refusals.{values_of};

use entry::{FileRefusal, MergeRefusal, WriteRefusal};
use expansion::ExpansionRefusal;
use list_states::ListRefusal;
use names::Found;
use text::{CompileRefusal, TextRefusal};

// Why a call is refused.
pub trait Refusal {
    ghost refusal_number: { Self → ℕ };

    ghost refusal_values: { Self → List ℕ };

    // Document 01's number of the refusal.
    fn number(self) -> u8
        ensures { result ≡ refusal_number self };

    // The first value that it gives, a position, a place or a length; 0 where it gives none.
    fn value(self) -> usize
        ensures { result ≡ get_or (refusal_values self) 0 0 };
}

// The number of an answer that is a state, a part of a file or a name, or none.
pub fn of_asked<T: Copy>(answer: Option<T>) -> u8
    ensures { result ≡ number_of (says_asked answer) }
{
    match answer {
        Some(_) => 0,
        None => 17,
    }
}

// A name looked up.
pub fn of_found(answer: Option<Found>) -> u8
    ensures { result ≡ number_of (says_found answer) }
{
    match answer {
        Some(Found::Boolean(_)) => 0,
        Some(Found::Number(_)) => 0,
        Some(Found::String(_)) => 0,
        None => 11,
    }
}

// A name looked up where a string is wanted: 11 for one of another kind too.
pub fn of_found_string(answer: Option<Found>) -> u8
    ensures { result ≡ number_of (string_found (says_found answer)) }
{
    match answer {
        Some(Found::Boolean(_)) => 11,
        Some(Found::Number(_)) => 11,
        Some(Found::String(_)) => 0,
        None => 11,
    }
}

// Of opening or judging a file.
impl Refusal for FileRefusal {
    ghost refusal_number = { file_number };

    ghost refusal_values = { file_values };

    fn number(self) -> u8 {
        match self {
            FileRefusal::Length => 1,
            FileRefusal::Magic => 2,
            FileRefusal::Counts => 3,
            FileRefusal::Names(_) => 4,
            FileRefusal::Boolean(_) => 5,
            FileRefusal::Number(_) => 6,
            FileRefusal::Slot(_) => 7,
        }
    }

    // The position of the first bad byte or slot.
    fn value(self) -> usize {
        match self {
            FileRefusal::Length | FileRefusal::Magic | FileRefusal::Counts => 0,
            FileRefusal::Names(at) => at,
            FileRefusal::Boolean(at) => at,
            FileRefusal::Number(at) => at,
            FileRefusal::Slot(at) => at,
        }
    }
}

// Of listing every state.
impl Refusal for ListRefusal {
    ghost refusal_number = { λ why. number_of (says_listed (Err why)) };

    ghost refusal_values = { λ why. values_of (says_listed (Err why)) };

    fn number(self) -> u8 {
        match self {
            ListRefusal::File(why) => why.number(),
            ListRefusal::Room(_) => 8,
        }
    }

    // A bad byte's or slot's position, or how many places there are where an array is too short.
    fn value(self) -> usize {
        match self {
            ListRefusal::File(why) => why.value(),
            ListRefusal::Room(count) => count,
        }
    }
}

impl Refusal for WriteRefusal {
    ghost refusal_number = { write_number };

    ghost refusal_values = { write_values };

    fn number(self) -> u8 {
        match self {
            WriteRefusal::Counts => 3,
            WriteRefusal::Names => 4,
            WriteRefusal::Lent => 7,
            WriteRefusal::Limit => 13,
            WriteRefusal::Size => 9,
            WriteRefusal::Room(_) => 8,
        }
    }

    // The file's length where there is too little room.
    fn value(self) -> usize {
        match self {
            WriteRefusal::Room(length) => length,
            _ => 0,
        }
    }
}

impl Refusal for MergeRefusal {
    ghost refusal_number = { λ why. number_of (refused_merge why) };

    ghost refusal_values = { λ why. values_of (refused_merge why) };

    fn number(self) -> u8 {
        match self {
            MergeRefusal::Edition => 3,
            MergeRefusal::First(why) => why.number(),
            MergeRefusal::Second(why) => why.number(),
            MergeRefusal::Size => 9,
            MergeRefusal::Room(_) => 8,
        }
    }

    // Which file is refused, or the merged file's length where there is too little room.
    fn value(self) -> usize {
        match self {
            MergeRefusal::First(_) => 1,
            MergeRefusal::Second(_) => 2,
            MergeRefusal::Room(length) => length,
            MergeRefusal::Edition | MergeRefusal::Size => 0,
        }
    }
}

// A text's refusal: of a header, a field, a names' total, the wanted name or a use.
pub fn of_text(why: TextRefusal) -> u8
    ensures { result ≡ text_number why }
{
    match why {
        TextRefusal::Malformed => 10,
        TextRefusal::Unknown => 11,
        TextRefusal::Limit => 13,
        TextRefusal::NotFound => 18,
        TextRefusal::Circular => 19,
        TextRefusal::NinthUse => 20,
    }
}

impl Refusal for CompileRefusal {
    ghost refusal_number = { λ why. number_of (says_compiled (Err why)) };

    ghost refusal_values = { λ why. values_of (says_compiled (Err why)) };

    fn number(self) -> u8 {
        match self {
            CompileRefusal::Edition => 3,
            CompileRefusal::Length => 1,
            CompileRefusal::Refused(refused) => of_text(refused.why),
            CompileRefusal::Size => 9,
            CompileRefusal::Room(_) => 8,
        }
    }

    // The place in the text, or the file's length where there is too little room.
    fn value(self) -> usize {
        match self {
            CompileRefusal::Refused(refused) => refused.at,
            CompileRefusal::Room(length) => length,
            _ => 0,
        }
    }
}

impl Refusal for ExpansionRefusal {
    ghost refusal_number = { λ why. number_of (refused_expansion why) };

    ghost refusal_values = { λ why. values_of (refused_expansion why) };

    fn number(self) -> u8 {
        match self {
            ExpansionRefusal::Place => 17,
            ExpansionRefusal::Length => 1,
            ExpansionRefusal::Malformed(_) => 14,
            ExpansionRefusal::Empty(_) => 15,
            ExpansionRefusal::Full(_) => 16,
            ExpansionRefusal::Kind(_) => 21,
            ExpansionRefusal::Room(_) => 8,
        }
    }

    // The item's place in the string, or the output's length where there is too little room.
    fn value(self) -> usize {
        match self {
            ExpansionRefusal::Malformed(at) => at,
            ExpansionRefusal::Empty(at) => at,
            ExpansionRefusal::Full(at) => at,
            ExpansionRefusal::Kind(at) => at,
            ExpansionRefusal::Room(length) => length,
            ExpansionRefusal::Place | ExpansionRefusal::Length => 0,
        }
    }
}
