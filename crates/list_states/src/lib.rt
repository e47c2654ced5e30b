// Every state of an edition in one call: the file is opened once, and the states go into lent arrays by place, as the
// writer takes them (document 01: Compiled entry). Proved: `list` answers every file, edition and array as `listing` of
// specs/ says, and a refusal changes no array. Assumed: nothing.
#![tactic(auto)]

ghost use Rattle.std.specs.Prelude.{◌≡◌, ◌≤◌, length};
ghost use Rattle.base.specs.Overwrite.{put_at};
ghost use Rattle.opened_file.specs.Opened.{OpenedAs};
ghost use Rattle.list_states.specs.declared.ListRefusal.TheVariants.{File};
ghost use Rattle.list_states.specs.Filled.{NumbersLent, StringsLent, CountsFit};
ghost use Rattle.list_states.specs.Listing.{boolean_kinds, number_kinds, number_values};
ghost use Rattle.list_states.specs.Listing.{string_kinds, string_starts, string_lengths, arrays, says_listed};
ghost use Rattle.list_states.specs.Listing.{rooms, room_for, Lists, ValueFits};

use edition::{Edition, Place};
use entry::{FileRefusal, Part, Tables};

// Why nothing is listed: opening's refusal, or an array is too short for so many places.
#[derive(Clone, Copy, PartialEq, Eq)]
pub enum ListRefusal {
    File(FileRefusal),
    Room(usize),
}

impl From<FileRefusal> for ListRefusal {
    ghost from_gives = { λ why r. r ≡ File why };

    fn from(why: FileRefusal) -> ListRefusal {
        ListRefusal::File(why)
    }
}

// What stands for the part of a string that is not present.
const NO_PART: Part = Part {
    start: 0,
    length: 0,
};

fn list_booleans(file: &[u8], edition: Edition, t: Tables, kinds: &mut [u8])
    requires { OpenedAs edition file.now t × (edition.booleans ≤ length kinds.old) }
    ensures { kinds.new ≡ put_at kinds.old 0 (boolean_kinds edition file.now) }
{
    for i in 0..edition.booleans {
        let s = opened_file::boolean_opened(file, edition, t, Place(i));
        kinds[i] = opened_file::kind_of(s);
    }
}

fn list_numbers(file: &[u8], edition: Edition, t: Tables, kinds: &mut [u8], values: &mut [u32])
    requires { NumbersLent edition file.now t kinds.old values.old }
    ensures { (kinds.new ≡ put_at kinds.old 0 (number_kinds edition file.now))
        × (values.new ≡ put_at values.old 0 (number_values edition file.now)) }
{
    for i in 0..edition.numbers {
        let s = opened_file::number_opened(file, edition, t, Place(i));
        kinds[i] = opened_file::kind_of(s);
        values[i] = opened_file::present_or(s, 0);
    }
}

fn list_strings(
    file: &[u8],
    edition: Edition,
    t: Tables,
    kinds: &mut [u8],
    starts: &mut [usize],
    lengths: &mut [usize],
)
    requires { StringsLent edition file.now t kinds.old starts.old lengths.old }
    ensures { (kinds.new ≡ put_at kinds.old 0 (string_kinds edition file.now))
        × ((starts.new ≡ put_at starts.old 0 (string_starts edition file.now))
        × (lengths.new ≡ put_at lengths.old 0 (string_lengths edition file.now))) }
{
    for i in 0..edition.strings {
        let s = opened_file::string_opened(file, edition, t, Place(i));
        let part = opened_file::present_or(s, NO_PART);
        kinds[i] = opened_file::kind_of(s); // 2 for a cancelled one
        starts[i] = part.start;
        lengths[i] = part.length;
    }
}

// Whether arrays of these lengths have room for the edition's states.
fn room_for(
    e: Edition,
    boolean_kinds: usize,
    number_kinds: usize,
    number_values: usize,
    string_kinds: usize,
    string_starts: usize,
    string_lengths: usize,
) -> Result<(), ListRefusal>
    requires { CountsFit e }
    ensures { (says_listed result ≡ room_for e (rooms boolean_kinds number_kinds number_values string_kinds
        string_starts string_lengths)) × ValueFits result }
{
    if boolean_kinds < e.booleans {
        return Err(ListRefusal::Room(e.booleans));
    }
    if number_kinds < e.numbers {
        return Err(ListRefusal::Room(e.numbers));
    }
    if number_values < e.numbers {
        return Err(ListRefusal::Room(e.numbers));
    }
    if string_kinds < e.strings {
        return Err(ListRefusal::Room(e.strings));
    }
    if string_starts < e.strings {
        return Err(ListRefusal::Room(e.strings));
    }
    if string_lengths < e.strings {
        return Err(ListRefusal::Room(e.strings));
    }
    Ok(())
}

// Stores the state of each place that the edition knows at the arrays' starts, or refuses and leaves the arrays as they
// are. The arrays are parameters of their own, since the C interface lends them one by one.
pub fn list(
    file: &[u8],
    edition: Edition,
    boolean_kinds: &mut [u8],
    number_kinds: &mut [u8],
    number_values: &mut [u32],
    string_kinds: &mut [u8],
    string_starts: &mut [usize],
    string_lengths: &mut [usize],
) -> Result<(), ListRefusal>
    ensures { Lists edition file.now
        (arrays boolean_kinds.old number_kinds.old number_values.old
        string_kinds.old string_starts.old string_lengths.old)
        (arrays boolean_kinds.new number_kinds.new number_values.new
        string_kinds.new string_starts.new string_lengths.new) (says_listed result)
        × ValueFits result }
{
    let opened = read::open(file, edition)?;
    let t = opened.tables;
    room_for(
        edition,
        boolean_kinds.len(),
        number_kinds.len(),
        number_values.len(),
        string_kinds.len(),
        string_starts.len(),
        string_lengths.len(),
    )?;
    list_booleans(file, edition, t, boolean_kinds);
    list_numbers(file, edition, t, number_kinds, number_values);
    list_strings(
        file,
        edition,
        t,
        string_kinds,
        string_starts,
        string_lengths,
    );
    Ok(())
}
