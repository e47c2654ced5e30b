// Merges compiled entries (document 01: Compiled entry, order of merging). Proved: `merge` answers every edition and
// every two slices of bytes as `merging` of entry/specs says, and a refusal leaves the buffer as it was. Assumed:
// nothing.
#![tactic(auto)]

ghost use Rattle.std.specs.Prelude.{◌++◌, length};
ghost use Rattle.base.specs.Answer.{Leaves};
ghost use Rattle.entry.specs.Writing.{encode, entry_of};
ghost use Rattle.entry.specs.Merging.{merging};
ghost use Rattle.entry.specs.Says.{says_merged};
ghost use Rattle.entry.specs.Handed.{handed_by};
ghost use Rattle.merge_states.specs.Filled.{AreOpened, Measured, StringsGiven, Ready};
ghost use Rattle.merge_states.specs.Answers.{Fitted, Merges};

use edition::{BOOLEANS_MOST, Edition, NUMBERS_MOST, STRINGS_MOST};
use entry::{FILE_MOST, MergeRefusal, Numbers, States, Strings};
use merge_states::Both;

// A string's start and length before it is filled, which nobody reads. Not 0, so that vector instructions store it
// and no memset.
const UNFILLED: usize = 1;

// Writes what is handed over, if the file fits. Its strings stand in the two files, and their table has so many bytes.
fn write_fitting(
    both: &Both<'_>,
    names: &[u8],
    states: &States<'_>,
    table: usize,
    buffer: &mut [u8],
) -> Result<usize, MergeRefusal>
    requires { Ready both.now.edition (handed_by names.now states.now (both.now.first.now ++ both.now.second.now))
        both.now.first.now both.now.second.now table }
    ensures { Fitted (encode (entry_of both.now.edition
        (handed_by names.now states.now (both.now.first.now ++ both.now.second.now)))) buffer.old
        buffer.new (says_merged result) }
{
    let s = write_file::sizes_with(both.edition, names, table);
    let size = write_file::file_size(s);
    if FILE_MOST < size {
        return Err(MergeRefusal::Size);
    }
    if buffer.len() < size {
        return Err(MergeRefusal::Room(size));
    }
    let edition = both.edition;
    write_file::write_sure(buffer, s, edition, names, states, both.first, both.second);
    Ok(size)
}

// Merges two files whose strings are filled: the names are the first file's.
fn merge_filled(
    both: &Both<'_>,
    strings: &Strings<'_>,
    table: usize,
    buffer: &mut [u8],
) -> Result<usize, MergeRefusal>
    requires { AreOpened both.now
        × (Measured both.now.edition both.now.first.now both.now.second.now strings.now.kinds.now
        strings.now.starts.now strings.now.lengths.now table
        × StringsGiven both.now.edition strings.now.kinds.now strings.now.starts.now strings.now.lengths.now) }
    ensures { Merges both.now.edition both.now.first.now both.now.second.now buffer.old
        buffer.new (says_merged result) }
{
    let mut boolean_kinds = [0u8; BOOLEANS_MOST];
    let mut number_kinds = [0u8; NUMBERS_MOST];
    let mut number_values = [0u32; NUMBERS_MOST];
    both.fill_booleans(&mut boolean_kinds);
    both.fill_numbers(&mut number_kinds, &mut number_values);
    let states = States {
        boolean_kinds: &boolean_kinds,
        numbers: Numbers {
            kinds: &number_kinds,
            values: &number_values,
        },
        strings: *strings,
    };
    let part = opened_file::names_opened(both.first, both.edition, both.t);
    let start = part.start;
    let end = part.start + part.length;
    write_fitting(both, &both.first[start..end], &states, table, buffer)
}

// Merges two opened files. Both are accepted, so a string table that is too large is refused at once.
fn merge_opened(both: &Both<'_>, buffer: &mut [u8]) -> Result<usize, MergeRefusal>
    requires { AreOpened both.now }
    ensures { Merges both.now.edition both.now.first.now both.now.second.now buffer.old
        buffer.new (says_merged result) }
{
    let mut kinds = [0u8; STRINGS_MOST];
    let mut starts = [UNFILLED; STRINGS_MOST];
    let mut lengths = [UNFILLED; STRINGS_MOST];
    match both.fill_strings(&mut kinds, &mut starts, &mut lengths) {
        Some(table) => {
            let strings = Strings {
                kinds: &kinds,
                starts: &starts,
                lengths: &lengths,
            };
            merge_filled(both, &strings, table, buffer)
        }
        None => Err(MergeRefusal::Size),
    }
}

// Merges the first file over the second at the buffer's start, or refuses and leaves the buffer as it is.
pub fn merge(
    first: &[u8],
    second: &[u8],
    edition: Edition,
    buffer: &mut [u8],
) -> Result<usize, MergeRefusal>
    ensures { Leaves (merging edition first.now second.now
        (length buffer.old)) buffer.old buffer.new (says_merged result) }
{
    if !edition::edition_ok(edition) {
        return Err(MergeRefusal::Edition);
    }
    let t = match read::judge(first) {
        Ok(s) => read::tables_for(s),
        Err(why) => return Err(MergeRefusal::First(why)),
    };
    let u = match read::judge(second) {
        Ok(s) => read::tables_for(s),
        Err(why) => return Err(MergeRefusal::Second(why)),
    };
    let both = Both {
        first,
        t,
        second,
        u,
        edition,
    };
    merge_opened(&both, buffer)
}
