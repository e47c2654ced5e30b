// The calls for C and Rust: numbers and slices only (include/terminfo_c.h). Each answers one 64-bit number: the
// refusal's number in the top byte, 0 for success, and below it what the refusal or the call gives. Proved: each says
// as much as the call that it passes on. Assumed: nothing.
#![tactic(auto)]

ghost use Rattle.std.specs.Prelude.{◌≡◌, [], length};
ghost use Rattle.base.specs.Answer.{map_answer};
ghost use Rattle.entry.specs.Asking.{opening, asking_names};
ghost use Rattle.entry.specs.Handed.{handed};
ghost use Rattle.entry.specs.Merging.{merging};
ghost use Rattle.entry.specs.Writing.{writing};
ghost use Rattle.text.specs.Building.{first, named};
ghost use Rattle.text.specs.Compiling.{compiling};
ghost use Rattle.expansion.specs.Arguments.{numbers_given};
ghost use Rattle.expansion.specs.Expanding.{expanding};
ghost use Rattle.c_numbers.specs.Numbers.{numbered, merging_number, none, part_code, opening_array};
ghost use Rattle.c_asked.specs.Asked.{edition, boolean_state, number_state, string_state};
ghost use Rattle.c_asked.specs.Asked.{asking8, naming_by, find_number, named_state};
ghost use Rattle.c_numbers.specs.Expanded.{ExpandedNumber};
ghost use Rattle.terminfo_c.specs.Calls.{array_after, FileNumber, ListedNumber};
ghost use Rattle.list_states.specs.Listing.{arrays};

use edition::{Edition, Place};
use entry::{Numbers, States, Strings};

mod list;

// The edition of three counts.
fn edition_of(booleans: usize, numbers: usize, strings: usize) -> Edition
    ensures { result ≡ edition booleans numbers strings }
{
    Edition {
        booleans,
        numbers,
        strings,
    }
}

// Opens a file: 0, with the array filled, or the refusal with the position of the first bad byte or slot.
#[unsafe(no_mangle)]
pub extern "C" fn terminfo_open(
    file: &[u8],
    booleans: usize,
    numbers: usize,
    strings: usize,
    tables: &mut [u64; 10],
) -> u64
    ensures { (result ≡ numbered none (opening (edition booleans numbers strings) file.now))
        × (tables.new ≡ array_after tables.old
        (map_answer opening_array (opening (edition booleans numbers strings) file.now))) }
{
    match read::open(file, edition_of(booleans, numbers, strings)) {
        Ok(opening) => {
            *tables = c_numbers::opening_array(opening);
            0
        }
        Err(why) => c_numbers::refusal(why),
    }
}

// The names' part, without their NUL.
#[unsafe(no_mangle)]
pub extern "C" fn terminfo_names(
    file: &[u8],
    booleans: usize,
    numbers: usize,
    strings: usize,
) -> u64
    ensures { result ≡ numbered part_code (asking_names (edition booleans numbers strings) file.now) }
{
    let n = states::names(file, edition_of(booleans, numbers, strings));
    c_numbers::names_number(n)
}

// The state of the boolean at a place.
#[unsafe(no_mangle)]
pub extern "C" fn terminfo_boolean(
    file: &[u8],
    booleans: usize,
    numbers: usize,
    strings: usize,
    place: usize,
) -> u64
    ensures { result ≡ boolean_state booleans numbers strings file.now place }
{
    let s = states::boolean(file, edition_of(booleans, numbers, strings), Place(place));
    c_numbers::state_number(s)
}

// The state of the number at a place.
#[unsafe(no_mangle)]
pub extern "C" fn terminfo_number(
    file: &[u8],
    booleans: usize,
    numbers: usize,
    strings: usize,
    place: usize,
) -> u64
    ensures { result ≡ number_state booleans numbers strings file.now place }
{
    let s = states::number(file, edition_of(booleans, numbers, strings), Place(place));
    c_numbers::state_number(s)
}

// The state of the string at a place.
#[unsafe(no_mangle)]
pub extern "C" fn terminfo_string(
    file: &[u8],
    booleans: usize,
    numbers: usize,
    strings: usize,
    place: usize,
) -> u64
    ensures { result ≡ string_state booleans numbers strings file.now place }
{
    let s = states::string(file, edition_of(booleans, numbers, strings), Place(place));
    c_numbers::state_number(s)
}

// Eight places at once: 0, with the answers stored, or 17 where opening would refuse.
#[unsafe(no_mangle)]
pub extern "C" fn terminfo_ask(
    file: &[u8],
    booleans: usize,
    numbers: usize,
    strings: usize,
    kinds: &[u8; 8],
    places: &[usize; 8],
    answers: &mut [u64; 8],
) -> u64
    ensures { (result ≡ numbered none
        (asking8 (edition booleans numbers strings) file.now kinds.now places.now))
        × (answers.new ≡ array_after answers.old
        (asking8 (edition booleans numbers strings) file.now kinds.now places.now)) }
{
    let e = edition_of(booleans, numbers, strings);
    let o = read::open(file, e);
    match o {
        Ok(_) => {
            *answers = c_asked::asked_numbers(file, e, o, kinds, places);
            0
        }
        Err(_) => 17 * c_numbers::TOP,
    }
}

// The states of every place that the edition knows: 0, with the arrays filled, or the refusal.
#[unsafe(no_mangle)]
pub extern "C" fn terminfo_list(
    file: &[u8],
    booleans: usize,
    numbers: usize,
    strings: usize,
    boolean_kinds: &mut [u8],
    number_kinds: &mut [u8],
    number_values: &mut [u32],
    string_kinds: &mut [u8],
    string_starts: &mut [usize],
    string_lengths: &mut [usize],
) -> u64
    ensures { ListedNumber (edition booleans numbers strings) file.now
        (arrays boolean_kinds.old number_kinds.old number_values.old
        string_kinds.old string_starts.old string_lengths.old)
        (arrays boolean_kinds.new number_kinds.new number_values.new
        string_kinds.new string_starts.new string_lengths.new) result }
{
    let l = list_states::list(
        file,
        edition_of(booleans, numbers, strings),
        boolean_kinds,
        number_kinds,
        number_values,
        string_kinds,
        string_starts,
        string_lengths,
    );
    list::listed_number(l)
}

// Writes a file: its length, or the refusal.
#[unsafe(no_mangle)]
pub extern "C" fn terminfo_write(
    booleans: usize,
    numbers: usize,
    strings: usize,
    names: &[u8],
    boolean_kinds: &[u8],
    number_kinds: &[u8],
    number_values: &[u32],
    string_kinds: &[u8],
    string_starts: &[usize],
    string_lengths: &[usize],
    lent: &[u8],
    buffer: &mut [u8],
) -> u64
    ensures { FileNumber (numbered length) (writing (edition booleans numbers strings)
        (handed names.now boolean_kinds.now number_kinds.now
        number_values.now string_kinds.now string_starts.now
        string_lengths.now lent.now) (length buffer.old))
        buffer.old buffer.new result }
{
    let states = States {
        boolean_kinds,
        numbers: Numbers {
            kinds: number_kinds,
            values: number_values,
        },
        strings: Strings {
            kinds: string_kinds,
            starts: string_starts,
            lengths: string_lengths,
        },
    };
    let w = write::write(
        edition_of(booleans, numbers, strings),
        names,
        &states,
        lent,
        buffer,
    );
    c_numbers::length_number(w)
}

// Merges the first file over the second: the merged file's length, or the refusal, of a file with which one it was.
#[unsafe(no_mangle)]
pub extern "C" fn terminfo_merge(
    first: &[u8],
    second: &[u8],
    booleans: usize,
    numbers: usize,
    strings: usize,
    buffer: &mut [u8],
) -> u64
    ensures { FileNumber (merging_number length) (merging (edition booleans numbers strings)
        first.now second.now (length buffer.old)) buffer.old
        buffer.new result }
{
    let m = merge::merge(
        first,
        second,
        edition_of(booleans, numbers, strings),
        buffer,
    );
    c_numbers::merged_number(m)
}

// Compiles the description of a text that has the wanted name: the file's length, or the refusal.
#[unsafe(no_mangle)]
pub extern "C" fn terminfo_compile(
    text: &[u8],
    wanted: &[u8],
    booleans: usize,
    numbers: usize,
    strings: usize,
    buffer: &mut [u8],
) -> u64
    ensures { FileNumber (numbered length) (compiling (edition booleans numbers strings) text.now
        (named wanted.now) (length buffer.old)) buffer.old buffer.new result }
{
    let c = compile::compile(edition_of(booleans, numbers, strings), text, wanted, buffer);
    c_numbers::length_number(c)
}

// Compiles a text's first description: the file's length, or the refusal.
#[unsafe(no_mangle)]
pub extern "C" fn terminfo_compile_first(
    text: &[u8],
    booleans: usize,
    numbers: usize,
    strings: usize,
    buffer: &mut [u8],
) -> u64
    ensures { FileNumber (numbered length) (compiling (edition booleans numbers strings)
        text.now first (length buffer.old)) buffer.old buffer.new result }
{
    let c = compile::compile_first(edition_of(booleans, numbers, strings), text, buffer);
    c_numbers::length_number(c)
}

// The name at a place of a kind's list: its bytes, low byte first.
#[unsafe(no_mangle)]
pub extern "C" fn terminfo_capability(kind: u8, place: usize) -> u64
    ensures { result ≡ numbered (λ w. w) (naming_by kind place) }
{
    c_asked::capability(kind, place)
}

// Expands a string into the buffer from place at on: the steps above the output's length, or the refusal. The lasting
// variables change in place. The output holds no NUL (`numbers_no_nul` of output_laws/proofs/NoNul.antt).
#[unsafe(no_mangle)]
pub extern "C" fn terminfo_expand(
    string: &[u8],
    arguments: &[i32; 9],
    lasting: &mut [i32; 26],
    buffer: &mut [u8],
    at: usize,
) -> u64
    ensures { ExpandedNumber (expanding string.now (numbers_given arguments.now) []
        lasting.old (length buffer.old) at) lasting.old lasting.new
        buffer.old at buffer.new result }
{
    let nine = *arguments;
    c_numbers::expansion_number(expand::expand_lent(string, nine, lasting, buffer, at))
}

// The capability that a name means in an edition: its kind and its place, or 11.
#[unsafe(no_mangle)]
pub extern "C" fn terminfo_find(name: &[u8], booleans: usize, numbers: usize, strings: usize) -> u64
    ensures { result ≡ find_number booleans numbers strings name.now }
{
    c_asked::find(name, edition_of(booleans, numbers, strings))
}

// The state of the capability that a name means: 11 for a name that the edition doesn't know, else the state.
#[unsafe(no_mangle)]
pub extern "C" fn terminfo_state(
    file: &[u8],
    booleans: usize,
    numbers: usize,
    strings: usize,
    name: &[u8],
) -> u64
    ensures { result ≡ named_state booleans numbers strings file.now name.now }
{
    c_asked::state(file, edition_of(booleans, numbers, strings), name)
}
