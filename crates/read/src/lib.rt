// Opens compiled entries (document 01: Compiled entry, order of reading): the header, then every slot of the file,
// whatever the edition knows; a refused file with the position of its first bad byte or slot. Proved: `judge` and
// `open` answer every slice of bytes and every edition as `reading` and `opening` of entry/specs say. Assumed: nothing.
#![tactic(auto)]

ghost use Rattle.std.specs.Prelude.{◌≡◌, ◌+◌, ◌*◌, ◌<◌, ◌≤◌, length};
ghost use Rattle.word.specs.Word.{word};
ghost use Rattle.entry.specs.Layout.{sizes_of, tables_of, beyond_of};
ghost use Rattle.entry.specs.Reading.{ok_counts, reading};
ghost use Rattle.entry.specs.Asking.{opening};
ghost use Rattle.entry.specs.Says.{says_file};
ghost use Rattle.file_tables.specs.Framed.{Shorts, Framed};

use edition::Edition;
use entry::{
    Beyond, FILE_MOST, FileRefusal, HEADER_SIZE, MAGIC, NAMES_LEAST, NAMES_MOST, NUMBER_WIDTH,
    OFFSET_WIDTH, Opening, SHORT_MOST, Sizes, Tables,
};

// The header's sizes.
pub fn sizes(file: &[u8]) -> Sizes
    requires { 12 ≤ length file.now }
    ensures { (result ≡ sizes_of file.now) × Shorts result }
{
    let names = word::short_at(file, 2);
    let booleans = word::short_at(file, 4);
    let numbers = word::short_at(file, 6);
    let strings = word::short_at(file, 8);
    let table = word::short_at(file, 10);
    Sizes {
        names,
        booleans,
        numbers,
        strings,
        table,
    }
}

#[tactic(auto, unfolding(entry::specs::Reading::ok_counts))]
fn counts_ok(s: Sizes) -> bool
    ensures { result ≡ ok_counts s }
{
    NAMES_LEAST <= s.names
        && s.names <= NAMES_MOST
        && s.booleans <= SHORT_MOST
        && s.numbers <= SHORT_MOST
        && s.strings <= SHORT_MOST
        && s.table <= SHORT_MOST
}

// Where each table of a file of these sizes starts.
pub fn tables_for(s: Sizes) -> Tables
    requires { Shorts s }
    ensures { result ≡ tables_of s }
{
    let booleans_at = HEADER_SIZE + s.names;
    let numbers_at = booleans_at + s.booleans + (s.names + s.booleans) % 2;
    let strings_at = numbers_at + NUMBER_WIDTH * s.numbers;
    let table_at = strings_at + OFFSET_WIDTH * s.strings;
    Tables {
        booleans: s.booleans,
        numbers: s.numbers,
        strings: s.strings,
        booleans_at,
        numbers_at,
        strings_at,
        table_at,
    }
}

// Judges the tables of a file whose header has passed.
fn judge_tables(file: &[u8], s: Sizes, t: Tables) -> Result<Sizes, FileRefusal>
    requires { Framed file.now s t }
    ensures { says_file result ≡ reading file.now }
{
    if !file_tables::names_ok(file, s, t) {
        return Err(FileRefusal::Names(file_tables::bad_names(file, s, t)));
    }
    if !file_tables::booleans_ok(file, s, t) {
        return Err(FileRefusal::Boolean(file_tables::bad_boolean(file, s, t)));
    }
    if !file_tables::numbers_ok(file, s, t) {
        return Err(FileRefusal::Number(file_tables::bad_number(file, s, t)));
    }
    if !file_tables::strings_ok(file, s, t) {
        return Err(FileRefusal::Slot(file_tables::bad_string(file, s, t)));
    }
    Ok(s)
}

// Judges a file: accepted with its header's sizes, or refused. No edition has a part in it.
pub fn judge(file: &[u8]) -> Result<Sizes, FileRefusal>
    ensures { says_file result ≡ reading file.now }
{
    if file.len() < HEADER_SIZE {
        return Err(FileRefusal::Length);
    }
    if FILE_MOST < file.len() {
        return Err(FileRefusal::Length);
    }
    if word::short_at(file, 0) != MAGIC {
        return Err(FileRefusal::Magic);
    }
    let s = sizes(file);
    if !counts_ok(s) {
        return Err(FileRefusal::Counts);
    }
    let t = tables_for(s);
    if file.len() != t.table_at + s.table {
        return Err(FileRefusal::Length);
    }
    judge_tables(file, s, t)
}

// How many slots lie beyond the edition.
fn beyond(e: Edition, s: Sizes) -> Beyond
    ensures { result ≡ beyond_of e s }
{
    let booleans = s.booleans.saturating_sub(e.booleans);
    let numbers = s.numbers.saturating_sub(e.numbers);
    let strings = s.strings.saturating_sub(e.strings);
    Beyond {
        booleans,
        numbers,
        strings,
    }
}

// Opens a file in an edition: where its tables start and how many slots lie beyond the edition, or the refusal.
pub fn open(file: &[u8], edition: Edition) -> Result<Opening, FileRefusal>
    ensures { says_file result ≡ opening edition file.now }
{
    if !edition::edition_ok(edition) {
        return Err(FileRefusal::Counts);
    }
    let s = judge(file)?;
    Ok(Opening {
        tables: tables_for(s),
        beyond: beyond(edition, s),
    })
}
