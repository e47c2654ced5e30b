// The file of a description, its strings read from the text once more (document 01: Compiled entry). Proved: `write`
// puts what `fitting_named` of text/specs gives. Assumed: nothing.
#![tactic(auto)]

ghost use Rattle.std.specs.Prelude.{◌≡◌, true, [], ◌∷◌, ◌+◌, ◌≤◌, length};
ghost use Rattle.base.specs.Overwrite.{put_at};
ghost use Rattle.base.specs.Tabulate.{tabulate};
ghost use Rattle.edition.specs.Edition.{ok_edition};
ghost use Rattle.base.specs.Answer.{Leaves};
ghost use Rattle.entry.specs.State.{present};
ghost use Rattle.entry.specs.Writing.{string_table};
ghost use Rattle.text.specs.Strings.{read_at, read_bytes};
ghost use Rattle.text.specs.Compiling.{fitting_named, says_compiled};
ghost use Rattle.judge.specs.Judged.{StandsAt};
ghost use Rattle.entry.specs.Handed.{handed_by, strings_by};
ghost use Rattle.compile_laws.specs.Held.{text_string, text_entry, Holds, TableFits};

use edition::Edition;
use entry::{FILE_MOST, GIVEN_NAMES_MOST, PRESENT, States, Strings};
use text::{CompileRefusal, TextRefusal, TextRefused};

// The start and the length of a string that no field has given: nobody reads them, since its kind is absent. (Zeros are
// cleared where they stand; a word whose bytes differ was filled by stores of vectors, which took longer.)
pub const UNSET: usize = 0;

// A present string's part of the table: its bytes and its NUL.
fn put_string(b: &mut [u8], at: usize, start: usize, size: usize, text: &[u8])
    requires { (at + size + 1 ≤ length b.old) × StandsAt text.now start size }
    ensures { b.new ≡ put_at b.old at
        (string_table (present (read_bytes (read_at text.now start)) ∷ [])) }
{
    contents::put_read(b, at, text, start, size);
    b[at + size] = 0;
}

// The string table of the first n strings.
fn put_table(b: &mut [u8], at: usize, strings: &Strings<'_>, text: &[u8], n: usize)
    requires { TableFits b.old at (strings_by strings.now text.now) n }
    ensures { b.new ≡ put_at b.old at
        (string_table (tabulate (text_string (strings_by strings.now text.now)) n)) }
{
    let mut p = at;
    for i in 0..n {
        if strings.kinds[i] == PRESENT {
            let size = strings.lengths[i];
            put_string(b, p, strings.starts[i], size, text);
            p += size + 1;
        }
    }
}

// Writes the states under the names, if they and the file fit.
pub fn write(
    text: &[u8],
    names: &[u8],
    edition: Edition,
    states: &States<'_>,
    buffer: &mut [u8],
) -> Result<usize, CompileRefusal>
    requires { (ok_edition edition ≡ true) × Holds edition (handed_by names.now states.now text.now) }
    ensures { Leaves (fitting_named (length buffer.old)
        (text_entry edition (handed_by names.now states.now text.now))) buffer.old buffer.new
        (says_compiled result) }
{
    if GIVEN_NAMES_MOST < names.len() {
        return Err(CompileRefusal::Refused(TextRefused {
            why: TextRefusal::Limit,
            at: 0,
        }));
    }
    let s = write_file::sizes(edition, names, &states.strings);
    let size = write_file::file_size(s);
    if FILE_MOST < size {
        return Err(CompileRefusal::Size);
    }
    if buffer.len() < size {
        return Err(CompileRefusal::Room(size));
    }
    write_file::put_front(buffer, s, names, states);
    put_table(
        buffer,
        write_file::table_at(s),
        &states.strings,
        text,
        edition.strings,
    );
    Ok(size)
}
