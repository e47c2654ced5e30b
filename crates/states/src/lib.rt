// Asks files for names and states, place by place (document 01: Compiled entry). Proved: each call of this file
// answers every slice of bytes, every edition and every place as the definition of entry/specs that its contract
// names. Assumed: nothing.
#![tactic(auto)]

ghost use Rattle.std.specs.Prelude.{◌≡◌, ◌+◌, ◌≤◌, length};
ghost use Rattle.entry.specs.Asking.{asking_names, asking_boolean, asking_number, asking_string};
ghost use Rattle.entry.specs.Says.{says_asked, says_state};
ghost use Rattle.states.specs.Held.{IsPart};

use edition::{Edition, Place};
use entry::{Part, State};

// The file's names, without their NUL.
pub fn names(file: &[u8], edition: Edition) -> Option<Part>
    ensures { says_asked result ≡ asking_names edition file.now }
{
    let opened = read::open(file, edition).ok()?;
    Some(opened_file::names_opened(file, edition, opened.tables))
}

// The state of the boolean at a place.
pub fn boolean(file: &[u8], edition: Edition, place: Place) -> Option<State<()>>
    ensures { says_state result ≡ asking_boolean edition file.now place }
{
    let o = read::open(file, edition);
    opened_file::boolean_if_opened(file, edition, o, place)
}

// The state of the number at a place.
pub fn number(file: &[u8], edition: Edition, place: Place) -> Option<State<u32>>
    ensures { says_state result ≡ asking_number edition file.now place }
{
    let o = read::open(file, edition);
    opened_file::number_if_opened(file, edition, o, place)
}

// The state of the string at a place: where its content stands in the file.
pub fn string(file: &[u8], edition: Edition, place: Place) -> Option<State<Part>>
    ensures { says_state result ≡ asking_string edition file.now place }
{
    let o = read::open(file, edition);
    opened_file::string_if_opened(file, edition, o, place)
}

// A part of a file that lies in it.
pub fn part(file: &[u8], p: Part) -> &[u8]
    requires { p.start + p.length ≤ length file.now }
    ensures { IsPart file.entry result p }
{
    let start = p.start;
    let end = p.start + p.length;
    &file[start..end]
}
