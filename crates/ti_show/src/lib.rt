// `ti show [-e EDITION] FILE [CAPABILITY]..`: shows a compiled file in an edition, through the library only: its
// names, the edition, each capability that is not absent, a line each, in list order, and how many slots lie beyond
// the edition; or the capabilities that are named. Proved: it is safe and ends; each line is the one of
// show_lines/specs or count_lines/specs, in the edition that the file was opened in. Assumed: what std says of the
// system.
#![tactic(auto)]

ghost use Rattle.std.specs.Prelude.{◌≤◌, length};
ghost use Rattle.show_lines.specs.Lines.{file_room};

use edition::Edition;
use option_words::OwnOption;
use show_names::OpenFile;
use std::io::Error;
use ti_common::reason::too_long;
use ti_common::words::{Help, Words, count_all, misuse, word_at};
use ti_common::{FILE_ROOM, Stop, say, written};

// Room for any line of a file.
const LINE_ROOM: usize = 4 * FILE_ROOM + 128;

const USAGE: &[u8] = b"show [-e EDITION] FILE [CAPABILITY]..";

const TEXT: &[u8] = b"\
    Shows a compiled file in the second edition, or the one behind -e: 1, 2 or its three counts, as\n\
    21,8,138: its names, the edition, then each capability that is present or cancelled, a line each,\n\
    in list order, then how many slots lie beyond the edition. A boolean stands alone, a number after\n\
    `#`, a string after `=`; a cancelled capability has `@`. A slot that the edition counts and the\n\
    lists do not name stands by its kind and place, as `string 158`. Bytes outside 33 to 126 (in\n\
    names, outside 32 to 126) and the backslash are shown as a backslash and three octal digits.\n\
    Where capabilities are named, these are shown, in that order, and an absent one is said to be so.\n";

// A file that is shown.
#[derive(Clone, Copy)]
struct Shown<'a> {
    path: &'a [u8],
    opened: OpenFile<'a>,
    ghost few: { length opened.file.now ≤ file_room },
}

impl<'a> Shown<'a> {
    fn say_names(self, rt: HostRuntime) -> Result<(), Error> {
        let mut line = [0u8; LINE_ROOM];
        let n = show_lines::names_line(self.opened, &mut line);
        say(rt, &line[..n])
    }

    fn say_edition(self, rt: HostRuntime) -> Result<(), Error> {
        let mut line = [0u8; LINE_ROOM];
        let n = count_lines::edition_line(self.opened.edition, &mut line);
        say(rt, &line[..n])
    }

    fn say_capability(self, rt: HostRuntime, k: usize) -> Result<(), Error> {
        let mut line = [0u8; LINE_ROOM];
        let n = show_lines::capability_line(self.opened, k, &mut line);
        say(rt, &line[..n])
    }

    fn say_beyond(self, rt: HostRuntime) -> Result<(), Error> {
        let mut line = [0u8; LINE_ROOM];
        let n = count_lines::beyond_line(self.opened, &mut line);
        say(rt, &line[..n])
    }

    // Writes all lines.
    fn say_all(self, rt: HostRuntime) -> Result<(), Error> {
        let sent = self.say_names(rt);
        let mut sent = self.say_edition(rt).and(sent);
        for k in 0..show_lines::count(self.opened) {
            sent = self.say_capability(rt, k).and(sent);
        }
        self.say_beyond(rt).and(sent)
    }

    // Writes the line of the capability that a name means, or, where it has none, that it is absent.
    fn say_found(self, rt: HostRuntime, name: &[u8]) -> Result<(), Error> {
        let mut line = [0u8; LINE_ROOM];
        let found = lookup::find(name, self.opened.edition);
        let n = show_lines::found_line(self.opened, found, &mut line);
        if n == 0 {
            let sent = say(rt, name);
            return say(rt, b" is absent\n").and(sent);
        }
        say(rt, &line[..n])
    }

    // Expects that the word at a place means a capability; if not, says so.
    fn look_up(self, rt: HostRuntime, place: usize) -> Result<(), Stop> {
        let mut name = io::buffer();
        let name = word_at(rt, place, &mut name)?;
        let found = lookup::find(name, self.opened.edition);
        if found.is_some() {
            return Ok(());
        }
        let number = refusal_numbers::of_found_string(found);
        Err(ti_refusals::refuse_unknown(rt, self.path, name, number))
    }

    // Expects that each word from a place on means a capability.
    fn look_up_words(self, rt: HostRuntime, first: usize) -> Result<(), Stop> {
        for place in first..count_all(rt) {
            self.look_up(rt, place)?;
        }
        Ok(())
    }

    // Writes the line of the capability that the word at a place means.
    fn say_word(self, rt: HostRuntime, place: usize) -> Result<(), Error> {
        let mut name = io::buffer();
        match word_at(rt, place, &mut name) {
            Ok(name) => self.say_found(rt, name),
            Err(_) => Err(too_long()),
        }
    }

    // Shows the capabilities that the words from a place on name: all of them, or none where one is unknown.
    fn say_words(self, rt: HostRuntime, first: usize) -> Result<(), Stop> {
        self.look_up_words(rt, first)?;
        let mut sent = Ok(());
        for place in first..count_all(rt) {
            sent = self.say_word(rt, place).and(sent);
        }
        written(rt, sent)
    }
}

// Opens a file and shows it: all of it, or the capabilities that are named.
fn show<'a>(
    rt: HostRuntime,
    path: &'a [u8],
    file: &'a [u8],
    edition: Edition,
    operands: Words,
) -> Result<(), Stop>
    requires { length file.now ≤ file_room }
{
    let opening = ti_refusals::open(rt, path, file, edition)?;
    let shown = Shown {
        path,
        opened: OpenFile {
            file,
            edition,
            answer: Ok(opening),
        },
    };
    if operands.count(rt) == 1 {
        return written(rt, shown.say_all(rt));
    }
    shown.say_words(rt, operands.first as usize + 1)
}

pub fn run(rt: HostRuntime, words: Words) -> Result<(), Stop> {
    let options = ti_options::take(rt, words, OwnOption::Nothing, USAGE)?;
    if options.words.count(rt) == 0 {
        return Err(misuse(rt, USAGE));
    }
    let mut path = io::buffer();
    let path = options.words.operand(rt, 0, &mut path)?;
    let mut file = [0u8; FILE_ROOM];
    let file = ti_files::input::read_file(rt, path, &mut file)?;
    show(rt, path, file, options.edition, options.words)
}

pub fn describe(rt: HostRuntime, help: Help) -> Result<(), Stop> {
    ti_common::words::describe(rt, help, USAGE, TEXT)
}
