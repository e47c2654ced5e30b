// `ti compile [-e EDITION] [-n NAME] [FILE] OUT`: compiles a description of source text, through the library only
// (documents 01 and 02). Proved: it is safe and ends; `compile_wanted` answers as `compiling` of text/specs says of
// the text's first description or of the one that has the name; a refusal's number is that of text/specs; line and
// column are those of positions/specs. Assumed: what std says of the system.
#![tactic(auto)]

ghost use Rattle.std.specs.Prelude.{◌≤◌, length, option_copied, IfOk, IfSome};
ghost use Rattle.base.specs.Answer.{Leaves};
ghost use Rattle.text.specs.Compiling.{compiling, says_compiled};
ghost use Rattle.positions.specs.Taken.{text_room};
ghost use Rattle.ti_compile.specs.Asked.{asked};

use edition::Edition;
use entry::FILE_MOST;
use option_words::OwnOption;
use positions::Position;
use refusal_numbers::Refusal;
use text::{CompileRefusal, TEXT_MOST, TextRefused};
use ti_common::words::{Help, Words, misuse, word_at};
use ti_common::{Stop, complain, complain_number};
use ti_options::Options;

mod field;
mod header;
mod line;
mod used;

// A text's most bytes and one more, so that a longer text is refused and never cut.
const TEXT_ROOM: usize = TEXT_MOST + 1;

const USAGE: &[u8] = b"compile [-e EDITION] [-n NAME] [FILE] OUT";

const TEXT: &[u8] = b"\
    Compiles a description in FILE, or on standard input, to the file OUT: the first of the text, or the\n\
    one that has the name behind -n. The edition is the second, or the one behind -e: 1, 2 or its three\n\
    counts, as 21,8,138.\n";

// A text that is compiled: the path that it was read from, its edition, the name of the description that is wanted,
// none where it is the text's first, and whether what is refused is shown on a terminal.
#[derive(Clone, Copy)]
struct Source<'a> {
    path: &'a [u8],
    text: &'a [u8],
    edition: Edition,
    name: Option<&'a [u8]>,
    is_terminal: bool,
    ghost fits: { length text.now ≤ text_room },
}

// Says where a text is refused, by line and column.
fn complain_position(rt: HostRuntime, p: Position) {
    complain(rt, b":");
    complain_number(rt, p.line);
    complain(rt, b":");
    complain_number(rt, p.column);
    complain(rt, b": ");
}

impl<'a> Source<'a> {
    // Says that the text is refused at a place, and shows the line to a terminal.
    fn refuse_at(&self, rt: HostRuntime, refused: TextRefused) -> Stop {
        let why = refused.why;
        let place = refused.at;
        let number = refusal_numbers::of_text(why);
        ti_refusals::begin(rt, self.path);
        if place == 0 {
            complain(rt, b": ");
            header::complain_first(rt, why, self.name.unwrap_or(&[]));
            return ti_refusals::end_at(rt, number, 0);
        }
        let p = positions::position_of(self.text, place);
        complain_position(rt, p);
        if p.column == 1 {
            header::complain_later(rt, why);
        } else {
            field::complain_field(rt, self.text, self.edition, why, place);
        }
        let stop = ti_refusals::end_at(rt, number, place);
        if self.is_terminal {
            line::show(rt, self.text, place);
        }
        stop
    }

    // Compiles the description that is wanted.
    fn compile_wanted(&self, file: &mut [u8]) -> Result<usize, CompileRefusal>
        ensures { Leaves (compiling self.now.edition self.now.text.now (asked (option_copied self.now.name))
            (length file.old)) file.old file.new (says_compiled result) }
    {
        match self.name {
            None => compile::compile_first(self.edition, self.text, file),
            Some(name) => compile::compile(self.edition, self.text, name, file),
        }
    }

    // Says why the text is not compiled.
    fn refuse(&self, rt: HostRuntime, why: CompileRefusal) -> Stop {
        match why {
            CompileRefusal::Edition => ti_refusals::refuse_edition(rt),
            CompileRefusal::Length => ti_refusals::refuse(
                rt,
                self.path,
                b"the text is longer than 16,384 bytes",
                why.number(),
            ),
            CompileRefusal::Refused(refused) => self.refuse_at(rt, refused),
            CompileRefusal::Size => ti_refusals::refuse(
                rt,
                self.path,
                b"the compiled file would be longer than 4,096 bytes",
                why.number(),
            ),
            CompileRefusal::Room(n) => ti_refusals::refuse_room(rt, self.path, n, why.number()),
        }
    }

    // Compiles the text and saves the file, or says why not.
    fn compile_to(&self, rt: HostRuntime, out: &[u8]) -> Result<(), Stop> {
        let mut file = [0u8; FILE_MOST];
        match self.compile_wanted(&mut file) {
            Ok(n) => {
                let compiled = ti_common::front(n, &file);
                ti_files::save::save_saying(rt, out, compiled, "compiled: ")
            }
            Err(why) => Err(self.refuse(rt, why)),
        }
    }
}

// Reads the text and compiles it.
fn compile_from<'a>(
    rt: HostRuntime,
    path: &'a [u8],
    name: Option<&'a [u8]>,
    out: &[u8],
    options: Options,
) -> Result<(), Stop> {
    ti_files::save::expect_output(rt, out)?;
    let mut text = [0u8; TEXT_ROOM];
    let source = Source {
        path,
        text: ti_files::input::read_file(rt, path, &mut text)?,
        edition: options.edition,
        name,
        is_terminal: options.words.is_terminal,
    };
    source.compile_to(rt, out)
}

// Compiles the file that is named, or standard input.
fn compile_operands(rt: HostRuntime, name: Option<&[u8]>, options: Options) -> Result<(), Stop> {
    let operands = options.words;
    let mut first = io::buffer();
    let mut second = io::buffer();
    match operands.count(rt) {
        1 => {
            let out = operands.operand(rt, 0, &mut first)?;
            compile_from(rt, b"-", name, out, options)
        }
        2 => {
            // Both are read, so that each that can't be is said.
            let path = operands.operand(rt, 0, &mut first);
            let out = operands.operand(rt, 1, &mut second);
            compile_from(rt, path?, name, out?, options)
        }
        _ => Err(misuse(rt, USAGE)),
    }
}

// Puts the name that is wanted at the slice's start; none where it is the text's first.
fn wanted_name(
    rt: HostRuntime,
    wanted: Option<u16>,
    bytes: &mut [u8],
) -> Result<Option<&[u8]>, Stop>
    ensures { IfOk result (λ name. IfSome name (λ word. length word.now ≤ length bytes.old)) }
{
    match wanted {
        Some(place) => Ok(Some(word_at(rt, place as usize, bytes)?)),
        None => Ok(None),
    }
}

pub fn run(rt: HostRuntime, words: Words) -> Result<(), Stop> {
    let options = ti_options::take(rt, words, OwnOption::Name, USAGE)?;
    let mut name = io::buffer();
    let name = wanted_name(rt, options.wanted, &mut name)?;
    compile_operands(rt, name, options)
}

pub fn describe(rt: HostRuntime, help: Help) -> Result<(), Stop> {
    ti_common::words::describe(rt, help, USAGE, TEXT)
}
