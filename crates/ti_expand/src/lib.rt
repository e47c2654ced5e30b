// `ti expand [-v] [-e EDITION] FILE CAPABILITY [ARGUMENT]..`: expands a capability of a compiled file with up to nine
// numbers and texts, through the library only. The output goes to standard output as it is; with -v, shown, and then
// the steps and the bytes, each with its bound.
// Proved: it is safe and ends; a word's argument is that of argument_words/specs, what is expanded is the file's
// string, a refusal's number is that of expansion/specs; what stands for a byte is what shown/specs says. Assumed:
// what std says of the system.
#![tactic(auto)]

ghost use Rattle.std.specs.Prelude.{◌≡◌, length};

use edition::{Edition, Place};
use entry::State;
use expansion::{Argument, ExpansionRefusal};
use names::Found;
use opened::Bounds;
use option_words::OwnOption;
use refusal_numbers::Refusal;
use show_names::OpenFile;
use shown::CONTENT_LEAST;
use std::io::Error;
use ti_arguments::TEXTS_ROOM;
use ti_common::output::{complain_quoted, say_shown};
use ti_common::words::{Help, Words, misuse};
use ti_common::{FILE_ROOM, Stop, complain, say, say_number, written};
use ti_options::Options;

mod opened;

// Room for the output of any string (`room_most` of expansion_laws): refusal 8 can't come.
const OUTPUT_ROOM: usize = 525000;

// The most operands: the file, the capability, nine arguments.
const OPERANDS_MOST: usize = 11;

const USAGE: &[u8] = b"expand [-v] [-e EDITION] FILE CAPABILITY [ARGUMENT]..";

const TEXT: &[u8] = b"\
    Expands a string capability of a compiled file with up to nine arguments and writes the bytes. An\n\
    argument that is a decimal number is a number of 32 bits, any other a text of at most 1,000 bytes;\n\
    =WORD is always the text WORD, and one that is not given is the number 0. With -v the bytes are\n\
    shown as `ti show` shows them, and then the steps and the bytes, each with its bound. The file is\n\
    read in the second edition, or the one behind -e: 1, 2 or its three counts, as 21,8,138.\n";

// What is expanded: the file's path, the capability's name and the arguments with their texts; and whether the output
// is shown.
#[derive(Clone, Copy)]
struct Call<'a> {
    path: &'a [u8],
    name: &'a [u8],
    arguments: [Argument; 9],
    texts: &'a [u8],
    is_verbose: bool,
}

// Says a count, what is counted and the most that it can be.
fn say_count(rt: HostRuntime, count: usize, what: &[u8], most: usize) -> Result<(), Error> {
    let sent = say_number(rt, count);
    let sent = say(rt, what).and(sent);
    let sent = say(rt, b" (at most ").and(sent);
    let sent = say_number(rt, most).and(sent);
    say(rt, b")").and(sent)
}

// Writes the output of a string as it is shown, the steps and the bytes, each with its bound.
fn say_verbose(rt: HostRuntime, output: &[u8], steps: usize, most: Bounds) -> Result<(), Error> {
    let sent = say_shown(rt, output, CONTENT_LEAST);
    let sent = say(rt, b"\n").and(sent);
    let sent = say_count(rt, steps, b" steps", most.steps).and(sent);
    let sent = say(rt, b", ").and(sent);
    let sent = say_count(rt, output.len(), b" bytes", most.bytes).and(sent);
    say(rt, b"\n").and(sent)
}

// As many zeros as are asked for.
fn zeros<const N: usize>() -> [u8; N]
    ensures { N ≡ length result }
{
    [0; N]
}

impl<'a> Call<'a> {
    // Begins a message about the string.
    fn begin(&self, rt: HostRuntime) {
        ti_refusals::begin(rt, self.path);
        complain(rt, b": ");
        complain(rt, self.name);
    }

    // Says that the file has no such string.
    fn refuse_state(&self, rt: HostRuntime, state: &[u8]) -> Stop {
        self.begin(rt);
        complain(rt, state);
        Stop::Refused
    }

    // Says that the capability is no string.
    fn refuse_kind(&self, rt: HostRuntime, kind: &[u8], number: u8) -> Stop {
        ti_refusals::begin(rt, self.path);
        complain(rt, b": ");
        complain_quoted(rt, self.name);
        complain(rt, kind);
        complain(rt, b", not a string");
        ti_refusals::end(rt, number)
    }

    // Says why the string is refused.
    fn refuse(&self, rt: HostRuntime, sentence: &[u8], number: u8) -> Stop {
        self.begin(rt);
        complain(rt, sentence);
        ti_refusals::end(rt, number)
    }

    // Says why the string is refused, with the byte.
    fn refuse_at(&self, rt: HostRuntime, sentence: &[u8], number: u8, place: usize) -> Stop {
        self.begin(rt);
        complain(rt, sentence);
        ti_refusals::end_at(rt, number, place)
    }

    // Says why nothing is expanded.
    fn refuse_expansion(&self, rt: HostRuntime, why: ExpansionRefusal) -> Stop {
        let number = why.number();
        match why {
            ExpansionRefusal::Place => self.refuse(
                rt,
                b": the place is beyond the edition",
                number,
            ),
            ExpansionRefusal::Length => self.refuse(
                rt,
                b": the string or a text is longer than 1,000 bytes",
                number,
            ),
            ExpansionRefusal::Malformed(i) => self.refuse_at(
                rt,
                b": malformed item, or a conditional that is not closed",
                number,
                i,
            ),
            ExpansionRefusal::Empty(i) => self.refuse_at(
                rt,
                b": an item takes a value from the empty stack",
                number,
                i,
            ),
            ExpansionRefusal::Full(i) => self.refuse_at(
                rt,
                b": an item puts a value on the full stack of 20",
                number,
                i,
            ),
            ExpansionRefusal::Kind(i) => self.refuse_at(
                rt,
                b": an item takes a value of the other kind, a number or a text",
                number,
                i,
            ),
            ExpansionRefusal::Room(n) => ti_refusals::refuse_room(rt, self.path, n, number),
        }
    }

    // Writes what the string was expanded to.
    fn say_output(
        &self,
        rt: HostRuntime,
        output: &[u8],
        steps: usize,
        most: Bounds,
    ) -> Result<(), Stop> {
        if self.is_verbose {
            return written(rt, say_verbose(rt, output, steps, most));
        }
        written(rt, say(rt, output))
    }

    // Expands the string at a place, if the file has it, and writes the output; or says why not.
    fn expand_string(&self, rt: HostRuntime, opened: OpenFile, place: Place) -> Result<(), Stop> {
        let mut out = zeros::<OUTPUT_ROOM>();
        let most = opened::bounds_at(opened, place, ti_arguments::longest(self.arguments));
        match opened::expand_opened(opened, place, self.arguments, self.texts, &mut out, 0) {
            Ok(State::Present(made)) => {
                self.say_output(rt, ti_common::front(made.length, &out), made.steps, most)
            }
            Ok(State::Absent) => Err(self.refuse_state(rt, b" is absent\n")),
            Ok(State::Cancelled) => Err(self.refuse_state(rt, b" is cancelled\n")),
            Err(why) => Err(self.refuse_expansion(rt, why)),
        }
    }

    // Expands the capability that has the name, if it is a string.
    fn expand_named(&self, rt: HostRuntime, opened: OpenFile) -> Result<(), Stop> {
        let found = lookup::find(self.name, opened.edition);
        let number = refusal_numbers::of_found_string(found);
        match found {
            Some(Found::String(place)) => self.expand_string(rt, opened, place),
            Some(Found::Boolean(_)) => Err(self.refuse_kind(rt, b" is a boolean", number)),
            Some(Found::Number(_)) => Err(self.refuse_kind(rt, b" is a number", number)),
            None => Err(ti_refusals::refuse_unknown(rt, self.path, self.name, number)),
        }
    }

    // Reads the file, opens it and expands.
    fn expand_in(&self, rt: HostRuntime, edition: Edition) -> Result<(), Stop> {
        let mut file = [0u8; FILE_ROOM];
        let file = ti_files::input::read_file(rt, self.path, &mut file)?;
        let opening = ti_refusals::open(rt, self.path, file, edition)?;
        let opened = OpenFile {
            file,
            edition,
            answer: Ok(opening),
        };
        self.expand_named(rt, opened)
    }
}

// Takes the arguments, then the file and the capability.
fn expand_operands(rt: HostRuntime, options: Options) -> Result<(), Stop> {
    let operands = options.words;
    let mut texts = [0u8; TEXTS_ROOM];
    let arguments = ti_arguments::take(rt, operands.first as usize + 2, &mut texts)?;
    let mut path = io::buffer();
    let mut name = io::buffer();
    // Both are read, so that each that can't be is said.
    let path = operands.operand(rt, 0, &mut path);
    let name = operands.operand(rt, 1, &mut name);
    let call = Call {
        path: path?,
        name: name?,
        arguments,
        texts: &texts,
        is_verbose: options.is_set,
    };
    call.expand_in(rt, options.edition)
}

pub fn run(rt: HostRuntime, words: Words) -> Result<(), Stop> {
    let options = ti_options::take(rt, words, OwnOption::Flag(b'v'), USAGE)?;
    match options.words.count(rt) {
        2..=OPERANDS_MOST => expand_operands(rt, options),
        _ => Err(misuse(rt, USAGE)),
    }
}

pub fn describe(rt: HostRuntime, help: Help) -> Result<(), Stop> {
    ti_common::words::describe(rt, help, USAGE, TEXT)
}
