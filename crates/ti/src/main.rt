// The program behind `ti`, which calls it with its own words behind one more: `tty` where standard error is a
// terminal, else `plain`. It runs the crate of the command that is named, and ends with its status. Proved: it is
// safe and ends. Assumed: what std says of the system.
#![tactic(auto)]

use std::process::ExitCode;
use ti_common::words::{Help, Words, count_all, misuse, word_at};
use ti_common::{Stop, complain, say, written};

mod command;
mod help;

use command::{ALL, Command};

// The place of the word behind the command's name.
const WORDS_FROM: u16 = 3;

// Says that no command has the name.
fn refuse_command(rt: HostRuntime, name: &[u8]) -> Stop {
    complain(rt, b"ti: ");
    ti_common::output::complain_quoted(rt, name);
    complain(rt, b": no such command; see ti help\n");
    Stop::Failed
}

// Says how each command is called. Each says by itself what failed; the last one's failure ends the list.
fn list_commands(rt: HostRuntime) -> Result<(), Stop> {
    let mut ended = Ok(());
    for command in ALL {
        ended = command.describe(rt, Help::Usage);
    }
    ended?;
    help::list_rest(rt)
}

// Says what a command does.
fn describe(rt: HostRuntime, name: &[u8]) -> Result<(), Stop> {
    if let Some(text) = help::text_of(name) {
        return written(rt, say(rt, text));
    }
    match Command::named(name) {
        Some(command) => command.describe(rt, Help::Whole),
        None => Err(refuse_command(rt, name)),
    }
}

// `ti help [COMMAND]`
fn run_help(rt: HostRuntime) -> Result<(), Stop> {
    match count_all(rt) {
        3 => list_commands(rt),
        4 => {
            let mut name = io::buffer();
            describe(rt, word_at(rt, 3, &mut name)?)
        }
        _ => Err(misuse(rt, b"help [COMMAND]")),
    }
}

// Runs the command that is named.
fn run_named(rt: HostRuntime, name: &[u8], is_terminal: bool) -> Result<(), Stop> {
    if matches!(name, b"help" | b"--help" | b"-h") {
        return run_help(rt);
    }
    let words = Words {
        first: WORDS_FROM,
        is_terminal,
    };
    match Command::named(name) {
        Some(command) => command.run(rt, words),
        None => Err(refuse_command(rt, name)),
    }
}

fn run(rt: HostRuntime) -> Result<(), Stop> {
    if count_all(rt) < 3 {
        complain(rt, b"usage: ti COMMAND [WORD]..; see ti help\n");
        return Err(Stop::Failed);
    }
    let mut how = io::buffer();
    let mut name = io::buffer();
    // Both are read, so that each that can't be is said.
    let how = word_at(rt, 1, &mut how);
    let name = word_at(rt, 2, &mut name);
    run_named(rt, name?, matches!(how?, b"tty"))
}

fn main(rt: HostRuntime) -> ExitCode {
    ti_common::finish(run(rt))
}
