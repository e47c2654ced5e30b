// Refusals as people read them: `ti: NAME: sentence (refusal N)`, with the byte where the refusal gives one. Proved:
// `open` answers as entry/specs says; each function is safe and ends. Assumed: what std says of the system.
#![tactic(auto)]

ghost use Rattle.std.specs.Prelude.{◌≡◌};
ghost use Rattle.entry.specs.Asking.{opening};
ghost use Rattle.entry.specs.Says.{says_file};

use edition::Edition;
use entry::{FileRefusal, Opening};
use refusal_numbers::Refusal;
use text::CompileRefusal;
use ti_common::output::complain_quoted;
use ti_common::{Stop, complain, complain_number};

mod file;

// Begins a message: the name of what is refused, where `-` is standard input.
pub fn begin(rt: HostRuntime, path: &[u8]) {
    complain(rt, b"ti: ");
    if matches!(path, b"-") {
        complain(rt, b"standard input");
    } else {
        complain(rt, path);
    }
}

// Ends a message with document 01's number.
pub fn end(rt: HostRuntime, number: u8) -> Stop {
    complain(rt, b" (refusal ");
    complain_number(rt, number as usize);
    complain(rt, b")\n");
    Stop::Refused
}

// Ends a message with the number and a byte, counted from 0.
pub fn end_at(rt: HostRuntime, number: u8, place: usize) -> Stop {
    complain(rt, b" (refusal ");
    complain_number(rt, number as usize);
    complain(rt, b", byte ");
    complain_number(rt, place);
    complain(rt, b")\n");
    Stop::Refused
}

// Says a refusal that gives no byte.
pub fn refuse(rt: HostRuntime, path: &[u8], sentence: &[u8], number: u8) -> Stop {
    begin(rt, path);
    complain(rt, b": ");
    complain(rt, sentence);
    end(rt, number)
}

// Says that there is too little room, and how many bytes are needed.
pub fn refuse_room(rt: HostRuntime, path: &[u8], needed: usize, number: u8) -> Stop {
    begin(rt, path);
    complain(rt, b": too little room for the output, which needs ");
    complain_number(rt, needed);
    complain(rt, b" bytes");
    end(rt, number)
}

// Says that the edition is too large.
pub fn refuse_edition(rt: HostRuntime) -> Stop {
    complain(rt, b"ti: the edition is too large: at most ");
    complain_number(rt, edition::BOOLEANS_MOST);
    complain(rt, b" booleans, ");
    complain_number(rt, edition::NUMBERS_MOST);
    complain(rt, b" numbers, ");
    complain_number(rt, edition::STRINGS_MOST);
    complain(rt, b" strings");
    end(rt, CompileRefusal::Edition.number())
}

// Says that no capability has the name, or that the edition knows none of it.
pub fn complain_unknown(rt: HostRuntime, name: &[u8]) {
    if lookup::find(name, names::SECOND_EDITION).is_some() {
        complain_quoted(rt, name);
        complain(rt, b" is not in the edition");
    } else {
        complain(rt, b"unknown capability ");
        complain_quoted(rt, name);
    }
}

// Refuses a name that the edition knows no capability of.
pub fn refuse_unknown(rt: HostRuntime, path: &[u8], name: &[u8], number: u8) -> Stop {
    begin(rt, path);
    complain(rt, b": ");
    complain_unknown(rt, name);
    end(rt, number)
}

// Says that a file is refused, with the byte where the refusal gives one: none is below the header's 12.
pub fn refuse_file(
    rt: HostRuntime,
    path: &[u8],
    file: &[u8],
    edition: Edition,
    why: FileRefusal,
) -> Stop {
    begin(rt, path);
    complain(rt, b": ");
    file::complain_file(rt, file, edition, why);
    if why.value() == 0 {
        return end(rt, why.number());
    }
    end_at(rt, why.number(), why.value())
}

// Opens a file in an edition; says why, where it is refused.
pub fn open(
    rt: HostRuntime,
    path: &[u8],
    file: &[u8],
    edition: Edition,
) -> Result<Opening, FileRefusal>
    ensures { says_file result ≡ opening edition file.now }
{
    let answer = read::open(file, edition);
    if let Err(why) = answer {
        refuse_file(rt, path, file, edition, why);
    }
    answer
}
