// The words that a command is given.
ghost use Rattle.std.specs.Prelude.{◌≤◌, length, IfOk};

use crate::{Stop, complain, fail, reason, say, written};
use std::env::FillError;
use std::io::Error;
use std::rt::Env;

// A command's words: the place of the first, and whether standard error is a terminal.
#[derive(Clone, Copy)]
pub struct Words {
    pub first: u16,
    pub is_terminal: bool,
}

impl Words {
    // How many there are.
    pub fn count(self, rt: HostRuntime) -> usize {
        count_all(rt).saturating_sub(self.first as usize)
    }

    // Puts the k-th of them, from 0, at the slice's start.
    pub fn operand(self, rt: HostRuntime, k: u8, bytes: &mut [u8]) -> Result<&[u8], Stop>
        ensures { IfOk result (λ w. length w.now ≤ length bytes.old) }
    {
        word_at(rt, self.first as usize + k as usize, bytes)
    }
}

// Why there is no word at a place.
fn failure(why: FillError) -> Error {
    match why {
        FillError::NotPresent => reason::missing(),
        FillError::TooLong => reason::too_long(),
    }
}

// Puts the word at a place among all at the slice's start; says why, where there is none.
pub fn word_at(rt: HostRuntime, place: usize, bytes: &mut [u8]) -> Result<&[u8], Stop>
    ensures { IfOk result (λ w. length w.now ≤ length bytes.old) }
{
    match rt.arg(place, bytes) {
        Ok(n) => Ok(&bytes[..n]),
        Err(why) => Err(fail(rt, b"a word", failure(why))),
    }
}

// Puts the word at a place among all at the slice's start; the empty word where it is missing or too long.
pub fn word_or_none(rt: HostRuntime, place: usize, bytes: &mut [u8]) -> &[u8]
    ensures { length result.now ≤ length bytes.old }
{
    match rt.arg(place, bytes) {
        Ok(n) => &bytes[..n],
        Err(_) => &[],
    }
}

// How many words there are, with the program's name.
pub fn count_all(rt: HostRuntime) -> usize {
    let mut byte = [0u8; 1];
    for n in 0..usize::MAX {
        if let Err(FillError::NotPresent) = rt.arg(n, &mut byte) {
            return n;
        }
    }
    usize::MAX
}

// How much help is asked for.
#[derive(Clone, Copy, PartialEq, Eq)]
pub enum Help {
    // how a command is called
    Usage,
    // and what it does
    Whole,
}

// Says how a command is called, and, where that is asked, what it does.
pub fn describe(rt: HostRuntime, help: Help, usage: &[u8], text: &[u8]) -> Result<(), Stop> {
    let sent = say(rt, b"ti ");
    let sent = say(rt, usage).and(sent);
    let sent = say(rt, b"\n").and(sent);
    match help {
        Help::Usage => written(rt, sent),
        Help::Whole => written(rt, say(rt, text).and(sent)),
    }
}

// Says that a command was called wrongly, and how it is called.
pub fn misuse(rt: HostRuntime, usage: &[u8]) -> Stop {
    complain(rt, b"usage: ti ");
    complain(rt, usage);
    complain(rt, b"\n");
    Stop::Failed
}
