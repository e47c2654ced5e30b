// What the commands of ti share: their words, what they write, and the status that they end with. Proved: each
// function is safe and ends. Assumed: what std says of the system.
#![tactic(auto)]

ghost use Rattle.std.specs.Prelude.{◌≡◌, ℕ, take};
ghost use Rattle.std.specs.Process.{exit_status};
ghost use Rattle.ti_common.specs.Ends.{status_number};

use entry::{FILE_MOST, FileRefusal};
use std::io::Error;
use std::process::ExitCode;

pub mod output;
pub mod reason;
pub mod words;

// The room for a compiled file: one byte more than it may have, so that a longer one is refused and never cut. (The
// commands' buffers are of fixed size and no `Vec`s, since memory that runs out would be a new way to fail.)
pub const FILE_ROOM: usize = FILE_MOST + 1;

// Why a command ends that is not done; what is wrong was said.
#[derive(Clone, Copy, PartialEq, Eq)]
pub enum Stop {
    Refused,
    // input or output failed, or the words given are wrong
    Failed,
}

impl From<FileRefusal> for Stop {
    fn from(_why: FileRefusal) -> Stop {
        Stop::Refused
    }
}

fn hand_over(status: u8) -> ExitCode
    ensures { exit_status result ≡ status }
{
    ExitCode::from(status)
}

// The status that the program ends with.
pub fn finish(ended: Result<(), Stop>) -> ExitCode
    ensures { exit_status result ≡ status_number ended }
{
    match ended {
        Ok(()) => hand_over(0),
        Err(Stop::Refused) => hand_over(1),
        Err(Stop::Failed) => hand_over(2),
    }
}

// Writes bytes to standard error.
pub fn complain(rt: HostRuntime, bytes: &[u8]) {
    let _ = rt.stderr().write_all(bytes);
}

// Writes a number to standard error.
pub fn complain_number(rt: HostRuntime, n: usize) {
    let _ = rt.stderr().print(n);
}

// Says what failed, with the system's reason.
pub fn fail(rt: HostRuntime, what: &[u8], why: Error) -> Stop {
    complain(rt, b"ti: ");
    complain(rt, what);
    complain(rt, b": ");
    reason::complain_reason(rt, why);
    complain(rt, b"\n");
    Stop::Failed
}

// Says why output was not written, where it was not.
pub fn written(rt: HostRuntime, sent: Result<(), Error>) -> Result<(), Stop> {
    sent.map_err(|why| fail(rt, b"standard output", why))
}

// Writes bytes to standard output. Each piece of an output is a write of its own, tried also where an earlier one
// failed; `later.and(earlier)` keeps the last failure, which `written` says.
pub fn say(rt: HostRuntime, bytes: &[u8]) -> Result<(), Error> {
    rt.stdout().write_all(bytes)
}

// Writes a number to standard output.
pub fn say_number(rt: HostRuntime, n: usize) -> Result<(), Error> {
    rt.stdout().print(n)
}

// Says what was done, and the file's size.
pub fn say_size(rt: HostRuntime, what: &str, file: &[u8]) -> Result<(), Stop> {
    let sent = say(rt, what.as_bytes());
    let sent = say_number(rt, file.len()).and(sent);
    written(rt, say(rt, b" bytes\n").and(sent))
}

// The bytes at the buffer's start, as many as the length says, or all where they are fewer.
pub fn front(length: usize, buffer: &[u8]) -> &[u8]
    ensures { result.now ≡ take length buffer.now }
{
    buffer.get(..length).unwrap_or(buffer)
}
