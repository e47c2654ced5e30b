// A tour of crate `terminfo`: opens the compiled entry on standard input in the second edition, asks it for its names,
// its lines and its string cup, expands cup at row 3, column 12, and prints what it got. `visit` holds an entry and
// lends variables.
// Proved: it is safe and ends. Assumed: what std says of the system.
#![tactic(auto)]

ghost use Rattle.std.specs.Prelude.{◌≤◌, length};

use edition::Place;
use entry::{Part, State};
use expansion::{ExpansionRefusal, Output};
use std::io::Read;

fn say(rt: HostRuntime, bytes: &[u8]) {
    let _ = rt.stdout().write_all(bytes);
}

fn say_number(rt: HostRuntime, word: &[u8], n: usize) {
    say(rt, word);
    let _ = rt.stdout().print(n);
    say(rt, b"\n");
}

fn say_lines(rt: HostRuntime, lines: Option<State<u32>>) {
    if let Some(State::Present(n)) = lines {
        say_number(rt, b"\nlines ", n as usize);
    }
}

// Says why there is no cup to expand, where there is none.
fn say_missing(rt: HostRuntime, cup: Option<State<Part>>) {
    match cup {
        Some(State::Present(_)) => {}
        Some(State::Absent) => say(rt, b"cup is absent"),
        Some(State::Cancelled) => say(rt, b"cup is cancelled"),
        None => say(rt, b"cup can't be asked for"),
    }
}

fn say_expansion(rt: HostRuntime, out: &[u8], answer: Result<Output, ExpansionRefusal>) {
    if let Ok(Output { length, steps }) = answer {
        if length <= out.len() {
            say(rt, &out[..length]);
        }
        say_number(rt, b"\nsteps ", steps);
    }
}

// Opens, asks, expands into out.
fn visit(rt: HostRuntime, file: &[u8], out: &mut [u8]) -> Result<Output, ExpansionRefusal> {
    let entry = terminfo::open(file, names::SECOND_EDITION);
    let names = terminfo::names_part(entry);
    say(rt, names.bytes);
    say_lines(rt, terminfo::number(entry, Place(2)));
    let cup = terminfo::string_part(entry, Place(10));
    say_missing(rt, cup.state);
    let mut lasting = terminfo::zero_lasting();
    terminfo::expand(
        cup.bytes,
        [3, 12, 0, 0, 0, 0, 0, 0, 0],
        &mut lasting,
        out,
        0,
    )
}

// Reads standard input until the slice is full, the input ends or a read fails; the bytes put at its start.
fn read_full(rt: HostRuntime, bytes: &mut [u8]) -> &[u8]
    ensures { length result.now ≤ length bytes.old }
{
    let mut from = rt.stdin();
    let mut n = 0;
    // A cursor that moves by what a read puts: no range counts it.
    while n < bytes.len() {
        match from.read(&mut bytes[n..]) {
            Ok(0) | Err(_) => break,
            Ok(more) => n += more,
        }
    }
    &bytes[..n]
}

fn main(rt: HostRuntime) {
    let mut file = io::buffer();
    let mut out = [0u8; 64];
    let answer = visit(rt, read_full(rt, &mut file), &mut out);
    say_expansion(rt, &out, answer);
}
