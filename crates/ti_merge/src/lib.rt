// `ti merge [-e EDITION] A B OUT`: merges the compiled file A over B to the file OUT, through the library only.
// Proved: it is safe and ends; a refusal's number is that of entry/specs. Assumed: what std says of the system.
#![tactic(auto)]

use edition::Edition;
use entry::{FILE_MOST, MergeRefusal};
use option_words::OwnOption;
use refusal_numbers::Refusal;
use ti_common::words::{Help, Words, misuse};
use ti_common::{FILE_ROOM, Stop};

const USAGE: &[u8] = b"merge [-e EDITION] A B OUT";

const TEXT: &[u8] = b"\
    Writes the compiled file A over B to the file OUT, in the second edition, or the one behind -e: 1,\n\
    2 or its three counts, as 21,8,138. The names are A's, and each state is A's unless it is absent,\n\
    then B's. A cancelled capability of A stays cancelled.\n";

// The paths of the two files and of the output.
#[derive(Clone, Copy)]
struct Paths<'a> {
    a: &'a [u8],
    b: &'a [u8],
    out: &'a [u8],
}

// Says why two files are not merged.
fn refuse_merge(
    rt: HostRuntime,
    paths: Paths,
    first: &[u8],
    second: &[u8],
    edition: Edition,
    why: MergeRefusal,
) -> Stop {
    match why {
        MergeRefusal::Edition => ti_refusals::refuse_edition(rt),
        MergeRefusal::First(why) => ti_refusals::refuse_file(rt, paths.a, first, edition, why),
        MergeRefusal::Second(why) => ti_refusals::refuse_file(rt, paths.b, second, edition, why),
        MergeRefusal::Size => ti_refusals::refuse(
            rt,
            paths.out,
            b"the merged file would be longer than 4,096 bytes",
            why.number(),
        ),
        MergeRefusal::Room(n) => ti_refusals::refuse_room(rt, paths.out, n, why.number()),
    }
}

// Merges two files and saves the file, or says why not.
fn merge_to(
    rt: HostRuntime,
    paths: Paths,
    first: &[u8],
    second: &[u8],
    edition: Edition,
) -> Result<(), Stop> {
    let mut file = [0u8; FILE_MOST];
    match merge::merge(first, second, edition, &mut file) {
        Ok(n) => {
            let merged = ti_common::front(n, &file);
            ti_files::save::save_saying(rt, paths.out, merged, "merged: ")
        }
        Err(why) => Err(refuse_merge(rt, paths, first, second, edition, why)),
    }
}

// Reads the files and merges.
fn merge_files(rt: HostRuntime, paths: Paths, edition: Edition) -> Result<(), Stop> {
    if ti_files::input::is_standard(paths.a) && ti_files::input::is_standard(paths.b) {
        ti_common::complain(rt, b"ti: only one of A and B can be standard input\n");
        return Err(Stop::Failed);
    }
    ti_files::save::expect_output(rt, paths.out)?;
    let mut first = [0u8; FILE_ROOM];
    let mut second = [0u8; FILE_ROOM];
    let first = ti_files::input::read_file(rt, paths.a, &mut first)?;
    let second = ti_files::input::read_file(rt, paths.b, &mut second)?;
    merge_to(rt, paths, first, second, edition)
}

pub fn run(rt: HostRuntime, words: Words) -> Result<(), Stop> {
    let options = ti_options::take(rt, words, OwnOption::Nothing, USAGE)?;
    if options.words.count(rt) != 3 {
        return Err(misuse(rt, USAGE));
    }
    let mut a = io::buffer();
    let mut b = io::buffer();
    let mut out = io::buffer();
    // All are read, so that each that can't be is said.
    let a = options.words.operand(rt, 0, &mut a);
    let b = options.words.operand(rt, 1, &mut b);
    let out = options.words.operand(rt, 2, &mut out);
    let paths = Paths {
        a: a?,
        b: b?,
        out: out?,
    };
    merge_files(rt, paths, options.edition)
}

pub fn describe(rt: HostRuntime, help: Help) -> Result<(), Stop> {
    ti_common::words::describe(rt, help, USAGE, TEXT)
}
