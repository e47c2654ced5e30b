// `ti check [-e EDITION] FILE`: judges a compiled file, through the library only. Proved: it is safe and ends, and it
// opens the file as `opening` of entry/specs says. Assumed: what std says of the system.
#![tactic(auto)]

use option_words::OwnOption;
use ti_common::words::{Help, Words, misuse};
use ti_common::{FILE_ROOM, Stop};

const USAGE: &[u8] = b"check [-e EDITION] FILE";

const TEXT: &[u8] = b"\
    Says that the compiled file is accepted in the second edition, or the one behind -e: 1, 2 or its\n\
    three counts, as 21,8,138; or why it is refused.\n";

// Says that the file is accepted, or why it is refused.
pub fn run(rt: HostRuntime, words: Words) -> Result<(), Stop> {
    let options = ti_options::take(rt, words, OwnOption::Nothing, USAGE)?;
    if options.words.count(rt) != 1 {
        return Err(misuse(rt, USAGE));
    }
    let mut path = io::buffer();
    let path = options.words.operand(rt, 0, &mut path)?;
    let mut file = [0u8; FILE_ROOM];
    let file = ti_files::input::read_file(rt, path, &mut file)?;
    ti_refusals::open(rt, path, file, options.edition)?;
    ti_common::say_size(rt, "accepted: ", file)
}

pub fn describe(rt: HostRuntime, help: Help) -> Result<(), Stop> {
    ti_common::words::describe(rt, help, USAGE, TEXT)
}
