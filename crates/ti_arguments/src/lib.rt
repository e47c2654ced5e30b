// The arguments that the words of `ti expand` give: numbers, and texts that lie in one block. Proved: each function is
// safe and ends. Assumed: what std says of the system.
#![tactic(auto)]

ghost use Rattle.std.specs.Prelude.{◌≡◌, ◌≤◌, length};

use argument_words::ArgumentWord;
use expansion::{Argument, Operand};
use ti_common::{Stop, complain};

// Room for a word.
const WORD_ROOM: usize = 4096;

// Room for nine words.
pub const TEXTS_ROOM: usize = 36864;

// The longest text that is expanded.
const TEXT_MOST: u16 = 1000;

fn number(v: i32) -> Argument {
    Argument {
        operand: Operand::Number(v),
    }
}

fn text(start: usize, length: usize) -> Argument {
    Argument {
        operand: Operand::Text { start, length },
    }
}

// Says that a word is wrong.
fn refuse_word(rt: HostRuntime) -> Stop {
    complain(
        rt,
        b"ti: a number is decimal, from -2147483648 to 2147483647\n",
    );
    Stop::Failed
}

// Puts the word at a place among all into a part of the block, which begins at start; the argument that it is. Where
// there is none it is the number 0.
fn take_word(rt: HostRuntime, place: usize, part: &mut [u8], start: usize) -> Result<Argument, Stop>
    requires { (start ≤ 32768) × (length part.old ≤ 4096) }
{
    if ti_common::words::count_all(rt) <= place {
        return Ok(number(0));
    }
    let word = ti_common::words::word_at(rt, place, part)?;
    match argument_words::parse(word) {
        Some(ArgumentWord::Number(v)) => Ok(number(v)),
        Some(ArgumentWord::Text(k)) => Ok(text(start + k, word.len() - k)),
        None => Err(refuse_word(rt)),
    }
}

// The nine arguments that the words from a place among all on give. Each word has its own part of the block.
pub fn take(rt: HostRuntime, first: usize, block: &mut [u8]) -> Result<[Argument; 9], Stop>
    requires { (first ≤ 70000) × (length block.old ≡ 36864) }
{
    let mut nine = [number(0); 9];
    for k in 0..9 {
        let start = k * WORD_ROOM;
        nine[k] = take_word(rt, first + k, &mut block[start..start + WORD_ROOM], start)?;
    }
    Ok(nine)
}

// A text's length, at most TEXT_MOST; 0 for a number.
fn text_length(operand: Operand) -> u16 {
    match operand {
        Operand::Number(_) => 0,
        Operand::Text { start: _, length } => length.min(TEXT_MOST as usize) as u16,
    }
}

// The length of the longest text, at most TEXT_MOST; 0 where all are numbers.
pub fn longest(arguments: [Argument; 9]) -> u16 {
    let mut most = 0;
    for a in arguments {
        most = text_length(a.operand).max(most);
    }
    most
}
