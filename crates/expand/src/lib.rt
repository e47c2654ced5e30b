// The expansion of parameterized strings (document 01: Expansion; document 02, 2026-07). Proved: each call gives what
// `expanding` of expansion/specs says of its string, arguments and variables, for every buffer and place. Assumed:
// nothing.
#![tactic(auto)]

ghost use Rattle.std.specs.Prelude.{[], ℕ, ◌-◌, ◌≤◌, length};
ghost use Rattle.expansion.specs.Limits.{string_most, room_for};
ghost use Rattle.expansion.specs.Form.{form_of};
ghost use Rattle.expansion.specs.Machine.{run};
ghost use Rattle.expansion.specs.Counting.{room_with, room_of};
ghost use Rattle.expansion.specs.Arguments.{values_of, numbers_given};
ghost use Rattle.expansion.specs.Expanding.{ended, formed, expanding};
ghost use Rattle.arguments.specs.Judged.{AllJudged, NoneLonger};
ghost use Rattle.expand_output.specs.Answers.{ExpandedAs, LentAs};

use expand_output::expand_into;
use expansion::{Argument, Expanded, ExpansionRefusal, Lasting, Output};

// The longest string.
const STRING_MOST: usize = 1000;

// The size of the short buffer: a longer output is run twice.
const SHORT_OUTPUT: usize = 64;

// Expands a string whose length and texts are judged, at a place that is.
fn expand_judged(
    string: &[u8],
    arguments: [Argument; 9],
    texts: &[u8],
    lasting: &mut [i32; 26],
    out: &mut [u8],
    at: usize,
) -> Result<Output, ExpansionRefusal>
    requires { (at ≤ length out.old) × (length string.now ≤ string_most) × AllJudged texts.now arguments }
    ensures { (most : ℕ) → NoneLonger most arguments
        → LentAs (length string.now) (room_with most string.now)
        (formed (form_of string.now)
        (ended (run string.now (values_of texts.now arguments) lasting.old)
        (length out.old - at))) lasting.old lasting.new out.old at
        out.new result }
{
    let mut short = [0u8; SHORT_OUTPUT];
    expand_into(
        string,
        arguments,
        texts,
        lasting,
        &mut short,
        &mut out[at..],
    )
}

// Expands a string, with arguments that are numbers or parts of a block of texts, into the free part of the buffer
// from place at on, and changes the lasting variables in place; a refusal leaves both. The output holds no NUL where
// no text holds one (`expanding_no_nul` of output_laws/proofs/NoNul.antt).
pub fn expand_texts_lent(
    string: &[u8],
    arguments: [Argument; 9],
    texts: &[u8],
    lasting: &mut [i32; 26],
    out: &mut [u8],
    at: usize,
) -> Result<Output, ExpansionRefusal>
    ensures { LentAs (length string.now) (room_of string.now)
        (expanding string.now arguments texts.now lasting.old
        (length out.old) at) lasting.old lasting.new out.old at
        out.new result }
{
    let lie = arguments::all_lie_in(arguments, texts.len());
    let are_short = arguments::all_short(arguments);
    if out.len() < at { // first 17
        return Err(ExpansionRefusal::Place); // the output's
    }
    if !lie {
        return Err(ExpansionRefusal::Place); // a text's
    }
    if STRING_MOST < string.len() { // then 1
        return Err(ExpansionRefusal::Length); // the string's
    }
    if !are_short {
        return Err(ExpansionRefusal::Length); // a text's
    }
    expand_judged(string, arguments, texts, lasting, out, at)
}

// The same with nine numbers. The output holds no NUL (`numbers_no_nul` of output_laws/proofs/NoNul.antt).
pub fn expand_lent(
    string: &[u8],
    arguments: [i32; 9],
    lasting: &mut [i32; 26],
    out: &mut [u8],
    at: usize,
) -> Result<Output, ExpansionRefusal>
    ensures { LentAs (length string.now) (room_for (length string.now))
        (expanding string.now (numbers_given arguments) [] lasting.old
        (length out.old) at) lasting.old lasting.new out.old at
        out.new result }
{
    if out.len() < at {
        return Err(ExpansionRefusal::Place);
    }
    if STRING_MOST < string.len() {
        return Err(ExpansionRefusal::Length);
    }
    expand_judged(string, arguments::numbers(arguments), b"", lasting, out, at)
}

// `expand_texts_lent` with the lasting variables by value: the answer, and the variables as they are afterwards, on a
// refusal as they came.
pub fn expand_texts(
    string: &[u8],
    arguments: [Argument; 9],
    texts: &[u8],
    lasting: Lasting,
    out: &mut [u8],
    at: usize,
) -> Expanded
    ensures { ExpandedAs (length string.now) (room_of string.now)
        (expanding string.now arguments texts.now lasting.values
        (length out.old) at) lasting.values out.old at out.new result }
{
    let mut kept = lasting.values;
    let answer = expand_texts_lent(string, arguments, texts, &mut kept, out, at);
    Expanded {
        answer,
        lasting: Lasting { values: kept }, // as the call left them
    }
}

// `expand_lent` with the lasting variables by value.
pub fn expand(
    string: &[u8],
    arguments: [i32; 9],
    lasting: Lasting,
    out: &mut [u8],
    at: usize,
) -> Expanded
    ensures { ExpandedAs (length string.now) (room_for (length string.now))
        (expanding string.now (numbers_given arguments) [] lasting.values
        (length out.old) at) lasting.values out.old at out.new result }
{
    let mut kept = lasting.values;
    let answer = expand_lent(string, arguments, &mut kept, out, at);
    Expanded {
        answer,
        lasting: Lasting { values: kept },
    }
}
