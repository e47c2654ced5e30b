// The output of a run, put where it fits (document 01: Expansion). Proved: `expand_into` answers and leaves what
// `formed` and `ended` of expansion/specs say. Assumed: nothing.
#![tactic(auto)]

ghost use Rattle.std.specs.Prelude.{◌≡◌, ℕ, ◌≤◌, length, take, Ok};
ghost use Rattle.base.specs.Overwrite.{put_at};
ghost use Rattle.expansion.specs.Limits.{string_most};
ghost use Rattle.expansion.specs.Form.{form_of};
ghost use Rattle.expansion.specs.Machine.{run};
ghost use Rattle.expansion.specs.Counting.{room_with};
ghost use Rattle.expansion.specs.Arguments.{values_of};
ghost use Rattle.expansion.specs.Expanding.{ended, formed};
ghost use Rattle.arguments.specs.Judged.{AllJudged, NoneLonger};
ghost use Rattle.expand_run.specs.Runs.{refusal_of};
ghost use Rattle.expand_output.specs.Answers.{LentAs, KeptAs};

use expand_run::{RunRefusal, run};
use expansion::{Argument, ExpansionRefusal, Output};

// Keeps a buffer's first bytes, as many as the short buffer holds, and says how many.
fn keep(out: &[u8], short: &mut [u8]) -> usize
    ensures { KeptAs out.now short.old short.new result }
{
    let end = out.len().min(short.len());
    short[..end].copy_from_slice(&out[..end]);
    end
}

// What a run's refusal is for the caller.
fn refused(refusal: RunRefusal) -> ExpansionRefusal
    ensures { result ≡ refusal_of refusal }
{
    ExpansionRefusal::from(refusal)
}

// Expands a string whose form is right from the buffer's first byte on. A run prints into the buffer's first bytes, as
// many as the short buffer keeps, so that a refusal puts them back, and the variables too; a longer output is run once
// more, for the whole of it.
fn expand_right(
    s: &[u8],
    arguments: [Argument; 9],
    texts: &[u8],
    lasting: &mut [i32; 26],
    short: &mut [u8],
    out: &mut [u8],
) -> Result<Output, ExpansionRefusal>
    requires { (length s.now ≤ string_most) × (form_of s.now ≡ Ok tt) × AllJudged texts.now arguments }
    ensures { (most : ℕ) → NoneLonger most arguments
        → LentAs (length s.now) (room_with most s.now)
        (ended (run s.now (values_of texts.now arguments) lasting.old)
        (length out.old)) lasting.old lasting.new out.old 0
        out.new result }
{
    let mut end = keep(out, short);
    let saved = *lasting;
    // at most two runs, the second for a length that the first tells: no range counts them
    loop {
        match run(s, arguments, texts, lasting, &mut out[..end]) {
            Err(refusal) => {
                out[..end].copy_from_slice(&short[..end]);
                *lasting = saved;
                return Err(refused(refusal));
            }
            Ok(output) => {
                if out.len() < output.length {
                    out[..end].copy_from_slice(&short[..end]);
                    *lasting = saved;
                    return Err(ExpansionRefusal::Room(output.length));
                }
                if output.length <= end {
                    return Ok(output);
                }
                end = output.length;
                *lasting = saved; // what the first run stored is not read
            }
        }
    }
}

// Expands a string from the buffer's first byte on: "14 over the whole string" first.
pub fn expand_into(
    s: &[u8],
    arguments: [Argument; 9],
    texts: &[u8],
    lasting: &mut [i32; 26],
    short: &mut [u8],
    out: &mut [u8],
) -> Result<Output, ExpansionRefusal>
    requires { (length s.now ≤ string_most) × AllJudged texts.now arguments }
    ensures { (most : ℕ) → NoneLonger most arguments
        → LentAs (length s.now) (room_with most s.now) (formed (form_of s.now)
        (ended (run s.now (values_of texts.now arguments) lasting.old)
        (length out.old))) lasting.old lasting.new out.old 0
        out.new result }
{
    match conditionals::form_of(s) {
        Ok(()) => expand_right(s, arguments, texts, lasting, short, out),
        Err(p) => Err(ExpansionRefusal::Malformed(p)),
    }
}
