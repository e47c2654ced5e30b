// The fields of a description, one after the other, up to the next header, the text's end or the first bad one
// (document 01: Source text). One loop serves both of its callers, so that judging a field stands once in the program:
// the states that the fields give are kept, or the places of the uses among them. A loop for each, or a type parameter
// for what is kept, gives `judge` two callers, and every text pays four instructions per byte. Proved: `each` comes to
// what `sayings_from` of text/specs gives. Assumed: nothing.
#![tactic(auto)]

ghost use Rattle.std.specs.Prelude.{◌≡◌, List, ℕ, [], ◌+◌, ◌≤◌, ◌<◌, length};
ghost use Rattle.base.specs.Overwrite.{put_at};
ghost use Rattle.text.specs.Bytes.{text_most};
ghost use Rattle.compile_laws.specs.Listed.{use_places};
ghost use Rattle.kept_states.specs.States.{SameArrays};
ghost use Rattle.each_field.specs.Each.{uses_said, said_at};
ghost use Rattle.each_field.specs.Keeping.{SameLent, Asks, AsksField, KeepsField, Comes};

use edition::Edition;
use kept_states::StateArrays;
use text::{Line, Said, TextRefused};

// What is kept of the fields.
#[derive(Drop)]
pub enum Keeping<'a> {
    // their states
    States,
    // the places of the uses among them, behind those that are there
    Uses(&'a mut [u16]),
}

// What fields come to that are right.
#[derive(Clone, Copy)]
pub struct Passed {
    // how many uses there are now
    pub uses: usize,
    // the line in column 1 that stands behind them, if the text doesn't end there
    pub next: Option<usize>,
}

// How many uses there are with a field.
fn count_use(said: Said, uses: usize) -> usize
    requires { uses + 1 < 18446744073709551616 }
    ensures { result ≡ uses + uses_said said }
{
    match said {
        Said::Nothing => uses,
        Said::Boolean(_, _) => uses,
        Said::Number(_, _, _) => uses,
        Said::String(_, _, _, _) => uses,
        Said::Use(_, _) => uses + 1,
    }
}

// Keeps the place of a field whose first byte is at p, if it is a use.
fn keep_place(places: &mut [u16], uses: usize, said: Said, p: usize)
    requires { (uses + uses_said said ≤ length places.old) × (p < text_most) }
    ensures { (t : List ℕ) → places.new ≡ put_at places.old uses (use_places (said_at t p said)) }
{
    match said {
        Said::Nothing => {}
        Said::Boolean(_, _) => {}
        Said::Number(_, _, _) => {}
        Said::String(_, _, _, _) => {}
        Said::Use(_, _) => {
            places[uses] = p as u16;
        }
    }
}

// Keeps what is kept of a field whose first byte is at p.
fn keep_field(
    text: &[u8],
    edition: Edition,
    said: Said,
    p: usize,
    keeping: &mut Keeping,
    states: &mut StateArrays,
    uses: usize,
)
    requires { AsksField edition text.now said p keeping.old states.old uses }
    ensures lent { SameLent keeping.old keeping.new }
    ensures arrays { SameArrays states.old states.new }
    ensures kept { KeepsField edition text.now said p keeping.old states.old uses keeping.new states.new }
{
    match keeping {
        Keeping::States => states.keep(text, edition, said),
        Keeping::Uses(places) => keep_place(places, uses, said, p),
    }
}

// Judges the fields from the place past a comma on and keeps their states, or the places of their uses behind those
// that are there; then no state is kept.
pub fn each(
    text: &[u8],
    at: usize,
    edition: Edition,
    keeping: &mut Keeping,
    states: &mut StateArrays,
    uses: usize,
) -> Result<Passed, TextRefused>
    requires { (uses ≤ at) × Asks edition text.now at keeping.old states.old uses }
    ensures lent { SameLent keeping.old keeping.new }
    ensures arrays { SameArrays states.old states.new }
    ensures come { Comes edition text.now at keeping.old states.old uses keeping.new states.new result }
{
    let mut count = uses;
    let mut i = at; // a cursor that moves by a field: no range counts it
    loop {
        match text_lines::next_at(text, i) {
            Line::End => {
                return Ok(Passed {
                    uses: count,
                    next: None,
                });
            }
            Line::Column(p) => {
                return Ok(Passed {
                    uses: count,
                    next: Some(p),
                });
            }
            Line::Indented(p) => match judge::judge(text, p, edition) {
                Err(why) => {
                    return Err(TextRefused { why, at: p });
                }
                Ok(judged) => {
                    keep_field(text, edition, judged.said, p, keeping, states, count);
                    count = count_use(judged.said, count);
                    i = judged.next;
                }
            },
        }
    }
}
