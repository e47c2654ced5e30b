// The run of a parameterized string whose form is right (document 01: Expansion). Proved: `run` comes to what `run`
// of expansion/specs gives, in at most as many steps as the string has bytes, with at most 25 times as many bytes of
// output and a text for each `%s`. Assumed: nothing. The nine arguments come by value, and stand beside the stack:
// what touches either is a step of the run itself, and an item's own function sees numbers only.
#![tactic(auto)]

ghost use Rattle.std.specs.Prelude.{◌≡◌, ◌≤◌, length, Ok};
ghost use Rattle.expansion.specs.Limits.{string_most};
ghost use Rattle.expansion.specs.Form.{form_of};
ghost use Rattle.expansion.specs.Machine.{run};
ghost use Rattle.expansion.specs.Arguments.{values_of};
ghost use Rattle.arguments.specs.Judged.{AllJudged};
ghost use Rattle.expand_run.specs.Runs.{RunAs, refusal_of};

use expansion::{Argument, ExpansionRefusal, Operand, Output};
use items::RunItem;
use machine::Step;

// The stack's places.
const STACK_MOST: usize = 20;

// Why a run stops: at an item's place with the stack empty or full, or with a value of the other kind on it.
#[derive(Clone, Copy)]
pub enum RunRefusal {
    Empty(usize),
    Full(usize),
    Kind(usize),
}

impl From<RunRefusal> for ExpansionRefusal {
    ghost from_gives = { λ refusal result. result ≡ refusal_of refusal };

    fn from(refusal: RunRefusal) -> ExpansionRefusal {
        match refusal {
            RunRefusal::Empty(i) => ExpansionRefusal::Empty(i),
            RunRefusal::Full(i) => ExpansionRefusal::Full(i),
            RunRefusal::Kind(i) => ExpansionRefusal::Kind(i),
        }
    }
}

// Runs a string from its start, and prints from the buffer's first byte on what fits; the length counts in any case.
pub fn run(
    s: &[u8],
    arguments: [Argument; 9],
    texts: &[u8],
    lasting: &mut [i32; 26],
    out: &mut [u8],
) -> Result<Output, RunRefusal>
    requires { (length s.now ≤ string_most) × (form_of s.now ≡ Ok tt) × AllJudged texts.now arguments }
    ensures { RunAs s.now arguments
        (run s.now (values_of texts.now arguments) lasting.old) out.old result
        lasting.new out.new }
{
    let mut given = arguments;
    let mut stack = [Operand::Number(0); STACK_MOST];
    let mut locals = [0i32; 26];
    let mut depth: usize = 0;
    let mut i: usize = 0;
    let mut steps: usize = 0;
    let mut length: usize = 0;
    while i < s.len() { // an item has no fixed size, and a condition goes past many: no range counts i
        steps += 1;
        match items::item_at(s, i) {
            RunItem::Byte(c) => {
                print::put_byte(out, length, c);
                length += 1;
                i += 1;
            }
            RunItem::Argument(n) => {
                if STACK_MOST <= depth {
                    return Err(RunRefusal::Full(i));
                }
                stack[depth] = given[n].operand;
                depth += 1;
                i += 3;
            }
            RunItem::Test(n) => {
                if STACK_MOST <= depth {
                    return Err(RunRefusal::Full(i + 2));
                }
                let Operand::Number(v) = given[n].operand else {
                    return Err(RunRefusal::Kind(i + 5));
                };
                steps += 2;
                if v == 0 {
                    i = level_end::pass(s, i + 7, true);
                } else {
                    i += 7;
                }
            }
            RunItem::Number {
                base,
                zero,
                width,
                next,
            } => {
                if depth < 1 {
                    return Err(RunRefusal::Empty(i));
                }
                depth -= 1;
                let Operand::Number(v) = stack[depth] else {
                    return Err(RunRefusal::Kind(i)); // a text is no number
                };
                length += print::put_number(out, length, base, zero, width, v);
                i = next;
            }
            RunItem::Constant { value, next } => {
                if STACK_MOST <= depth {
                    return Err(RunRefusal::Full(i));
                }
                stack[depth] = Operand::Number(value);
                depth += 1;
                i = next;
            }
            RunItem::Increment => {
                given[0] = arguments::raised(given[0]);
                given[1] = arguments::raised(given[1]);
                i += 2;
            }
            RunItem::Text => {
                if depth < 1 {
                    return Err(RunRefusal::Empty(i));
                }
                depth -= 1;
                let Operand::Text { start, length: n } = stack[depth] else {
                    return Err(RunRefusal::Kind(i));
                };
                print_text::put_text(out, length, texts, start, n);
                length += n;
                i += 2;
            }
            RunItem::Length => {
                if depth < 1 {
                    return Err(RunRefusal::Empty(i));
                }
                let Operand::Text { length: n, .. } = stack[depth - 1] else {
                    return Err(RunRefusal::Kind(i));
                };
                stack[depth - 1] = Operand::Number(n as i32);
                i += 2;
            }
            RunItem::If => i += 2,
            RunItem::End => i += 2,
            RunItem::Else => i = level_end::pass(s, i + 2, false),
            RunItem::Then => {
                if depth < 1 {
                    return Err(RunRefusal::Empty(i));
                }
                depth -= 1;
                let Operand::Number(v) = stack[depth] else {
                    return Err(RunRefusal::Kind(i));
                };
                if v == 0 {
                    i = level_end::pass(s, i + 2, true);
                } else {
                    i += 2;
                }
            }
            RunItem::Other { item, next } => {
                let pops = machine::arity(item);
                let mut a: i32 = 0;
                let mut b: i32 = 0;
                if 0 < pops {
                    if depth < pops {
                        return Err(RunRefusal::Empty(i)); // 15 comes before 21
                    }
                    let Operand::Number(top) = stack[depth - 1] else {
                        return Err(RunRefusal::Kind(i));
                    };
                    b = top;
                    if 1 < pops {
                        let Operand::Number(below) = stack[depth - 2] else {
                            return Err(RunRefusal::Kind(i));
                        };
                        a = below;
                    }
                    depth -= pops;
                }
                match machine::take(item, a, b, &mut locals, lasting, out, length) {
                    Step::Go(written) => {
                        length = written;
                        i = next;
                    }
                    Step::Push(v) => {
                        if STACK_MOST <= depth {
                            return Err(RunRefusal::Full(i));
                        }
                        stack[depth] = Operand::Number(v);
                        depth += 1;
                        i = next;
                    }
                }
            }
        }
    }
    Ok(Output { length, steps })
}
