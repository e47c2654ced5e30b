// The machine that expands a string, item by item (document 01: Expansion): how many values an item pops, and what an
// item that needs neither the arguments nor another place does once its values are popped. Proved: each function is
// its definition of expansion/specs. Assumed: nothing.
#![tactic(auto)]

ghost use Rattle.std.specs.Prelude.{◌≡◌, List, ℤ, ◌≤◌};
ghost use Rattle.print.specs.Bounds.{output_most};
ghost use Rattle.expansion.specs.Values.{Value, number};
ghost use Rattle.expansion.specs.Machine.{arity, effect};
ghost use Rattle.item_parts.specs.Right.{Simple};
ghost use Rattle.variables.specs.Machines.{machine};
ghost use Rattle.machine.specs.Steps.{SteppedAs};

use expansion::Item;
use variables::{load, store};

// What an item comes to once its values are popped: a value to push, or the output's length.
#[derive(Clone, Copy)]
pub enum Step {
    Push(i32),
    Go(usize),
}

// How many values an item pops.
#[tactic(auto, unfolding(expansion::specs::Machine::arity))]
pub fn arity(item: Item) -> usize
    ensures { result ≡ arity item }
{
    match item {
        Item::Binary(_) => 2,
        Item::Number { .. }
        | Item::Character
        | Item::Text
        | Item::Length
        | Item::Store(_)
        | Item::Not
        | Item::Invert
        | Item::Then => 1,
        _ => 0,
    }
}

// Takes an item whose values are popped: a is the left operand, b the last value pushed.
pub fn take(
    item: Item,
    a: i32,
    b: i32,
    locals: &mut [i32; 26],
    lasting: &mut [i32; 26],
    out: &mut [u8],
    written: usize,
) -> Step
    requires { (written ≤ output_most) × Simple item }
    ensures { (stack arguments : List Value)
        → SteppedAs (effect item (machine stack arguments locals.old lasting.old) (number a)
        (number b)) written (machine stack arguments locals.old lasting.old)
        (machine stack arguments locals.new lasting.new) out.old out.new result }
{
    match item {
        Item::Byte(c) => {
            print::put_byte(out, written, c);
            Step::Go(written + 1)
        }
        Item::Character => {
            print::put_byte(out, written, characters::byte_of(b));
            Step::Go(written + 1)
        }
        Item::Store(c) => {
            store(locals, lasting, c, b);
            Step::Go(written)
        }
        Item::Load(c) => Step::Push(load(locals, lasting, c)),
        Item::Binary(o) => Step::Push(operators::applied(o, a, b)),
        Item::Not => Step::Push(operators::negated(b)),
        Item::Invert => Step::Push(operators::inverted(b)),
        _ => Step::Go(written),
    }
}
