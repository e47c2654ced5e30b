// The variables a to z and A to Z (document 01: Expansion). Proved: each function is its definition of
// expansion/specs. Assumed: nothing.
#![tactic(auto)]

ghost use Rattle.std.specs.Prelude.{◌≡◌, List, ◌-◌, ℤ, pos, get_or, set};
ghost use Rattle.expansion.specs.Values.{Value};
ghost use Rattle.expansion.specs.Machine.{loaded, stored};
ghost use Rattle.variables.specs.Machines.{machine};

// How far a letter stands behind the first one.
fn letter_place(c: u8, first: u8) -> usize
    ensures { result ≡ c - first }
{
    if c < first { 0 } else { (c - first) as usize }
}

// The value at a place of a list, or 0 past its end.
fn value_at(values: &[i32], k: usize) -> i32
    ensures { result ≡ get_or values.now k (pos 0) }
{
    if k < values.len() { values[k] } else { 0 }
}

// Sets the value at a place, if the list has it.
fn set_value(values: &mut [i32], k: usize, v: i32)
    ensures { values.new ≡ set values.old k v }
{
    if k < values.len() {
        values[k] = v;
    }
}

// `%g`
pub fn load(locals: &[i32; 26], lasting: &[i32; 26], c: u8) -> i32
    ensures { (stack arguments : List Value)
        → result ≡ loaded (machine stack arguments locals.now lasting.now) c }
{
    if c <= b'Z' {
        value_at(lasting, letter_place(c, b'A'))
    } else {
        value_at(locals, letter_place(c, b'a'))
    }
}

// `%P`
pub fn store(locals: &mut [i32; 26], lasting: &mut [i32; 26], c: u8, v: i32)
    ensures { (stack arguments : List Value)
        → machine stack arguments locals.new lasting.new ≡ stored
        (machine stack arguments locals.old lasting.old) c v }
{
    if c <= b'Z' {
        set_value(lasting, letter_place(c, b'A'), v);
    } else {
        set_value(locals, letter_place(c, b'a'), v);
    }
}
