// The walk to where a conditional's level ends (document 01: Expansion; document 02, 2026-06). It comes after the check
// for 14, and has no test for the string's end. Proved: `pass` ends just past the `%e` or `%;` that `PastLevel` of
// level_laws/specs/Levels.antt names. Assumed: nothing.
#![tactic(auto)]

ghost use Rattle.std.specs.Prelude.{◌≡◌, ◌≤◌, ◌<◌, length};
ghost use Rattle.expansion.specs.Limits.{string_most};
ghost use Rattle.level_laws.specs.Levels.{PastLevel, OpenAt};
ghost use Rattle.level_end.specs.Turns.{turn_of, inner_most};

use expansion::Class;

// How many conditionals are open inside the level behind an item of a class, of so many before it; none where the item
// ends the level, as `%e` does if elses is set.
fn opened(class: Class, elses: bool, inner: u64) -> Option<u64>
    requires { inner < inner_most }
    ensures { result ≡ turn_of elses class inner }
{
    match class {
        Class::Plain => Some(inner),
        Class::If => Some(inner + 1),
        Class::Then => Some(inner),
        Class::Else => if inner == 0 {
            if elses { None } else { Some(inner) }
        } else {
            Some(inner)
        },
        Class::End => if inner == 0 { None } else { Some(inner - 1) },
        Class::Wrong => Some(inner),
    }
}

// The place just past the item at which the level that is open at a place ends.
pub fn pass(s: &[u8], from: usize, elses: bool) -> usize
    requires { (length s.now ≤ string_most) × OpenAt s.now from 0 }
    ensures { PastLevel elses s.now from result }
{
    // a cursor that moves by an item's size: no range counts it
    let mut i: usize = from;
    let mut inner: u64 = 0;
    loop {
        let c = right_classes::class_at(s, i);
        let class = c.class;
        let next = c.next;
        match opened(class, elses, inner) {
            Some(n) => {
                i = next;
                inner = n;
            }
            None => return next,
        }
    }
}
