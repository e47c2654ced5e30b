// The classes of right items: the check for 14 has accepted them, so that no test is made for the string's end
// (document 02, 2026-06). Proved: `class_at` is class_at of the crate expansion at each right item. Assumed: nothing.
#![tactic(auto)]

ghost use Rattle.std.specs.Prelude.{◌≡◌, ◌+◌};
ghost use Rattle.expansion.specs.Items.{digits_end, percent_at};
ghost use Rattle.expansion.specs.Form.{class_at};
ghost use Rattle.item_parts.specs.Classes.{item_class};
ghost use Rattle.item_parts.specs.Right.{RightItem};
ghost use Rattle.right_classes.specs.Parts.{RightLexed, Closed, RightWidth, WidthEnd};

use expansion::{Class, Classed};
use item_parts::classed;

// The place behind the `}` of a constant whose digits start at a place.
fn braced_end(s: &[u8], j: usize) -> usize
    requires { Closed s.now j }
    ensures { result ≡ digits_end s.now j + 1 }
{
    let mut i: usize = j;
    // the `}` ends the digits of a right constant: a range has a test for the string's end besides
    while s[i] != b'}' {
        i += 1;
    }
    i + 1
}

// The place behind a number's format whose width is at a place: a byte up to '9' behind its first digit is a digit.
fn width_end(s: &[u8], k: usize) -> usize
    requires { RightWidth s.now k }
    ensures { WidthEnd s.now k result }
{
    if s[k + 1] <= b'9' { k + 3 } else { k + 2 }
}

// The class of the right item whose second byte is at a place.
fn percent_class(s: &[u8], j: usize) -> Classed
    requires { RightLexed (percent_at s.now j) }
    ensures { result ≡ item_class (percent_at s.now j) }
{
    let c = s[j];
    match c {
        b'?' => classed(Class::If, j + 1),
        b't' => classed(Class::Then, j + 1),
        b'e' => classed(Class::Else, j + 1),
        b';' => classed(Class::End, j + 1),
        b'p' => classed(Class::Plain, j + 2),
        b'P' => classed(Class::Plain, j + 2),
        b'g' => classed(Class::Plain, j + 2),
        b'\'' => classed(Class::Plain, j + 3),
        b'{' => classed(Class::Plain, braced_end(s, j + 1)),
        b'0' => classed(Class::Plain, width_end(s, j + 1)),
        b'1'..=b'9' => classed(Class::Plain, width_end(s, j)),
        _ => classed(Class::Plain, j + 1),
    }
}

// The class of the right item that starts at a place.
pub fn class_at(s: &[u8], i: usize) -> Classed
    requires { RightItem s.now i }
    ensures { result ≡ class_at s.now i }
{
    if s[i] == b'%' {
        return percent_class(s, i + 1);
    }
    classed(Class::Plain, i + 1)
}
