// The classes of items: what an item is to the conditionals around it, and the place behind it, without the item
// itself (document 01: Expansion). Proved: `class_at` is class_at of the crate expansion at each place of each string.
// Assumed: nothing.
#![tactic(auto)]

ghost use Rattle.std.specs.Prelude.{◌≡◌, Bool, ℕ, ◌+◌, ◌≤◌, ◌<◌, length};
ghost use Rattle.expansion.specs.Items.{argument_at, quoted_at, braced_at, store_at, load_at, format_at, width_at};
ghost use Rattle.expansion.specs.Items.{percent_at};
ghost use Rattle.expansion.specs.Form.{class_at};
ghost use Rattle.item_parts.specs.Classes.{item_class, other_at};

use expansion::{Class, Classed};
use item_parts::{braced_at, byte_at, classed, is_digit, is_letter, is_nonzero, is_quoted};

fn format_class(s: &[u8], k: usize) -> Classed
    requires { k ≤ length s.now + 3 }
    ensures { (zero : Bool) (width : ℕ) → result ≡ item_class (format_at s.now k zero width) }
{
    let c = byte_at(s, k);
    let next = k + 1;
    match c {
        b'd' | b'o' | b'x' | b'X' => Classed {
            class: Class::Plain,
            next: next,
        },
        _ => Classed {
            class: Class::Wrong,
            next: k,
        },
    }
}

fn width_class(s: &[u8], k: usize) -> Classed
    requires { k ≤ length s.now + 1 }
    ensures { (zero : Bool) → result ≡ item_class (width_at s.now k zero) }
{
    if !is_nonzero(byte_at(s, k)) {
        return Classed {
            class: Class::Wrong,
            next: k,
        };
    }
    if is_digit(byte_at(s, k + 1)) {
        format_class(s, k + 2)
    } else {
        format_class(s, k + 1)
    }
}

fn quoted_class(s: &[u8], j: usize) -> Classed
    requires { j ≤ length s.now }
    ensures { result ≡ item_class (quoted_at s.now j) }
{
    if is_quoted(s, j) {
        Classed {
            class: Class::Plain,
            next: j + 3,
        }
    } else {
        Classed {
            class: Class::Wrong,
            next: j,
        }
    }
}

fn constant_class(s: &[u8], j: usize) -> Classed
    requires { j ≤ length s.now }
    ensures { result ≡ item_class (braced_at s.now j) }
{
    match braced_at(s, j) {
        Some(constant) => Classed {
            class: Class::Plain,
            next: constant.next,
        },
        None => Classed {
            class: Class::Wrong,
            next: j,
        },
    }
}

fn variable_class(s: &[u8], j: usize) -> Classed
    requires { j ≤ length s.now }
    ensures { (result ≡ item_class (store_at s.now j)) × (result ≡ item_class (load_at s.now j)) }
{
    if is_letter(byte_at(s, j + 1)) {
        Classed {
            class: Class::Plain,
            next: j + 2,
        }
    } else {
        Classed {
            class: Class::Wrong,
            next: j,
        }
    }
}

fn argument_class(s: &[u8], j: usize) -> Classed
    requires { j ≤ length s.now }
    ensures { result ≡ item_class (argument_at s.now j) }
{
    if is_nonzero(byte_at(s, j + 1)) {
        Classed {
            class: Class::Plain,
            next: j + 2,
        }
    } else {
        Classed {
            class: Class::Wrong,
            next: j,
        }
    }
}

fn other_class(s: &[u8], j: usize) -> Classed
    requires { j ≤ length s.now }
    ensures { result ≡ item_class (other_at s.now j) }
{
    let c = byte_at(s, j);
    if c == b'0' {
        return width_class(s, j + 1);
    }
    if is_nonzero(c) {
        return width_class(s, j);
    }
    Classed {
        class: Class::Wrong,
        next: j + 1,
    }
}

// The class of the item whose second byte is at a place.
fn percent_class(s: &[u8], j: usize) -> Classed
    requires { j ≤ length s.now }
    ensures { result ≡ item_class (percent_at s.now j) }
{
    let c = byte_at(s, j);
    let next = j + 1;
    match c {
        b'p' => argument_class(s, j),
        b'\'' => quoted_class(s, j),
        b'{' => constant_class(s, j),
        b'P' | b'g' => variable_class(s, j),
        b'%' | b'c' | b'o' | b'x' | b'X' | b'!' | b'~' | b'i' => classed(Class::Plain, next),
        b'+' | b'-' | b'/' | b'm' | b'|' | b'^' | b'=' | b's' => classed(Class::Plain, next),
        b'*' | b'&' | b'<' | b'>' | b'A' | b'O' | b'd' | b'l' => classed(Class::Plain, next),
        b'?' => classed(Class::If, next),
        b't' => classed(Class::Then, next),
        b'e' => classed(Class::Else, next),
        b';' => classed(Class::End, next),
        _ => other_class(s, j),
    }
}

// The class of the item that starts at a place.
pub fn class_at(s: &[u8], i: usize) -> Classed
    requires { i < length s.now }
    ensures { result ≡ class_at s.now i }
{
    let c = s[i];
    if c == 0 {
        return Classed {
            class: Class::Wrong,
            next: i + 1,
        };
    }
    if c == b'%' {
        return percent_class(s, i + 1);
    }
    Classed {
        class: Class::Plain,
        next: i + 1,
    }
}
