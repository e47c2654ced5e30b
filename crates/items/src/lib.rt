// The items of a right string, for its run (document 01: Expansion). The check for 14 has accepted them, so that no
// test is made that it has made. Proved: `item_at` reads `item_at` of the crate expansion at each right item. Assumed:
// nothing.
#![tactic(auto)]

ghost use Rattle.std.specs.Prelude.{◌≡◌};
ghost use Rattle.expansion.specs.declared.Item.TheVariants.{Number};
ghost use Rattle.expansion.specs.Items.{byte_at, lexed, braced_at, format_at, width_at, percent_at};
ghost use Rattle.item_parts.specs.Classes.{other_at};
ghost use Rattle.item_parts.specs.Right.{RightItem};
ghost use Rattle.items.specs.Parts.{Right, other_item, IfAt, LeftToOther};
ghost use Rattle.items.specs.declared.RunItem.TheVariants.{Other};
ghost use Rattle.items.specs.Reading.{ReadAs};

use expansion::{Base, Item, Operator};

// An item as the run reads it: those that it takes by itself, and any other with the place behind it. Flat, and not a
// place beside an `Item`, since the run has one match on it, and the place of most is told by the item alone.
#[derive(Clone, Copy)]
pub enum RunItem {
    // a byte that stands for itself
    Byte(u8),
    // %p1 to %p9, counted from 0
    Argument(usize),
    // %?, an argument and %t in a row
    Test(usize),
    // %d %o %x %X with their fill and width
    Number {
        base: Base,
        zero: bool,
        width: u8,
        next: usize,
    },
    // %'b' and %{digits}
    Constant {
        value: i32,
        next: usize,
    },
    // %? %t %e %;
    If,
    Then,
    Else,
    End,
    // %i
    Increment,
    // %s
    Text,
    // %l
    Length,
    Other {
        item: Item,
        next: usize,
    },
}

fn other(item: Item, next: usize) -> RunItem
    ensures { result ≡ Other item next }
{
    RunItem::Other {
        item: item,
        next: next,
    }
}

fn number(base: Base, zero: bool, width: u8, next: usize) -> RunItem
    ensures { result ≡ other_item (lexed (Number base zero width) next) }
{
    RunItem::Number {
        base: base,
        zero: zero,
        width: width,
        next: next,
    }
}

fn braced_at(s: &[u8], j: usize) -> RunItem
    requires { Right (braced_at s.now j) }
    ensures { result ≡ other_item (braced_at s.now j) }
{
    let mut i = j + 1;
    let mut v: u64 = 0;
    // the `}` ends the digits of a right constant: a range has a test for the string's end besides
    while s[i] != b'}' {
        v = v * 10 + (s[i] - b'0') as u64;
        i += 1;
    }
    RunItem::Constant {
        value: v as i32,
        next: i + 1,
    }
}

fn format_at(s: &[u8], k: usize, zero: bool, width: u8) -> RunItem
    requires { Right (format_at s.now k zero width) }
    ensures { result ≡ other_item (format_at s.now k zero width) }
{
    let c = s[k];
    let next = k + 1;
    match c {
        b'd' => number(Base::Decimal, zero, width, next),
        b'o' => number(Base::Octal, zero, width, next),
        b'x' => number(Base::SmallHex, zero, width, next),
        _ => number(Base::CapitalHex, zero, width, next),
    }
}

fn width_at(s: &[u8], k: usize, zero: bool) -> RunItem
    requires { Right (width_at s.now k zero) }
    ensures { result ≡ other_item (width_at s.now k zero) }
{
    let c = s[k];
    let d = s[k + 1];
    if d <= b'9' {
        format_at(s, k + 2, zero, (c - b'0') * 10 + (d - b'0'))
    } else {
        format_at(s, k + 1, zero, c - b'0')
    }
}

fn filled_at(s: &[u8], j: usize) -> RunItem
    requires { Right (other_at s.now j) }
    ensures { result ≡ other_item (other_at s.now j) }
{
    if s[j] == b'0' {
        width_at(s, j + 1, true)
    } else {
        width_at(s, j, false)
    }
}

fn other_at(s: &[u8], j: usize) -> RunItem
    requires { LeftToOther (byte_at s.now j) × Right (percent_at s.now j) }
    ensures { result ≡ other_item (percent_at s.now j) }
{
    let c = s[j];
    let next = j + 1;
    match c {
        b'P' => other(Item::Store(s[j + 1]), j + 2),
        b'g' => other(Item::Load(s[j + 1]), j + 2),
        b'%' => other(Item::Byte(b'%'), next),
        b'c' => other(Item::Character, next),
        b'd' => number(Base::Decimal, false, 0, next),
        b'o' => number(Base::Octal, false, 0, next),
        b'x' => number(Base::SmallHex, false, 0, next),
        b'X' => number(Base::CapitalHex, false, 0, next),
        b'+' => other(Item::Binary(Operator::Add), next),
        b'-' => other(Item::Binary(Operator::Subtract), next),
        b'*' => other(Item::Binary(Operator::Multiply), next),
        b'/' => other(Item::Binary(Operator::Divide), next),
        b'm' => other(Item::Binary(Operator::Remainder), next),
        b'&' => other(Item::Binary(Operator::BitAnd), next),
        b'|' => other(Item::Binary(Operator::BitOr), next),
        b'^' => other(Item::Binary(Operator::BitXor), next),
        b'=' => other(Item::Binary(Operator::Equal), next),
        b'>' => other(Item::Binary(Operator::Greater), next),
        b'<' => other(Item::Binary(Operator::Less), next),
        b'A' => other(Item::Binary(Operator::And), next),
        b'O' => other(Item::Binary(Operator::Or), next),
        b'!' => other(Item::Not, next),
        b'~' => other(Item::Invert, next),
        _ => filled_at(s, j),
    }
}

// The `%?` at a place, with the argument that is tested right behind it.
fn condition(s: &[u8], i: usize) -> RunItem
    requires { IfAt s.now i }
    ensures { ReadAs s.now i result }
{
    if item_parts::tests_argument(s, i + 2) {
        RunItem::Test((s[i + 4] - b'1') as usize)
    } else {
        RunItem::If
    }
}

// The right item that starts at a place.
pub fn item_at(s: &[u8], i: usize) -> RunItem
    requires { RightItem s.now i }
    ensures { ReadAs s.now i result }
{
    let c = s[i];
    if c != b'%' {
        return RunItem::Byte(c);
    }
    match s[i + 1] {
        b'p' => RunItem::Argument((s[i + 2] - b'1') as usize),
        b'\'' => RunItem::Constant {
            value: s[i + 2] as i32,
            next: i + 4,
        },
        b'{' => braced_at(s, i + 1),
        b'?' => condition(s, i),
        b't' => RunItem::Then,
        b'e' => RunItem::Else,
        b';' => RunItem::End,
        b'i' => RunItem::Increment,
        b's' => RunItem::Text,
        b'l' => RunItem::Length,
        _ => other_at(s, i + 1),
    }
}
