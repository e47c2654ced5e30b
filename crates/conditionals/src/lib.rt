// The check for 14: the form of a parameterized string, item by item (document 01: Expansion; Numbers of refusal, 14).
// Proved: `nest` is nested of specs/, and `form_of` is form_of of the crate expansion for each string. Assumed:
// nothing. The number kept along the items holds the open conditionals, two bits each, the innermost lowest: 1 a
// condition from `%?` on, 2 a body, 3 what follows `%e`. Items that are quickly told are passed by `scan`, any other
// is judged by its class.
#![tactic(auto)]

ghost use Rattle.std.specs.Prelude.{◌≡◌, ◌+◌, ◌≤◌, ◌<◌, length};
ghost use Rattle.expansion.specs.Form.{form_of};
ghost use Rattle.conditionals.specs.Walk.{nested_most, nested};
ghost use Rattle.conditionals.specs.Scan.{PercentAt, QuickAs, ScannedAs};
ghost use Rattle.conditionals.specs.Scan.{QuickIf, QuickBraced, QuickArgument};
ghost use Rattle.conditionals.specs.declared.Quick.TheVariants as Quick;

use expansion::Class;

// The number from which on 16 conditionals are open.
const NEST_FULL: u64 = 1073741824;

// What is quickly told of a place: the class of its item and the place behind it; that `%?`, an argument and `%t`
// stand there, with the place behind them; or nothing. Three ways of one match, so no `Option` of two.
#[derive(Clone, Copy)]
enum Quick {
    Item { class: Class, next: usize },
    Test(usize),
    Slow,
}

// How far a scan has come: a place, and the number kept there.
#[derive(Clone, Copy)]
struct Scanned {
    at: usize,
    kept: u64,
}

// What an item of a class does to the open conditionals: the number then kept, or an error where it may not stand. (A
// test of an Option costs more here: in a Result the way on has the tag 0.)
pub fn nest(class: Class, kept: u64) -> Result<u64, ()>
    requires { kept ≤ nested_most }
    ensures { result ≡ nested class kept }
{
    match class {
        Class::Plain => Ok(kept),
        Class::If => if kept < NEST_FULL {
            Ok(kept * 4 + 1)
        } else {
            Err(())
        },
        Class::Then => if kept % 2 == 1 {
            Ok(kept / 4 * 4 + 2)
        } else {
            Err(())
        },
        Class::Else => if kept % 4 == 2 { Ok(kept + 1) } else { Err(()) },
        Class::End => if kept % 4 < 2 { Err(()) } else { Ok(kept / 4) },
        Class::Wrong => Err(()),
    }
}

fn quick_item(class: Class, next: usize) -> Quick
    ensures { result ≡ Quick.Item class next }
{
    Quick::Item {
        class: class,
        next: next,
    }
}

// The `%?` before a place.
fn quick_if(s: &[u8], i: usize) -> Quick
    requires { i ≤ length s.now }
    ensures { QuickIf s.now i result }
{
    if item_parts::tests_argument(s, i) {
        Quick::Test(i + 5)
    } else {
        quick_item(Class::If, i)
    }
}

// A constant of one or two digits, from behind its `{` on.
fn quick_braced(s: &[u8], j: usize) -> Quick
    requires { j ≤ length s.now }
    ensures { QuickBraced s.now j result }
{
    if s.len() < j + 3 {
        return Quick::Slow;
    }
    if !item_parts::is_digit(s[j]) {
        return Quick::Slow;
    }
    if s[j + 1] == b'}' {
        return quick_item(Class::Plain, j + 2);
    }
    if !item_parts::is_digit(s[j + 1]) {
        return Quick::Slow;
    }
    if s[j + 2] == b'}' {
        return quick_item(Class::Plain, j + 3);
    }
    Quick::Slow
}

// An argument, by its digit.
fn quick_argument(s: &[u8], k: usize) -> Quick
    requires { k < length s.now }
    ensures { QuickArgument s.now k result }
{
    if item_parts::is_nonzero(s[k]) {
        quick_item(Class::Plain, k + 1)
    } else {
        Quick::Slow
    }
}

// The item whose `%` is at a place with two bytes behind it.
fn quick_percent(s: &[u8], i: usize) -> Quick
    requires { PercentAt s.now i }
    ensures { QuickAs s.now i result }
{
    let c = s[i + 1];
    let next = i + 2;
    match c {
        b'p' => quick_argument(s, next),
        b'{' => quick_braced(s, next),
        b'%' | b'c' | b'o' | b'x' | b'X' | b'!' | b'~' | b'i' => quick_item(Class::Plain, next),
        b'+' | b'-' | b'/' | b'm' | b'|' | b'^' | b'=' | b's' => quick_item(Class::Plain, next),
        b'*' | b'&' | b'<' | b'>' | b'A' | b'O' | b'd' | b'l' => quick_item(Class::Plain, next),
        b'?' => quick_if(s, next),
        b't' => quick_item(Class::Then, next),
        b'e' => quick_item(Class::Else, next),
        b';' => quick_item(Class::End, next),
        _ => Quick::Slow,
    }
}

// What is quickly told of a place with two bytes behind it.
fn quick_at(s: &[u8], i: usize) -> Quick
    requires { i + 2 < length s.now }
    ensures { QuickAs s.now i result }
{
    let c = s[i];
    if b'%' < c {
        return quick_item(Class::Plain, i + 1);
    }
    if c == b'%' {
        return quick_percent(s, i);
    }
    if c == 0 {
        return Quick::Slow;
    }
    quick_item(Class::Plain, i + 1)
}

// Passes over the items that are quickly told, and stops at any other, right or wrong, at one that may not stand
// there, and at the last two places.
fn scan(s: &[u8], from: usize, before: u64) -> Scanned
    requires { before ≤ nested_most }
    ensures { ScannedAs s.now from before result }
{
    // a cursor that moves by an item's size: no range counts it
    let mut i: usize = from;
    let mut kept: u64 = before;
    let most = s.len().saturating_sub(2);
    while i < most {
        match quick_at(s, i) {
            Quick::Item { class, next } => match nest(class, kept) {
                Ok(k) => {
                    i = next;
                    kept = k;
                }
                Err(()) => return Scanned { at: i, kept: kept },
            },
            Quick::Test(next) => {
                if NEST_FULL <= kept {
                    return Scanned { at: i, kept: kept };
                }
                i = next;
                kept = kept * 4 + 2;
            }
            Quick::Slow => return Scanned { at: i, kept: kept },
        }
    }
    Scanned { at: i, kept: kept }
}

// The form of a string: where it is wrong, the place of its first wrong item.
pub fn form_of(s: &[u8]) -> Result<(), usize>
    ensures { result ≡ form_of s.now }
{
    // a cursor that moves by an item's size: no range counts it
    let mut i: usize = 0;
    let mut kept: u64 = 0;
    loop {
        let p = scan(s, i, kept);
        if s.len() <= p.at {
            return if p.kept == 0 { Ok(()) } else { Err(s.len()) };
        }
        let c = item_classes::class_at(s, p.at);
        let Ok(behind) = nest(c.class, p.kept) else {
            return Err(p.at);
        };
        i = c.next;
        kept = behind;
    }
}
