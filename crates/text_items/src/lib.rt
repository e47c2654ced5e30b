// How many `%s` items a parameterized string has, those that are passed over included (document 02, 2026-07). Proved:
// `count` is count_of prints_text of expansion/specs for each string. Assumed: nothing.
#![tactic(auto)]

ghost use Rattle.std.specs.Prelude.{◌≡◌, ◌<◌, length};
ghost use Rattle.expansion.specs.Counting.{count_of, prints_text};
ghost use Rattle.expansion_laws.specs.Counts.{count_one};

use item_classes::class_at;
use item_parts::byte_at;

// 1 where the item that starts at a place is `%s`, else 0.
fn texts_at(s: &[u8], i: usize) -> usize
    requires { i < length s.now }
    ensures { result ≡ count_one prints_text s.now i }
{
    if s[i] != b'%' {
        return 0;
    }
    if byte_at(s, i + 1) != b's' {
        return 0;
    }
    1
}

// The `%s` items of a string.
pub fn count(s: &[u8]) -> usize
    ensures { result ≡ count_of prints_text s.now }
{
    let mut n: usize = 0;
    // a cursor that moves by an item's size: no range counts it
    let mut i: usize = 0;
    while i < s.len() {
        n += texts_at(s, i);
        i = class_at(s, i).next;
    }
    n
}
