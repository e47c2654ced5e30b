// The name in a use: the content of its string, as far as it can be an alias (document 02, 2026-02). Proved: `read`
// reads what read_at of text/specs gives. Assumed: nothing.
#![tactic(auto)]

ghost use Rattle.std.specs.Prelude.{◌≤◌, length};
ghost use Rattle.text.specs.Heading.{alias_most};
ghost use Rattle.used_name.specs.Reads.{ReadsName};

use escapes::{item_at, stored_byte};
use text::{ALIAS_MOST, StringItem};

// Reads the name whose string starts at a place into `name`, and answers how many bytes it has, or None where it has
// more than an alias may have. A malformed string may be read as the empty name.
pub fn read(text: &[u8], start: usize, name: &mut [u8]) -> Option<usize>
    requires { alias_most ≤ length name.old }
    ensures { ReadsName result text.now start name.new }
{
    let mut i = start;
    let mut n = 0;
    // the place moves by the items' sizes, so no range counts it
    while i < text.len() {
        match item_at(text, i) {
            StringItem::End => {
                return Some(n);
            }
            StringItem::Byte(b, k) => {
                if ALIAS_MOST <= n {
                    return None;
                }
                name[n] = stored_byte(b);
                n += 1;
                i = k;
            }
            StringItem::Removed(k) => {
                i = k;
            }
            StringItem::Malformed => {
                return Some(0);
            }
        }
    }
    Some(0)
}
