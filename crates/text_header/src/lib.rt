// The header of a description (document 01: Source text). Proved: `header_at` is header_at of text/specs. Assumed:
// nothing.
#![tactic(auto)]

ghost use Rattle.std.specs.Prelude.{◌≡◌, ◌&&◌, ◌≤◌, length, drop};
ghost use Rattle.text.specs.declared.ByteClass.TheVariants as C;
ghost use Rattle.text.specs.Bytes.{run_end};
ghost use Rattle.text.specs.Heading.{names_in, made_of, right_names, long_alias, line_ends, header_at};

use text::{ALIAS_MOST, ByteClass, TextRefusal};

// The names are two at least, and each is right.
fn names_right(names: &[u8]) -> bool
    ensures { result ≡ right_names (names_in names.now) }
{
    let mut several = false;
    // a cursor that moves by a name's length: no range counts it
    let mut at = 0;
    loop {
        let end = text_bytes::run_end(names, ByteClass::Alias, at);
        if end <= at {
            return last_right(names, several, at);
        }
        if text_bytes::byte_at(names, end) != b'|' {
            return last_right(names, several, at);
        }
        several = true;
        at = end + 1;
    }
}

// The last name stands from at on and is right, and others stand before it.
fn last_right(names: &[u8], several: bool, at: usize) -> bool
    ensures { result ≡ (several && made_of C.LastName (drop at names.now)) }
{
    if !several {
        return false;
    }
    let end = text_bytes::run_end(names, ByteClass::LastName, at);
    at < end && end == names.len()
}

// A name but the last has more than 14 bytes.
fn alias_long(names: &[u8]) -> bool
    ensures { result ≡ long_alias (names_in names.now) }
{
    let mut start = 0;
    for (i, b) in names.iter().enumerate() {
        if *b == b'|' {
            if ALIAS_MOST < i - start {
                return true;
            }
            start = i + 1;
        }
    }
    false
}

// Only white space stands from at to the line's end.
fn line_ends(text: &[u8], at: usize) -> bool
    ensures { result ≡ line_ends text.now (run_end C.Blank text.now at) }
{
    let j = text_bytes::run_end(text, ByteClass::Blank, at);
    if text.len() <= j {
        return true;
    }
    text[j] == 10
}

// The header that starts at a place.
pub fn header_at(text: &[u8], at: usize) -> Result<usize, TextRefusal>
    requires { at ≤ length text.now }
    ensures { result ≡ header_at text.now at }
{
    let comma = text_bytes::run_end(text, ByteClass::Header, at);
    if text.len() <= comma {
        return Err(TextRefusal::Malformed);
    }
    if !names_right(&text[at..comma]) {
        return Err(TextRefusal::Malformed);
    }
    if !line_ends(text, comma + 1) {
        return Err(TextRefusal::Malformed);
    }
    if alias_long(&text[at..comma]) {
        return Err(TextRefusal::Limit);
    }
    Ok(comma)
}
