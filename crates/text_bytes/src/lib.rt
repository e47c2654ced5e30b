// The bytes of source text, their classes and runs of a class (document 01: Source text). Proved: each function
// answers every text and place as text/specs says. Assumed: nothing.
#![tactic(auto)]

ghost use Rattle.std.specs.Prelude.{◌≡◌, ◌+◌, ◌<◌, get_or};
ghost use Rattle.text.specs.Bytes.{digit_of, is_in, run_end};
ghost use Rattle.text.specs.declared.ByteClass.TheVariants as Classes;

use text::{ByteClass, NumberBase};

// The byte at a place of the text; 0 past its end.
pub fn byte_at(text: &[u8], at: usize) -> u8
    ensures { result ≡ get_or text.now at 0 }
{
    if at < text.len() { text[at] } else { 0 }
}

// The value of a digit; 16 for a byte that is none.
pub fn digit(b: u8) -> u8
    ensures { result ≡ digit_of b }
{
    match b {
        48..=57 => b - 48,
        65..=70 => b - 55,
        97..=102 => b - 87,
        _ => 16,
    }
}

// The byte is of the class.
pub fn is_in(class: ByteClass, b: u8) -> bool
    ensures { result ≡ is_in class b }
{
    match class {
        ByteClass::Blank => b == b' ' || b == 9,
        ByteClass::Name => match b {
            b',' | b'=' | b'#' | b'@' => false,
            _ => 33 <= b && b <= 126,
        },
        ByteClass::Alias => match b {
            b',' | b'/' | b'|' => false,
            _ => 33 <= b && b <= 126,
        },
        ByteClass::LastName => match b {
            b',' | b'|' => false,
            _ => 32 <= b && b <= 126,
        },
        ByteClass::Line => b != 10,
        ByteClass::Header => b != b',',
        ByteClass::Digit(base) => match base {
            NumberBase::Octal => digit(b) < 8,
            NumberBase::Decimal => digit(b) < 10,
            NumberBase::Hexadecimal => digit(b) < 16,
        },
    }
}

// The first place from at on that holds no byte of the class, or the text's end. It is inlined, so that a caller with
// one class has a loop of its own, which tests each byte quicker.
#[inline(always)]
fn class_end(text: &[u8], class: ByteClass, at: usize) -> usize
    ensures { result ≡ run_end class text.now at }
{
    for i in at..text.len() {
        if !is_in(class, text[i]) {
            return i;
        }
    }
    at.max(text.len())
}

// The same for any class.
pub fn run_end(text: &[u8], class: ByteClass, at: usize) -> usize
    ensures { result ≡ run_end class text.now at }
{
    class_end(text, class, at)
}

// The same for a name.
pub fn name_end(text: &[u8], at: usize) -> usize
    ensures { result ≡ run_end Classes.Name text.now at }
{
    class_end(text, ByteClass::Name, at)
}

// The same for white space.
pub fn blanks_end(text: &[u8], at: usize) -> usize
    ensures { result ≡ run_end Classes.Blank text.now at }
{
    class_end(text, ByteClass::Blank, at)
}
