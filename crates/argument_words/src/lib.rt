// Arguments of `ti expand` as words of its command line (document 02, 2026-07). Proved: `parse` gives what
// specs/Argument.antt says of every word. Assumed: nothing.
#![tactic(auto)]

ghost use Rattle.std.specs.Prelude.{◌≡◌};
ghost use Rattle.number_words.specs.Number.{is_numeral};
ghost use Rattle.argument_words.specs.Argument.{unsigned, number_of, argument_of};

// What a word is as an argument.
#[derive(Clone, Copy)]
pub enum ArgumentWord {
    Number(i32),
    // where the text starts in the word: behind its `=`, or at its first byte
    Text(usize),
}

// Whether a word is decimal digits, after a minus or not.
fn is_decimal(word: &[u8]) -> bool
    ensures { result ≡ is_numeral (unsigned word.now) }
{
    match word.strip_prefix(b"-") {
        Some(digits) => number_words::is_numeral(digits),
        None => number_words::is_numeral(word),
    }
}

// Digits as an argument.
fn number(value: Option<i32>) -> Option<ArgumentWord>
    ensures { result ≡ number_of value }
{
    value.map(ArgumentWord::Number)
}

// The argument that a word is; none for decimal digits whose value 32 bits with a sign don't hold.
pub fn parse(word: &[u8]) -> Option<ArgumentWord>
    ensures { result ≡ argument_of word.now }
{
    match word.strip_prefix(b"=") {
        Some(_) => Some(ArgumentWord::Text(1)),
        None if is_decimal(word) => number(number_words::parse(word)),
        None => Some(ArgumentWord::Text(0)),
    }
}
