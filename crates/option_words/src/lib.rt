// What a word is where the options of a command may stand. Proved: `kind_of` gives what specs/Words.antt says of every
// word. Assumed: nothing.
#![tactic(auto)]

ghost use Rattle.std.specs.Prelude.{◌≡◌};
ghost use Rattle.option_words.specs.Words.{own_kind, kind_of};

// The option that a command has of its own.
#[derive(Clone, Copy)]
pub enum OwnOption {
    Nothing,
    // a letter behind `-`
    Flag(u8),
    // `-n NAME`
    Name,
}

// What a word is.
#[derive(Clone, Copy)]
pub enum WordKind {
    Operand,
    // `--`, behind which no option stands
    End,
    Flag,
    // `-e`, and the word behind it names the edition
    Edition,
    // `-n`, and the word behind it is the name
    Name,
    Unknown,
}

// What an option of one letter is that only some commands have.
#[tactic(auto, unfolding(crate::specs::Words::own_kind))]
fn own_kind(letter: u8, own: OwnOption) -> WordKind
    ensures { result ≡ own_kind letter own }
{
    match own {
        OwnOption::Flag(flag) if letter == flag => WordKind::Flag,
        OwnOption::Name if letter == b'n' => WordKind::Name,
        _ => WordKind::Unknown,
    }
}

// What a word is, by its bytes.
#[tactic(auto, unfolding(crate::specs::Words::kind_of))]
pub fn kind_of(word: &[u8], own: OwnOption) -> WordKind
    ensures { result ≡ kind_of word.now own }
{
    if word.len() < 2 || word[0] != b'-' {
        return WordKind::Operand;
    }
    if word.len() != 2 {
        return WordKind::Unknown;
    }
    match word[1] {
        b'-' => WordKind::End,
        b'e' => WordKind::Edition,
        letter => own_kind(letter, own),
    }
}
