// Source text's numbers and types: what the parts of the compiler answer. The meaning of all of them is in specs/.
#![tactic(auto)]

ghost use Rattle.std.specs.Prelude.{◌≡◌};
ghost use Rattle.text.specs.declared.CompileRefusal.TheVariants.{Refused};

use edition::Place;

// A text's most bytes.
pub const TEXT_MOST: usize = 16384;

// A text's most descriptions.
pub const DESCRIPTIONS_MOST: usize = 64;

// An alias's most bytes.
pub const ALIAS_MOST: usize = 14;

// A number's most digits, and its most.
pub const DIGITS_MOST: usize = 99;

pub const NUMBER_MOST: usize = entry::NUMBER_MOST as usize;

// Classes of bytes.
#[derive(Clone, Copy)]
pub enum ByteClass {
    // space and tab
    Blank,
    // a byte of a capability's name
    Name,
    // a byte of a header's name, its last apart
    Alias,
    // a byte of a header's last name
    LastName,
    // all but the line end
    Line,
    // all but the comma
    Header,
    // a digit of a base
    Digit(NumberBase),
}

// The bases of numbers.
#[derive(Clone, Copy)]
pub enum NumberBase {
    Octal,
    Decimal,
    Hexadecimal,
}

// What stands at a place of a string.
#[derive(Clone, Copy)]
pub enum StringItem {
    // the comma that ends it
    End,
    // a byte, and the place past it
    Byte(u8, usize),
    // a line end and the white space after it, which are removed, and the place past them
    Removed(usize),
    Malformed,
}

// A string in the text.
#[derive(Clone, Copy)]
pub struct Content {
    // how many bytes it stands for
    pub length: usize,
    // the place of its comma
    pub comma: usize,
}

// What stands where a line or a field may begin, past blank lines and comment lines.
#[derive(Clone, Copy)]
pub enum Line {
    // the text's end
    End,
    // a byte in column 1
    Column(usize),
    // a byte after white space, or after a field on its line
    Indented(usize),
}

// What a field says of its capability.
#[derive(Clone, Copy)]
pub enum FieldForm {
    Boolean,
    Cancelled,
    Number(u32),
    // a number past a limit
    LargeNumber,
    // where the string starts in the text, and how many bytes it stands for
    String(usize, usize),
}

// A form in the text.
#[derive(Clone, Copy)]
pub struct Formed {
    pub form: FieldForm,
    // the place past it
    pub next: usize,
}

// A field.
#[derive(Clone, Copy)]
pub struct Field {
    pub dropped: bool,
    // the name's place and the place past it
    pub name: usize,
    pub end: usize,
    pub form: FieldForm,
    // the place past the comma
    pub next: usize,
}

// Why a text is refused: document 01's numbers 10, 11 and 13, document 02's 18 to 20.
#[derive(Clone, Copy)]
pub enum TextRefusal {
    // 10: malformed text
    Malformed,
    // 11: unknown name, or wrong kind
    Unknown,
    // 13: past a limit
    Limit,
    // 18: no description has the name
    NotFound,
    // 19: a chain of uses comes back to a description that is being worked on
    Circular,
    // 20: the ninth use of a chain
    NinthUse,
}

// What a field says, as the writer takes it: a capability's place, its kind (0 absent, 1 present, 2 cancelled) and
// its content. The kind is a number, since the arrays of states that C lends hold numbers.
#[derive(Clone, Copy)]
pub enum Said {
    // the field is dropped
    Nothing,
    Boolean(Place, u8),
    Number(Place, u8, u32),
    // where a present string starts in the text, and how many bytes it stands for
    String(Place, u8, usize, usize),
    // where the name of a used description starts in the text, and how many bytes it stands for
    Use(usize, usize),
}

// What a field says, and the place past it.
#[derive(Clone, Copy)]
pub struct Judged {
    pub said: Said,
    pub next: usize,
}

// A text's refusal, and its place: the field's first byte; a header's own for its refusals and its names' total, 0 for
// the text's first header and for the wanted name.
#[derive(Clone, Copy)]
pub struct TextRefused {
    pub why: TextRefusal,
    pub at: usize,
}

// Why nothing is compiled. A file that is compiled is answered by its length.
#[derive(Clone, Copy)]
pub enum CompileRefusal {
    // 3: the edition is too large
    Edition,
    // 1: the text is longer than 16,384 bytes
    Length,
    // 10, 11, 13 and 18 to 20
    Refused(TextRefused),
    // 9: the file would be longer than 4,096 bytes
    Size,
    // 8: the buffer is too short; the file's length
    Room(usize),
}

impl From<TextRefused> for CompileRefusal {
    ghost from_gives = { λ refused why. why ≡ Refused refused };

    fn from(refused: TextRefused) -> CompileRefusal {
        CompileRefusal::Refused(refused)
    }
}
