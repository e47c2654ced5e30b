// The types of parameterized strings and their expansion (document 01: Expansion). Their meaning is in specs/.
#![tactic(auto)]

// The base that a number is printed in.
#[derive(Clone, Copy)]
pub enum Base {
    Decimal,
    Octal,
    SmallHex,
    CapitalHex,
}

// An item that pops two values and pushes one.
#[derive(Clone, Copy)]
pub enum Operator {
    Add,
    Subtract,
    Multiply,
    Divide,
    Remainder,
    BitAnd,
    BitOr,
    BitXor,
    Equal,
    Greater,
    Less,
    And,
    Or,
}

// An item of a parameterized string.
#[derive(Clone, Copy)]
pub enum Item {
    // a byte that stands for itself; %%
    Byte(u8),
    // %p1 to %p9, counted from 0
    Argument(usize),
    // %d %o %x %X with their fill and width
    Number { base: Base, zero: bool, width: u8 },
    // %c
    Character,
    // %s
    Text,
    // %l
    Length,
    // %'b' and %{digits}
    Constant(i32),
    // %P and %g with a letter
    Store(u8),
    Load(u8),
    Binary(Operator),
    // %!
    Not,
    // %~
    Invert,
    // %i
    Increment,
    // %? %t %e %;
    If,
    Then,
    Else,
    End,
    // no item; no `None`, since every walk goes on from the place behind it
    Wrong,
}

// An item and the place behind it.
#[derive(Clone, Copy)]
pub struct Lexed {
    pub item: Item,
    pub next: usize,
}

// What an item is to the conditionals around it.
#[derive(Clone, Copy)]
pub enum Class {
    Plain,
    If,
    Then,
    Else,
    End,
    Wrong,
}

// An item's class and the place behind it.
#[derive(Clone, Copy)]
pub struct Classed {
    pub class: Class,
    pub next: usize,
}

// A number, or a text: where it starts in what was lent, and its length (document 02, 2026-07).
#[derive(Clone, Copy)]
pub enum Operand {
    Number(i32),
    Text { start: usize, length: usize },
}

// One of the nine arguments.
#[derive(Clone, Copy)]
pub struct Argument {
    pub operand: Operand,
}

// The lasting variables A to Z.
#[derive(Clone, Copy)]
pub struct Lasting {
    pub values: [i32; 26],
}

// The length of an expansion's output, and its steps.
#[derive(Clone, Copy)]
pub struct Output {
    pub length: usize,
    pub steps: usize,
}

// Why nothing is expanded.
#[derive(Clone, Copy)]
pub enum ExpansionRefusal {
    // 17: the output place is above the buffer's length, or a text doesn't lie in what was lent
    Place,
    // 1: the string, or a text, is longer than 1,000 bytes
    Length,
    // 14: malformed; the place of the first wrong item
    Malformed(usize),
    // 15: stack empty; the item's place
    Empty(usize),
    // 16: stack full; the item's place
    Full(usize),
    // 21: a value of the other kind is popped; the item's place
    Kind(usize),
    // 8: too little room; the output's length
    Room(usize),
}

// What expanding answers, and the lasting variables as they are afterwards.
#[derive(Clone, Copy)]
pub struct Expanded {
    pub answer: Result<Output, ExpansionRefusal>,
    pub lasting: Lasting,
}
