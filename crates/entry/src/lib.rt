// The compiled entry's numbers and types: what calls take and what they answer. The meaning of all of them is in
// specs/.
#![tactic(auto)]

// The header's first short.
pub const MAGIC: usize = 282;

// The header's bytes: six shorts.
pub const HEADER_SIZE: usize = 12;

// A file's most bytes.
pub const FILE_MOST: usize = 4096;

// The bytes of a number's slot and of a string's slot.
pub const NUMBER_WIDTH: usize = 2;

pub const OFFSET_WIDTH: usize = 2;

// The most that a header's short may hold.
pub const SHORT_MOST: usize = 32767;

// The largest number of a present capability.
pub const NUMBER_MOST: u32 = 32767;

// A names size, with the NUL.
pub const NAMES_LEAST: usize = 2;

pub const NAMES_MOST: usize = 128;

// The names that the writer's caller hands over, without a NUL.
pub const GIVEN_NAMES_LEAST: usize = 1;

pub const GIVEN_NAMES_MOST: usize = 127;

// A string's most bytes, from the writer's caller and from text.
pub const CONTENT_MOST: usize = 1000;

// The boolean byte of a cancelled capability.
pub const CANCELLED_BYTE: u8 = 254;

// The marks of a slot of two bytes, and the first number that it can't present.
pub const ABSENT_MARK: usize = 65535;

pub const CANCELLED_MARK: usize = 65534;

pub const HALF: usize = 32768;

// The kinds of a state that is handed over; any other number is no kind.
pub const ABSENT: u8 = 0;

pub const PRESENT: u8 = 1;

pub const CANCELLED: u8 = 2;

// An offset into the string table. Never a place of a list.
#[derive(Clone, Copy, PartialEq, Eq)]
pub struct Offset(pub usize);

// The sizes in a file's header, after the magic: names with their NUL, the three lists' slots, the string table.
#[derive(Clone, Copy, PartialEq, Eq)]
pub struct Sizes {
    pub names: usize,
    pub booleans: usize,
    pub numbers: usize,
    pub strings: usize,
    pub table: usize,
}

// Where an accepted file's tables start and how many slots each list has. The names start at byte 12, and the string
// table ends where the file ends.
#[derive(Clone, Copy, PartialEq, Eq)]
pub struct Tables {
    pub booleans: usize,
    pub numbers: usize,
    pub strings: usize,
    pub booleans_at: usize,
    pub numbers_at: usize,
    pub strings_at: usize,
    pub table_at: usize,
}

// How many slots of a file lie beyond an edition, in each list.
#[derive(Clone, Copy, PartialEq, Eq)]
pub struct Beyond {
    pub booleans: usize,
    pub numbers: usize,
    pub strings: usize,
}

// A part of a file: length bytes from start on.
#[derive(Clone, Copy, PartialEq, Eq)]
pub struct Part {
    pub start: usize,
    pub length: usize,
}

// Why a file is refused: document 01's numbers 1 to 7; 4 to 7 with the position in the file of the first offending
// byte or slot.
#[derive(Clone, Copy, PartialEq, Eq)]
pub enum FileRefusal {
    // 1: wrong length
    Length,
    // 2: magic not 282
    Magic,
    // 3: a header short above 32,767, or a names size outside 2 to 128; of opening, also an edition that is too large
    Counts,
    // 4: names
    Names(usize),
    // 5: boolean or pad byte
    Boolean(usize),
    // 6: number slot
    Number(usize),
    // 7: string slot
    Slot(usize),
}

// What opening a file in an edition gives.
#[derive(Clone, Copy, PartialEq, Eq)]
pub struct Opening {
    pub tables: Tables,
    pub beyond: Beyond,
}

// A capability's state. A boolean is present bare, a number with its value, a string with its content, which is that
// part of the file. Where a call answers `None` in place of a state it is 17: opening would refuse, or the place is
// beyond the edition.
#[derive(Clone, Copy, PartialEq, Eq)]
pub enum State<T> {
    Absent,
    Cancelled,
    Present(T),
}

// The states handed to the writer, by place. Kinds are numbers, not `State`s: the C interface lends them so, and a
// number that is no kind is refused. Each list may be longer than an edition counts.
#[derive(Clone, Copy)]
pub struct Numbers<'a> {
    pub kinds: &'a [u8],
    pub values: &'a [u32],
}

// Each present string is lengths bytes, from starts on, of what is lent.
#[derive(Clone, Copy)]
pub struct Strings<'a> {
    pub kinds: &'a [u8],
    pub starts: &'a [usize],
    pub lengths: &'a [usize],
}

#[derive(Clone, Copy)]
pub struct States<'a> {
    pub boolean_kinds: &'a [u8],
    pub numbers: Numbers<'a>,
    pub strings: Strings<'a>,
}

// Why nothing is written. A file that is written is answered by its length.
#[derive(Clone, Copy, PartialEq, Eq)]
pub enum WriteRefusal {
    // 3: the edition is too large, or there are fewer states than it counts
    Counts,
    // 4: names
    Names,
    // 7: a string that isn't in what was lent
    Lent,
    // 13: past a limit
    Limit,
    // 9: the file would be longer than 4,096 bytes
    Size,
    // 8: the buffer is too short; the file's length
    Room(usize),
}

// Why nothing is merged. A merged file is answered by its length.
#[derive(Clone, Copy, PartialEq, Eq)]
pub enum MergeRefusal {
    // 3: the edition is too large
    Edition,
    // 1 to 7 of the first file, with 1 before the position that 4 to 7 give
    First(FileRefusal),
    // 1 to 7 of the second file, with 2 before it
    Second(FileRefusal),
    // 9: the file would be longer than 4,096 bytes
    Size,
    // 8: the buffer is too short; the file's length
    Room(usize),
}
