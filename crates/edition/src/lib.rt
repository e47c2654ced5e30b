// The three ordered lists of capabilities (document 01: Three ordered lists): editions, places, kinds.
#![tactic(auto)]

ghost use Rattle.std.specs.Prelude.{◌≡◌};
ghost use Rattle.edition.specs.Edition.{ok_edition};

// The most that an edition may count in each list.
pub const BOOLEANS_MOST: usize = 64;

pub const NUMBERS_MOST: usize = 64;

pub const STRINGS_MOST: usize = 512;

// An edition, document 01's term: how many places of each list it knows, counted from the list's first.
#[derive(Clone, Copy, PartialEq, Eq)]
pub struct Edition {
    pub booleans: usize,
    pub numbers: usize,
    pub strings: usize,
}

// A place, document 01's term: which capability of a list, counted from 0. Never an offset.
#[derive(Clone, Copy, PartialEq, Eq)]
pub struct Place(pub usize);

// The edition counts no more than document 01 allows in any list.
#[tactic(auto, unfolding(crate::specs::Edition::ok_edition))]
pub fn edition_ok(e: Edition) -> bool
    ensures { result ≡ ok_edition e }
{
    e.booleans <= BOOLEANS_MOST && e.numbers <= NUMBERS_MOST && e.strings <= STRINGS_MOST
}

// The three kinds of capability, a list for each.
#[derive(Clone, Copy, PartialEq, Eq)]
pub enum Kind {
    Boolean,
    Number,
    String,
}
