// Names of descriptions: which of them has a name, and where uses lead (document 02, 2026-02). Proved: each function
// answers as `has_name` and `having` of text/specs say. Assumed: nothing.
//
// A text has up to 3,276 uses. So that each is resolved quickly, a table has for each hash of a name the first
// description with such a name, and the search for a use's name starts there.
#![tactic(auto)]

ghost use Rattle.std.specs.Prelude.{◌≡◌, List, ◌≤◌, ◌<◌, length, IfSome};
ghost use Rattle.edition.specs.declared.Edition.{Edition};
ghost use Rattle.text.specs.Strings.{read_at, read_bytes};
ghost use Rattle.text.specs.Describing.{Description, descriptions_most};
ghost use Rattle.text.specs.Building.{has_name, having};
ghost use Rattle.compile_laws.specs.Listed.{Listed, HeadsIn, Targets};
ghost use Rattle.use_names.specs.Having.{says_named};
ghost use Rattle.use_names.specs.Searched.{BarOf, names_of, FoundFrom};
ghost use Rattle.use_names.specs.Hashed.{hashes_count, hash_more, hash_of, Firsts, Enters};

use text::ALIAS_MOST;
use uses::NO_TARGET;

// How many hashes there are.
const HASHES: usize = 4096;

// The first bar of the names.
fn bar_of(names: &[u8]) -> Option<usize>
    ensures { BarOf names.now result }
{
    names.iter().position(|b| *b == b'|')
}

// The names of a header have the name, as one that isn't the last.
pub fn has_name(names: &[u8], name: &[u8]) -> bool
    ensures { result ≡ has_name name.now names.now }
{
    let mut rest = names;
    while let Some(bar) = bar_of(rest) {
        if name == &rest[..bar] {
            return true;
        }
        rest = &rest[bar + 1..];
    }
    false
}

// The hash of a name's bytes so far and of one more. (Any factor would be right; this one parts usual names well.)
fn hash_more(hash: usize, b: u8) -> usize
    requires { hash < hashes_count }
    ensures { (result ≡ hash_more hash b) × (result < hashes_count) }
{
    (hash * 167 + b as usize) % HASHES
}

// The hash of a name.
fn hash_of(name: &[u8]) -> usize
    ensures { (result ≡ hash_of name.now) × (result < hashes_count) }
{
    let mut hash = 0;
    for b in name {
        hash = hash_more(hash, *b);
    }
    hash
}

// Enters a description at the hashes of its names, the last apart.
fn enter_names(names: &[u8], d: u8, firsts: &mut [u8; HASHES])
    requires { length firsts.old ≡ hashes_count }
    ensures { Enters names.now d firsts.old firsts.new }
{
    let mut hash = 0;
    for b in names {
        if *b == b'|' {
            firsts[hash] = d;
            hash = 0;
        } else {
            hash = hash_more(hash, *b);
        }
    }
}

// A description's number as a byte, its low one, which below 256 is the number. (A text has 64 at most.)
#[tactic(auto, using(crate::proofs::HashLaws::low_byte))]
fn byte_of(d: usize) -> u8
    ensures { d < 256 → result ≡ d }
{
    (d & 0xff) as u8
}

// Where the headers of a text's descriptions stand: each begins at its head, and its names end at its comma.
#[derive(Clone, Copy)]
pub struct Headers<'a> {
    pub text: &'a [u8],
    pub heads: &'a [usize],
    pub commas: &'a [usize],
    // how many descriptions there are
    pub count: usize,
    pub ghost inside: { HeadsIn text.now heads.now commas.now count },
}

impl<'a> Headers<'a> {
    // The names of the d-th description.
    fn names(&self, d: usize) -> &'a [u8]
        requires { d < self.now.count }
        ensures { result.now ≡ names_of self.now.text.now self.now.heads.now self.now.commas.now d }
    {
        &self.text[self.heads[d]..self.commas[d]]
    }

    // The first of the descriptions from one on that has a name.
    fn find_from(&self, name: &[u8], first: usize) -> Option<usize>
        ensures { FoundFrom result self.now.text.now self.now.heads.now self.now.commas.now self.now.count
            name.now first }
    {
        for d in first..self.count {
            if has_name(self.names(d), name) {
                return Some(d);
            }
        }
        None
    }

    // The first of the descriptions that has a name.
    pub fn find(&self, name: &[u8]) -> Option<usize>
        ensures { (e : Edition) (ds : List Description)
            → Listed e self.now.text.now self.now.heads.now self.now.commas.now self.now.count ds
            → says_named result ≡ having name.now ds }
    {
        self.find_from(name, 0)
    }

    // Enters all descriptions, the last first: at a hash of several names stands the first description that has one.
    fn enter_all(&self, firsts: &mut [u8; HASHES])
        requires { length firsts.old ≡ hashes_count }
        ensures { self.now.count ≤ descriptions_most
            → Firsts self.now.text.now self.now.heads.now self.now.commas.now self.now.count firsts.new 0 }
    {
        for d in (0..self.count).rev() {
            enter_names(self.names(d), byte_of(d), firsts);
        }
    }

    // The description that has a name, by the table.
    fn find_entered(&self, firsts: &[u8; HASHES], name: &[u8]) -> Option<usize>
        ensures named { Firsts self.now.text.now self.now.heads.now self.now.commas.now self.now.count firsts.now 0
            → (e : Edition) (ds : List Description)
            → Listed e self.now.text.now self.now.heads.now self.now.commas.now self.now.count ds
            → says_named result ≡ having name.now ds }
        ensures below { IfSome result (λ d. d < self.now.count) }
    {
        self.find_from(name, firsts[hash_of(name)] as usize)
    }

    // Where a use leads whose string starts at a place.
    fn find_used(&self, firsts: &[u8; HASHES], start: usize) -> Option<usize>
        ensures named { Firsts self.now.text.now self.now.heads.now self.now.commas.now self.now.count firsts.now 0
            → (e : Edition) (ds : List Description)
            → Listed e self.now.text.now self.now.heads.now self.now.commas.now self.now.count ds
            → says_named result ≡ having (read_bytes (read_at self.now.text.now start)) ds }
        ensures below { IfSome result (λ d. d < self.now.count) }
    {
        let mut name = [0u8; ALIAS_MOST];
        let n = used_name::read(self.text, start, &mut name)?;
        self.find_entered(firsts, &name[..n])
    }

    // Where the first of the uses lead, as many as there are: to the description that has the name, or NO_TARGET. (A
    // number stands for none: an `Option` for each of 3,276 uses would take twice the memory.)
    pub fn resolve(&self, places: &[u16], uses: usize, targets: &mut [u8])
        requires { (uses ≤ length places.now) × (uses ≤ length targets.old) }
        ensures { (e : Edition) (ds : List Description)
            → Listed e self.now.text.now self.now.heads.now self.now.commas.now self.now.count ds
            → Targets self.now.text.now ds places.now targets.new uses }
    {
        let mut firsts = [NO_TARGET; HASHES];
        self.enter_all(&mut firsts);
        for i in 0..uses {
            targets[i] = match self.find_used(&firsts, places[i] as usize + 4) {
                None => NO_TARGET,
                Some(d) => byte_of(d),
            };
        }
    }
}
