// The turns of the walk along the uses of a wanted description, on arrays (document 02, 2026-02): a description whose
// walk is finished is passed over if the chain can take its height. Proved: what is left of the walk, as `resume` of
// uses/specs says, is the same from each turn to the next. Assumed: nothing.
//
// A finished description whose height the chain can't take is entered once more: the ninth use stands below it.
#![tactic(auto)]

ghost use Rattle.std.specs.Prelude.{◌≡◌, List, ℕ, ◌+◌, ◌-◌, ◌^◌, ◌<◌, ◌≤◌, length, get_or};
ghost use Rattle.uses.specs.Walk.{is_in};
ghost use Rattle.uses.specs.Targets.{no_target};
ghost use Rattle.uses.specs.Heights.{height_of, low};
ghost use Rattle.use_turns.specs.Frames.{use_arrays, end_of, uses_from, graph_of, HoldsUses};
ghost use Rattle.use_turns.specs.Frames.{last_of, next_of, open_of, Framed, kept_as, heights_of};
ghost use Rattle.use_turns.specs.Frames.{started, finished, passed, entered};
ghost use Rattle.use_turns.specs.Turned.{Judged, Finishes, Advances};

use text::{DESCRIPTIONS_MOST, TextRefusal, TextRefused};

// The most open descriptions: the wanted one, and one for each use of a chain.
pub const OPEN_MOST: usize = 9;

// The target of a use whose name no description has. (A number stands for none: an `Option` for each of 3,276 uses
// would take twice the memory.)
const NO_TARGET: usize = uses::NO_TARGET as usize;

// The height of a description that is not finished. (A number stands for none: with an `Option` for each of 64
// descriptions the heights would take twice the memory.)
pub const UNFINISHED: usize = 255;

// The uses of a text's descriptions: those of description d stand from `starts[d]` up to `starts[d + 1]`, each with
// the place of its field and its target, the description to which it leads.
#[derive(Clone, Copy)]
pub struct Uses<'a> {
    pub starts: &'a [usize],
    pub places: &'a [u16],
    pub targets: &'a [u8],
    // how many descriptions there are
    pub count: usize,
    pub ghost held: { HoldsUses (use_arrays starts.now places.now targets.now count) },
    pub ghost fits: { length targets.now < 2 ^ 64 },
}

// The open descriptions, those being worked on, and the heights of those that are finished.
#[derive(Clone, Copy)]
pub struct Frames {
    // the first `depth` of these are open
    pub stack: [usize; OPEN_MOST],
    // the next use of each
    pub next: [usize; OPEN_MOST],
    pub heights: [usize; DESCRIPTIONS_MOST],
    pub depth: usize,
}

// What the last open description's next use asks for.
#[derive(Clone, Copy)]
enum Next {
    // it has no more uses
    End,
    // the description to which the use leads is passed over
    Pass,
    // that description is to be entered
    Enter(usize),
}

// The height of a description whose uses stand from one up to another; it is not finished if a use leads to what is
// not finished.
fn height_of(targets: &[u8], from: usize, end: usize, heights: &[usize; DESCRIPTIONS_MOST]) -> usize
    requires { (from ≤ end) × ((end ≤ length targets.now) × ((length heights.now ≡ 64)
        × ((i : ℕ) → i < end → (get_or targets.now i 0 ≡ no_target → ⊥) → get_or targets.now i 0 < 64))) }
    ensures { (places : List ℕ) → kept_as result ≡ low (height_of (heights_of heights.now)
        (uses_from places targets.now from (end - from))) }
{
    let mut h: usize = 0;
    for i in from..end {
        let target = usize::from(targets[i]);
        if target == NO_TARGET {
            return UNFINISHED;
        }
        let x = heights[target];
        if UNFINISHED <= x {
            return UNFINISHED;
        }
        if h <= x {
            h = x + 1;
        }
    }
    h
}

impl Frames {
    ghost use Rattle.use_turns.specs.Held.{arrays_of};

    // The wanted description is open, and no other.
    pub fn start(uses: &Uses, wanted: usize) -> Frames
        requires { wanted < uses.now.count }
        ensures { result ≡ started (arrays_of uses.now) wanted }
    {
        let mut stack = [0usize; OPEN_MOST];
        let mut next = [0usize; OPEN_MOST];
        stack[0] = wanted;
        next[0] = uses.starts[wanted];
        Frames {
            stack,
            next,
            heights: [UNFINISHED; DESCRIPTIONS_MOST],
            depth: 1,
        }
    }

    // A description is open.
    fn is_open(&self, d: usize) -> bool
        requires { (self.now.depth ≤ 9) × (length self.now.stack ≡ 9) }
        ensures { result ≡ is_in d (open_of self.now.stack self.now.depth) }
    {
        self.stack[..self.depth].contains(&d)
    }

    // Judges the last open description's next use.
    fn next_use(&self, uses: &Uses) -> Result<Next, TextRefused>
        requires { (0 < self.now.depth) × Framed (arrays_of uses.now) self.now }
        ensures { Judged (arrays_of uses.now) self.now result }
    {
        let d = self.stack[self.depth - 1];
        let i = self.next[self.depth - 1];
        if uses.starts[d + 1] <= i {
            return Ok(Next::End);
        }
        let t = usize::from(uses.targets[i]);
        let at = usize::from(uses.places[i]);
        if t == NO_TARGET {
            return Err(TextRefused {
                why: TextRefusal::NotFound,
                at,
            });
        }
        if self.is_open(t) {
            return Err(TextRefused {
                why: TextRefusal::Circular,
                at,
            });
        }
        if self.depth == OPEN_MOST {
            return Err(TextRefused {
                why: TextRefusal::NinthUse,
                at,
            });
        }
        if self.heights[t] < OPEN_MOST - self.depth {
            return Ok(Next::Pass);
        }
        Ok(Next::Enter(t))
    }

    // Finishes the last open description.
    fn finish(&mut self, uses: &Uses)
        requires { (0 < self.old.depth) × Framed (arrays_of uses.now) self.old }
        ensures { Finishes (arrays_of uses.now) self.old self.new }
    {
        let d = self.stack[self.depth - 1];
        self.heights[d] = height_of(
            uses.targets,
            uses.starts[d],
            uses.starts[d + 1],
            &self.heights,
        );
        self.depth -= 1;
    }

    // Passes over the last open description's next use.
    fn pass(&mut self)
        requires { (0 < self.old.depth) × ((self.old.depth ≤ length self.old.next) × (next_of self.old + 1 < 2 ^ 64)) }
        ensures { self.new ≡ passed self.old }
    {
        self.next[self.depth - 1] += 1;
    }

    // Enters the description to which the last open one's next use leads.
    fn enter(&mut self, uses: &Uses, t: usize)
        requires { (0 < self.old.depth) × ((self.old.depth < 9) × ((length self.old.next ≡ 9)
            × ((length self.old.stack ≡ 9) × ((next_of self.old + 1 < 2 ^ 64) × (t < uses.now.count))))) }
        ensures { self.new ≡ entered (arrays_of uses.now) self.old t }
    {
        self.pass();
        self.stack[self.depth] = t;
        self.next[self.depth] = uses.starts[t];
        self.depth += 1;
    }

    // Goes on to the next description that is to be entered, and opens it; there is none at the walk's end.
    pub fn advance(&mut self, uses: &Uses) -> Result<Option<usize>, TextRefused>
        requires { Framed (arrays_of uses.now) self.old }
        ensures { Advances (arrays_of uses.now) self.old self.new result }
    {
        // the depth rises and falls: no range counts the turns
        while 0 < self.depth {
            match self.next_use(uses)? {
                Next::End => self.finish(uses),
                Next::Pass => self.pass(),
                Next::Enter(t) => {
                    self.enter(uses, t);
                    return Ok(Some(t));
                }
            }
        }
        Ok(None)
    }
}
