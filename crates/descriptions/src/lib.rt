// The descriptions of a text: each header and its fields, judged in the text's order, and the names' totals (document
// 02, 2026-02). Proved: `read` and `totals` answer as `describing` and `totals` of text/specs say. Assumed: nothing.
#![tactic(auto)]

ghost use Rattle.std.specs.Prelude.{◌≡◌, List, [], ◌∷◌, ℕ, ◌+◌, ◌*◌, ◌≤◌, ◌<◌, length, get_or, set};
ghost use Rattle.base.specs.Answer.{refused};
ghost use Rattle.edition.specs.declared.Edition.{Edition};
ghost use Rattle.text.specs.declared.Line.TheVariants.{Column};
ghost use Rattle.text.specs.Bytes.{text_most};
ghost use Rattle.text.specs.Lines.{line_at};
ghost use Rattle.text.specs.Heading.{header_at};
ghost use Rattle.text.specs.Describing.{Description, descriptions_most, one_too_many};
ghost use Rattle.text.specs.Building.{totals};
ghost use Rattle.text.specs.Compiling.{text_number};
ghost use Rattle.compile_laws.specs.Listed.{head_place, Listed, uses_room};
ghost use Rattle.descriptions.specs.Reads.{Describes, Rooms, TextReads, says_total};

use each_field::Passed;
use edition::Edition;
use entry::GIVEN_NAMES_MOST;
use text::{DESCRIPTIONS_MOST, Line, TextRefusal, TextRefused};

// What a description comes to that is right.
#[derive(Clone, Copy)]
struct Described {
    // its header's comma
    comma: usize,
    // what its fields come to
    passed: Passed,
}

// The place that the refusals of the d-th header give, which stands at a place.
fn head_place(d: usize, at: usize) -> usize
    ensures { result ≡ head_place d at }
{
    if d == 0 {
        return 0;
    }
    at
}

// The refusal of a header behind the 64th description.
fn one_too_many(text: &[u8], at: usize) -> TextRefusal
    requires { at ≤ length text.now }
    ensures { (p : ℕ) → one_too_many p (header_at text.now at) ≡ refused (text_number result) (p ∷ []) }
{
    match text_header::header_at(text, at) {
        Ok(_) => TextRefusal::Limit,
        Err(why) => why,
    }
}

// The description whose header stands at a place and whose header's refusals give another.
fn description_at(
    text: &[u8],
    at: usize,
    place: usize,
    edition: Edition,
    places: &mut [u16],
    uses: usize,
) -> Result<Described, TextRefused>
    requires { (length text.now ≤ text_most) × ((at ≤ length text.now)
        × ((uses_room ≤ length places.old) × (uses * 5 ≤ at))) }
    ensures { Describes edition text.now at place places.old uses
        places.new result }
{
    match text_header::header_at(text, at) {
        Ok(comma) => {
            let passed = check_fields::check(text, comma + 1, edition, places, uses)?;
            Ok(Described { comma, passed })
        }
        Err(why) => Err(TextRefused { why, at: place }),
    }
}

// Lists the d-th description: its header and its comma, and the number of the first use behind it.
fn list(
    heads: &mut [usize],
    commas: &mut [usize],
    starts: &mut [usize],
    d: usize,
    at: usize,
    comma: usize,
    uses: usize,
)
    requires { (d < length heads.old) × ((d < length commas.old) × (d + 1 < length starts.old)) }
    ensures { (heads.new ≡ set heads.old d at)
        × ((commas.new ≡ set commas.old d comma)
        × (starts.new ≡ set starts.old (d + 1) uses)) }
{
    heads[d] = at;
    commas[d] = comma;
    starts[d + 1] = uses;
}

// Reads the descriptions from the text's first line on, which stands in column 1.
fn read_from(
    text: &[u8],
    first: usize,
    edition: Edition,
    heads: &mut [usize],
    commas: &mut [usize],
    starts: &mut [usize],
    places: &mut [u16],
) -> Result<usize, TextRefused>
    requires { (line_at text.now 0 ≡ Column first)
        × Rooms text.now heads.old commas.old starts.old places.old }
    ensures { TextReads edition text.now heads.new commas.new
        starts.new places.new result }
{
    let mut at = first;
    let mut uses = 0;
    for d in 0..DESCRIPTIONS_MOST {
        let read = description_at(text, at, head_place(d, at), edition, places, uses)?;
        list(heads, commas, starts, d, at, read.comma, read.passed.uses);
        match read.passed.next {
            None => {
                return Ok(d + 1);
            }
            Some(next) => {
                uses = read.passed.uses;
                at = next;
            }
        }
    }
    Err(TextRefused {
        why: one_too_many(text, at),
        at,
    })
}

// Reads the descriptions of a text: where the header of each stands and has its comma, the number of its first use,
// and the places of all uses.
pub fn read(
    text: &[u8],
    edition: Edition,
    heads: &mut [usize],
    commas: &mut [usize],
    starts: &mut [usize],
    places: &mut [u16],
) -> Result<usize, TextRefused>
    requires { (length text.now ≤ text_most) × ((descriptions_most ≤ length heads.old)
        × ((descriptions_most ≤ length commas.old) × ((descriptions_most < length starts.old)
        × ((uses_room ≤ length places.old) × ((d : ℕ) → get_or starts.old d 0 ≡ 0))))) }
    ensures { TextReads edition text.now heads.new commas.new
        starts.new places.new result }
{
    match text_lines::line_at(text, 0) {
        Line::End => Err(TextRefused {
            why: TextRefusal::Malformed,
            at: 0,
        }),
        Line::Column(first) => read_from(text, first, edition, heads, commas, starts, places),
        Line::Indented(_) => Err(TextRefused {
            why: TextRefusal::Malformed,
            at: 0,
        }),
    }
}

// Refuses the first of the descriptions whose names are above 127 bytes.
pub fn totals(heads: &[usize], commas: &[usize], count: usize) -> Result<(), TextRefused>
    requires { (count ≤ length heads.now) × ((count ≤ length commas.now)
        × ((d : ℕ) → d < count → get_or heads.now d 0 ≤ get_or commas.now d 0)) }
    ensures { (e : Edition) (t : List ℕ) (ds : List Description)
        → Listed e t heads.now commas.now count ds → says_total result ≡ totals ds }
{
    for d in 0..count {
        if GIVEN_NAMES_MOST < commas[d] - heads[d] {
            return Err(TextRefused {
                why: TextRefusal::Limit,
                at: head_place(d, heads[d]),
            });
        }
    }
    Ok(())
}
