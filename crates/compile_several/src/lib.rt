// Compiles the wanted description of a text that is judged whole first, and then walks the fields of each description
// that the wanted one leads to (document 01: Source text; document 02, 2026-02). Proved: `compile` answers what
// `building_text` and `fitted` of text/specs give, and a refusal leaves the buffer as it was. Assumed: nothing.
#![tactic(auto)]

ghost use Rattle.std.specs.Prelude.{◌≡◌, true, ◌≤◌, ◌<◌, length, get_or};
ghost use Rattle.base.specs.Answer.{gives, Leaves};
ghost use Rattle.edition.specs.Edition.{ok_edition};
ghost use Rattle.entry.specs.Limits.{given_names_most};
ghost use Rattle.text.specs.Bytes.{text_most};
ghost use Rattle.text.specs.Describing.{describing};
ghost use Rattle.text.specs.Building.{description_at, outcome, building_text};
ghost use Rattle.text.specs.Compiling.{fitted, says_compiled};
ghost use Rattle.compile_laws.specs.Listed.{text_descriptions, Listed, UsesListed, uses_room};
ghost use Rattle.use_walk.specs.Walks.{Arrays};
ghost use Rattle.wanted.specs.Wanted.{wanted_by};

use edition::{BOOLEANS_MOST, Edition, NUMBERS_MOST, STRINGS_MOST};
use entry::ABSENT;
use kept_states::StateArrays;
use text::{CompileRefusal, DESCRIPTIONS_MOST, TEXT_MOST, TextRefusal, TextRefused};
use text_file::UNSET;
use use_names::Headers;
use use_turns::Uses;

// A text's most uses: the shortest is `use=,`.
const USES_MOST: usize = TEXT_MOST / 5;

// Compiles the d-th description of a text with all that its uses lead to.
fn compile_used(
    edition: Edition,
    headers: &Headers<'_>,
    uses: &Uses<'_>,
    d: usize,
    buffer: &mut [u8],
) -> Result<usize, CompileRefusal>
    requires { (ok_edition edition ≡ true) × ((d < headers.now.count)
        × (Listed edition headers.now.text.now headers.now.heads.now headers.now.commas.now headers.now.count
        (text_descriptions edition headers.now.text.now)
        × (Arrays edition headers.now.text.now headers.now.commas.now uses.now.starts.now uses.now.places.now
        uses.now.targets.now uses.now.count
        × (length (description_at (text_descriptions edition headers.now.text.now) d).names ≤ given_names_most)))) }
    ensures { Leaves (fitted (length buffer.old)
        (outcome edition (text_descriptions edition headers.now.text.now) d)) buffer.old
        buffer.new (says_compiled result) }
{
    let text = headers.text;
    let mut boolean_kinds = [ABSENT; BOOLEANS_MOST];
    let mut number_kinds = [ABSENT; NUMBERS_MOST];
    let mut number_values = [0u32; NUMBERS_MOST];
    let mut string_kinds = [ABSENT; STRINGS_MOST];
    let mut string_starts = [UNSET; STRINGS_MOST];
    let mut string_lengths = [UNSET; STRINGS_MOST];
    let mut states = StateArrays {
        boolean_kinds: &mut boolean_kinds,
        number_kinds: &mut number_kinds,
        number_values: &mut number_values,
        string_kinds: &mut string_kinds,
        string_starts: &mut string_starts,
        string_lengths: &mut string_lengths,
    };
    use_walk::walk(text, edition, headers.commas, uses, d, &mut states)?;
    let names = &text[headers.heads[d]..headers.commas[d]];
    text_file::write(text, names, edition, &states.lent(), buffer)
}

// Compiles the wanted one of the descriptions.
fn compile_found(
    edition: Edition,
    headers: &Headers<'_>,
    starts: &[usize],
    places: &[u16],
    wanted: Option<&[u8]>,
    buffer: &mut [u8],
) -> Result<usize, CompileRefusal>
    requires { (ok_edition edition ≡ true)
        × ((describing edition headers.now.text.now ≡ gives (text_descriptions edition headers.now.text.now))
        × (Listed edition headers.now.text.now headers.now.heads.now headers.now.commas.now headers.now.count
        (text_descriptions edition headers.now.text.now)
        × (UsesListed starts.now places.now headers.now.count (text_descriptions edition headers.now.text.now)
        × (get_or starts.now headers.now.count 0 ≤ uses_room)))) }
    ensures { Leaves (fitted (length buffer.old) (building_text edition headers.now.text.now
        (wanted_by wanted.entry))) buffer.old buffer.new (says_compiled result) }
{
    descriptions::totals(headers.heads, headers.commas, headers.count)?;
    match wanted::find_wanted(headers, wanted) {
        None => Err(CompileRefusal::Refused(TextRefused {
            why: TextRefusal::NotFound,
            at: 0,
        })),
        Some(d) => {
            let mut targets = [0u8; USES_MOST];
            headers.resolve(places, starts[headers.count], &mut targets);
            let uses = Uses {
                starts,
                places,
                targets: &targets,
                count: headers.count,
            };
            compile_used(edition, headers, &uses, d, buffer)
        }
    }
}

// Compiles the wanted description of a text that is judged whole first.
pub fn compile(
    text: &[u8],
    edition: Edition,
    wanted: Option<&[u8]>,
    buffer: &mut [u8],
) -> Result<usize, CompileRefusal>
    requires { (ok_edition edition ≡ true) × (length text.now ≤ text_most) }
    ensures { Leaves (fitted (length buffer.old) (building_text edition text.now
        (wanted_by wanted.entry))) buffer.old buffer.new (says_compiled result) }
{
    let mut heads = [0usize; DESCRIPTIONS_MOST];
    let mut commas = [0usize; DESCRIPTIONS_MOST];
    let mut starts = [0usize; DESCRIPTIONS_MOST + 1];
    let mut places = [0u16; USES_MOST];
    let count = descriptions::read(
        text,
        edition,
        &mut heads,
        &mut commas,
        &mut starts,
        &mut places,
    )?;
    let headers = Headers {
        text,
        heads: &heads,
        commas: &commas,
        count,
    };
    compile_found(edition, &headers, &starts, &places, wanted, buffer)
}
