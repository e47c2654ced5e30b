// Compiles source text (document 01: Source text, order of text; document 02, 2026-02). Proved: `compile` and
// `compile_first` answer every edition, text and wanted name as `compiling` of text/specs says, and a refusal leaves
// the buffer as it was. Assumed: nothing.
//
// The text's first description, if it is the wanted one, is walked at once: it may be alone and have no uses. Any other
// text is judged whole, and the fields of each description that the wanted one leads to are walked after that.
#![tactic(auto)]

ghost use Rattle.std.specs.Prelude.{length};
ghost use Rattle.base.specs.Answer.{Leaves};
ghost use Rattle.text.specs.Building.{first, named};
ghost use Rattle.text.specs.Compiling.{compiling, says_compiled};
ghost use Rattle.wanted.specs.Wanted.{wanted_by};

use edition::Edition;
use text::{CompileRefusal, TEXT_MOST};

// Compiles the text's first description, or the one that has the wanted name.
fn compile_wanted(
    edition: Edition,
    text: &[u8],
    wanted: Option<&[u8]>,
    buffer: &mut [u8],
) -> Result<usize, CompileRefusal>
    ensures { Leaves (compiling edition text.now (wanted_by wanted.entry)
        (length buffer.old)) buffer.old buffer.new (says_compiled result) }
{
    let is_large = !edition::edition_ok(edition);
    let is_long = TEXT_MOST < text.len();
    if is_large {
        return Err(CompileRefusal::Edition);
    }
    if is_long {
        return Err(CompileRefusal::Length);
    }
    match compile_alone::try_first(text, edition, wanted, buffer) {
        Some(answer) => answer,
        None => compile_several::compile(text, edition, wanted, buffer),
    }
}

// Writes the file of the description in a text that has the wanted name, any name but its last, at the buffer's start,
// in the edition, or refuses and leaves the buffer as it is.
pub fn compile(
    edition: Edition,
    text: &[u8],
    wanted: &[u8],
    buffer: &mut [u8],
) -> Result<usize, CompileRefusal>
    ensures { Leaves (compiling edition text.now (named wanted.now)
        (length buffer.old)) buffer.old buffer.new (says_compiled result) }
{
    compile_wanted(edition, text, Some(wanted), buffer)
}

// The same for the text's first description.
pub fn compile_first(
    edition: Edition,
    text: &[u8],
    buffer: &mut [u8],
) -> Result<usize, CompileRefusal>
    ensures { Leaves (compiling edition text.now first (length buffer.old))
        buffer.old buffer.new (says_compiled result) }
{
    compile_wanted(edition, text, None, buffer)
}
