// Which description of a text is wanted: the one that has a name, or the text's first (document 02, 2026-02). Proved:
// `is_wanted` and `find_wanted` answer as `wants` of specs/ and `wanted_in` of text/specs say. Assumed: nothing.
#![tactic(auto)]

ghost use Rattle.std.specs.Prelude.{◌≡◌, List};
ghost use Rattle.edition.specs.declared.Edition.{Edition};
ghost use Rattle.text.specs.Describing.{Description};
ghost use Rattle.text.specs.Building.{wanted_as, wanted_in};
ghost use Rattle.compile_laws.specs.Listed.{Listed};
ghost use Rattle.use_names.specs.Having.{says_named};
ghost use Rattle.wanted.specs.Wanted.{wanted_by, wants};

use use_names::Headers;

// The description whose header has these names is the wanted one, where it is the text's first.
pub fn is_wanted(names: &[u8], wanted: Option<&[u8]>) -> bool
    ensures { result ≡ wants (wanted_by wanted.entry) names.now }
{
    match wanted {
        Some(name) => use_names::has_name(names, name),
        None => true,
    }
}

// The wanted one of the descriptions.
pub fn find_wanted(headers: &Headers<'_>, wanted: Option<&[u8]>) -> Option<usize>
    ensures { (e : Edition) (ds : List Description)
        → Listed e headers.now.text.now headers.now.heads.now headers.now.commas.now headers.now.count ds
        → wanted_as (says_named result) ≡ wanted_in ds (wanted_by wanted.entry) }
{
    match wanted {
        Some(name) => headers.find(name),
        None => Some(0),
    }
}
