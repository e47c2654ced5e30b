// The byte that `%c` prints (document 02, 2026-04). Proved: it is `character` of specs for every value, and no NUL.
// Assumed: nothing.
#![tactic(auto)]

ghost use Rattle.std.specs.Prelude.{◌≡◌};
ghost use Rattle.characters.specs.Character.{character};

pub fn byte_of(v: i32) -> u8
    ensures { result ≡ character v }
{
    let low = (v.cast_unsigned() % 256) as u8;
    if low == 0 { 128 } else { low }
}
