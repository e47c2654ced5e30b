// A text put into a buffer where it fits (document 02, 2026-07). Proved: the bytes are put as `emitted` of print/specs
// says. Assumed: nothing.
#![tactic(auto)]

ghost use Rattle.std.specs.Prelude.{◌≡◌, ◌+◌, ◌≤◌, length, take, drop};
ghost use Rattle.expansion.specs.Limits.{text_most};
ghost use Rattle.print.specs.Bounds.{output_most};
ghost use Rattle.print.specs.Emit.{emitted};

// Puts the n bytes of a block from a place on, if all of them fit.
pub fn put_text(out: &mut [u8], at: usize, texts: &[u8], start: usize, n: usize)
    requires { (at ≤ output_most) × (n ≤ text_most) × (start + n ≤ length texts.now) }
    ensures { out.new ≡ emitted out.old at (take n (drop start texts.now)) }
{
    if out.len() < at + n {
        return;
    }
    for i in 0..n {
        out[at + i] = texts[start + i];
    }
}
