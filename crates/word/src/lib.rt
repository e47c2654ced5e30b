// Shorts, low byte first: read from a slice, stored into one. The first NUL of a slice.
#![tactic(auto)]

ghost use Rattle.std.specs.Prelude.{◌≡◌, ◌+◌, ◌<◌, ◌≤◌, length};
ghost use Rattle.base.specs.Overwrite.{put_at};
ghost use Rattle.word.specs.Word.{word, bytes};
ghost use Rattle.word.specs.Nul.{nul_from};

// The short at place p.
pub fn short_at(f: &[u8], p: usize) -> usize
    requires { p + 1 < length f.now }
    ensures { (result ≡ word 2 f.now p) × (result < 65536) }
{
    let low = f[p] as usize;
    let high = f[p + 1] as usize;
    low + 256 * high
}

// v mod 65,536 as a short from place at on; the other bytes stay.
pub fn put_short(b: &mut [u8], at: usize, v: usize)
    requires { at + 2 ≤ length b.old }
    ensures { b.new ≡ put_at b.old at (bytes 2 v) }
{
    b[at] = (v % 256) as u8;
    b[at + 1] = (v / 256 % 256) as u8;
}

// The place of the first NUL from a on and before e; e where there is none, and a where e is not above it.
pub fn find_nul(f: &[u8], a: usize, e: usize) -> usize
    requires { e ≤ length f.now }
    ensures { result ≡ nul_from f.now a e }
{
    for i in a..e {
        if f[i] == 0 {
            return i;
        }
    }
    a.max(e)
}

// The place of the first NUL from a on, which is there. No range counts the places: with its end tested at each byte,
// listing every state of xterm was tried and is slower than its bar allows.
pub fn nul_from(f: &[u8], a: usize) -> usize
    requires { nul_from f.now a (length f.now) < length f.now }
    ensures { result ≡ nul_from f.now a (length f.now) }
{
    let mut i = a;
    while f[i] != 0 {
        i += 1;
    }
    i
}
