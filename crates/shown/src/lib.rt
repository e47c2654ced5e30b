// Bytes as people read them: those that stand for themselves, and all others by a backslash and three octal digits.
// Proved: `show` puts what specs/Shown.antt says. Assumed: nothing.
#![tactic(auto)]

ghost use Rattle.std.specs.Prelude.{◌≡◌, ◌+◌, ◌*◌, ◌<◌, ◌≤◌, length};
ghost use Rattle.base.specs.Overwrite.{put_at};
ghost use Rattle.shown.specs.Puts.{Puts};
ghost use Rattle.shown.specs.Shown.{is_plain, octal, shown_byte, shown};

// The first byte of those that stand for themselves: in contents, and in names, which hold spaces.
pub const CONTENT_LEAST: u8 = 33;

pub const NAMES_LEAST: u8 = 32;

// Whether a byte stands for itself.
#[tactic(auto, unfolding(crate::specs::Shown::is_plain))]
fn is_plain(least: u8, c: u8) -> bool
    ensures { result ≡ is_plain least c }
{
    least <= c && c <= 126 && c != b'\\'
}

// Puts a backslash and three octal digits.
fn put_octal(out: &mut [u8], at: usize, c: u8)
    requires { at + 4 ≤ length out.old }
    ensures { out.new ≡ put_at out.old at (octal c) }
{
    let digits = [b'\\', 48 + c / 64, 48 + c / 8 % 8, 48 + c % 8];
    put::put_bytes(out, at, &digits);
}

// Puts a byte as it is shown, and answers the place behind it.
fn put_shown(out: &mut [u8], at: usize, least: u8, c: u8) -> usize
    requires { at + 4 ≤ length out.old }
    ensures { Puts out.old out.new at (shown_byte least c) 4 result }
{
    if is_plain(least, c) {
        out[at] = c;
        return at + 1;
    }
    put_octal(out, at, c);
    at + 4
}

// Puts bytes as they are shown, and answers the place behind them.
pub fn show(out: &mut [u8], at: usize, least: u8, bytes: &[u8]) -> usize
    requires { at + 4 * length bytes.now ≤ length out.old }
    ensures { Puts out.old out.new at (shown least bytes.now)
        (4 * length bytes.now) result }
{
    let mut end = at;
    for c in bytes {
        end = put_shown(out, end, least, *c);
    }
    end
}
