// Bytes written as people read them.
ghost use Rattle.std.specs.Prelude.{◌≤◌, length};

use shown::{NAMES_LEAST, show};
use std::io::Error;

// How many bytes are shown at once.
const PIECE: usize = 256;

// Writes a piece, as it is shown.
fn write_piece<P: Print>(to: &P, bytes: &[u8], least: u8) -> Result<(), Error>
    requires { length bytes.now ≤ 256 }
{
    let mut out = [0u8; 4 * PIECE];
    let n = show(&mut out, 0, least, bytes);
    to.write_all(&out[..n])
}

// Writes bytes to standard output or error, as they are shown.
fn write_shown<P: Print>(to: &P, bytes: &[u8], least: u8) -> Result<(), Error> {
    for piece in bytes.chunks(PIECE) {
        write_piece(to, piece, least)?;
    }
    Ok(())
}

// Writes bytes to standard output, as they are shown.
pub fn say_shown(rt: HostRuntime, bytes: &[u8], least: u8) -> Result<(), Error> {
    write_shown(&rt.stdout(), bytes, least)
}

// Writes a word in quotes to standard error, as it is shown.
pub fn complain_quoted(rt: HostRuntime, word: &[u8]) {
    crate::complain(rt, b"'");
    let _ = write_shown(&rt.stderr(), word, NAMES_LEAST);
    crate::complain(rt, b"'");
}
