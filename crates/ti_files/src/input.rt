// Files read whole.
ghost use Rattle.std.specs.Prelude.{◌≤◌, length, IfOk};

use crate::path_text;
use std::fs::File;
use std::io::{Error, Read};
use ti_common::{Stop, fail};

// Reads to the end, or until the slice is full, and answers the bytes that were put at its start; says what fails, by
// the name of what is read.
pub fn read_all<'a, S: Read>(
    rt: HostRuntime,
    from: &mut S,
    name: &[u8],
    bytes: &'a mut [u8],
) -> Result<&'a [u8], Stop>
    ensures { IfOk result (λ f. length f.now ≤ length bytes.old) }
{
    let mut n = 0;
    // A cursor that moves by what a read puts: no range counts it.
    while n < bytes.len() {
        match from.read(&mut bytes[n..]) {
            Ok(0) => break,
            Ok(more) => n += more,
            Err(why) => return Err(fail(rt, name, why)),
        }
    }
    Ok(&bytes[..n])
}

// The path `-` stands for standard input.
pub fn is_standard(path: &[u8]) -> bool {
    matches!(path, b"-")
}

// Opens the file that the path names.
fn open(rt: HostRuntime, path: &[u8]) -> Result<File, Error> {
    File::open(&rt, path_text(path)?)
}

// Reads the file that the path names, or standard input.
pub fn read_file<'a>(rt: HostRuntime, path: &[u8], bytes: &'a mut [u8]) -> Result<&'a [u8], Stop>
    ensures { IfOk result (λ f. length f.now ≤ length bytes.old) }
{
    if is_standard(path) {
        return read_all(rt, &mut rt.stdin(), b"standard input", bytes);
    }
    match open(rt, path) {
        Ok(mut file) => read_all(rt, &mut file, path, bytes),
        Err(why) => Err(fail(rt, path, why)),
    }
}
