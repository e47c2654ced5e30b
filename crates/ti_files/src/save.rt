// A file comes whole: it is written beside its place and then renamed.
ghost use Rattle.std.specs.Prelude.{◌≤◌, length};
ghost use Rattle.beside.specs.Beside.{path_room};

use crate::path_text;
use beside::name_beside;
use std::fs;
use std::fs::{File, OpenOptions};
use std::io::{Error, Write};
use ti_common::{Stop, complain, fail};

// The most bytes of a path.
const PATH_MOST: usize = 4096;

// The most bytes of a path, of `.ti-` and of a number.
const NAME_ROOM: usize = 4120;

// Creates a file that is not there yet.
fn create(rt: HostRuntime, name: &str) -> Result<File, Error> {
    OpenOptions::new()
        .write(true)
        .create_new(true)
        .open(&rt, name)
}

// Writes all of a file, to the disk, and closes it.
fn write_whole(mut to: File, file: &[u8]) -> Result<(), Error> {
    to.write_all(file)?;
    to.sync_all()
}

// Writes the file under a name of its own and renames it, or leaves an old file as it was.
fn put_renamed(rt: HostRuntime, path: &str, name: &str, file: &[u8]) -> Result<(), Error> {
    let to = create(rt, name)?;
    let written = write_whole(to, file).and_then(|_| fs::rename(&rt, name, path));
    if written.is_err() {
        let _ = fs::remove_file(&rt, name);
    }
    written
}

// The same where the names are bytes.
fn put_beside(rt: HostRuntime, path: &[u8], name: &[u8], file: &[u8]) -> Result<(), Error> {
    put_renamed(rt, path_text(path)?, path_text(name)?, file)
}

// The process's number.
fn process(rt: HostRuntime) -> u64 {
    std::process::id(rt.process()) as u64
}

// Saves the file under the path, whole or not at all.
fn save(rt: HostRuntime, path: &[u8], file: &[u8]) -> Result<(), Error>
    requires { length path.now ≤ path_room }
{
    let mut digits = [0u8; 20];
    let k = io::decimal(process(rt), &mut digits);
    let mut name = [0u8; NAME_ROOM];
    let n = name_beside(path, &digits[..k], &mut name);
    put_beside(rt, path, &name[..n], file)
}

// Whether a file can stand under the path: nothing is there, or a regular file.
fn is_regular(rt: HostRuntime, path: &[u8]) -> bool {
    match path_text(path).and_then(|text| fs::metadata(&rt, text)) {
        Ok(found) => found.is_file(),
        Err(_) => true,
    }
}

// Expects that an output file can stand under the path; if not, says why.
pub fn expect_output(rt: HostRuntime, path: &[u8]) -> Result<(), Stop> {
    if crate::input::is_standard(path) {
        complain(
            rt,
            b"ti: -: the output is a file (one of this name is ./-)\n",
        );
        return Err(Stop::Failed);
    }
    if !is_regular(rt, path) {
        complain(rt, b"ti: ");
        complain(rt, path);
        complain(rt, b": not a regular file\n");
        return Err(Stop::Failed);
    }
    Ok(())
}

// Saves the file under the path and says what was done, with the file's size; or says what failed.
pub fn save_saying(rt: HostRuntime, path: &[u8], file: &[u8], what: &str) -> Result<(), Stop> {
    if PATH_MOST < path.len() {
        complain(rt, b"ti: the path is too long\n");
        return Err(Stop::Failed);
    }
    match save(rt, path, file) {
        Ok(()) => ti_common::say_size(rt, what, file),
        Err(why) => Err(fail(rt, path, why)),
    }
}
