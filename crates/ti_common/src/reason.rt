// The system's reason for a failure, as C says it: without the number of the error.
ghost use Rattle.std.specs.Prelude.{◌≤◌};

use std::fmt;
use std::fmt::Write;
use std::io::Error;

// Room for a reason.
const REASON_ROOM: usize = 256;

// Linux's numbers of the errors that are found before the system is asked.
const EINVAL: i32 = 22;

const ENAMETOOLONG: i32 = 36;

const EILSEQ: i32 = 84;

// Text that was formatted: what has no room is left out.
#[derive(Drop)]
struct Text {
    bytes: [u8; REASON_ROOM],
    length: usize,
}

impl fmt::Write for Text {
    fn write_str(&mut self, s: &str) -> fmt::Result {
        for c in s.as_bytes() {
            let at = self.length;
            if REASON_ROOM <= at {
                return Err(fmt::Error);
            }
            self.bytes[at] = *c;
            self.length = at + 1;
        }
        Ok(())
    }
}

// A reason without the number that std puts behind it.
fn reason_of(text: &str) -> &str {
    match text.split_once(" (os error ") {
        Some((reason, _)) => reason,
        None => text,
    }
}

// Writes the reason to standard error.
pub fn complain_reason(rt: HostRuntime, why: Error) {
    let mut text = Text {
        bytes: [0; REASON_ROOM],
        length: 0,
    };
    let _ = write!(text, "{why}");
    if let Ok(said) = str::from_utf8(crate::front(text.length, &text.bytes)) {
        crate::complain(rt, reason_of(said).as_bytes());
    }
}

// A word that is not there.
pub fn missing() -> Error {
    Error::from_raw_os_error(EINVAL)
}

// A word that is longer than its room.
pub fn too_long() -> Error {
    Error::from_raw_os_error(ENAMETOOLONG)
}

// A path that is not UTF-8.
pub fn no_text() -> Error {
    Error::from_raw_os_error(EILSEQ)
}
