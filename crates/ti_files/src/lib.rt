// Files read whole and saved whole. Proved: each function is safe and ends; what was read lies in the slice that was
// lent. Assumed: what std says of the system.
#![tactic(auto)]

use std::io::Error;
use ti_common::reason;

pub mod input;
pub mod save;

// The text of a path, which std asks for.
fn path_text(path: &[u8]) -> Result<&str, Error> {
    str::from_utf8(path).map_err(|_| reason::no_text())
}
