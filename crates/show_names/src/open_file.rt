// A compiled file whose lines are asked for.
ghost use Rattle.std.specs.Prelude.{◌≡◌};
ghost use Rattle.entry.specs.Asking.{opening};
ghost use Rattle.entry.specs.Says.{says_file};

use edition::Edition;
use entry::{FileRefusal, Opening};

// A file, an edition, and what opening the file in the edition answered: a refusal too.
#[derive(Clone, Copy)]
pub struct OpenFile<'a> {
    pub file: &'a [u8],
    pub edition: Edition,
    pub answer: Result<Opening, FileRefusal>,
    pub ghost opened: { says_file answer ≡ opening edition file.now },
}
