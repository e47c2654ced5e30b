// The line and the column of a place in a text. Proved: `position_of` gives what specs/Position.antt says, and
// `Display` writes what specs/Printed.antt says. Assumed: nothing.
#![tactic(auto)]

ghost use Rattle.std.specs.Prelude.{◌≡◌, ◌≤◌, min, length, Some};
ghost use Rattle.positions.specs.Taken.{text_room};
ghost use Rattle.positions.specs.Position.{line_of, column_of};
ghost use Rattle.positions.specs.Printed.{printed};

use std::fmt;

// Both are counted from 1.
#[derive(Clone, Copy)]
pub struct Position {
    pub line: usize,
    pub column: usize,
}

impl fmt::Display for Position {
    ghost output = { λ p. Some (printed p) };

    fn fmt<W: fmt::Write>(&self, f: &mut fmt::Formatter<W>) -> fmt::Result {
        write!(f, "{}:{}", self.line, self.column)
    }
}

// The position of a place in a text; a place past its end is taken for its end.
pub fn position_of(text: &[u8], place: usize) -> Position
    requires { length text.now ≤ text_room }
    ensures { (result.line ≡ line_of text.now (min place (length text.now)))
        × (result.column ≡ column_of text.now (min place (length text.now))) }
{
    let mut line = 1;
    let mut column = 1;
    for c in &text[..place.min(text.len())] {
        if *c == b'\n' {
            line += 1;
            column = 1;
        } else {
            column += 1;
        }
    }
    Position { line, column }
}

#[cfg(test)]
mod tests {
    use super::*;
    use std::test::Fail;

    #[test]
    fn prints_line_and_column(rt: HostRuntime) -> Result<(), Fail> {
        let p = position_of(b"a\nbcdefghijkl", 12);
        assert_eq!(rt; format!(in rt.alloc(); "{p}")?.as_str(), "2:11");
        Ok(())
    }
}
