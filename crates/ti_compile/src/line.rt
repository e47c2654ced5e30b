// The line of a refused field, as a terminal shows it, with a caret below the field's first byte.
ghost use Rattle.std.specs.Prelude.{◌≤◌, length};

use ti_common::complain;

// What stands for a byte: itself, or a blank for white space, or `?`, so that each takes one column.
fn view(c: u8) -> u8 {
    match c {
        b'\t' => b' ',
        32..=126 => c,
        _ => b'?',
    }
}

// Where the line that bytes end in starts.
fn line_start(before: &[u8]) -> usize
    ensures { result ≤ length before.now }
{
    match before.iter().rposition(|c| *c == b'\n') {
        Some(i) => i + 1,
        None => 0,
    }
}

// Writes the line that bytes begin with.
fn complain_line(rt: HostRuntime, bytes: &[u8]) {
    for c in bytes {
        if *c == b'\n' {
            return;
        }
        complain(rt, &[view(*c)]);
    }
}

// Shows the line of a place and a caret below it.
pub fn show(rt: HostRuntime, text: &[u8], place: usize) {
    if text.len() < place {
        return;
    }
    let start = line_start(&text[..place]);
    complain_line(rt, &text[start..]);
    complain(rt, b"\n");
    for _ in start..place {
        complain(rt, b" ");
    }
    complain(rt, b"^\n");
}
