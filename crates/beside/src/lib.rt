// The name of a temporary file in the folder of another. Proved: `name_beside` puts what specs/Beside.antt says.
// Assumed: nothing.
#![tactic(auto)]

ghost use Rattle.std.specs.Prelude.{◌≡◌, ◌+◌, ◌<◌, ◌≤◌, length, take};
ghost use Rattle.io.specs.Counts.{IsPrefixLen};
ghost use Rattle.beside.specs.Beside.{folder_in, beside};

// The length of the path up to its last slash, with it.
fn folder(path: &[u8]) -> usize
    ensures value { result ≡ folder_in path.now (length path.now) }
    ensures prefix_len { IsPrefixLen result path.now }
{
    match path.iter().rposition(|c| *c == b'/') {
        Some(i) => i + 1,
        None => 0,
    }
}

// Puts the name of a temporary file in the path's folder at the start of name, and answers its length.
pub fn name_beside(path: &[u8], number: &[u8], name: &mut [u8]) -> usize
    requires { length path.now + length number.now + 4 ≤ length name.old }
    ensures name_after { take result name.new ≡ beside path.now number.now }
    ensures prefix_len { IsPrefixLen result name.new }
{
    let end = folder(path);
    put::put_bytes(name, 0, &path[..end]);
    put::put_bytes(name, end, b".ti-");
    put::put_bytes(name, end + 4, number);
    end + 4 + number.len()
}
