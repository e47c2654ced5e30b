// What is wrong with the description that a `use` field names, by the string behind `use=`.
use entry::CONTENT_MOST;
use ti_common::complain;
use ti_common::output::complain_quoted;

// Writes the name that the string at a place stands for, in quotes.
fn complain_name(rt: HostRuntime, text: &[u8], at: usize) {
    if let Some(content) = contents::content_at(text, at) {
        let size = content.length;
        if CONTENT_MOST < size {
            return;
        }
        let mut name = io::buffer();
        contents::put_read(&mut name, 0, text, at, size);
        complain_quoted(rt, &name[..size]);
    }
}

// Says that no description has the name.
pub fn complain_missing(rt: HostRuntime, text: &[u8], at: usize) {
    complain(rt, b"nothing is named ");
    complain_name(rt, text, at);
}

// Says that a chain of uses comes back to the description.
pub fn complain_circular(rt: HostRuntime, text: &[u8], at: usize) {
    complain_name(rt, text, at);
    complain(rt, b" is being worked on already: its uses come back to it");
}

// Says that the description is one use too far.
pub fn complain_ninth(rt: HostRuntime, text: &[u8], at: usize) {
    complain_name(rt, text, at);
    complain(rt, b" is the ninth use of a chain, which may have eight");
}
