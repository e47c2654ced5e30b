// What `ti help` says beside the commands' own texts.
use ti_common::{Stop, say, written};

const LIST_REST: [&[u8]; 5] = [
    b"ti help [COMMAND]\nti build\nti install PREFIX\n",
    b"A FILE, A or B that is - is standard input; OUT is a file. A file that is named - is ./-, and\n",
    b"behind -- no word is an option.\n",
    b"-e EDITION is 1, 2 or B,N,S; without it the second edition is taken.\n",
    b"Exit status: 0 done, 1 refused, 2 wrong usage, or input or output failed.\n",
];

// The end of the list of commands.
pub fn list_rest(rt: HostRuntime) -> Result<(), Stop> {
    let mut sent = Ok(());
    for text in LIST_REST {
        sent = say(rt, text).and(sent);
    }
    written(rt, sent)
}

// What the commands do that are no crate of their own; none where the name is none of theirs.
pub fn text_of(name: &[u8]) -> Option<&'static [u8]> {
    match name {
        b"help" => Some(b"ti help [COMMAND]\nLists the commands, or says what one does.\n"),
        b"build" => Some(b"ti build\nProves and builds the program again.\n"),
        b"install" => Some(
            b"ti install PREFIX\n\
            Installs the program, the library, its header and the manual pages below the folder PREFIX.\n",
        ),
        _ => None,
    }
}
