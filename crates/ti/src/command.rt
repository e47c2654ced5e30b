// The commands that are crates of their own.
use ti_common::Stop;
use ti_common::words::{Help, Words};

#[derive(Clone, Copy, PartialEq, Eq)]
pub enum Command {
    Compile,
    Check,
    Show,
    Merge,
    Expand,
}

// All of them, in the order of the list.
pub const ALL: [Command; 5] = [
    Command::Compile,
    Command::Check,
    Command::Show,
    Command::Merge,
    Command::Expand,
];

impl Command {
    // The command of that name.
    pub fn named(name: &[u8]) -> Option<Command> {
        match name {
            b"compile" => Some(Command::Compile),
            b"check" => Some(Command::Check),
            b"show" => Some(Command::Show),
            b"merge" => Some(Command::Merge),
            b"expand" => Some(Command::Expand),
            _ => None,
        }
    }

    pub fn run(self, rt: HostRuntime, words: Words) -> Result<(), Stop> {
        match self {
            Command::Compile => ti_compile::run(rt, words),
            Command::Check => ti_check::run(rt, words),
            Command::Show => ti_show::run(rt, words),
            Command::Merge => ti_merge::run(rt, words),
            Command::Expand => ti_expand::run(rt, words),
        }
    }

    // Says how it is called, and, where that is asked, what it does.
    pub fn describe(self, rt: HostRuntime, help: Help) -> Result<(), Stop> {
        match self {
            Command::Compile => ti_compile::describe(rt, help),
            Command::Check => ti_check::describe(rt, help),
            Command::Show => ti_show::describe(rt, help),
            Command::Merge => ti_merge::describe(rt, help),
            Command::Expand => ti_expand::describe(rt, help),
        }
    }
}
