// The commands, by their words.
use std::rt::Env;

#[derive(Clone, Copy, Debug, PartialEq, Eq)]
pub enum Command {
    Read,
    Rows,
    Bands,
    Touch,
    Why,
    Table,
    Check,
    Profile,
    Draw,
    Trace,
    Svg,
}

// The command that argument i is, if it is one.
pub fn command_at(rt: &impl Env, i: usize) -> Option<Command>
    ensures { Unit {0} }
{
    let words: [(&[u8], Command); 11] = [
        (b"read", Command::Read),
        (b"rows", Command::Rows),
        (b"bands", Command::Bands),
        (b"touch", Command::Touch),
        (b"why", Command::Why),
        (b"table", Command::Table),
        (b"check", Command::Check),
        (b"profile", Command::Profile),
        (b"draw", Command::Draw),
        (b"trace", Command::Trace),
        (b"svg", Command::Svg),
    ];
    for (word, command) in words.iter() {
        if arguments::is_argument(rt, i, word) {
            return Some(*command);
        }
    }
    None
}

// Whether a command may have so many words behind it; `svg` counts its own.
pub fn may_have(command: Command, more: usize) -> bool
    ensures { Unit {0} }
{
    match command {
        Command::Read => more == 1,
        Command::Rows | Command::Bands | Command::Table | Command::Trace => more == 3,
        Command::Touch => more == 5,
        Command::Why | Command::Check | Command::Draw => more == 4,
        Command::Profile => more == 1 || more == 2,
        Command::Svg => true,
    }
}
