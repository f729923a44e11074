// What the program `gauge` is asked for: the options that stand before a command, and the commands.
#![tactic(auto)]

mod commands;
mod options;

pub use commands::{Command, command_at, may_have};
pub use options::{Options, edition_at, options_from};
