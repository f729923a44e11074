// What a list or a trace file holds: told of a description, or of a file that is read in rooms that fit a small stack.
#![tactic(auto)]

mod short;
mod telling;

pub use short::{tell_list, tell_trace};
pub use telling::say;

// The usual configured limit.
pub const CONFIGURED: u32 = 1048576;

// What a description was read from: a list of so many values, or a trace file of so many bytes and its edition. Neither is the lack or the failure of the other, so this is no `Option` and no `Result`.
#[derive(Clone, Copy, Debug, PartialEq, Eq)]
pub enum Source {
    List(usize),
    File(usize, u32),
}
