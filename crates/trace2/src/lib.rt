// The trace file of two versions: what version 2 has more, and what reading and writing either find. Definitions, their laws, and the numbers that are a version or an edition.
#![tactic(auto)]

ghost use Rattle.std.specs.Prelude.{◌≡◌};
ghost use Rattle.trace2.specs.Editions.{unknown};

use read_list::Read;

// What a trace file of either version holds: what was read, and its edition.
#[derive(Clone, Copy, Debug, PartialEq, Eq)]
pub struct FileRead {
    pub read: Read,
    pub edition: u32,
}

// Whether a number is no version, and no edition.
pub fn unknown(number: u32) -> bool
    ensures { result ≡ unknown number }
{
    number != 1 && number != 2
}
