// Arguments as words and as numbers. What stands in them is the caller's, so nothing is promised of it.
ghost use Rattle.std.specs.Prelude.{◌≤◌};
ghost use Rattle.io.specs.Counts.{IsPrefixLen};

use std::env::FillError;
use std::rt::Env;

// Puts argument i at the start of a room, and tells how many bytes it takes: none where it is missing or has no room.
pub fn fill(rt: &impl Env, i: usize, held: &mut [u8]) -> usize
    ensures { IsPrefixLen result held.new }
{
    rt.arg(i, held).unwrap_or(0)
}

// The same; a room that is full where the argument is longer.
pub fn fill_up(rt: &impl Env, i: usize, held: &mut [u8]) -> usize
    ensures { IsPrefixLen result held.new }
{
    match rt.arg(i, held) {
        Ok(n) => n,
        Err(FillError::NotPresent) => 0,
        Err(FillError::TooLong) => held.len(),
    }
}

// How many arguments there are, the program's name among them; no more than most are counted.
pub fn count(rt: &impl Env, most: usize) -> usize
    ensures { result ≤ most }
{
    for n in 0..most {
        let mut one = [0u8; 1];
        if let Err(FillError::NotPresent) = rt.arg(n, &mut one) {
            return n;
        }
    }
    most
}

// Whether argument i is this word.
pub fn is_argument(rt: &impl Env, i: usize, word: &[u8]) -> bool
    ensures { Unit {0} }
{
    let mut held = [0u8; 16];
    match rt.arg(i, &mut held) {
        Ok(n) => &held[..n] == word,
        Err(_) => false,
    }
}

// The number that argument i says, if it says one.
pub fn argument(rt: &impl Env, i: usize) -> Option<u32>
    ensures { Unit {0} }
{
    let mut held = [0u8; 16];
    let n = rt.arg(i, &mut held).ok()?;
    let mut cell = [0u32; 1];
    match text::values_of(&held[..n], &mut cell) {
        Ok(1) => Some(cell[0]),
        _ => None,
    }
}
