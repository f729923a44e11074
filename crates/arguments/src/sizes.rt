// Sizes and pixels, by two arguments.
ghost use Rattle.std.specs.Prelude.{◌≤◌};

use crate::words;
use std::rt::Env;

// The two numbers that the arguments from i on say.
fn two_at(rt: &impl Env, i: u8) -> Option<(u32, u32)>
    requires { i ≤ 60 }
{
    let a = words::argument(rt, usize::from(i))?;
    let b = words::argument(rt, usize::from(i) + 1)?;
    Some((a, b))
}

// The width and the height that the arguments from i on say.
pub fn size_at(rt: &impl Env, i: u8) -> Option<(u32, u32)>
    requires { i ≤ 60 }
    ensures { Unit {0} }
{
    let (width, height) = two_at(rt, i)?;
    let fits = 0 < width && width <= 8388608 && 0 < height && height <= 16384;
    fits.then_some((width, height))
}

// The column and the row, in an image of this size, that the arguments from i on say.
pub fn pixel_at(rt: &impl Env, i: u8, width: u32, height: u32) -> Option<(u32, u32)>
    requires { i ≤ 60 }
    ensures { Unit {0} }
{
    let (x, y) = two_at(rt, i)?;
    let fits = x < width && y < height;
    fits.then_some((x, y))
}
