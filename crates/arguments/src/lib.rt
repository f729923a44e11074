// What a program is called with, taken apart: words, numbers, sizes and pixels, and what a file's name says.
#![tactic(auto)]

mod names;
mod sizes;
mod words;

pub use names::{Kind, kind_at, kind_of};
pub use sizes::{pixel_at, size_at};
pub use words::{argument, count, fill, fill_up, is_argument};
