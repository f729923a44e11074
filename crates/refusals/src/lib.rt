// Refusals in words, each with its code and place.
#![tactic(auto)]

mod descriptions;
mod points;
mod traces;

pub use descriptions::{of_building, of_reading};
pub use points::of_points;
pub use traces::{of_trace, of_writing};
