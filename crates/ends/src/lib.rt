// The ends of a segment's rows and columns as whole numbers, each by the float that it is.
#![tactic(auto)]

ghost use Rattle.std.specs.Prelude.{◌≡◌, ◌^◌, min};
ghost use Rattle.ends.specs.Ends.{clip, clip_past, row_first_of, row_past_of, column_first_of, column_past_of};

use kinds::Kind;

// n, and no more than 2^24, which no image reaches.
fn cut(n: u64) -> u32
    ensures { result ≡ min n (2 ^ 24) }
{
    n.min(16777216) as u32
}

// z brought between 0 and 2^24.
fn clip(z: i64) -> u32
    ensures { result ≡ clip z }
{
    if z < 0 { 0 } else { cut(z as u64) }
}

// One past z, brought so; none where z is negative.
fn clip_past(z: i64) -> u32
    ensures { result ≡ clip_past z }
{
    if z < 0 { 0 } else { cut(z as u64) + 1 }
}

// The first row, by the float that it is.
#[tactic(auto, unfolding(crate::specs::Ends::row_first_of))]
pub fn row_first(x: f32) -> u32
    ensures { result ≡ row_first_of x }
{
    match kinds::rounded_to_i64(x) {
        Kind::Exact(z) => clip(z),
        Kind::NotNumber | Kind::Below => 0,
        Kind::Above => 16777216, // past every row
    }
}

// One past the last row, by the float that is the last: none where it lies above the image, and none from 2^63 on.
#[tactic(auto, unfolding(crate::specs::Ends::row_past_of))]
pub fn row_past(x: f32) -> u32
    ensures { result ≡ row_past_of x }
{
    match kinds::rounded_to_i64(x) {
        Kind::Exact(z) => clip_past(z),
        Kind::NotNumber => 1,
        Kind::Below | Kind::Above => 0,
    }
}

// The first column, by the float that it is.
#[tactic(auto, unfolding(crate::specs::Ends::column_first_of))]
pub fn column_first(x: f32) -> u32
    ensures { result ≡ column_first_of x }
{
    match kinds::rounded_to_u64(x) {
        Kind::Exact(n) => cut(n),
        Kind::NotNumber | Kind::Below => 0,
        Kind::Above => 16777216, // past every column
    }
}

// One past the last column, by the float that is the last: column 0 where it lies left of the image, and none from 2^64 on.
#[tactic(auto, unfolding(crate::specs::Ends::column_past_of))]
pub fn column_past(x: f32) -> u32
    ensures { result ≡ column_past_of x }
{
    match kinds::rounded_to_u64(x) {
        Kind::Exact(n) => cut(n) + 1,
        Kind::NotNumber | Kind::Below => 1,
        Kind::Above => 0,
    }
}
