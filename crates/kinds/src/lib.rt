// An f32 made a whole number, for all input.
//   by kind         cut_to_i64, _i32, _u64,
//                   rounded_to_i64, _i32, _u64                specs/Kind: exact, not a number, below or above the range
//   saturating      saturating_f32_to_i64, _i32, _u64         Rust's `as` (lib.Ieee: to_signed, to_unsigned)
#![tactic(auto)]

ghost use Rattle.std.specs.Prelude.{◌≡◌};
ghost use Rattle.std.specs.Float.Ieee as Ieee;
ghost use Rattle.std.specs.Float.{binary32};
ghost use Rattle.wholes.specs.Whole.{round_of};
ghost use Rattle.kinds.specs.Kind.{cut_i64, cut_i32, cut_u64, held, within_i32};

// ---- by kind

#[derive(Clone, Copy, Debug, PartialEq, Eq)]
pub enum Kind<T> {
    Exact(T),
    NotNumber,
    Below,
    Above,
}

impl<T: Copy> Kind<T> {
    // What Rust's `as` makes of it, for a range from the least to the most: a NaN counts zero.
    fn held(self, least: T, zero: T, most: T) -> T
        ensures { result ≡ held least zero most self }
    {
        match self {
            Kind::Exact(n) => n,
            Kind::NotNumber => zero,
            Kind::Below => least,
            Kind::Above => most,
        }
    }
}

pub fn cut_to_i64(x: f32) -> Kind<i64>
    ensures { result ≡ cut_i64 x }
{
    if x >= -9223372036854775808.0 {
        if x < 9223372036854775808.0 {
            Kind::Exact(std::num::truncating_f32_to_i64(x))
        } else {
            Kind::Above
        }
    } else if x < 0.0 {
        Kind::Below
    } else {
        Kind::NotNumber
    }
}

// A whole number in the range of an i32, or beyond it.
fn within_i32(z: i64) -> Kind<i32>
    ensures { result ≡ within_i32 z }
{
    if z > i64::from(i32::MAX) {
        Kind::Above
    } else if z < i64::from(i32::MIN) {
        Kind::Below
    } else {
        Kind::Exact(z as i32)
    }
}

pub fn cut_to_i32(x: f32) -> Kind<i32>
    ensures { result ≡ cut_i32 x }
{
    match cut_to_i64(x) {
        Kind::Exact(z) => within_i32(z),
        Kind::NotNumber => Kind::NotNumber,
        Kind::Below => Kind::Below,
        Kind::Above => Kind::Above,
    }
}

pub fn cut_to_u64(x: f32) -> Kind<u64>
    ensures { result ≡ cut_u64 x }
{
    if x > -1.0 {
        if x < 18446744073709551616.0 {
            Kind::Exact(std::num::truncating_f32_to_u64(x))
        } else {
            Kind::Above // 2^64 and more
        }
    } else if x < 0.0 {
        Kind::Below // -1 and less
    } else {
        Kind::NotNumber // a NaN
    }
}

// After R, the rounding half away from zero. A number above 0 and below 2^23 needs no float in between.
pub fn rounded_to_i64(x: f32) -> Kind<i64>
    ensures { result ≡ cut_i64 (round_of binary32 x) }
{
    if x > 0.0 && x < 8388608.0 {
        return Kind::Exact(wholes::half_of(x) as i64);
    }
    cut_to_i64(wholes::round(x))
}

pub fn rounded_to_i32(x: f32) -> Kind<i32>
    ensures { result ≡ cut_i32 (round_of binary32 x) }
{
    cut_to_i32(wholes::round(x))
}

pub fn rounded_to_u64(x: f32) -> Kind<u64>
    ensures { result ≡ cut_u64 (round_of binary32 x) }
{
    if x > 0.0 && x < 8388608.0 {
        return Kind::Exact(wholes::half_of(x));
    }
    cut_to_u64(wholes::round(x))
}

// ---- saturating
// A line for each type, as std has them: a trait over the types would want the cut, the ends and the proof of each beside it, and be longer.

// Rust's `x as i64`.
pub fn saturating_f32_to_i64(x: f32) -> i64
    ensures { result ≡ Ieee.to_signed 63 x }
{
    cut_to_i64(x).held(i64::MIN, 0, i64::MAX)
}

// Rust's `x as i32`.
pub fn saturating_f32_to_i32(x: f32) -> i32
    ensures { result ≡ Ieee.to_signed 31 x }
{
    cut_to_i32(x).held(i32::MIN, 0, i32::MAX)
}

// Rust's `x as u64`, and `x as usize`.
pub fn saturating_f32_to_u64(x: f32) -> u64
    ensures { result ≡ Ieee.to_unsigned 64 x }
{
    cut_to_u64(x).held(0, 0, u64::MAX)
}
