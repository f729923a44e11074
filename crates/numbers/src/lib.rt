// What the other numbers stand on: f32 by magnitude and sign, for all input, NaN, infinities and subnormals included, and u64 that saturate.
//   magnitude       abs, negative, with_sign, top, min, max,
//                   is_infinite                               specs/Magnitude
//   u64             saturating_add, saturating_mul,
//                   ceil_log2                                 specs/Saturating
// specs/Arith has the operators on f32. proofs/ has the laws on floats and powers of two that several of the crates over this one cite.
#![tactic(auto)]

ghost use Rattle.std.specs.Prelude.{◌≡◌, ◌<◌};
ghost use Rattle.numbers.specs.Magnitude.{abs_of, sign_of, with_sign, top_of, min_of, max_of, is_infinite};
ghost use Rattle.numbers.specs.Saturating.{sat_add, sat_mul, floor_log2, ceil_log2};

// ---- magnitude

// The magnitude of x.
pub fn abs(x: f32) -> f32
    ensures { result ≡ abs_of x }
{
    x.abs()
}

// Whether x has the sign of a negative number. A NaN has none: `is_sign_negative` wants a number.
pub fn negative(x: f32) -> bool
    ensures { result ≡ sign_of x }
{
    if x == 0.0 { 1.0 / x < 0.0 } else { x < 0.0 }
}

// The magnitude of x with the sign s, which `copysign` takes from a number alone.
pub fn with_sign(s: bool, x: f32) -> f32
    ensures { result ≡ with_sign s x }
{
    let a = abs(x);
    if s { -a } else { a }
}

// The greater of two magnitudes, by the total order; `total_cmp` wants two numbers.
#[tactic(auto, unfolding(crate::specs::Magnitude::top_of))]
pub fn top(a: f32, b: f32) -> f32
    ensures { result ≡ top_of a b }
{
    if a.is_nan() {
        a
    } else if b.is_nan() {
        b
    } else if a < b {
        b
    } else {
        a
    }
}

// Rust's `a.min(b)`: a NaN gives the other one. Of two zeros it is the first, which std's `min` leaves open.
#[tactic(auto, unfolding(crate::specs::Magnitude::min_of))]
pub fn min(a: f32, b: f32) -> f32
    ensures { result ≡ min_of a b }
{
    if a.is_nan() {
        b
    } else if b < a {
        b
    } else {
        a
    }
}

// Rust's `a.max(b)`, in the same way: of two zeros it is the first, which std's `max` leaves open.
#[tactic(auto, unfolding(crate::specs::Magnitude::max_of))]
pub fn max(a: f32, b: f32) -> f32
    ensures { result ≡ max_of a b }
{
    if a.is_nan() {
        return b;
    }
    if a < b { b } else { a }
}

// Whether x is an infinity of either sign.
pub fn is_infinite(x: f32) -> bool
    ensures { result ≡ is_infinite x }
{
    x.is_infinite()
}

// ---- u64

#[tactic(auto, unfolding(crate::specs::Saturating::sat_add))]
pub fn saturating_add(a: u64, b: u64) -> u64
    ensures { result ≡ sat_add a b }
{
    a.saturating_add(b)
}

#[tactic(auto, unfolding(crate::specs::Saturating::sat_mul))]
pub fn saturating_mul(a: u64, b: u64) -> u64
    ensures { result ≡ sat_mul a b }
{
    a.saturating_mul(b)
}

fn floor_log2(n: u64) -> u64
    requires { 0 < n }
    ensures { result ≡ floor_log2 n }
{
    u64::from(64 - n.leading_zeros() - 1)
}

pub fn ceil_log2(n: u64) -> u64
    ensures { result ≡ ceil_log2 n }
{
    if n == 0 {
        0
    } else if n & (n - 1) != 0 {
        floor_log2(n) + 1
    } else {
        floor_log2(n)
    }
}
