// The inner functions of the numbers, exported for the host's comparisons only: the second static library.
#![tactic(auto)]

ghost use Rattle.std.specs.Prelude.{◌≡◌, pos};
ghost use Rattle.std.specs.Float.Ieee as Ieee;
ghost use Rattle.std.specs.Float.{binary32};
ghost use Rattle.wholes.specs.Whole.{floor_of, ceil_of, round_of};
ghost use Rattle.to_f32.specs.Narrow.{narrow};
ghost use Rattle.roots.specs.Root.{sqrt_of};
ghost use Rattle.roots.specs.Length.{length_of};
ghost use Rattle.numbers.specs.Magnitude.{abs_of, sign_of, top_of, min_of, max_of, is_infinite};
ghost use Rattle.approximations.specs.Cos.{fast_cos};
ghost use Rattle.approximations.specs.Erf.{fast_erff};
ghost use Rattle.numbers.specs.Saturating.{sat_add, sat_mul, ceil_log2};
ghost use Rattle.kinds.specs.Kind.{cut_i64, cut_i32, cut_u64};
ghost use Rattle.leaves.specs.Kinds.{number_of, number_i64, number_i32, number_u64};

use kinds::Kind;

#[unsafe(no_mangle)]
pub extern "C" fn leaves_floor(x: f32) -> f32
    ensures { result ≡ floor_of binary32 x }
{
    wholes::floor(x)
}

#[unsafe(no_mangle)]
pub extern "C" fn leaves_ceil(x: f32) -> f32
    ensures { result ≡ ceil_of binary32 x }
{
    wholes::ceil(x)
}

#[unsafe(no_mangle)]
pub extern "C" fn leaves_round(x: f32) -> f32
    ensures { result ≡ round_of binary32 x }
{
    wholes::round(x)
}

#[unsafe(no_mangle)]
pub extern "C" fn leaves_saturating_f32_to_i64(x: f32) -> i64
    ensures { result ≡ Ieee.to_signed 63 x }
{
    kinds::saturating_f32_to_i64(x)
}

#[unsafe(no_mangle)]
pub extern "C" fn leaves_saturating_f32_to_i32(x: f32) -> i32
    ensures { result ≡ Ieee.to_signed 31 x }
{
    kinds::saturating_f32_to_i32(x)
}

#[unsafe(no_mangle)]
pub extern "C" fn leaves_saturating_f32_to_u64(x: f32) -> u64
    ensures { result ≡ Ieee.to_unsigned 64 x }
{
    kinds::saturating_f32_to_u64(x)
}

// A kind by its number, which is what C takes.
fn number<T: Copy>(kind: Kind<T>) -> u32
    ensures { result ≡ number_of kind }
{
    match kind {
        Kind::Exact(_) => 0,
        Kind::NotNumber => 1,
        Kind::Below => 2,
        Kind::Above => 3,
    }
}

// The kind of each conversion.
#[unsafe(no_mangle)]
pub extern "C" fn leaves_kind_i64(x: f32) -> u32
    ensures { result ≡ number_i64 (cut_i64 x) }
{
    number(kinds::cut_to_i64(x))
}

#[unsafe(no_mangle)]
pub extern "C" fn leaves_kind_i32(x: f32) -> u32
    ensures { result ≡ number_i32 (cut_i32 x) }
{
    number(kinds::cut_to_i32(x))
}

#[unsafe(no_mangle)]
pub extern "C" fn leaves_kind_u64(x: f32) -> u32
    ensures { result ≡ number_u64 (cut_u64 x) }
{
    number(kinds::cut_to_u64(x))
}

#[unsafe(no_mangle)]
pub extern "C" fn leaves_nearest_u32_to_f32(n: u32) -> f32
    ensures { result ≡ Ieee.of_int binary32 (pos n) }
{
    to_f32::nearest_u32_to_f32(n)
}

#[unsafe(no_mangle)]
pub extern "C" fn leaves_nearest_i32_to_f32(z: i32) -> f32
    ensures { result ≡ Ieee.of_int binary32 z }
{
    to_f32::nearest_i32_to_f32(z)
}

#[unsafe(no_mangle)]
pub extern "C" fn leaves_nearest_u64_to_f32(n: u64) -> f32
    ensures { result ≡ Ieee.of_int binary32 (pos n) }
{
    to_f32::nearest_u64_to_f32(n)
}

#[unsafe(no_mangle)]
pub extern "C" fn leaves_nearest_i64_to_f32(z: i64) -> f32
    ensures { result ≡ Ieee.of_int binary32 z }
{
    to_f32::nearest_i64_to_f32(z)
}

#[unsafe(no_mangle)]
pub extern "C" fn leaves_nearest_f64_to_f32(x: f64) -> f32
    ensures { result ≡ narrow binary32 x }
{
    to_f32::nearest_f64_to_f32(x)
}

#[unsafe(no_mangle)]
pub extern "C" fn leaves_root(x: f32) -> f32
    ensures { result ≡ sqrt_of binary32 x }
{
    roots::root(x)
}

#[unsafe(no_mangle)]
pub extern "C" fn leaves_abs(x: f32) -> f32
    ensures { result ≡ abs_of x }
{
    numbers::abs(x)
}

#[unsafe(no_mangle)]
pub extern "C" fn leaves_negative(x: f32) -> bool
    ensures { result ≡ sign_of x }
{
    numbers::negative(x)
}

#[unsafe(no_mangle)]
pub extern "C" fn leaves_top(a: f32, b: f32) -> f32
    ensures { result ≡ top_of a b }
{
    numbers::top(a, b)
}

#[unsafe(no_mangle)]
pub extern "C" fn leaves_min(a: f32, b: f32) -> f32
    ensures { result ≡ min_of a b }
{
    numbers::min(a, b)
}

#[unsafe(no_mangle)]
pub extern "C" fn leaves_max(a: f32, b: f32) -> f32
    ensures { result ≡ max_of a b }
{
    numbers::max(a, b)
}

#[unsafe(no_mangle)]
pub extern "C" fn leaves_is_infinite(x: f32) -> bool
    ensures { result ≡ is_infinite x }
{
    numbers::is_infinite(x)
}

#[unsafe(no_mangle)]
pub extern "C" fn leaves_fast_cos(x: f32) -> f32
    ensures { result ≡ fast_cos x }
{
    approximations::fast_cos(x)
}

#[unsafe(no_mangle)]
pub extern "C" fn leaves_fast_erff(x: f32) -> f32
    ensures { result ≡ fast_erff x }
{
    approximations::fast_erff(x)
}

#[unsafe(no_mangle)]
pub extern "C" fn leaves_saturating_add(a: u64, b: u64) -> u64
    ensures { result ≡ sat_add a b }
{
    numbers::saturating_add(a, b)
}

#[unsafe(no_mangle)]
pub extern "C" fn leaves_saturating_mul(a: u64, b: u64) -> u64
    ensures { result ≡ sat_mul a b }
{
    numbers::saturating_mul(a, b)
}

#[unsafe(no_mangle)]
pub extern "C" fn leaves_ceil_log2(n: u64) -> u64
    ensures { result ≡ ceil_log2 n }
{
    numbers::ceil_log2(n)
}

// With the table that drawing lends.
#[unsafe(no_mangle)]
pub extern "C" fn leaves_root_by(x: f32) -> f32
    ensures { result ≡ sqrt_of binary32 x }
{
    let table = roots::ROOTS;
    roots::root_by(x, &table)
}

#[unsafe(no_mangle)]
pub extern "C" fn leaves_length(dx: i32, dy: i32) -> f32
    ensures { result ≡ length_of dx dy }
{
    roots::length(dx, dy)
}
