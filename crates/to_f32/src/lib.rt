// The f32 nearest to a number, a tie to the even one, for all input.
//   whole numbers   nearest_u32_to_f32, _i32, _u64, _i64      Rust's `as` (lib.Ieee: of_int)
//   f64             nearest_f64_to_f32                        specs/Narrow
// specs/Digits has a float as digits and their place. scale is for `roots` too.
#![tactic(auto)]

ghost use Rattle.std.specs.Prelude.{◌≡◌, false, ◌≤◌, ◌<◌, ◌^◌, T, pos};
ghost use Rattle.std.specs.Float.Ieee as Ieee;
ghost use Rattle.std.specs.Float.{binary32, binary64};
ghost use Rattle.std.specs.Float.Ieee.{units};
ghost use Rattle.std.specs.Float.Ieee.Nearest.{closest};
ghost use Rattle.std.specs.Float.Ieee.Positive.{positive};
ghost use Rattle.to_f32.specs.Narrow.{narrow};
ghost use Rattle.to_f32.specs.Digits.{Split, Power};

// ---- whole numbers

// n / 2^k to the nearest whole number, a tie to the even one.
fn shifted(n: u64, k: u32) -> u64
    requires fact_1 { 0 < k }
    requires fact_2 { k < 64 }
    ensures { result ≡ closest n (2 ^ k) }
{
    let d: u64 = 1 << k;
    let q = n / d;
    let r = n % d;
    let s = d - r;
    if r < s {
        q
    } else if s < r {
        q + 1
    } else {
        q + q % 2
    }
}

// 2^w of the smallest values.
pub fn scale(w: u32) -> f32
    requires { w < 277 }
    ensures { Power w result }
{
    if w < 23 {
        f32::from_bits(1 << w)
    } else {
        f32::from_bits((w - 22) << 23)
    }
}

// The f32 nearest to n, a tie to the even one.
pub fn nearest_u64_to_f32(n: u64) -> f32
    ensures { result ≡ Ieee.of_int binary32 (pos n) }
{
    if n <= 16777216 {
        n as f32
    } else {
        // n has 24 + k digits
        let k = 40 - u64::leading_zeros(n);
        let q = shifted(n, k);
        (q as f32) * scale(k + 149)
    }
}

pub fn nearest_u32_to_f32(n: u32) -> f32
    ensures { result ≡ Ieee.of_int binary32 (pos n) }
{
    nearest_u64_to_f32(u64::from(n))
}

pub fn nearest_i64_to_f32(z: i64) -> f32
    ensures { result ≡ Ieee.of_int binary32 z }
{
    let a = nearest_u64_to_f32(z.unsigned_abs());
    if z < 0 { -a } else { a }
}

pub fn nearest_i32_to_f32(z: i32) -> f32
    ensures { result ≡ Ieee.of_int binary32 z }
{
    nearest_i64_to_f32(i64::from(z))
}

// ---- f64

#[derive(Clone, Copy)]
struct WideParts {
    m: u64,
    e: u64,
}

// The digits of x and their place.
fn split_f64(x: f64) -> WideParts
    requires { T (positive x) }
    ensures { Split binary64 x result.m result.e }
{
    let b = f64::to_bits(x);
    let f = b >> 52;
    let d = b & 4503599627370495;
    if f == 0 {
        WideParts { m: d, e: 0 }
    } else {
        WideParts {
            m: d + 4503599627370496,
            e: f - 1,
        }
    }
}

// m / 2^k to the nearest, times 2^w of the smallest values.
fn put(m: u64, k: u32, w: u32) -> f32
    requires fact_1 { m < 9007199254740992 }
    requires fact_2 { 29 ≤ k }
    requires fact_3 { k < 64 }
    requires fact_4 { w < 254 }
    ensures { result ≡ units binary32 false (closest m (2 ^ k)) w }
{
    let q = shifted(m, k);
    (q as f32) * scale(w)
}

// An x that is finite and above zero.
fn narrow_above(x: f64) -> f32
    requires { T (positive x) }
    ensures { result ≡ narrow binary32 x }
{
    let p = split_f64(x);
    let m = p.m;
    let e = p.e;
    if e < 896 {
        if e <= 861 {
            0.0
        } else {
            put(m, (925 - e) as u32, 0)
        }
    } else {
        if e < 1150 {
            put(m, 29, (e - 896) as u32)
        } else {
            1.0 / 0.0
        }
    }
}

// The f32 nearest to x, a tie to the even one: Rust's `x as f32`.
pub fn nearest_f64_to_f32(x: f64) -> f32
    ensures { result ≡ narrow binary32 x }
{
    if x > 0.0 {
        if x < 1.0 / 0.0 {
            narrow_above(x)
        } else {
            1.0 / 0.0
        }
    } else if x < 0.0 {
        let a = -x;
        if a < 1.0 / 0.0 {
            -narrow_above(a)
        } else {
            -1.0 / 0.0
        }
    } else if x == 0.0 {
        x as f32
    } else {
        0.0 / 0.0
    }
}
