// Roots and lengths: the f32 nearest to each, a tie to the even one, for all input.
//   root            root, root_by                             specs/Root, specs/RootBy
//   length          length                                    specs/Length
#![tactic(auto)]

ghost use Rattle.std.specs.Prelude.{◌≡◌, ◌<◌, T};
ghost use Rattle.std.specs.Float.{binary32};
ghost use Rattle.std.specs.Float.Ieee.Positive.{positive};
ghost use Rattle.to_f32.specs.Digits.{Split};
ghost use Rattle.roots.specs.Root.{IsRoot, nearest_root, sqrt_of};

mod by_table;
mod lengths;

pub use by_table::{ROOTS, root_by};
pub use lengths::length;

// A number below 2^24 that is likely the whole part of n's root. Nothing rests on it.
fn guess_root(n: u64) -> u64
    requires { n < 281474976710656 }
    ensures { result < 16777216 }
{
    // a number with a sign becomes a float in one instruction
    // the root of u = n / 2^46, from 1 up to 4: by a cubic to a part in 940, then by one step of Halley's to one in 3 * 10^9
    let u = (n as i64) as f64 * 0.000000000000014210854715202004;
    let y = ((0.008980291113908431 * u - 0.10323619306053179) * u + 0.6612826583625814) * u
        + 0.4340364603873137;
    let s = y * y;
    let z = y * (s + 3.0 * u) / (3.0 * s + u);
    // the digits of a number from 2^29 on end at 2^-23, so that the last 24 are the whole number nearest to n's root
    let w = z + 536870912.0;
    if w > 0.0 {
        let g = f64::to_bits(w) % 16777216;
        if n < g * g {
            (g + 16777215) % 16777216
        } else {
            g
        }
    } else {
        0
    }
}

// The whole part of n's root, by halving.
fn search_root(n: u64) -> u64
    requires { n < 281474976710656 }
    ensures { IsRoot n result }
{
    let mut lo: u64 = 0;
    let mut hi: u64 = 16777216;
    while hi - lo > 1 {
        let mid = lo + (hi - lo) / 2;
        if mid * mid <= n {
            lo = mid;
        } else {
            hi = mid;
        }
    }
    lo
}

// The whole part of n's root: the guess where it passes the test.
fn whole_root(n: u64) -> u64
    requires { n < 281474976710656 }
    ensures { IsRoot n result }
{
    let g = guess_root(n);
    if g * g <= n {
        if n < (g + 1) * (g + 1) {
            g
        } else {
            search_root(n)
        }
    } else {
        search_root(n)
    }
}

// The whole number nearest to n's root. No root lies half way.
fn nearest_root(n: u64) -> u64
    requires { n < 281474976710656 }
    ensures { result ≡ nearest_root n }
{
    let q = whole_root(n);
    if n - q * q <= q { q } else { q + 1 }
}

#[derive(Clone, Copy)]
struct Parts {
    m: u64,
    e: u32,
}

// The digits of x and their place.
fn split_f32(x: f32) -> Parts
    requires { T (positive x) }
    ensures { Split binary32 x result.m result.e }
{
    let b = f32::to_bits(x);
    let f = b >> 23;
    let d = b & 8388607;
    if f == 0 {
        Parts {
            m: u64::from(d),
            e: 0,
        }
    } else {
        Parts {
            m: u64::from(d) + 8388608,
            e: f - 1,
        }
    }
}

// The root of an x that is finite and above zero: its digits, moved to 47 or 48 so that their place is even, have a root of 24.
fn root_above(x: f32) -> f32
    requires { T (positive x) }
    ensures { result ≡ sqrt_of binary32 x }
{
    let p = split_f32(x);
    let m = p.m;
    let e = p.e;
    let z = u64::leading_zeros(m);
    let h = e + 166 - z;
    let t = z - 17 + h % 2;
    let q = nearest_root(m << t);
    (q as f32) * to_f32::scale(h / 2)
}

// The root of x, to the nearest f32, a tie to the even one.
pub fn root(x: f32) -> f32
    ensures { result ≡ sqrt_of binary32 x }
{
    if x > 0.0 {
        if x < 1.0 / 0.0 { root_above(x) } else { x }
    } else if x < 0.0 {
        0.0 / 0.0
    } else {
        x
    }
}
