// The length of a difference of whole numbers, from the exact sum of its squares.
ghost use Rattle.std.specs.Prelude.{◌≡◌, false, ◌+◌, ◌*◌, ◌≤◌, ◌<◌, ◌^◌, nat_abs};
ghost use Rattle.std.specs.Float.{binary32};
ghost use Rattle.std.specs.Float.Ieee.{units};
ghost use Rattle.roots.specs.Root.{nearest_root_at, root_of_whole};
ghost use Rattle.roots.specs.Length.{length_of};

use super::{nearest_root, whole_root};

// v², of at most 63 digits.
fn square(v: i32) -> u64
    ensures { (result ≡ nat_abs v * nat_abs v) × (result ≤ 4611686018427387904) }
{
    let a = u64::from(v.unsigned_abs());
    a * a
}

// The multiple of 2 ^ k nearest to n's root, as a number of 2 ^ k, a tie to the even one: n against the square of the middle, exactly.
fn kept_root(n: u64, k: u32) -> u64
    requires fact_1 { 0 < k }
    requires fact_2 { k ≤ 8 }
    requires fact_3 { n < 2 ^ (2 * (24 + k)) }
    ensures { result ≡ nearest_root_at k n }
{
    let q = whole_root(n >> (2 * k));
    let middle = (2 * q + 1) << (k - 1);
    let s = middle * middle;
    if n < s {
        q
    } else if s < n {
        q + 1
    } else if q % 2 == 0 {
        q
    } else {
        q + 1
    }
}

// q * 2 ^ w of the smallest values, for a q of 24 digits or 2 ^ 24: the field and the digits are one sum.
fn placed(q: u64, w: u32) -> f32
    requires fact_1 { 8388608 ≤ q }
    requires fact_2 { q ≤ 16777216 }
    requires fact_3 { w < 253 }
    ensures { result ≡ units binary32 false q w }
{
    f32::from_bits(w * 8388608 + (q as u32))
}

// The `f32` nearest to n's root.
fn root_of_whole(n: u64) -> f32
    ensures { result ≡ root_of_whole binary32 n }
{
    if n == 0 {
        return 0.0;
    }
    let z = u64::leading_zeros(n);
    if n < 281474976710656 {
        // n * 4 ^ t has 47 or 48 digits
        let t = (z - 16) / 2;
        placed(nearest_root(n << (2 * t)), 149 - t)
    } else {
        // n / 4 ^ k has 47 or 48 digits
        let k = (17 - z) / 2;
        placed(kept_root(n, k), 149 + k)
    }
}

// The length of the difference (dx, dy): the `f32` nearest to the root of dx² + dy², a tie to the even one, from the exact sum.
pub fn length(dx: i32, dy: i32) -> f32
    ensures { result ≡ length_of dx dy }
{
    root_of_whole(square(dx) + square(dy))
}
