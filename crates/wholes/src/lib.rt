// A float made whole, for all input, NaN, infinities and subnormals included.
//   whole parts     floor, ceil, round                        specs/Whole
// specs/Small says what the steps take, a number above 0 and below 2^23, and what they make; half_of is for `kinds` too.
#![tactic(auto)]

ghost use Rattle.std.specs.Prelude.{◌≡◌, cond, pos};
ghost use Rattle.std.specs.Float.Ieee as Ieee;
ghost use Rattle.std.specs.Float.{binary32};
ghost use Rattle.std.specs.Float.Ieee.Nearest.{closest};
ghost use Rattle.std.specs.Float.Ieee.Positive.{num, den};
ghost use Rattle.wholes.specs.Whole.{cut, raised, half, floor_of, ceil_of, round_of};
ghost use Rattle.wholes.specs.Small.{Small, Made};

// The whole number nearest to a, a tie to the even one: 2^23 and more leaves a float no fraction. std's `round_ties_even` would test for that again.
fn nearest_to(a: f32) -> f32
    requires { Small a }
    ensures { result ≡ Ieee.of_int binary32 (pos (closest (num a) (den a))) }
{
    (a + 8388608.0) - 8388608.0
}

// 0 where the test passes, else 1: added, it leaves the machine no branch to foresee.
fn unless(test: bool) -> u32
    ensures { result ≡ cond test 0 1 }
{
    if test { 0 } else { 1 }
}

// The whole number nearest to a, a half up: the tie that went down to the even number goes up by one.
pub fn half_of(a: f32) -> u64
    requires { Small a }
    ensures { Made half a result }
{
    let near = nearest_to(a);
    let up = unless(a < near + 0.5);
    u64::from(near as u32 + up)
}

// The whole part of a, with no conversion to an integer.
fn down_from(a: f32) -> f32
    requires { Small a }
    ensures { result ≡ Ieee.of_int binary32 (pos (cut (num a) (den a))) }
{
    let t = nearest_to(a);
    if a < t { t - 1.0 } else { t }
}

// a, or the next whole number up.
fn up_from(a: f32) -> f32
    requires { Small a }
    ensures { result ≡ Ieee.of_int binary32 (pos (raised (num a) (den a))) }
{
    let t = nearest_to(a);
    if t < a { t + 1.0 } else { t }
}

// The largest whole number that is at most x. From 2^23 on every f32 is whole. std's `floor` finds the one below and the one above, and chooses:
// by it, and by its `ceil` and `round`, a call takes twice the steps and zero nine times.
pub fn floor(x: f32) -> f32
    ensures { result ≡ floor_of binary32 x }
{
    if x > 0.0 {
        if x < 8388608.0 { down_from(x) } else { x }
    } else if x < 0.0 {
        let a = -x;
        if a < 8388608.0 { -up_from(a) } else { x }
    } else {
        x
    }
}

// The least whole number that is at least x.
pub fn ceil(x: f32) -> f32
    ensures { result ≡ ceil_of binary32 x }
{
    if x > 0.0 {
        if x < 8388608.0 { up_from(x) } else { x }
    } else if x < 0.0 {
        let a = -x;
        if a < 8388608.0 { -down_from(a) } else { x }
    } else {
        x
    }
}

// The whole number nearest to x, a half away from zero.
pub fn round(x: f32) -> f32
    ensures { result ≡ round_of binary32 x }
{
    if x > 0.0 {
        if x < 8388608.0 { half_of(x) as f32 } else { x }
    } else if x < 0.0 {
        let a = -x;
        if a < 8388608.0 {
            -(half_of(a) as f32)
        } else {
            x
        }
    } else {
        x
    }
}
