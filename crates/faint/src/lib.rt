// How many segments are faint: their distance is NaN, so that they sit at row 0 and column 0.
#![tactic(auto)]

ghost use Rattle.std.specs.Prelude.{◌≡◌, cond, ◌*◌, ◌^◌, ◌≤◌, length};
ghost use Rattle.std.specs.Float.Ieee.{is_nan};
ghost use Rattle.faint.specs.Faint.{faint_in};

fn one_if_nan(distance: f32) -> u32
    ensures { result ≡ cond (is_nan distance) 1 0 }
{
    u32::from(distance.is_nan())
}

// Of the first `count` segments of a flat slice.
pub fn faint_in(segments: &[f32], count: usize) -> u32
    requires { (8 * count ≤ length segments.now) × (count ≤ 2 ^ 24) }
    ensures { result ≡ faint_in segments.now count }
{
    let mut found = 0;
    for i in 0..count {
        found += one_if_nan(segments[8 * i + 2]);
    }
    found
}
