// What one segment adds at a distance from its centre, and three channels with it added by such intensities: `draw_segment_inner` of spline.rs.
#![tactic(auto)]

ghost use Rattle.std.specs.Prelude.{◌≡◌, cond, ◌+◌, ◌≤◌, length, get_or};
ghost use Rattle.std.specs.Float.{nan};
ghost use Rattle.std.specs.Float.Ieee.{neg};
ghost use Rattle.approximations.specs.Erf.{fast_erff};
ghost use Rattle.shade.specs.Alike.{Alike};
ghost use Rattle.shade.specs.Edit.{edit};
ghost use Rattle.shade.specs.Shade.{intensity_at, shaded_by_intensity};

use segments::Segment;

// x, or -x where it is to be turned.
fn turned(turn: bool, x: f32) -> f32
    ensures { result ≡ cond turn (neg x) x }
{
    if turn { -x } else { x }
}

// `fast_erff_simd` by one comparison: of a zero it may have the other sign, which the square in `intensity` does not show.
fn erf(x: f32) -> f32
    ensures { Alike result (fast_erff x) }
{
    let negative = x < 0.0;
    turned(negative, approximations::erf_core(turned(negative, x)))
}

// What a segment adds at a distance, before its colours.
pub fn intensity(segment: Segment, distance: f32) -> f32
    ensures { result ≡ intensity_at segment distance }
{
    let arg1 = (distance * 0.5 + 0.353_553_38) * segment.inv_sigma;
    let arg2 = (distance * 0.5 + -0.353_553_38) * segment.inv_sigma;
    let factor = erf(arg1) - erf(arg2);
    segment.sigma_over_4_times_intensity * factor * factor
}

// m, or the next multiple of four.
pub fn fours(m: usize) -> usize
    requires { m ≤ 32 }
    ensures { (m ≤ result) × (result ≤ 32) × (result ≤ m + 3) }
{
    (m + 3) / 4 * 4
}

// Adds a segment to at most 32 pixels, by the intensities there.
// The channels stay three parameters, for the reason that `draw/src/lib.rt` gives.
pub fn add(segment: Segment, locals: &[f32; 32], r0: &mut [f32], r1: &mut [f32], r2: &mut [f32])
    requires { (length r0.old ≤ 32) × (length r1.old ≡ length r0.old) × (length r2.old ≡ length r0.old) }
    ensures r0_after { r0.new ≡ edit (λ k v. shaded_by_intensity segment (get_or locals.now k nan) 0 v) r0.old }
    ensures r1_after { r1.new ≡ edit (λ k v. shaded_by_intensity segment (get_or locals.now k nan) 1 v) r1.old }
    ensures r2_after { r2.new ≡ edit (λ k v. shaded_by_intensity segment (get_or locals.now k nan) 2 v) r2.old }
{
    let n = r0.len();
    for k in 0..n {
        let local = locals[k];
        r0[k] = segment.color0 * local + r0[k];
        r1[k] = segment.color1 * local + r1[k];
        r2[k] = segment.color2 * local + r2[k];
    }
}
