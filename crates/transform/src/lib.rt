// The transform: the colours and the width of a spline at a place of its path, from the four rows of coefficients.
#![tactic(auto)]

ghost use Rattle.std.specs.Prelude.{◌≡◌, ◌⊎◌, ◌+◌, ◌-◌, ◌%◌, ◌<◌, get_or};
ghost use Rattle.std.specs.Float.{nan};
ghost use Rattle.numbers.specs.Arith.{◌⊗◌};
ghost use Rattle.dequantize.specs.Coefficients.{table};
ghost use Rattle.eights.specs.Eights.{cosine_at, sum_of};
ghost use Rattle.transform.specs.Transform.{sums_of};

use dequantize::Spline;
use eights::{cosines, fed};

// The colours and the width of a spline at a place.
#[derive(Clone, Copy, Debug, PartialEq)]
pub struct Sums {
    pub x: f32,
    pub y: f32,
    pub b: f32,
    pub sigma: f32,
}

// The four running sums get eight products more: each cosine is worked out once, and fed to all four.
fn more(
    sums: Sums,
    x: &[f32; 32],
    y: &[f32; 32],
    b: &[f32; 32],
    sigma: &[f32; 32],
    from: usize,
    t: f32,
) -> Sums
    requires { (from % 8 ≡ 0) × (from < 32)
        × ((from ≡ 0) ⊎ (sums.x ≡ sum_of (λ i. get_or x.now i nan ⊗ get_or (table (cosine_at t) 32) i nan) (from - 1)))
        × ((from ≡ 0) ⊎ (sums.y ≡ sum_of (λ i. get_or y.now i nan ⊗ get_or (table (cosine_at t) 32) i nan) (from - 1)))
        × ((from ≡ 0) ⊎ (sums.b ≡ sum_of (λ i. get_or b.now i nan ⊗ get_or (table (cosine_at t) 32) i nan) (from - 1)))
        × ((from ≡ 0) ⊎ (sums.sigma ≡ sum_of (λ i. get_or sigma.now i nan ⊗ get_or (table (cosine_at t) 32) i nan) (from - 1))) }
    ensures { (result.x ≡ sum_of (λ i. get_or x.now i nan ⊗ get_or (table (cosine_at t) 32) i nan) (from + 7))
        × (result.y ≡ sum_of (λ i. get_or y.now i nan ⊗ get_or (table (cosine_at t) 32) i nan) (from + 7))
        × (result.b ≡ sum_of (λ i. get_or b.now i nan ⊗ get_or (table (cosine_at t) 32) i nan) (from + 7))
        × (result.sigma ≡ sum_of (λ i. get_or sigma.now i nan ⊗ get_or (table (cosine_at t) 32) i nan) (from + 7)) }
{
    let eight = cosines(from, t);
    Sums {
        x: fed(sums.x, x, eight, from, t),
        y: fed(sums.y, y, eight, from, t),
        b: fed(sums.b, b, eight, from, t),
        sigma: fed(sums.sigma, sigma, eight, from, t),
    }
}

pub fn sums_at(spline: Spline, t: f32) -> Sums
    ensures { result ≡ sums_of spline t }
{
    let x = spline.x;
    let y = spline.y;
    let b = spline.b;
    let sigma = spline.sigma;
    let none = Sums {
        x: 0.0,
        y: 0.0,
        b: 0.0,
        sigma: 0.0,
    };
    let one = more(none, &x, &y, &b, &sigma, 0, t);
    let two = more(one, &x, &y, &b, &sigma, 8, t);
    let three = more(two, &x, &y, &b, &sigma, 16, t);
    let all = more(three, &x, &y, &b, &sigma, 24, t);
    Sums {
        x: all.x * 1.4142135,
        y: all.y * 1.4142135,
        b: all.b * 1.4142135,
        sigma: all.sigma * 1.4142135,
    }
}
