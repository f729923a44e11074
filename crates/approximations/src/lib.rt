// Functions that are computed by a fixed order of steps, and are nearly what they are named after, for all input.
//   cosine, erf     fast_cos, fast_erff                       specs/Cos, specs/Erf
//   logarithm       ln                                        specs/Ln
#![tactic(auto)]

ghost use Rattle.std.specs.Prelude.{◌≡◌, T};
ghost use Rattle.std.specs.Float.Ieee.Positive.{positive};
ghost use Rattle.approximations.specs.Cos.{cos_core, fast_cos};
ghost use Rattle.approximations.specs.Erf.{erf_core, fast_erff};
ghost use Rattle.approximations.specs.Ln.{ln_at, ln_of};

const PI: f32 = 3.14159265358979323846264338327950288;

const SQRT_2: f32 = 1.41421356237309504880168872420969808;

// ---- cosine and erf

// The cosine of an angle up to a quarter turn.
fn cos_core(x: f32) -> f32
    ensures { result ≡ cos_core x }
{
    let xs = x * 0.25;
    let x2 = xs * xs;
    let x4 = x2 * x2;
    let c = x4 * 0.06960438 + (x2 * -0.84087373 + 1.68179268);
    let c1 = c * c - SQRT_2;
    c1 * c1 - 1.0
}

pub fn fast_cos(x: f32) -> f32
    ensures { result ≡ fast_cos x }
{
    let pi2 = PI * 2.0;
    let pi2_inv = 0.5 / PI;
    let npi2 = wholes::floor(x * pi2_inv) * pi2;
    let xmodpi2 = x - npi2;
    let x_pi = numbers::min(xmodpi2, pi2 - xmodpi2);
    if x_pi >= PI / 2.0 {
        -cos_core(PI - x_pi)
    } else {
        cos_core(x_pi)
    }
}

// erf on the magnitude.
pub fn erf_core(x: f32) -> f32
    ensures { result ≡ erf_core x }
{
    let denom1 = x * 7.77394369e-02 + 2.05260015e-04;
    let denom2 = denom1 * x + 2.32120216e-01;
    let denom3 = denom2 * x + 2.77820801e-01;
    let denom4 = denom3 * x + 1.0;
    let denom5 = denom4 * denom4;
    let inv_denom5 = 1.0 / denom5;
    1.0 - inv_denom5 * inv_denom5
}

pub fn fast_erff(x: f32) -> f32
    ensures { result ≡ fast_erff x }
{
    numbers::with_sign(numbers::negative(x), erf_core(numbers::abs(x)))
}

// ---- the logarithm

// ln(z * 2^k).
fn ln_at(z: f64, k: f64) -> f64
    ensures { result ≡ ln_at z k }
{
    let s = (z - 1.0) / (z + 1.0);
    let w = s * s;
    let p10 = 0.047619047619047616;
    let p9 = p10 * w + 0.05263157894736842;
    let p8 = p9 * w + 0.058823529411764705;
    let p7 = p8 * w + 0.06666666666666667;
    let p6 = p7 * w + 0.07692307692307693;
    let p5 = p6 * w + 0.09090909090909091;
    let p4 = p5 * w + 0.1111111111111111;
    let p3 = p4 * w + 0.14285714285714285;
    let p2 = p3 * w + 0.2;
    let p1 = p2 * w + 0.3333333333333333;
    let t = s + s;
    k * 0.6931471805599453 + (t + t * (p1 * w))
}

// The logarithm of an x that is finite and above zero.
fn ln_above(x: f32) -> f32
    requires { T (positive x) }
    ensures { result ≡ ln_of x }
{
    let b = f64::to_bits(f64::from(x));
    let z = f64::from_bits((b & 4503599627370495) + 4607182418800017408);
    let k = ((b >> 52) as f64) - 1023.0;
    if z > 1.4142135623730951 {
        to_f32::nearest_f64_to_f32(ln_at(z * 0.5, k + 1.0))
    } else {
        to_f32::nearest_f64_to_f32(ln_at(z, k))
    }
}

// The natural logarithm.
pub fn ln(x: f32) -> f32
    ensures { result ≡ ln_of x }
{
    if x > 0.0 {
        if x < 1.0 / 0.0 { ln_above(x) } else { x }
    } else if x == 0.0 {
        -1.0 / 0.0
    } else {
        0.0 / 0.0
    }
}
