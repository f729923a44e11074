// The coefficients of a spline, dequantized.
ghost use Rattle.std.specs.Prelude.{◌≡◌, ◌+◌, ◌<◌, ◌≤◌, length};
ghost use Rattle.dequantize.specs.Coefficients.{inv_adjusted_quant, coefficient_at, coefficient_row, gained_of, gained_rows};

#[derive(Clone, Copy)]
pub struct Rows {
    pub x: [f32; 32],
    pub y: [f32; 32],
    pub b: [f32; 32],
    pub sigma: [f32; 32],
}

#[tactic(auto, unfolding(crate::specs::Coefficients::inv_adjusted_quant))]
pub fn inv_adjusted_quant(adjustment: i32) -> f32
    ensures { result ≡ inv_adjusted_quant adjustment }
{
    let a = std::num::nearest_i32_to_f32(adjustment);
    if adjustment >= 0 {
        1.0 / (1.0 + 0.125 * a)
    } else {
        1.0 - 0.125 * a
    }
}

// The coefficient i of the row that begins at c[from].
#[tactic(auto, unfolding(crate::specs::Coefficients::coefficient_at))]
fn coefficient(c: &[i32], from: usize, i: usize, weight: f32, quant: f32) -> f32
    requires { from + i < length c.now }
    ensures { result ≡ coefficient_at c.now from weight quant i }
{
    let v = std::num::nearest_i32_to_f32(c[from + i]);
    if i == 0 {
        v * 0.70710678 * weight * quant
    } else {
        v * 1.0 * weight * quant
    }
}

fn row(c: &[i32], from: usize, weight: f32, quant: f32) -> [f32; 32]
    requires { from + 32 ≤ length c.now }
    ensures { result ≡ coefficient_row c.now from weight quant }
{
    let mut out = [0.0; 32];
    for i in 0..32 {
        out[i] = coefficient(c, from, i, weight, quant);
    }
    out
}

// A row that gains k times another.
fn gained(x: [f32; 32], k: f32, y: [f32; 32]) -> [f32; 32]
    ensures { result ≡ gained_of x k y }
{
    let mut out = [0.0; 32];
    for i in 0..32 {
        out[i] = x[i] + k * y[i];
    }
    out
}

#[tactic(auto, unfolding(crate::specs::Coefficients::gained_rows))]
pub fn gained_rows(c: &[i32], quant: f32, y_to_x: f32, y_to_b: f32) -> Rows
    requires { 128 ≤ length c.now }
    ensures { result ≡ gained_rows c.now quant y_to_x y_to_b }
{
    let y = row(c, 32, 0.075, quant);
    let x = gained(row(c, 0, 0.0042, quant), y_to_x, y);
    let b = gained(row(c, 64, 0.07, quant), y_to_b, y);
    let sigma = row(c, 96, 0.3333, quant);
    Rows { x, y, b, sigma }
}
