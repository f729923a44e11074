// Dequantizing: the coefficients and the estimate of a spline whose control points pass, and the judging of all splines.
#![tactic(auto)]

ghost use Rattle.std.specs.Prelude.{◌≡◌, ◌≤◌, length};
ghost use Rattle.dequantize.specs.Dequantize.{finished_of, dequantize_of};

use codes::Code;

pub mod coefficients;
pub mod judge;
pub mod limits;

// What all splines of an image share; limit is the area limit.
#[derive(Clone, Copy, Debug, PartialEq)]
pub struct Given {
    pub adjustment: i32,
    pub y_to_x: f32,
    pub y_to_b: f32,
    pub limit: u64,
}

// Four rows of coefficients, the estimate, and whether two adjacent control points are the same.
#[derive(Clone, Copy)]
pub struct Spline {
    pub x: [f32; 32],
    pub y: [f32; 32],
    pub b: [f32; 32],
    pub sigma: [f32; 32],
    pub estimate: u64,
    pub coincide: bool,
}

// The rows come last: while the estimate is made, none of them takes stack.
#[tactic(auto, unfolding(crate::specs::Dequantize::finished_of))]
fn finished(c: &[i32], given: Given, manhattan: u64, coincide: bool) -> Spline
    requires { 128 ≤ length c.now }
    ensures { result ≡ finished_of c.now given manhattan coincide }
{
    let quant = coefficients::inv_adjusted_quant(given.adjustment);
    let estimate = estimate::estimated_area(
        c,
        quant,
        given.y_to_x,
        given.y_to_b,
        given.limit,
        manhattan,
    );
    let rows = coefficients::gained_rows(c, quant, given.y_to_x, given.y_to_b);
    let x = rows.x;
    let y = rows.y;
    let b = rows.b;
    let sigma = rows.sigma;
    Spline {
        x,
        y,
        b,
        sigma,
        estimate,
        coincide,
    }
}

#[tactic(auto, unfolding(crate::specs::Dequantize::dequantize_of))]
pub fn dequantize(
    start_x: f32,
    start_y: f32,
    deltas: &[i32],
    c: &[i32],
    given: Given,
) -> Result<Spline, Code>
    requires { 128 ≤ length c.now }
    ensures { result ≡ dequantize_of start_x start_y deltas.now c.now given }
{
    let start = control_points::starting_point(start_x, start_y).ok_or(Code::Position)?;
    let run = control_points::trace(start, deltas, given.limit)?;
    Ok(finished(c, given, run.manhattan, run.coincide))
}
