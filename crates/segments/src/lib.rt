// A segment of a spline: which points make one, its eight floats, and the rows and columns that it touches.
#![tactic(auto)]

ghost use Rattle.std.specs.Prelude.{◌≡◌, ◌&&◌, ◌+◌, ◌*◌, ◌≤◌, leb, ltb, length};
ghost use Rattle.std.proofs.lemmas.List.Edits.{sets};
ghost use Rattle.segments.specs.Segment.{skipped, max_color, distance_exp, max_distance, add_segment, segment_at, eight_of};
ghost use Rattle.segments.specs.Ranges.{rows_of, columns_of};

pub use ends::{column_first, column_past};

#[derive(Clone, Copy, Debug, PartialEq)]
pub struct Segment {
    pub center_x: f32,
    pub center_y: f32,
    pub maximum_distance: f32,
    pub inv_sigma: f32,
    pub sigma_over_4_times_intensity: f32,
    pub color0: f32,
    pub color1: f32,
    pub color2: f32,
}

// Rows or columns: from the first up to, not including, the one past the last.
#[derive(Clone, Copy, Debug, PartialEq, Eq)]
pub struct Range {
    pub first: u32,
    pub past: u32,
}

impl Range {
    // Whether row or column n is in the range.
    pub fn contains(self, n: u32) -> bool
        ensures { result ≡ (leb self.first n && ltb n self.past) }
    {
        self.first <= n && n < self.past
    }
}

// Whether a point makes no segment.
#[tactic(auto, unfolding(crate::specs::Segment::skipped))]
fn skipped(intensity: f32, sigma: f32) -> bool
    ensures { result ≡ skipped intensity sigma }
{
    numbers::is_infinite(sigma)
        || sigma == 0.0
        || numbers::is_infinite(1.0 / sigma)
        || numbers::is_infinite(intensity)
}

// The greatest magnitude of 0.01 and the colours, each times the intensity.
#[tactic(auto, unfolding(crate::specs::Segment::max_color))]
fn max_color(intensity: f32, c0: f32, c1: f32, c2: f32) -> f32
    ensures { result ≡ max_color intensity c0 c1 c2 }
{
    let a = numbers::abs(0.01 * intensity);
    let b = numbers::top(a, numbers::abs(c0 * intensity));
    let c = numbers::top(b, numbers::abs(c1 * intensity));
    numbers::top(c, numbers::abs(c2 * intensity))
}

fn distance_exp(high_precision: bool) -> f32
    ensures { result ≡ distance_exp high_precision }
{
    if high_precision { 5.0 } else { 3.0 }
}

// How far from its centre a segment is drawn. The literal is the logarithm of 0.1.
fn max_distance(sigma: f32, max_color: f32, high_precision: bool) -> f32
    ensures { result ≡ max_distance sigma max_color high_precision }
{
    let faintest = -2.3025851 * distance_exp(high_precision);
    roots::root(-2.0 * sigma * sigma * (faintest - approximations::ln(max_color)))
}

// The segment that a point of the walk makes, if it makes one.
#[tactic(auto, unfolding(crate::specs::Segment::add_segment))]
pub fn add_segment(
    center_x: f32,
    center_y: f32,
    intensity: f32,
    c0: f32,
    c1: f32,
    c2: f32,
    sigma: f32,
    high_precision: bool,
) -> Option<Segment>
    ensures { result ≡ add_segment center_x center_y intensity c0 c1 c2 sigma high_precision }
{
    if skipped(intensity, sigma) {
        return None;
    }
    let distance = max_distance(sigma, max_color(intensity, c0, c1, c2), high_precision);
    Some(Segment {
        center_x,
        center_y,
        maximum_distance: distance,
        inv_sigma: 1.0 / sigma,
        sigma_over_4_times_intensity: 0.25 * sigma * intensity,
        color0: c0,
        color1: c1,
        color2: c2,
    })
}

impl Segment {
    #[tactic(auto, unfolding(crate::specs::Ranges::rows_of))]
    pub fn rows(self) -> Range
        ensures { result ≡ rows_of self }
    {
        let first = ends::row_first(self.center_y - self.maximum_distance);
        let past = ends::row_past(self.center_y + self.maximum_distance);
        Range { first, past }
    }

    #[tactic(auto, unfolding(crate::specs::Ranges::columns_of))]
    pub fn columns(self) -> Range
        ensures { result ≡ columns_of self }
    {
        let first = column_first(self.center_x - self.maximum_distance);
        let past = column_past(self.center_x + self.maximum_distance);
        Range { first, past }
    }

    // The segment i of a flat slice.
    #[tactic(auto, unfolding(crate::specs::Segment::segment_at))]
    pub fn at(segments: &[f32], i: usize) -> Segment
        requires { 8 * i + 8 ≤ length segments.now }
        ensures { result ≡ segment_at segments.now i }
    {
        let k = 8 * i;
        Segment {
            center_x: segments[k],
            center_y: segments[k + 1],
            maximum_distance: segments[k + 2],
            inv_sigma: segments[k + 3],
            sigma_over_4_times_intensity: segments[k + 4],
            color0: segments[k + 5],
            color1: segments[k + 6],
            color2: segments[k + 7],
        }
    }

    // The eight floats, written from cell k on.
    pub fn put(self, out: &mut [f32], k: usize)
        requires { k + 8 ≤ length out.old }
        ensures { out.new ≡ sets out.old k (eight_of self) }
    {
        buffers::put(
            out,
            k,
            &[
                self.center_x,
                self.center_y,
                self.maximum_distance,
                self.inv_sigma,
                self.sigma_over_4_times_intensity,
                self.color0,
                self.color1,
                self.color2,
            ],
        );
    }
}
