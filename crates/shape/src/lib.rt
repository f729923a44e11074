// SHAPE: whether the lengths of a description agree.
#![tactic(auto)]

ghost use Rattle.std.specs.Prelude.{◌≡◌, eqb};
ghost use Rattle.shape.specs.Shape.{points_of};
ghost use Rattle.shape.specs.Description.{description_in, shaped_of};

// All splines, as they were read: a count for each, two start numbers for each, two delta numbers for each point, 128 coefficients for each.
#[derive(Clone, Copy)]
pub struct Description<'a> {
    pub counts: &'a [u32],
    pub starts: &'a [f32],
    pub deltas: &'a [i32],
    pub coefficients: &'a [i32],
}

// Whether the counts sum to just so many points: the sum itself may be too large to hold, so points are taken away instead.
pub fn sum_is(counts: &[u32], points: usize) -> bool
    ensures { result ≡ eqb (points_of counts.now) points }
{
    let mut left = points;
    for (i, n) in counts.iter().enumerate() {
        let n = *n as usize;
        if left < n {
            return false;
        }
        left -= n;
    }
    left == 0
}

// Whether the lengths agree: 128 times a count may be too large to hold, so the coefficients are divided instead.
pub fn is_shaped(description: &Description<'_>) -> bool
    ensures { result ≡ shaped_of (description_in description.now) }
{
    let splines = description.counts.len();
    description.starts.len() == 2 * splines
        && description.deltas.len() % 2 == 0
        && description.coefficients.len() % 128 == 0
        && description.coefficients.len() / 128 == splines
        && sum_is(description.counts, description.deltas.len() / 2)
}
