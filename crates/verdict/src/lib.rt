// The verdict on a build: all checks before any drawing, in their order.
#![tactic(auto)]

ghost use Rattle.std.specs.Prelude.{◌≡◌};
ghost use Rattle.shape.specs.Description.{description_in};
ghost use Rattle.verdict.specs.Verdict.{sized, verdict_of};

use codes::{Code, Refusal};
use dequantize::Given;
use shape::Description;

// SIZE: neither is above 2^23.
pub fn size_good(width: u32, height: u32) -> bool
    ensures { result ≡ sized width height }
{
    width <= 8388608 && height <= 8388608
}

// SIZE, SHAPE, ROOM for the row starts, then every spline.
#[tactic(auto, unfolding(crate::specs::Verdict::verdict_of))]
pub fn judge_all(
    description: &Description<'_>,
    given: Given,
    width: u32,
    height: u32,
    rows: usize,
) -> Result<u64, Refusal>
    ensures { result ≡ verdict_of (description_in description.now) given width height rows }
{
    let small = size_good(width, height);
    let agrees = shape::is_shaped(description);
    if !small {
        return Err((Code::Size, 0));
    }
    if !agrees {
        return Err((Code::Shape, 0));
    }
    if rows <= height as usize {
        return Err((Code::Room, 0));
    }
    dequantize::judge::judge(description, given)
}
