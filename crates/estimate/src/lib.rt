// The estimate of the area that a spline reaches.
#![tactic(auto)]

ghost use Rattle.std.specs.Prelude.{◌≡◌, ◌+◌, ◌≤◌, ◌<◌, length};
ghost use Rattle.estimate.specs.Estimate.{to_u64, share_at, row_color, tinted_of, log_color, weight_limit, weight_at, width_estimate, estimate_of};

// An f32 as a u64: no number and what is below the range count 0, and what is above it the largest u64.
fn whole(x: f32) -> u64
    ensures { result ≡ to_u64 x }
{
    kinds::saturating_f32_to_u64(x)
}

// The magnitude of coefficient k times the inverse quant, made whole upward.
#[tactic(auto, unfolding(crate::specs::Estimate::share_at))]
fn share(c: &[i32], k: usize, quant: f32) -> f32
    requires { k < length c.now }
    ensures { result ≡ share_at c.now quant k }
{
    wholes::ceil(quant * to_f32::nearest_u32_to_f32(c[k].unsigned_abs()))
}

fn color(c: &[i32], from: usize, quant: f32) -> u64
    requires { from + 32 ≤ length c.now }
    ensures { result ≡ row_color c.now from quant }
{
    let mut sum = 0;
    for i in 0..32 {
        sum = numbers::saturating_add(sum, whole(share(c, from + i, quant)));
    }
    sum
}

#[tactic(auto, unfolding(crate::specs::Estimate::tinted_by))]
fn tinted(color: u64, k: f32, y: u64) -> u64
    ensures { result ≡ tinted_of color k y }
{
    numbers::saturating_add(
        color,
        numbers::saturating_mul(whole(wholes::ceil(numbers::abs(k))), y),
    )
}

fn log_color(x: u64, y: u64, b: u64, y_to_x: f32, y_to_b: f32) -> u64
    ensures { result ≡ log_color x y b y_to_x y_to_b }
{
    let max_color = tinted(x, y_to_x, y).max(y).max(tinted(b, y_to_b, y));
    numbers::ceil_log2(numbers::saturating_add(1, max_color)).max(1)
}

fn weight_limit(limit: u64, log: u64, manhattan: u64) -> f32
    ensures { result ≡ weight_limit limit log manhattan }
{
    let area = to_f32::nearest_u64_to_f32(limit) / to_f32::nearest_u64_to_f32(log);
    wholes::ceil(roots::root(area / to_f32::nearest_u64_to_f32(manhattan.max(1))))
}

#[tactic(auto, unfolding(crate::specs::Estimate::weight_by))]
fn weight(c: &[i32], k: usize, quant: f32, most: f32) -> u64
    requires { k < length c.now }
    ensures { result ≡ weight_at c.now quant most k }
{
    whole(numbers::min(most, numbers::max(share(c, k, quant), 1.0)))
}

fn width_estimate(c: &[i32], quant: f32, most: f32, log: u64) -> u64
    requires { 128 ≤ length c.now }
    ensures { result ≡ width_estimate c.now quant most log }
{
    let mut sum = 0;
    for i in 0..32 {
        let w = weight(c, 96 + i, quant, most);
        sum = numbers::saturating_add(
            sum,
            numbers::saturating_mul(numbers::saturating_mul(w, w), log),
        );
    }
    sum
}

#[tactic(auto, unfolding(crate::specs::Estimate::estimate_by))]
pub fn estimated_area(
    c: &[i32],
    quant: f32,
    y_to_x: f32,
    y_to_b: f32,
    limit: u64,
    manhattan: u64,
) -> u64
    requires { 128 ≤ length c.now }
    ensures { result ≡ estimate_of c.now quant y_to_x y_to_b limit manhattan }
{
    let log = log_color(
        color(c, 0, quant),
        color(c, 32, quant),
        color(c, 64, quant),
        y_to_x,
        y_to_b,
    );
    let most = weight_limit(limit, log, manhattan);
    numbers::saturating_mul(width_estimate(c, quant, most, log), manhattan)
}
