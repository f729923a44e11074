// The limit on the area that all splines of an image may reach.
ghost use Rattle.std.specs.Prelude.{◌≡◌};
ghost use Rattle.dequantize.specs.Limits.{spline_area_limit};

// Level10 where level10 is true, else Level5.
#[tactic(auto, unfolding(crate::specs::Limits::spline_area_limit))]
pub fn spline_area_limit(level10: bool, image_area: u64) -> u64
    ensures { result ≡ spline_area_limit level10 image_area }
{
    if level10 {
        let area = numbers::saturating_mul(1024, image_area);
        numbers::saturating_add(area, 4294967296).min(4398046511104)
    } else {
        let area = numbers::saturating_mul(8, image_area);
        numbers::saturating_add(area, 33554432).min(1073741824)
    }
}
