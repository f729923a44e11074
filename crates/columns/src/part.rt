// A part of a row, and the one fact that drawing in it needs.
ghost use Rattle.std.specs.Prelude.{◌+◌, ◌^◌, ◌≤◌};

// n pixels of row y from column x0 on, in the widest and highest image.
#[derive(Clone, Copy)]
pub struct Part {
    pub y: u32,
    pub x0: u32,
    pub n: u32,
    ghost in_image: { (x0 + n ≤ 2 ^ 23) × (y ≤ 2 ^ 23) },
}
