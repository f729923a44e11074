// One segment added to parts of three channels, pixel by pixel: `draw_segment_inner` of spline.rs.
// Pixels go by blocks of 32 in four passes (squares of distances, their roots, intensities, shades). All but the roots are for the machine's vectors, which take four
// numbers at a time: so squares and intensities are worked out for whole fours, and what is beyond the block is dropped.
#![tactic(auto)]

ghost use Rattle.std.specs.Prelude.{◌≡◌, ◌+◌, ◌≤◌, ◌<◌, ◌^◌, length, get_or, pos};
ghost use Rattle.std.specs.Float.{nan, binary32};
ghost use Rattle.std.specs.Float.Ieee.{of_int};
ghost use Rattle.roots.specs.Root.{sqrt_of};
ghost use Rattle.shade.specs.Edit.{edit, first_cells};
ghost use Rattle.shade.specs.Shade.{sqd, dy2, intensity_at, shaded_by_square, shaded, Holds};

use segments::Segment;

// A row or a column as a float, by way of a signed number, for which the machine has a vector instruction.
fn float_of(n: u32) -> f32
    requires { n ≤ 2 ^ 24 }
    ensures { result ≡ of_int binary32 (pos n) }
{
    (n as i32) as f32
}

// The squares of the distances of m columns from x on.
fn squares(v: &mut [f32; 32], m: usize, x: u32, center_x: f32, dy2: f32)
    requires { (m ≤ 32) × (length v.old ≡ 32) × (x + m ≤ 2 ^ 24) }
    ensures { v.new ≡ edit (first_cells m (λ k w. sqd center_x dy2 (x + k))) v.old }
{
    for k in 0..m {
        let dx = float_of(x + (k as u32)) - center_x;
        v[k] = dx * dx + dy2;
    }
}

// The roots of the first m numbers.
pub fn roots(v: &mut [f32; 32], m: usize, table: &[u64; 128])
    requires { (m ≤ 32) × (length v.old ≡ 32) }
    ensures { v.new ≡ edit (first_cells m (λ k w. sqrt_of binary32 w)) v.old }
{
    for k in 0..m {
        v[k] = roots::root_by(v[k], table);
    }
}

// The first m distances as intensities.
fn intensities(segment: Segment, v: &mut [f32; 32], m: usize)
    requires { (m ≤ 32) × (length v.old ≡ 32) }
    ensures { v.new ≡ edit (first_cells m (λ k w. intensity_at segment w)) v.old }
{
    for k in 0..m {
        v[k] = shade::intensity(segment, v[k]);
    }
}

// Adds a segment to at most 32 pixels, the first of which is column x.
// The channels stay three parameters, for the reason that `draw/src/lib.rt` gives.
fn block(
    segment: Segment,
    dy2: f32,
    x: u32,
    r0: &mut [f32],
    r1: &mut [f32],
    r2: &mut [f32],
    table: &[u64; 128],
)
    requires { (length r0.old ≤ 32) × (length r1.old ≡ length r0.old) × (length r2.old ≡ length r0.old) × (x + length r0.old ≤ 2 ^ 23) }
    ensures r0_after { r0.new ≡ edit (λ k v. shaded_by_square segment dy2 (x + k) 0 v) r0.old }
    ensures r1_after { r1.new ≡ edit (λ k v. shaded_by_square segment dy2 (x + k) 1 v) r1.old }
    ensures r2_after { r2.new ≡ edit (λ k v. shaded_by_square segment dy2 (x + k) 2 v) r2.old }
{
    let m = r0.len();
    let l = shade::fours(m);
    let mut v = [0.0f32; 32];
    squares(&mut v, l, x, segment.center_x, dy2);
    roots(&mut v, m, table);
    intensities(segment, &mut v, l);
    shade::add(segment, &v, r0, r1, r2);
}

// The squares of the distances of m columns of row y from x on.
pub fn squares_at(segment: Segment, y: u32, x: u32, m: usize, v: &mut [f32; 32])
    requires { (m ≤ 32) × (length v.old ≡ 32) × (x + m ≤ 2 ^ 23) × (y ≤ 2 ^ 23) }
    ensures v_len { length v.new ≡ 32 }
    ensures holds { Holds m (λ k. sqd segment.center_x (dy2 segment.center_y y) (x + k)) v.new }
{
    let dy = float_of(y) - segment.center_y;
    let dy2 = dy * dy;
    let l = shade::fours(m);
    squares(v, l, x, segment.center_x, dy2);
}

// The first m distances as intensities.
pub fn intensities_at(segment: Segment, m: usize, v: &mut [f32; 32])
    requires { (m ≤ 32) × (length v.old ≡ 32) }
    ensures { Holds m (λ k. intensity_at segment (get_or v.old k nan)) v.new }
{
    let l = shade::fours(m);
    intensities(segment, v, l);
}

// Where the block that begins at a ends, of the blocks of n pixels.
fn block_end(a: usize, n: usize) -> usize
    requires { a < n }
    ensures { (a < result) × (result ≤ n) × (result ≤ a + 32) }
{
    if n - a < 32 { n } else { a + 32 }
}

// Adds a segment to every pixel of three channel parts of one length, the first of which is column x of row y. What the table holds does not matter.
pub fn add_segment(
    segment: Segment,
    y: u32,
    x: u32,
    r0: &mut [f32],
    r1: &mut [f32],
    r2: &mut [f32],
    table: &[u64; 128],
)
    requires { (length r1.old ≡ length r0.old) × (length r2.old ≡ length r0.old) × (x + length r0.old ≤ 2 ^ 23) × (y ≤ 2 ^ 23) }
    ensures r0_after { r0.new ≡ edit (λ k v. shaded segment y (x + k) 0 v) r0.old }
    ensures r1_after { r1.new ≡ edit (λ k v. shaded segment y (x + k) 1 v) r1.old }
    ensures r2_after { r2.new ≡ edit (λ k v. shaded segment y (x + k) 2 v) r2.old }
{
    let dy = float_of(y) - segment.center_y;
    let dy2 = dy * dy;
    let n = r0.len();
    // A `for` by `step_by(32)` would be no plainer: it asks for the same measure, and the last block still ends at n.
    let mut a: usize = 0;
    while a < n {
        let e = block_end(a, n);
        let at = x + (a as u32);
        block(
            segment,
            dy2,
            at,
            &mut r0[a..e],
            &mut r1[a..e],
            &mut r2[a..e],
            table,
        );
        a = e;
    }
}
