// Pixels as bytes of a picture: tones for a preview, or the floats as they are.
#![tactic(auto)]

ghost use Rattle.std.specs.Prelude.{◌≡◌, ◌+◌, ◌*◌, ◌≤◌, length};
ghost use Rattle.std.proofs.lemmas.List.Edits.{sets};
ghost use Rattle.buffers.specs.Onto.{onto};
ghost use Rattle.pixels.specs.Pixels.{tone_of, tones_of, float_of, floats_of, pixels_of};

use std::num::f32_to_bits_with_nan;

// 0 to 1 becomes 0 to 255, what lies outside is cut, NaN is black.
#[tactic(auto, unfolding(crate::specs::Pixels::tone_of))]
fn tone(v: f32) -> u8
    ensures { result ≡ tone_of v }
{
    let t = kinds::saturating_f32_to_u64(wholes::round(v * 255.0));
    t.min(255) as u8
}

// Bytes, stored from cell `at` on.
fn put<const N: usize>(out: &mut [u8], at: usize, bytes: &[u8; N])
    requires { at + N ≤ length out.old }
    ensures { out.new ≡ sets out.old at bytes.now }
{
    out[at..at + N].copy_from_slice(bytes);
}

// A pixel's red, green and blue.
fn put_tones(out: &mut [u8], at: usize, x: f32, y: f32, b: f32)
    requires { at + 3 ≤ length out.old }
    ensures { out.new ≡ sets out.old at (tones_of x y b) }
{
    let red = tone(y + x);
    let green = tone(y - x);
    let blue = tone(b);
    put(out, at, &[red, green, blue]);
}

// A float's four bytes, the lowest first. Every NaN has the pattern 7fc00000.
fn put_float(out: &mut [u8], at: usize, v: f32)
    requires { at + 4 ≤ length out.old }
    ensures { out.new ≡ sets out.old at (float_of v) }
{
    put(out, at, &f32_to_bits_with_nan(v).to_le_bytes());
}

// A pixel's X, Y and B.
fn put_floats(out: &mut [u8], at: usize, x: f32, y: f32, b: f32)
    requires { at + 12 ≤ length out.old }
    ensures { out.new ≡ sets out.old at (floats_of x y b) }
{
    put_float(out, at, x);
    put_float(out, at + 4, y);
    put_float(out, at + 8, b);
}

// Three bytes a pixel.
pub fn tones(n: usize, x: &[f32], y: &[f32], b: &[f32], out: &mut [u8])
    requires { (n ≤ length x.now) × (n ≤ length y.now) × (n ≤ length b.now) × (3 * n ≤ length out.old) }
    ensures { out.new ≡ onto (pixels_of tones_of x.now y.now b.now n) out.old }
{
    for i in 0..n {
        put_tones(out, 3 * i, x[i], y[i], b[i]);
    }
}

// Twelve bytes a pixel. Over a closure for the pixel, one function for `tones` and this one would need a contract of the closure, and be longer than both.
pub fn floats(n: usize, x: &[f32], y: &[f32], b: &[f32], out: &mut [u8])
    requires { (n ≤ length x.now) × (n ≤ length y.now) × (n ≤ length b.now) × (12 * n ≤ length out.old) }
    ensures { out.new ≡ onto (pixels_of floats_of x.now y.now b.now n) out.old }
{
    for i in 0..n {
        put_floats(out, 12 * i, x[i], y[i], b[i]);
    }
}
