// Numbers of a case out of its words, and a number held against the word that it should be.
#![tactic(auto)]

ghost use Rattle.std.specs.Prelude.{◌≡◌, true, ◌+◌, ◌*◌, length};
ghost use Rattle.std.specs.Int.{w32, w64};
ghost use Rattle.std.proofs.Common.{to_z};
ghost use Rattle.std.specs.Float.{binary32, binary64};
ghost use Rattle.std.specs.Float.Ieee.{of_bits};
ghost use Rattle.dequantize.specs.Coefficients.{table};
ghost use Rattle.stored.specs.Stored.{float_in, signed_in, long_in, refusal_word, Begins, BeginsWith};

use std::num::{f32_from_bits_with_nan, f32_to_bits_with_nan, f64_from_bits_with_nan};

// The f32 of a bit pattern, which may be that of a NaN.
pub fn float(bits: u32) -> f32
    ensures { result ≡ of_bits binary32 bits }
{
    f32_from_bits_with_nan(bits)
}

// A u64 of two words, the lower half first.
pub fn long(low: u32, high: u32) -> u64
    ensures { result ≡ low + 4294967296 * high }
{
    u64::from(low) + 4294967296 * u64::from(high)
}

// The f64 of a bit pattern, which may be that of a NaN.
pub fn double(bits: u64) -> f64
    ensures { result ≡ of_bits binary64 bits }
{
    f64_from_bits_with_nan(bits)
}

// Whether x is the number of a word. Every NaN is stored as 7fc00000.
pub fn is_float(x: f32, bits: u32) -> bool
    ensures { result ≡ true → x ≡ of_bits binary32 bits }
{
    f32_to_bits_with_nan(x) == bits
}

// Whether n is the number of two words.
pub fn is_long(n: u64, output: &[u32]) -> bool
    ensures { result ≡ true → (length output.now ≡ 2) × (n ≡ long_in output.now 0) }
{
    output.len() == 2 && n == long(output[0], output[1])
}

// The signed number of a two's complement.
pub fn signed(n: u64) -> i64
    ensures { result ≡ to_z w64 n }
{
    n.cast_signed()
}

pub fn signed_word(n: u32) -> i32
    ensures { result ≡ to_z w32 n }
{
    n.cast_signed()
}

// Whether z is the signed number of two words.
pub fn is_signed(z: i64, output: &[u32]) -> bool
    ensures { result ≡ true → length output.now ≡ 2 }
{
    output.len() == 2 && z == signed(long(output[0], output[1]))
}

// Whether x is the number of one word.
pub fn is_only_float(x: f32, output: &[u32]) -> bool
    ensures { result ≡ true → (length output.now ≡ 1) × (x ≡ float_in output.now 0) }
{
    output.len() == 1 && is_float(x, output[0])
}

// The word of a refusal's number. spline.rs judges double deltas where it reads a list and nowhere else: what the scope calls DELTA (5) is
// POSITION (10) there.
pub fn refusal_word(number: u32) -> u32
    ensures { result ≡ refusal_word number }
{
    if number == 5 { 10 } else { number }
}

// ---- many words

// The f32 of word i, or 0 past the last.
fn float_at(words: &[u32], i: usize) -> f32
    ensures { result ≡ float_in words.now i }
{
    if i < words.len() {
        float(words[i])
    } else {
        0.0
    }
}

// Every cell is set to the f32 of its word.
pub fn floats(words: &[u32], out: &mut [f32])
    ensures { out.new ≡ table (float_in words.now) (length out.old) }
{
    for i in 0..out.len() {
        out[i] = float_at(words, i);
    }
}

// The signed number of word i, or 0 past the last.
fn signed_at(words: &[u32], i: usize) -> i32
    ensures { result ≡ signed_in words.now i }
{
    if i < words.len() {
        signed_word(words[i])
    } else {
        0
    }
}

// Every cell is set to the signed number of its word.
pub fn signeds(words: &[u32], out: &mut [i32])
    ensures { out.new ≡ table (signed_in words.now) (length out.old) }
{
    for i in 0..out.len() {
        out[i] = signed_at(words, i);
    }
}

// Whether the values begin with the numbers of these words.
pub fn begin_f32(values: &[f32], words: &[u32]) -> bool
    ensures { result ≡ true → Begins values.now words.now }
{
    for i in 0..words.len() {
        if values.len() <= i {
            return false;
        }
        if !is_float(values[i], words[i]) {
            return false;
        }
    }
    true
}

// Whether the values begin with these words.
pub fn begin_u32(values: &[u32], words: &[u32]) -> bool
    ensures { result ≡ true → BeginsWith values.now words.now }
{
    for i in 0..words.len() {
        if values.len() <= i {
            return false;
        }
        if values[i] != words[i] {
            return false;
        }
    }
    true
}
