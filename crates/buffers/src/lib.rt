// Records of numbers written into lent buffers, and lent buffers made zero.
#![tactic(auto)]

ghost use Rattle.std.specs.Prelude.{◌≡◌, ◌+◌, ◌≤◌, length, replicate, pos};
ghost use Rattle.std.proofs.lemmas.List.Edits.{sets};
ghost use Rattle.std.proofs.Common.{rules};
ghost use Rattle.std.specs.Float.{binary32};
ghost use Rattle.std.specs.Float.Ieee.{of_bits};

// Numbers, written from cell k on.
pub fn put<const N: usize>(out: &mut [f32], k: usize, values: &[f32; N])
    requires { k + N ≤ length out.old }
    ensures { out.new ≡ sets out.old k values.now }
{
    out[k..k + N].copy_from_slice(values);
}

// The zero of a type of numbers.
pub trait Zero: Copy {
    ghost ZERO: { Self };

    const ZERO: Self;

    // A copy of it is it.
    ghost can_fill: { Self.is_infallible ZERO };

    ghost copies: { (x : Self) → Self.is_clone ZERO x → x ≡ ZERO };
}

impl Zero for f32 {
    ghost ZERO = { of_bits binary32 0 };

    const ZERO: f32 = 0.0;

    ghost can_fill = { Prim.search rules };

    ghost copies = { Prim.search rules };
}

impl Zero for i32 {
    ghost ZERO = { pos 0 };

    const ZERO: i32 = 0;

    ghost can_fill = { Prim.search rules };

    ghost copies = { Prim.search rules };
}

impl Zero for u8 {
    ghost ZERO = { 0 };

    const ZERO: u8 = 0;

    ghost can_fill = { Prim.search rules };

    ghost copies = { Prim.search rules };
}

impl Zero for u32 {
    ghost ZERO = { 0 };

    const ZERO: u32 = 0;

    ghost can_fill = { Prim.search rules };

    ghost copies = { Prim.search rules };
}

impl Zero for u64 {
    ghost ZERO = { 0 };

    const ZERO: u64 = 0;

    ghost can_fill = { Prim.search rules };

    ghost copies = { Prim.search rules };
}

// Zero in every cell; a caller that keeps the front lends what is behind it.
pub fn clear<T: Zero>(cells: &mut [T])
    ensures { cells.new ≡ replicate (length cells.old) T.ZERO }
{
    cells.fill(T::ZERO);
}
