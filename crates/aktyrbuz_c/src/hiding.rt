// The export for the shared bytes of two desks.
// The parameters of an export are C's, each slice and number a parameter of its own.
ghost use Rattle.std.specs.Prelude.{◌≡◌};
ghost use Rattle.desks.specs.Hide.{hide_of};
ghost use Rattle.aktyrbuz.specs.Exported.{hide_leaves, hide_export};

#[unsafe(no_mangle)]
pub extern "C" fn aktyrbuz_hide(
    bits: &mut [u8],
    desk: u32,
    spline: u64,
    hidden: bool,
    answer: &mut [i64; 5],
) -> u32
    ensures { hide_leaves result answer.new bits.new ≡ hide_export (hide_of bits.old desk spline hidden) }
{
    aktyrbuz::hiding::aktyrbuz_hide(bits, desk, spline, hidden, answer)
}
