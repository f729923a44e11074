// Two desks, one table: whether a segment is hidden for a desk, by the byte of its spline, and a desk's bit set or cleared.
#![tactic(auto)]

ghost use Rattle.std.specs.Prelude.{◌≡◌, ◌<◌};
ghost use Rattle.desks.specs.Desks.{bit_of, sight_in, hidden_in, Seen};
ghost use Rattle.desks.specs.Hide.{with_bit, leaves, hide_of};

use codes::{Code, Refusal};

// What a call takes beside the table: the owners of its segments, how many splines the description had, the shared bytes, and the desk.
#[derive(Clone, Copy)]
pub struct Sight<'a> {
    pub owners: &'a [u64],
    pub splines: u64,
    pub bits: &'a [u8],
    pub desk: u32,
}

// Whether the desk's bit of a byte is set. Bits go by division here and below, as `bit_of` and `with_bit` of the specs have them, and by two branches:
// each then divides by a constant, and drawing asks this of every entry.
fn bit_of(byte: u8, desk: u32) -> bool
    requires { desk < 2 }
    ensures { result ≡ bit_of desk byte }
{
    if desk == 0 {
        return byte % 2 == 1;
    }
    byte / 2 % 2 == 1
}

// Whether segment i is hidden for the desk, told by its owner.
pub fn hidden(sight: &Sight<'_>, i: usize) -> bool
    requires { Seen (sight_in sight.now) i }
    ensures { result ≡ hidden_in (sight_in sight.now) i }
{
    let owner = sight.owners[i] as usize;
    bit_of(sight.bits[owner], sight.desk)
}

// The byte with the desk's bit as asked, and every other bit as it was.
fn with_bit(byte: u8, desk: u32, hidden: bool) -> u8
    requires { desk < 2 }
    ensures { result ≡ with_bit desk hidden byte }
{
    if desk == 0 {
        let rest = byte - byte % 2;
        if hidden { rest + 1 } else { rest }
    } else {
        let rest = byte - byte / 2 % 2 * 2;
        if hidden { rest + 2 } else { rest }
    }
}

// Hides a spline for a desk, or shows it again: changes one bit, and nothing where it is refused.
pub fn hide(bits: &mut [u8], desk: u32, spline: u64, hidden: bool) -> Result<(), Refusal>
    ensures { leaves result bits.new ≡ hide_of bits.old desk spline hidden }
{
    if 2 <= desk {
        return Err((Code::Desk, 0));
    }
    let at = spline as usize;
    if bits.len() <= at {
        return Err((Code::Trace, 0));
    }
    bits[at] = with_bit(bits[at], desk, hidden);
    Ok(())
}
