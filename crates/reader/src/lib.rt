// Reads the value list into lent buffers: what it holds, with zeros behind, or a refusal that leaves them zero.
#![tactic(auto)]

ghost use Rattle.std.specs.Prelude.{◌≡◌};
ghost use Rattle.reader.specs.Read.{leaves, rooms_of, read_outcome};
ghost use Rattle.reader.specs.Rest.{Wiped};

use buffers::clear;
use codes::Refusal;
use list::limit;
pub use read_list::Read;
use read_list::read_list;

// The buffers of a description are written, so each is lent by itself: a call that is lent a slice in a field holds the whole struct.
pub fn wipe(counts: &mut [u32], starts: &mut [f32], deltas: &mut [i32], coefficients: &mut [i32])
    ensures { Wiped counts.old counts.new starts.old starts.new deltas.old deltas.new coefficients.old coefficients.new }
{
    clear(counts);
    clear(starts);
    clear(deltas);
    clear(coefficients);
}

pub fn read(
    list: &[u32],
    configured: u32,
    pixels: u32,
    counts: &mut [u32],
    starts: &mut [f32],
    deltas: &mut [i32],
    coefficients: &mut [i32],
) -> Result<Read, Refusal>
    ensures { leaves result counts.new starts.new deltas.new coefficients.new
        ≡ read_outcome configured pixels (rooms_of counts.old starts.old deltas.old coefficients.old) list.now }
{
    let most = limit(configured, pixels);
    wipe(counts, starts, deltas, coefficients);
    // No map_err: the wipe needs the buffers that a closure would hold, and the edit fixed_answer changes what the first arm hands on.
    match read_list(list, most, counts, starts, deltas, coefficients) {
        Ok(read) => Ok(read),
        Err(refusal) => {
            wipe(counts, starts, deltas, coefficients);
            Err(refusal)
        }
    }
}
