// The writer: a description as a list of values.
#![tactic(auto)]

ghost use Rattle.std.specs.Prelude.{◌≡◌, length};
ghost use Rattle.shape.specs.Description.{description_in};
ghost use Rattle.writer.specs.Write.{leaves, write_in};

use buffers::clear;
use codes::{Code, Refusal};
use list::limit;
use shape::Description;
use write_judge::judge;
use write_steps::put_list;

// Writes the list of a description, or says what can't be written and where.
pub fn write(
    description: &Description<'_>,
    adjustment: i32,
    configured: u32,
    pixels: u32,
    list: &mut [u32],
) -> Result<usize, Refusal>
    ensures { leaves result list.new
        ≡ write_in (description_in description.now) adjustment configured pixels (length list.old) }
{
    clear(list);
    judge(description, limit(configured, pixels))?;
    let room = list.len();
    let values = 131 * description.counts.len() + description.deltas.len() + 2;
    if room < values {
        return Err((Code::Room, room));
    }
    put_list(description, adjustment, list);
    Ok(values)
}
