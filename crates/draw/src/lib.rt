// Drawing a part of a row for a desk.
// `draw` checks the desk, the counts, the bytes, the row, the span, and the row's starts and entries; only then is a pixel written.
#![tactic(auto)]

ghost use Rattle.std.specs.Prelude.{◌≡◌};
ghost use Rattle.desks.specs.Desks.{sight_in};
ghost use Rattle.checks.specs.Tables.{table_in};
ghost use Rattle.draw.specs.Draw.{three, leaves, draw_of};

use checks::Table;
use codes::Refusal;
use columns::Part;
use desks::Sight;
use entries::draw_entries;

// Draws n pixels of row y for a desk, from column x0 on, into three channels that begin at column x0, and says how many updates that took.
// The channels stay three parameters here and below: a struct of `&mut` slices was tried, and the proof of a function that lends parts of two of its fields did not close.
pub fn draw(
    table: &Table<'_>,
    sight: &Sight<'_>,
    y: u32,
    x0: u32,
    n: u32,
    r0: &mut [f32],
    r1: &mut [f32],
    r2: &mut [f32],
) -> Result<u64, Refusal>
    ensures { leaves result (three r0.new r1.new r2.new) ≡ draw_of (table_in table.now) (sight_in sight.now) y x0 n (three r0.old r1.old r2.old) }
{
    if let Err(code) = checks::judge(table, sight, y, x0, n, r0.len(), r1.len(), r2.len()) {
        return Err((code, 0));
    }
    let at = y as usize;
    let b = table.row_starts[at] as usize;
    let e = table.row_starts[at + 1] as usize;
    let part = Part { y, x0, n };
    let roots = roots::ROOTS;
    Ok(draw_entries(table, sight, b, e, part, r0, r1, r2, &roots))
}
