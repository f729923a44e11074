// A row's entries drawn for a desk, two at a time, and what is left over one at a time.
#![tactic(auto)]

ghost use Rattle.std.specs.Prelude.{◌≡◌, ◌^◌, ◌≤◌};
ghost use Rattle.std.proofs.Math.Seq.{slice};
ghost use Rattle.desks.specs.Desks.{sight_in, shown};
ghost use Rattle.checks.specs.Tables.{table_in};
ghost use Rattle.checks.specs.Checks.{EntriesFit};
ghost use Rattle.columns.specs.Columns.{updates, drawn, ChannelsFit};

use checks::Table;
use columns::Part;
use couples::draw_two;
use desks::Sight;
use singles::draw_shown;

// Adds the segments of the entries from b up to e that are not hidden for the desk, one at a time, in their order, and counts the updates.
// The channels stay three parameters, for the reason that `draw/src/lib.rt` gives.
fn draw_each(
    table: &Table<'_>,
    sight: &Sight<'_>,
    b: usize,
    e: usize,
    part: Part,
    r0: &mut [f32],
    r1: &mut [f32],
    r2: &mut [f32],
    roots: &[u64; 128],
) -> u64
    requires entries_fit { EntriesFit (table_in table.now) (sight_in sight.now) b e }
    requires few { e ≤ 2 ^ 30 }
    requires channels_fit { ChannelsFit part.n r0.old r1.old r2.old }
    ensures value { result ≡ updates table.now.segments.now part.x0 part.n (shown (sight_in sight.now) (slice b e table.now.entries.now)) }
    ensures r0_after { r0.new ≡ drawn 0 table.now.segments.now part (shown (sight_in sight.now) (slice b e table.now.entries.now)) r0.old }
    ensures r1_after { r1.new ≡ drawn 1 table.now.segments.now part (shown (sight_in sight.now) (slice b e table.now.entries.now)) r1.old }
    ensures r2_after { r2.new ≡ drawn 2 table.now.segments.now part (shown (sight_in sight.now) (slice b e table.now.entries.now)) r2.old }
{
    let mut total: u64 = 0;
    for j in b..e {
        let i = table.entries[j] as usize;
        total += u64::from(draw_shown(table.segments, sight, i, part, r0, r1, r2, roots));
    }
    total
}

// Adds the segments of the entries from b up to e that are not hidden for the desk, two at a time, in their order, and counts the updates.
pub fn draw_entries(
    table: &Table<'_>,
    sight: &Sight<'_>,
    b: usize,
    e: usize,
    part: Part,
    r0: &mut [f32],
    r1: &mut [f32],
    r2: &mut [f32],
    roots: &[u64; 128],
) -> u64
    requires entries_fit { EntriesFit (table_in table.now) (sight_in sight.now) b e }
    requires few { e ≤ 2 ^ 30 }
    requires channels_fit { ChannelsFit part.n r0.old r1.old r2.old }
    ensures value { result ≡ updates table.now.segments.now part.x0 part.n (shown (sight_in sight.now) (slice b e table.now.entries.now)) }
    ensures r0_after { r0.new ≡ drawn 0 table.now.segments.now part (shown (sight_in sight.now) (slice b e table.now.entries.now)) r0.old }
    ensures r1_after { r1.new ≡ drawn 1 table.now.segments.now part (shown (sight_in sight.now) (slice b e table.now.entries.now)) r1.old }
    ensures r2_after { r2.new ≡ drawn 2 table.now.segments.now part (shown (sight_in sight.now) (slice b e table.now.entries.now)) r2.old }
{
    let pairs = (e - b) / 2;
    let mut total: u64 = 0;
    for k in 0..pairs {
        let j = b + 2 * k;
        let first = table.entries[j] as usize;
        let second = table.entries[j + 1] as usize;
        total += u64::from(draw_two(
            table.segments,
            sight,
            first,
            second,
            part,
            r0,
            r1,
            r2,
            roots,
        ));
    }
    total + draw_each(table, sight, b + 2 * pairs, e, part, r0, r1, r2, roots)
}
