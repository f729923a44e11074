// The export for a row table that another maker offers: its check.
// The parameters of an export are C's, each slice and number a parameter of its own.
ghost use Rattle.std.specs.Prelude.{◌≡◌};
ghost use Rattle.makers.specs.Check.{check_of};
ghost use Rattle.aktyrbuz.specs.MakersExported.{check_leaves, check_export};

#[unsafe(no_mangle)]
pub extern "C" fn aktyrbuz_check(
    segments: &[f32],
    segment_count: u32,
    height: u32,
    row_starts: &[u32],
    entries: &[u32],
    entry_count: u32,
    answer: &mut [i64; 5],
) -> u32
    ensures { check_leaves result answer.new
        ≡ check_export (check_of segments.now segment_count height row_starts.now entries.now entry_count) }
{
    aktyrbuz::makers_tables::aktyrbuz_check(
        segments,
        segment_count,
        height,
        row_starts,
        entries,
        entry_count,
        answer,
    )
}
