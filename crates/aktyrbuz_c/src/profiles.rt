// The exports for the fineness profile: the check of a description, and building by profile.
// The parameters of an export are C's, each slice and number a parameter of its own.
ghost use Rattle.std.specs.Prelude.{◌≡◌};
ghost use Rattle.dequantize.specs.Judge.{description_of};
ghost use Rattle.table.specs.Table.{setting_of, rooms_of};
ghost use Rattle.profile.specs.Profile.{profile_of};
ghost use Rattle.profile_build.specs.Building.{build_profile_of};
ghost use Rattle.aktyrbuz.specs.Exported.{build_leaves};
ghost use Rattle.aktyrbuz.specs.ProfileExported.{profile_leaves, profile_export, profile_build_export};

#[unsafe(no_mangle)]
pub extern "C" fn aktyrbuz_profile(
    counts: &[u32],
    starts: &[f32],
    deltas: &[i32],
    coefficients: &[i32],
    adjustment: i32,
    edition: u32,
    answer: &mut [i64; 5],
) -> u32
    ensures { profile_leaves result answer.new
        ≡ profile_export (profile_of (description_of counts.now starts.now deltas.now coefficients.now) adjustment edition) }
{
    aktyrbuz::profiles::aktyrbuz_profile(
        counts,
        starts,
        deltas,
        coefficients,
        adjustment,
        edition,
        answer,
    )
}

#[unsafe(no_mangle)]
pub extern "C" fn aktyrbuz_build_profile(
    counts: &[u32],
    starts: &[f32],
    deltas: &[i32],
    coefficients: &[i32],
    adjustment: i32,
    width: u32,
    height: u32,
    y_to_x: f32,
    y_to_b: f32,
    high_precision: bool,
    level10: bool,
    edition: u32,
    path: &mut [f32],
    walk: &mut [f32],
    segments: &mut [f32],
    owners: &mut [u64],
    row_starts: &mut [u32],
    entries: &mut [u32],
    answer: &mut [i64; 5],
) -> u32
    ensures { build_leaves result answer.new path.new walk.new segments.new owners.new row_starts.new entries.new
        ≡ profile_build_export (build_profile_of (description_of counts.now starts.now deltas.now coefficients.now) (setting_of adjustment width height y_to_x y_to_b high_precision level10) edition (rooms_of path.old walk.old segments.old owners.old row_starts.old entries.old)) }
{
    aktyrbuz::profiles::aktyrbuz_build_profile(
        counts,
        starts,
        deltas,
        coefficients,
        adjustment,
        width,
        height,
        y_to_x,
        y_to_b,
        high_precision,
        level10,
        edition,
        path,
        walk,
        segments,
        owners,
        row_starts,
        entries,
        answer,
    )
}
