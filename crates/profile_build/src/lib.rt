// Building by profile: SIZE, the check of the profile, then a build. A refusal leaves every lent cell zero.
// The six buffers stay a parameter each, as `table::build` takes them: over a struct of `&mut` slices the proofs did not close (draw/src/lib.rt).
#![tactic(auto)]

ghost use Rattle.std.specs.Prelude.{◌≡◌, Err};
ghost use Rattle.shape.specs.Description.{description_in};
ghost use Rattle.table.specs.Table.{rooms_of, setting_in};
ghost use Rattle.profile_build.specs.Building.{check_profile_of, leaves, stopped_with, build_profile_of};

use build_answer::Built;
use codes::Code;
use profile::Unmet;
use shape::Description;
use table::Setting;

// SIZE, then the check of the profile.
#[tactic(auto, unfolding(crate::specs::Building::check_profile_of, profile::specs::Profile::profile_of))]
fn check(description: &Description<'_>, setting: Setting, edition: u32) -> Result<(), Unmet>
    ensures { result ≡ check_profile_of (description_in description.now) setting.adjustment setting.width setting.height edition }
{
    if !verdict::size_good(setting.width, setting.height) {
        return Err(Unmet::Refused(Code::Size, 0));
    }
    profile::profile(description, setting.adjustment, edition)
}

// What is unmet, with every lent cell zero.
#[tactic(auto, unfolding(crate::specs::Building::stopped_with))]
fn stop(
    unmet: Unmet,
    path: &mut [f32],
    walk: &mut [f32],
    segments: &mut [f32],
    owners: &mut [u64],
    row_starts: &mut [u32],
    entries: &mut [u32],
) -> Result<Built, Unmet>
    ensures { leaves result path.new walk.new segments.new owners.new row_starts.new entries.new
        ≡ stopped_with (rooms_of path.old walk.old segments.old owners.old row_starts.old entries.old) (Err unmet) }
{
    wipe::wipe(path, walk, segments, owners, row_starts, entries);
    Err(unmet)
}

// The whole table of a description that meets the profile, or a refusal with every lent cell zero.
#[tactic(auto, unfolding(crate::specs::Building::build_profile_of))]
pub fn build_profile(
    description: &Description<'_>,
    setting: Setting,
    edition: u32,
    path: &mut [f32],
    walk: &mut [f32],
    segments: &mut [f32],
    owners: &mut [u64],
    row_starts: &mut [u32],
    entries: &mut [u32],
) -> Result<Built, Unmet>
    ensures { leaves result path.new walk.new segments.new owners.new row_starts.new entries.new
        ≡ build_profile_of (description_in description.now) (setting_in setting) edition (rooms_of path.old walk.old segments.old owners.old row_starts.old entries.old) }
{
    if let Err(unmet) = check(description, setting, edition) {
        return stop(unmet, path, walk, segments, owners, row_starts, entries);
    }
    let built = table::build(
        description,
        setting,
        path,
        walk,
        segments,
        owners,
        row_starts,
        entries,
    )?;
    Ok(built)
}
