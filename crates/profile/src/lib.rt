// The fineness profile: the six rules in their order, and the check of a description. c are the coefficients of all splines, 128 a spline.
#![tactic(auto)]

ghost use Rattle.std.specs.Prelude.{◌≡◌, ◌*◌, ◌≤◌, length};
ghost use Rattle.shape.specs.Description.{description_in};
ghost use Rattle.profile.specs.Profile.{check_splines, check_rules, tells, profile_of};

use codes::{Code, Refusal};
use editions::{Limits, limits_of};
use profile_rules::{Broken, Rule, check_spline, counted, kept, within};
use shape::Description;

// The most splines of a description, in either edition.
pub const MOST_SPLINES: usize = 4096;

// Why a description does not meet the profile: the first broken rule and its spline; or a code and its place. `?` makes it of either.
#[derive(Clone, Copy, Debug, PartialEq, Eq)]
pub enum Unmet {
    Broken(Rule, usize),
    Refused(Code, usize),
}

impl From<Broken> for Unmet {
    ghost use Rattle.profile.specs.declared.Unmet.{Unmet};

    ghost from_gives = { λ broken unmet. unmet ≡ Unmet.Broken broken.0 broken.1 };

    fn from((rule, spline): Broken) -> Unmet {
        Unmet::Broken(rule, spline)
    }
}

impl From<Refusal> for Unmet {
    ghost use Rattle.profile.specs.declared.Unmet.{Unmet};

    ghost from_gives = { λ refusal unmet. unmet ≡ Unmet.Refused refusal.0 refusal.1 };

    fn from((code, place): Refusal) -> Unmet {
        Unmet::Refused(code, place)
    }
}

fn check_splines(counts: &[u32], c: &[i32], limits: Limits) -> Result<(), Broken>
    requires { 128 * length counts.now ≤ length c.now }
    ensures { result ≡ check_splines limits counts.now c.now 0 }
{
    for (k, n) in counts.iter().enumerate() {
        check_spline(*n, c, k, limits)?;
    }
    Ok(())
}

#[tactic(auto, unfolding(crate::specs::Profile::check_rules))]
fn check_rules(counts: &[u32], c: &[i32], adjustment: i32, limits: Limits) -> Result<(), Broken>
    requires { 128 * length counts.now ≤ length c.now }
    ensures { result ≡ check_rules limits counts.now c.now adjustment }
{
    kept(counted(counts.len(), MOST_SPLINES), Rule::Splines, 0)?;
    let adjusted = within(adjustment, limits.least, limits.greatest);
    kept(adjusted, Rule::Adjustment, 0)?;
    check_splines(counts, c, limits)
}

// SHAPE, EDITION, then the rules.
#[tactic(auto, using(shape::proofs::Shape::shaped_is), unfolding(crate::specs::Profile::profile_of, crate::specs::Profile::answer_of))]
pub fn profile(description: &Description<'_>, adjustment: i32, edition: u32) -> Result<(), Unmet>
    ensures { tells result ≡ profile_of (description_in description.now) adjustment edition }
{
    if !shape::is_shaped(description) {
        return Err(Unmet::Refused(Code::Shape, 0));
    }
    let limits = limits_of(edition).ok_or(Unmet::Refused(Code::Edition, 0))?;
    let c = description.coefficients;
    check_rules(description.counts, c, adjustment, limits)?;
    Ok(())
}
