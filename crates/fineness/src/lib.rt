// `gauge profile`: whether a description meets an edition of the fineness profile, or the first rule that it breaks, with the number that broke it.
#![tactic(auto)]

ghost use Rattle.std.specs.Prelude.{◌≤◌};

use editions::{Limits, limits_of};
use profile::{MOST_SPLINES, Unmet};
use profile_rules::Rule;
use shape::Description;
use std::fmt::Display;
use std::io::Stdout;
use words::{Failure, out, wrong};

// A rule of the whole description that is broken.
fn broken<D: Display + Drop>(rule: Rule, what: D) -> Result<(), Failure> {
    let number = u32::from(rule);
    Err(wrong(
        Failure::Refused,
        format_args!("PROFILE (21), rule {number}: {what}\n"),
    ))
}

// A rule that a spline breaks.
fn broken_at<D: Display + Drop>(rule: Rule, spline: usize, what: D) -> Result<(), Failure> {
    let number = u32::from(rule);
    Err(wrong(
        Failure::Refused,
        format_args!("PROFILE (21) at spline {spline}, rule {number}: {what}\n"),
    ))
}

fn say_deltas(spline: usize, counts: &[u32], limits: Limits) -> Result<(), Failure> {
    let Some(count) = counts.get(spline) else {
        return Ok(());
    };
    let most = limits.deltas;
    broken_at(
        Rule::Deltas,
        spline,
        format_args!("{count} double deltas, and 1 to {most} are allowed"),
    )
}

fn say_adjustment(adjustment: i32, limits: Limits) -> Result<(), Failure> {
    let least = limits.least;
    let greatest = limits.greatest;
    if least == greatest {
        return broken(
            Rule::Adjustment,
            format_args!("the adjustment is {adjustment}, and {least} is allowed"),
        );
    }
    broken(
        Rule::Adjustment,
        format_args!("the adjustment is {adjustment}, and {least} to {greatest} are allowed"),
    )
}

// The 32 coefficients of a kind of a spline, where the kind begins at one of the spline's 128; none if there are not so many splines.
fn kind_of<'a>(coefficients: &'a [i32], spline: usize, begin: usize) -> &'a [i32]
    requires { begin ≤ 96 }
{
    if coefficients.len() / 128 <= spline {
        return &coefficients[0..0];
    }
    let first = 128 * spline + begin;
    &coefficients[first..first + 32]
}

// The first coefficient of a kind, from one of them on, that is to be 0 and is not; c are the 32 of the kind.
fn say_not_zero(
    rule: Rule,
    spline: usize,
    kind: &str,
    c: &[i32],
    from: usize,
) -> Result<(), Failure> {
    for (k, value) in c.iter().enumerate().skip(from) {
        if *value != 0 {
            return broken_at(
                rule,
                spline,
                format_args!("{kind} coefficient {k} is {value}, and 0 is allowed"),
            );
        }
    }
    Ok(())
}

// The first of the 32 sigma coefficients.
fn say_first_sigma(spline: usize, sigmas: &[i32], limits: Limits) -> Result<(), Failure> {
    let Some(value) = sigmas.first() else {
        return Ok(());
    };
    let most = limits.sigma;
    broken_at(
        Rule::FirstSigma,
        spline,
        format_args!("the first sigma coefficient is {value}, and 1 to {most} are allowed"),
    )
}

// Says what breaks a rule.
fn say_broken(
    rule: Rule,
    spline: usize,
    description: &Description<'_>,
    adjustment: i32,
    limits: Limits,
) -> Result<(), Failure> {
    let c = description.coefficients;
    match rule {
        Rule::Splines => {
            let splines = description.counts.len();
            let most = MOST_SPLINES;
            broken(
                rule,
                format_args!("{splines} splines, and 1 to {most} are allowed"),
            )
        }
        Rule::Deltas => say_deltas(spline, description.counts, limits),
        Rule::Adjustment => say_adjustment(adjustment, limits),
        Rule::SigmaTail => say_not_zero(rule, spline, "sigma", kind_of(c, spline, 96), 1),
        Rule::FirstSigma => say_first_sigma(spline, kind_of(c, spline, 96), limits),
        Rule::Colour => {
            say_not_zero(rule, spline, "X", kind_of(c, spline, 0), 0)?;
            say_not_zero(rule, spline, "B", kind_of(c, spline, 64), 0)
        }
    }
}

// Whether the description meets the edition; else how that fails, after a line that says why it does not.
pub fn judge(description: &Description<'_>, adjustment: i32, edition: u32) -> Result<(), Failure>
    ensures { Unit {0} }
{
    let Err(unmet) = profile::profile(description, adjustment, edition) else {
        return Ok(());
    };
    let (Unmet::Broken(rule, spline), Some(limits)) = (unmet, limits_of(edition)) else {
        return Err(wrong(
            Failure::WrongUse,
            "an edition of the fineness profile is 1 or 2\n",
        ));
    };
    say_broken(rule, spline, description, adjustment, limits)?;
    Err(Failure::Refused)
}

// The same, with a yes where it meets the edition.
pub fn say(
    to: Stdout,
    description: &Description<'_>,
    adjustment: i32,
    edition: u32,
) -> Result<(), Failure>
    ensures { Unit {0} }
{
    judge(description, adjustment, edition)?;
    out(
        to,
        format_args!("yes: it meets edition {edition} of the fineness profile\n"),
    )
}
