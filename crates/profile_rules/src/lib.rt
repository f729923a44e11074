// The rules of one spline of the fineness profile. c are the coefficients of all splines, 128 a spline.
#![tactic(auto)]

ghost use Rattle.std.specs.Prelude.{◌≡◌, ◌+◌, ◌*◌, ◌≤◌, ◌<◌, pos, length, get_or};
ghost use Rattle.profile_rules.specs.Rules.{rule_number, kept, counted, within, zero_from, check_deltas, check_sigma, check_colour, check_spline};

use editions::Limits;

// The six rules, by what each is a rule of: how many splines and double deltas there are, the adjustment,
// the sigma coefficients after the first, the first, and the X and B coefficients.
#[derive(Clone, Copy, Debug, PartialEq, Eq)]
pub enum Rule {
    Splines = 1,
    Deltas = 2,
    Adjustment = 3,
    SigmaTail = 4,
    FirstSigma = 5,
    Colour = 6,
}

// The number by which the profile names a rule.
impl From<Rule> for u32 {
    ghost from_gives = { λ rule n. n ≡ rule_number rule };

    fn from(rule: Rule) -> u32 {
        rule as u32
    }
}

// A rule that is broken, and the first spline that breaks it.
pub type Broken = (Rule, usize);

// A rule of a spline that is kept where the test passes.
pub fn kept(test: bool, rule: Rule, spline: usize) -> Result<(), Broken>
    ensures { result ≡ kept test rule spline }
{
    if test { Ok(()) } else { Err((rule, spline)) }
}

// ---- tests

// Whether n is from 1 to the most.
pub fn counted(n: usize, most: usize) -> bool
    ensures { result ≡ counted most n }
{
    1 <= n && n <= most
}

pub fn within(v: i32, least: i32, greatest: i32) -> bool
    ensures { result ≡ within least greatest v }
{
    least <= v && v <= greatest
}

// Whether coefficients are all 0.
fn zeros(c: &[i32]) -> bool
    ensures { result ≡ zero_from c.now 0 (length c.now) }
{
    c.iter().all(|&v| v == 0)
}

// ---- the rules of the spline k

#[tactic(auto, unfolding(crate::specs::Rules::check_deltas))]
fn check_deltas(n: u32, k: usize, limits: Limits) -> Result<(), Broken>
    ensures { result ≡ check_deltas limits n k }
{
    kept(counted(n as usize, limits.deltas as usize), Rule::Deltas, k)
}

#[tactic(auto, using(crate::proofs::Rules::zeros_lent), unfolding(crate::specs::Rules::check_sigma))]
fn check_sigma(c: &[i32], k: usize, limits: Limits) -> Result<(), Broken>
    requires { 128 * k + 128 ≤ length c.now }
    ensures { result ≡ check_sigma limits c.now k }
{
    kept(zeros(&c[128 * k + 97..128 * k + 128]), Rule::SigmaTail, k)?;
    kept(
        within(c[128 * k + 96], 1, limits.sigma),
        Rule::FirstSigma,
        k,
    )
}

#[tactic(auto, using(crate::proofs::Rules::zeros_lent), unfolding(crate::specs::Rules::check_colour))]
fn check_colour(c: &[i32], k: usize) -> Result<(), Broken>
    requires { 128 * k + 128 ≤ length c.now }
    ensures { result ≡ check_colour c.now k }
{
    kept(zeros(&c[128 * k..128 * k + 32]), Rule::Colour, k)?;
    kept(zeros(&c[128 * k + 64..128 * k + 96]), Rule::Colour, k)
}

#[tactic(auto, unfolding(crate::specs::Rules::check_spline))]
pub fn check_spline(n: u32, c: &[i32], k: usize, limits: Limits) -> Result<(), Broken>
    requires { 128 * k + 128 ≤ length c.now }
    ensures { result ≡ check_spline limits n c.now k }
{
    check_deltas(n, k, limits)?;
    check_sigma(c, k, limits)?;
    check_colour(c, k)
}
