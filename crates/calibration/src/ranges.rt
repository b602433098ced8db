// The ranges of the figures that a calibration works with (paper 01, 'Records').
ghost use Rattle.std.specs.Prelude.{◌≡◌};
ghost use Rattle.std.specs.List.{list_all};
ghost use Rattle.calibration.specs.Pairs.{between_of, conditions_ranged_of, pair_ranged_of, requirements_ranged_of, z_ranged_of};
ghost use Rattle.calibration.specs.Calibration.{line_ranged_of};

use crate::conditions::Conditions;
use crate::line::Line;
use crate::pairs::{Pair, Requirements};

pub fn between(low: i32, high: i32, x: i32) -> bool
    ensures { result ≡ between_of low high x }
{
    (low..=high).contains(&x)
}

// The same of a wider number: an intercept, and what B is made of.
pub fn between_wide(low: i64, high: i64, x: i64) -> bool
    ensures { result ≡ between_of low high x }
{
    (low..=high).contains(&x)
}

#[tactic(auto, unfolding(crate::specs::Pairs::conditions_ranged_of))]
pub fn conditions_ranged(k: Conditions) -> bool
    ensures { result ≡ conditions_ranged_of k }
{
    between(-5000, 50000, k.temperature)
        & between(-2000, 2000, k.pressure)
        & between(0, 5000, k.water)
        & between(0, 1800, k.oxygen)
}

#[tactic(auto, unfolding(crate::specs::Pairs::pair_ranged_of))]
pub fn pair_ranged(p: Pair) -> bool
    ensures { result ≡ pair_ranged_of p }
{
    between(0, 400000, p.signal) & between(0, 400000, p.srm.0) & conditions_ranged(p.conditions)
}

pub fn all_ranged(pairs: &[Pair]) -> bool
    ensures { result ≡ list_all pair_ranged_of pairs.now }
{
    pairs.iter().all(|p| pair_ranged(*p))
}

#[tactic(auto, unfolding(crate::specs::Pairs::requirements_ranged_of))]
pub fn requirements_ranged(q: Requirements) -> bool
    ensures { result ≡ requirements_ranged_of q }
{
    between(100, 400000, q.limit) & between(1, 10000, q.uncertainty) & between(0, 1800, q.oxygen)
}

// Z is a number of any size in public calls, and a clause asks its range where it is needed: a type for it would ask that of whoever calls.
pub fn z_ranged(z: i32) -> bool
    ensures { result ≡ z_ranged_of z }
{
    between(-10000, 10000, z)
}

#[tactic(auto, unfolding(crate::specs::Calibration::line_ranged_of))]
pub fn line_ranged(l: Line) -> bool
    ensures { result ≡ line_ranged_of l }
{
    between(1, 1000000, l.slope) & between_wide(-400000000000, 400000000000, l.intercept)
}
