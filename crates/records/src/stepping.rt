// One record: refused, or applied to the state. State and record stay two, as in `applying`.
ghost use Rattle.std.specs.Prelude.{◌≡◌, true, false};
ghost use Rattle.refusals.specs.Rows.{outcome_of};
ghost use Rattle.records.specs.Record.{ranged_of};
ghost use Rattle.records.specs.Soundness.{Fitting};
ghost use Rattle.records.specs.Table.{kind_refusal_of, misplaced_of, refusal_in};
ghost use Rattle.records.specs.State.{facts_of, step_of, stepped};

use crate::state::State;
use crate::{applying, bytes, checks, closing, layout, ranges};
use refusals::Refusal;

// The rows of a record's own kind.
#[tactic(auto, unfolding(crate::specs::Table::kind_refusal_of, crate::specs::Record::kind))]
fn kind_refusal(st: State, r: &[u8; 40]) -> Result<(), Refusal>
    requires { Fitting st × (misplaced_of (facts_of st) r.now ≡ false) × (ranged_of r.now ≡ true) }
    ensures { outcome_of result ≡ kind_refusal_of (facts_of st) r.now }
{
    // The kind stays a byte, matched with ranges: a rule of the project.
    match r[0] {
        2 => checks::reading_refusal(st, r),
        4 => checks::pair_refusal(st, r),
        5 => closing::calibration_refusal(st, r),
        6 => closing::annual_refusal(st, r),
        7 => checks::value_refusal(st),
        0..=1 => Ok(()),
        3 => Ok(()),
        8..=255 => Ok(()),
    }
}

// The table's rows from 10 on, downwards: the first that fits.
#[tactic(auto, unfolding(crate::specs::Table::refusal_in, crate::specs::Record::minute))]
pub fn refusal(st: State, r: &[u8; 40]) -> Result<(), Refusal>
    requires { Fitting st }
    ensures { outcome_of result ≡ refusal_in (facts_of st) r.now }
{
    if !layout::formed(r) {
        return Err(Refusal::Layout);
    }
    if checks::misplaced(st, r) {
        return Err(Refusal::Place);
    }
    if checks::untimely(st, bytes::read32(r, 4)) {
        return Err(Refusal::Minute);
    }
    if !ranges::ranged(r) {
        return Err(Refusal::Range);
    }
    kind_refusal(st, r)
}

// A record in a state: refused, or the state after it.
#[tactic(auto, unfolding(crate::specs::State::step_of))]
pub fn step(st: State, r: &[u8; 40]) -> Result<State, Refusal>
    requires { Fitting st }
    ensures { stepped st result ≡ step_of st r.now }
{
    refusal(st, r)?;
    Ok(applying::apply(st, r))
}
