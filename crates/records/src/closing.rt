// Closings: the figures that the pairs that wait give, and whether a stored closing has them. State and record stay two, as in `applying`.
ghost use Rattle.std.specs.Prelude.{◌≡◌, Ok, ◌≤◌, map, not, take};
ghost use Rattle.refusals.specs.Rows.{outcome_of, ◌when◌};
ghost use Rattle.calibration.specs.Pairs.{ZRanged};
ghost use Rattle.calibration.specs.Calibration.{LineRanged};
ghost use Rattle.calibration.specs.Annual.{test_of};
ghost use Rattle.calibration.specs.Outcomes.{fitted, tested};
ghost use Rattle.records.specs.Record.{z_of};
ghost use Rattle.records.specs.Soundness.{Fitting, SettingSound};
ghost use Rattle.records.specs.Kinds.{line_of};
ghost use Rattle.records.specs.Table.{annual_of, annual_refusal_of, calibration_of, calibration_refusal_of, pair_of_waiting, pass_mark_of, stores_fit_of, stores_test_of, test_mark_of};
ghost use Rattle.records.specs.State.{facts_of};

use crate::state::{Function, State};
use crate::{checks, fields};
use calibration::{Basis, Figures, Verdicts};
use refusals::Refusal;

// What a closing is worked out by.
fn basis(st: State) -> Basis
    ensures { result ≡ record { edition = st.edition; requirements = st.setting.requirements } }
{
    Basis {
        edition: st.edition,
        requirements: st.setting.requirements,
    }
}

// A calibration closing over the pairs that wait.
pub fn calibration_result(st: State, z: i32) -> Result<Figures, Refusal>
    requires { Fitting st × SettingSound st.setting × ZRanged z }
    ensures { fitted result ≡ calibration_of (facts_of st) z }
{
    let n = st.waiting as usize;
    if !calibration::count_fits(st.waiting) {
        return Err(Refusal::Count);
    }
    if !checks::days_fit(&st.pairs[..n]) {
        return Err(Refusal::Days);
    }
    let pairs = checks::figures(st.pairs);
    calibration::fit(&pairs[..n], basis(st), z)
}

fn test_with(st: State, f: Function) -> Result<Verdicts, Refusal>
    requires { Fitting st × SettingSound st.setting × LineRanged (line_of f) }
    ensures { tested result ≡ test_of st.edition st.setting.requirements (line_of f) (map pair_of_waiting (take st.waiting st.pairs)) }
{
    let n = st.waiting as usize;
    let pairs = checks::figures(st.pairs);
    calibration::annual_test(&pairs[..n], basis(st), f.line())
}

// An annual closing over the pairs that wait, with the function in force.
#[tactic(auto, unfolding(crate::specs::Table::annual_by, crate::specs::State::facts_of))]
pub fn annual_result(st: State) -> Result<Verdicts, Refusal>
    requires { Fitting st × SettingSound st.setting }
    ensures { tested result ≡ annual_of (facts_of st) }
{
    match st.calibration {
        None => Err(Refusal::Function),
        Some(f) => test_with(st, f),
    }
}

// The mark of a calibration closing: 1 where passed. The two marks are bytes of a record by the paper's rule, and no conversion of the types.
pub fn pass_mark(c: Figures) -> u8
    ensures { result ≡ pass_mark_of (fitted (Ok c)) }
{
    u8::from(c.passed)
}

// The mark of an annual closing: a bit for each verdict.
pub fn test_mark(t: Verdicts) -> u8
    ensures { result ≡ test_mark_of (tested (Ok t)) }
{
    u8::from(t.variability) + 2 * u8::from(t.function)
}

// Whether the stored mark and figures are those of a fit.
fn stores_fit(c: Figures, r: &[u8; 40]) -> bool
    requires { c.count ≤ 30 }
    ensures { result ≡ stores_fit_of (fitted (Ok c)) r.now }
{
    ((r[1] == pass_mark(c)) & (fields::field(r, 12) == c.line.slope))
        & ((fields::long_field(r, 16) == c.line.intercept)
            & ((fields::field(r, 24) == c.top.0) & (fields::field(r, 28) == c.count as i32)))
}

// Whether the stored mark and number of pairs are those of a test.
#[tactic(auto, unfolding(crate::specs::Table::stores_test_of, crate::specs::Record::mark))]
fn stores_test(t: Verdicts, n: u32, r: &[u8; 40]) -> bool
    requires { n ≤ 30 }
    ensures { result ≡ stores_test_of (tested (Ok t)) n r.now }
{
    (r[1] == test_mark(t)) & (fields::field(r, 8) == n as i32)
}

// Row 25, where what is stored is not what was worked out.
fn stored(fits: bool) -> Result<(), Refusal>
    ensures { outcome_of result ≡ (25 when not fits) }
{
    if !fits {
        return Err(Refusal::Stored);
    }
    Ok(())
}

#[tactic(auto, unfolding(crate::specs::Table::calibration_refusal_of, crate::specs::Record::z_of, crate::specs::State::facts_of))]
pub fn calibration_refusal(st: State, r: &[u8; 40]) -> Result<(), Refusal>
    requires { Fitting st × SettingSound st.setting × ZRanged (z_of r.now) }
    ensures { outcome_of result ≡ calibration_refusal_of (facts_of st) r.now }
{
    let c = calibration_result(st, fields::field(r, 8))?;
    stored(stores_fit(c, r))
}

#[tactic(auto, unfolding(crate::specs::Table::annual_refusal_of, crate::specs::State::facts_of))]
pub fn annual_refusal(st: State, r: &[u8; 40]) -> Result<(), Refusal>
    requires { Fitting st × SettingSound st.setting }
    ensures { outcome_of result ≡ annual_refusal_of (facts_of st) r.now }
{
    let t = annual_result(st)?;
    stored(stores_test(t, st.waiting, r))
}
