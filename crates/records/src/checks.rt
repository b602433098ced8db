// Where a record is stopped: the rows that ask of the records before it. State and record stay two, and so do state and minute, as in
// `applying`; a type for a pair's record with its ranges would be made at each call.
ghost use Rattle.std.specs.Prelude.{◌≡◌, true, false, not, map, ◌+◌, ◌-◌, ◌*◌, ◌<◌, ◌≤◌, length, if◌then◌else◌};
ghost use Rattle.refusals.specs.Rows.{outcome_of};
ghost use Rattle.records.specs.Record.{kind, length_of, minute, minute_limit, ranged_of, waiting_ranged_of};
ghost use Rattle.records.specs.Kinds.{response_of, sets};
ghost use Rattle.records.specs.Soundness.{Fitting, SettingSound};
ghost use Rattle.records.specs.Table.{among_of, chart_refusal_of, days_fit_of, different, end_day, follows_one_of, last_of, misplaced_of, pair_of_waiting, pair_refusal_of, reading_refusal_of, times_fit_of, untimely_of, value_refusal_of};
ghost use Rattle.records.specs.State.{facts_of};

use crate::state::{Setting, State, Waiting};
use crate::{bytes, fields};
use calibration::Pair;
use charts::Chart;
use refusals::Refusal;

// The last minute that a record may have.
pub const MINUTE_LIMIT: u32 = 100000000;

// A setting that is not the first record, or a first record that is no setting.
#[tactic(auto, unfolding(crate::specs::Table::misplaced_of, crate::specs::State::facts_of, crate::specs::Kinds::sets, crate::specs::Record::kind))]
pub fn misplaced(st: State, r: &[u8; 40]) -> bool
    ensures { result ≡ misplaced_of (facts_of st) r.now }
{
    st.begun == (r[0] == 1)
}

// A minute before that of the last record, or past the last one there is.
#[tactic(auto, unfolding(crate::specs::Table::untimely_of, crate::specs::State::facts_of))]
pub fn untimely(st: State, minute: u32) -> bool
    ensures { result ≡ untimely_of (facts_of st) minute }
{
    (minute < st.minute) | (MINUTE_LIMIT < minute)
}

#[tactic(auto, unfolding(crate::specs::Table::chart_refusal_of))]
fn chart_refusal(c: Chart) -> Result<(), Refusal>
    ensures { outcome_of result ≡ chart_refusal_of c.started c.readings }
{
    if !c.started {
        return Err(Refusal::Unstarted);
    }
    if 100000 <= c.readings {
        return Err(Refusal::Full);
    }
    Ok(())
}

// The chart of the mark is read here and changed in `applying::change_chart`: one function for both would take a closure to read two fields.
#[tactic(auto, unfolding(crate::specs::Table::reading_refusal_of, crate::specs::State::facts_of, crate::specs::Record::mark))]
pub fn reading_refusal(st: State, r: &[u8; 40]) -> Result<(), Refusal>
    ensures { outcome_of result ≡ reading_refusal_of (facts_of st) r.now }
{
    if r[1] == 0 {
        chart_refusal(st.zero)
    } else {
        chart_refusal(st.span)
    }
}

// The response minutes, with their default.
#[tactic(auto, unfolding(crate::specs::Kinds::response_of))]
fn response(s: Setting) -> u32
    requires { SettingSound s }
    ensures { (result ≡ response_of s) × (result ≤ 60) }
{
    if s.response == 0 { 7 } else { s.response }
}

// Whether a pair starts late enough after the one before it.
#[tactic(auto, unfolding(crate::specs::Table::follows_one_of))]
fn follows_one(w: Waiting, start: u32, length: u32) -> bool
    requires { w.start ≤ minute_limit }
    ensures { result ≡ follows_one_of w start length }
{
    (w.end <= start) & ((60 <= length) | (w.start + 60 < start))
}

#[tactic(auto, unfolding(crate::specs::Table::times_fit_of, crate::specs::State::facts_of, crate::specs::Record::minute, crate::specs::Table::follows))]
fn times_fit(st: State, r: &[u8; 40]) -> bool
    requires { Fitting st × SettingSound st.setting × (waiting_ranged_of r.now ≡ true) }
    ensures { result ≡ times_fit_of (facts_of st) r.now }
{
    let m = bytes::read32(r, 4);
    let l = fields::length(r);
    if l < 4 * response(st.setting) {
        return false;
    }
    if m < l {
        return false;
    }
    // By a match: inside a closure what `follows_one` asks isn't proved.
    match st.pairs[..st.waiting as usize].last() {
        None => true,
        Some(w) => follows_one(*w, m - l, l),
    }
}

#[tactic(auto, unfolding(crate::specs::Table::pair_refusal_of, crate::specs::State::facts_of, crate::specs::Record::coverage_of))]
pub fn pair_refusal(st: State, r: &[u8; 40]) -> Result<(), Refusal>
    requires { Fitting st × SettingSound st.setting × (waiting_ranged_of r.now ≡ true) }
    ensures { outcome_of result ≡ pair_refusal_of (facts_of st) r.now }
{
    if 30 <= st.waiting {
        return Err(Refusal::Waiting);
    }
    if !times_fit(st, r) {
        return Err(Refusal::Times);
    }
    if fields::field(r, 12) <= 90 {
        return Err(Refusal::Coverage);
    }
    Ok(())
}

// Whether a day is among those on which the pairs end.
fn among(day: u32, pairs: &[Waiting]) -> bool
    ensures { result ≡ among_of day (map end_day pairs.now) }
{
    pairs.iter().any(|w| day == w.end / 1440)
}

// How many different days the pairs end on. By a loop: with `filter` and `count` the slice past each pair isn't proved to be there.
fn different_days(pairs: &[Waiting]) -> usize
    ensures { result ≡ different (map end_day pairs.now) }
{
    let mut days = 0;
    for (i, w) in pairs.iter().enumerate() {
        if !among(w.end / 1440, &pairs[i + 1..]) {
            days += 1;
        }
    }
    days
}

pub fn days_fit(pairs: &[Waiting]) -> bool
    requires { 0 < length pairs.now }
    ensures { result ≡ days_fit_of pairs.now }
{
    let first = pairs[0];
    let last = pairs[pairs.len() - 1];
    (3 <= different_days(pairs)) & (last.end.saturating_sub(first.start) <= 40320)
}

// The figures of the pairs, without their times.
pub fn figures(waiting: [Waiting; 30]) -> [Pair; 30]
    ensures { result ≡ map pair_of_waiting waiting }
{
    waiting.map(|w| w.pair)
}

#[tactic(auto, unfolding(crate::specs::Table::value_refusal_of, crate::specs::State::facts_of))]
pub fn value_refusal(st: State) -> Result<(), Refusal>
    ensures { outcome_of result ≡ value_refusal_of (facts_of st) }
{
    if st.calibration.is_none() {
        return Err(Refusal::Function);
    }
    Ok(())
}
