// What an accepted record makes of the state. State and record stay two, and so do state and minute: what reads a record asks no state, and a struct of both would
// be taken apart there.
ghost use Rattle.std.specs.Prelude.{◌≡◌, ◌≢◌, true, false, ◌+◌, ◌<◌, ◌≤◌, if◌then◌else◌};
ghost use Rattle.charts.specs.ChartSoundness.{ChartSound};
ghost use Rattle.records.specs.Record.{kind, mark, minute, reading_ranged_of, value_ranged_of};
ghost use Rattle.records.specs.Kinds.{deviation_of, exceeds_of, outside_by, point_of, raises_demand_of};
ghost use Rattle.records.specs.Soundness.{CalibrationSound, Fitting, SettingSound};
ghost use Rattle.records.specs.Table.{reading_refusal_of, refusal_in};
ghost use Rattle.records.specs.State.{applied_to, chart_of, facts_of, initial_of, judged_at, no_pair, raised_of, running_at};
ghost use Rattle.records.specs.InPlace.{InWeek, in_week_of};
ghost use Rattle.records.specs.StateParts.{emptied, judged_of, with_chart, with_failure, with_function, with_pair, with_period, with_reading, with_reset, with_value};

use crate::state::{Function, Setting, State, Tally, Waiting};
use crate::{bytes, fields};
use charts::Chart;

// A place of the array that holds no pair.
#[tactic(auto, unfolding(crate::specs::State::no_pair))]
fn blank_pair() -> Waiting
    ensures { result ≡ no_pair }
{
    Waiting::default()
}

// A fresh state for an analyser number.
#[tactic(auto, unfolding(crate::specs::State::initial_of, crate::specs::Kinds::no_setting, crate::specs::Kinds::no_values, crate::specs::State::no_pairs))]
pub fn initial(analyser: u32) -> State
    ensures { result ≡ initial_of analyser }
{
    State {
        analyser,
        next: 0,
        begun: false,
        minute: 0,
        setting: Setting::default(),
        zero: charts::unstarted(),
        span: charts::unstarted(),
        waiting: 0,
        pairs: [blank_pair(); 30],
        calibration: None,
        tally: Tally::default(),
        over: 0,
        demand: None,
        edition: 0,
    }
}

// ---- weeks

// Whether more than a number of percent are outside.
fn exceeds(percent: u64, t: Tally) -> bool
    requires { percent ≤ 100 }
    ensures { result ≡ exceeds_of percent t }
{
    percent * u64::from(t.total) < 100 * u64::from(t.outside)
}

// Whether a judged week raises a call: over 40 percent, or over 5 percent as the sixth of its period.
#[tactic(auto, unfolding(crate::specs::Kinds::raises_demand_of))]
fn raises_demand(t: Tally, over: u32) -> bool
    ensures { result ≡ raises_demand_of t over }
{
    exceeds(40, t) | (exceeds(5, t) & (over == 5))
}

// The week that is judged on a record of minute m: that of the last record, where m is of a later one, else one without values.
#[tactic(auto, unfolding(crate::specs::State::judged_at, crate::specs::Kinds::no_values))]
fn judged_week(st: State, m: u32) -> Tally
    ensures { result ≡ judged_at st m }
{
    if m / 10080 <= st.minute / 10080 {
        return Tally::default();
    }
    st.tally
}

// The values of the week of m before it: none yet where m begins a later week.
#[tactic(auto, unfolding(crate::specs::State::running_at, crate::specs::Kinds::no_values))]
fn running_week(st: State, m: u32) -> Tally
    ensures { result ≡ running_at st m }
{
    if m / 10080 <= st.minute / 10080 {
        return st.tally;
    }
    Tally::default()
}

// The count of weeks over 5 percent, with the week that is judged.
fn weeks_with(over: u32, week: Tally) -> u32
    requires { over < 4294967295 }
    ensures { result ≡ (if exceeds_of 5 week then over + 1 else over) }
{
    over + u32::from(exceeds(5, week))
}

// The first call stays the first.
fn demand_after(st: State, week: Tally, m: u32) -> Option<u32>
    ensures { result ≡ (if raises_demand_of week st.over then raised_of st.demand m else st.demand) }
{
    if raises_demand(week, st.over) {
        return st.demand.or(Some(m));
    }
    st.demand
}

// A record of minute m is at hand: the week before it is judged where m is of a later one.
#[tactic(auto, unfolding(crate::specs::StateParts::judged_of))]
fn judged(st: State, m: u32) -> State
    requires { st.over < 4294967295 }
    ensures { result ≡ judged_of st m }
{
    let week = judged_week(st, m);
    State {
        begun: true,
        minute: m,
        tally: running_week(st, m),
        over: weeks_with(st.over, week),
        demand: demand_after(st, week, m),
        ..st
    }
}

// ---- kinds

fn add_pair(mut st: State, w: Waiting) -> State
    requires { st.waiting < 30 }
    ensures { result ≡ with_pair st w }
{
    st.pairs[st.waiting as usize] = w;
    st.waiting += 1;
    st
}

#[tactic(auto, unfolding(crate::specs::State::no_pairs))]
fn empty_pairs(st: State) -> State
    ensures { result ≡ emptied st }
{
    State {
        waiting: 0,
        pairs: [blank_pair(); 30],
        ..st
    }
}

fn fail(st: State, m: u32) -> State
    ensures { result ≡ with_failure st m }
{
    State {
        demand: st.demand.or(Some(m)),
        ..empty_pairs(st)
    }
}

#[tactic(auto, unfolding(crate::specs::Kinds::no_values))]
fn put_in_force(st: State, f: Function) -> State
    ensures { result ≡ with_function (emptied st) f }
{
    State {
        calibration: Some(f),
        tally: Tally::default(),
        over: 0,
        demand: None,
        ..empty_pairs(st)
    }
}

#[tactic(auto, unfolding(crate::specs::Kinds::no_values))]
fn start_period(st: State) -> State
    ensures { result ≡ with_period (emptied st) }
{
    State {
        tally: Tally::default(),
        over: 0,
        ..empty_pairs(st)
    }
}

// Whether a value is outside, with the function in force, by the edition of its block.
#[tactic(auto, unfolding(crate::specs::Record::value_conditions, crate::specs::Kinds::outside_by, crate::specs::Kinds::line_of))]
fn outside(st: &State, r: &[u8; 40]) -> bool
    requires { CalibrationSound st.now.calibration × SettingSound st.now.setting × (value_ranged_of r.now ≡ true) }
    ensures { result ≡ outside_by st.now.edition st.now.calibration st.now.setting r.now }
{
    match st.calibration {
        None => false,
        Some(f) => {
            let c = calibration::value(
                st.edition,
                st.setting.requirements.oxygen,
                f.line(),
                fields::conditions(r, 12),
                fields::field(r, 8),
            );
            (c.0 < 0) | (f.top.0 < c.0)
        }
    }
}

// A value: with another mark than 0 it doesn't count in its week. Values and readings, which are most records, lend the state and are inlined: by value, or at a
// call, it is copied with its thirty pairs, and the reader takes up to twice as long.
#[inline(always)]
#[tactic(auto, unfolding(crate::specs::StateParts::with_value, crate::specs::Kinds::counts, crate::specs::Kinds::one_more, crate::specs::Record::kind, crate::specs::Record::mark))]
fn count_value(st: &mut State, r: &[u8; 40])
    requires counts { (st.old.tally.total < 4294967295) × (st.old.tally.outside < 4294967295) }
    requires figures { (kind r.now ≡ 7) × CalibrationSound st.old.calibration × SettingSound st.old.setting × (value_ranged_of r.now ≡ true) }
    ensures { st.new ≡ with_value st.old r.now }
{
    if r[1] != 0 {
        return;
    }
    st.tally.total += 1;
    st.tally.outside += u32::from(outside(&*st, r));
}

// The chart of a mark is changed, 0 for zero and 1 for span. Its standard deviation goes with it. A closure, since a function that lends the chart of a mark makes
// the reader slower by 9 percent on values and readings. The mark stays a byte, as the kind does in `apply`.
#[inline(always)]
fn change_chart<F: FnOnce(Chart, u16) -> Chart>(st: &mut State, mark: u8, change: F)
    requires { F.pre change (chart_of (point_of mark) st.old) (deviation_of (point_of mark) st.old.setting) }
    ensures { (after : Chart) × F.post change (chart_of (point_of mark) st.old) (deviation_of (point_of mark) st.old.setting) after × (st.new ≡ with_chart (point_of mark) st.old after) }
{
    if mark == 0 {
        st.zero = change(st.zero, st.setting.zero);
    } else {
        st.span = change(st.span, st.setting.span);
    }
}

#[inline(always)]
fn take_reading(st: &mut State, r: &[u8; 40])
    requires { (reading_ranged_of r.now ≡ true) × (reading_refusal_of (facts_of st.old) r.now ≡ 0) × ChartSound st.old.zero × ChartSound st.old.span }
    ensures { st.new ≡ with_reading st.old r.now }
{
    let edition = st.edition;
    let d = fields::difference(r);
    change_chart(&mut *st, r[1], |chart, s| chart.apply(edition, s, d));
}

#[tactic(auto, unfolding(crate::specs::StateParts::with_reset, crate::specs::Record::mark))]
fn reset_chart(mut st: State, r: &[u8; 40]) -> State
    ensures { result ≡ with_reset st r.now }
{
    change_chart(&mut st, r[1], |chart, _| chart.reset());
    st
}

// A closing: with the mark that passes its kind, what a pass does, else it has failed. The mark stays a byte, as in `change_chart`.
#[tactic(auto, unfolding(crate::specs::Record::mark, crate::specs::Record::minute))]
fn with_closing<F: FnOnce(State) -> State>(st: State, r: &[u8; 40], pass: u8, passed: F) -> State
    requires { F.pre passed st }
    ensures { ((mark r.now ≡ pass) → F.post passed st result) × ((mark r.now ≢ pass) → result ≡ with_failure st (minute r.now)) }
{
    if r[1] == pass {
        return passed(st);
    }
    fail(st, bytes::read32(r, 4))
}

// An accepted record: the week is judged first, then the kind is applied; the table accepts kinds 1 to 8 only.
pub fn apply(st: State, r: &[u8; 40]) -> State
    requires { Fitting st × (refusal_in (facts_of st) r.now ≡ 0) }
    ensures { result ≡ applied_to st r.now }
{
    let s = judged(st, bytes::read32(r, 4));
    // The kind stays a byte, matched with ranges: a rule of the project.
    match r[0] {
        1 => State {
            setting: fields::setting(r),
            ..s
        },
        2 => {
            let mut s = s;
            take_reading(&mut s, r);
            s
        }
        3 => reset_chart(s, r),
        4 => add_pair(s, fields::waiting(r)),
        // A passed calibration comes into force with its stored figures, and a passed annual test starts a period.
        5 => with_closing(s, r, 1, |s| put_in_force(s, fields::function(r))),
        6 => with_closing(s, r, 3, |s| start_period(s)),
        7 => {
            let mut s = s;
            count_value(&mut s, r);
            s
        }
        8 => empty_pairs(s),
        0 => s,
        9..=255 => s,
    }
}

// ---- values and readings, which are most records, in the week of the record before: no week is judged, and the state is changed in place

// Whether a record is of the kind given and of no later week than the last one. The kind stays a byte, as in `apply`.
#[tactic(auto, unfolding(crate::specs::Record::kind, crate::specs::Record::minute, crate::specs::InPlace::in_week_of))]
pub fn in_week(kind: u8, st: State, r: &[u8; 40]) -> bool
    ensures { result ≡ in_week_of kind st r.now }
{
    (r[0] == kind) & (bytes::read32(r, 4) / 10080 <= st.minute / 10080)
}

// `value` and `reading` stay two: a function that takes the change as a closure would need its pre and post in the clauses, and be longer than both.
pub fn value(mut st: State, r: &[u8; 40]) -> State
    requires { InWeek 7 st r.now }
    ensures { result ≡ applied_to st r.now }
{
    st.begun = true;
    st.minute = bytes::read32(r, 4);
    count_value(&mut st, r);
    st
}

pub fn reading(mut st: State, r: &[u8; 40]) -> State
    requires { InWeek 2 st r.now }
    ensures { result ≡ applied_to st r.now }
{
    st.begun = true;
    st.minute = bytes::read32(r, 4);
    take_reading(&mut st, r);
    st
}
