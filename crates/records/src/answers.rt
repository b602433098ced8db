// What a state answers on usability, condition by condition (paper 01, 'Usable').
ghost use Rattle.std.specs.Prelude.{◌≡◌};
ghost use Rattle.records.specs.Answers.{recent_of, silent_of, young_of};

use crate::state::Function;
use charts::Alarms;

// No alarm of a chart.
pub fn silent(a: Alarms) -> bool
    ensures { result ≡ silent_of a }
{
    !a.rising && !a.falling && !a.precision
}

// A calibration at most `limit` minutes old; without one, no.
pub fn young(limit: u32, m: u32, calibration: Option<Function>) -> bool
    ensures { result ≡ young_of limit m calibration }
{
    calibration.is_some_and(|f| m.saturating_sub(f.minute) <= limit)
}

// No call, or a first one at most `limit` minutes old. Not one function with `young`: without a calibration that says no, and this yes.
pub fn recent(limit: u32, m: u32, demand: Option<u32>) -> bool
    ensures { result ≡ recent_of limit m demand }
{
    demand.is_none_or(|first| m.saturating_sub(first) <= limit)
}
