// The ranges of a record's fields.
ghost use Rattle.std.specs.Prelude.{◌≡◌};
ghost use Rattle.records.specs.Record.{ranged_of, reading_ranged_of, setting_ranged_of, value_ranged_of, waiting_ranged_of};

use crate::fields;

#[tactic(auto, unfolding(crate::specs::Record::setting_ranged_of))]
fn setting_ranged(r: &[u8; 40]) -> bool
    ensures { result ≡ setting_ranged_of r.now }
{
    calibration::requirements_ranged(fields::requirements(r))
        & (calibration::between(1, 10000, fields::field(r, 16))
            & (calibration::between(1, 10000, fields::field(r, 20))
                & calibration::between(0, 60, fields::field(r, 28))))
}

#[tactic(auto, unfolding(crate::specs::Record::reading_ranged_of))]
fn reading_ranged(r: &[u8; 40]) -> bool
    ensures { result ≡ reading_ranged_of r.now }
{
    calibration::between(-400000, 400000, fields::field(r, 8))
        & calibration::between(0, 400000, fields::field(r, 12))
}

#[tactic(auto, unfolding(crate::specs::Record::waiting_ranged_of))]
fn waiting_ranged(r: &[u8; 40]) -> bool
    ensures { result ≡ waiting_ranged_of r.now }
{
    calibration::between(30, 1440, fields::field(r, 8))
        & (calibration::between(0, 100, fields::field(r, 12))
            & calibration::pair_ranged(fields::pair(r)))
}

#[tactic(auto, unfolding(crate::specs::Record::value_ranged_of, crate::specs::Record::signal_of, crate::specs::Record::value_conditions))]
fn value_ranged(r: &[u8; 40]) -> bool
    ensures { result ≡ value_ranged_of r.now }
{
    calibration::between(0, 400000, fields::field(r, 8))
        & calibration::conditions_ranged(fields::conditions(r, 12))
}

// Every field that has a range is in it; of a closing that is Z alone.
#[tactic(auto, unfolding(crate::specs::Record::ranged_of, crate::specs::Record::kind, crate::specs::Record::z_of))]
pub fn ranged(r: &[u8; 40]) -> bool
    ensures { result ≡ ranged_of r.now }
{
    // The kind stays a byte, matched with ranges: a rule of the project.
    match r[0] {
        1 => setting_ranged(r),
        2 => reading_ranged(r),
        4 => waiting_ranged(r),
        5 => calibration::z_ranged(fields::field(r, 8)),
        7 => value_ranged(r),
        0 => true,
        3 => true,
        6 => true,
        8..=255 => true,
    }
}
