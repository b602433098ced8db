// A calibration function, and calibrated values (paper 01, 'Calibration (6.4, 6.5)').
ghost use Rattle.std.specs.Prelude.{◌≡◌, pos};
ghost use Rattle.calibration.specs.Pairs.{Between, ConditionsRanged, OxygenRanged};
ghost use Rattle.calibration.specs.Calibration.{LineRanged, calibrated_of, value_of};

use crate::conditions::{Actual, Conditions, Standard, standard_conditions};

// A calibration function: slope B and intercept A. Its range is no ghost field: `line_ranged` asks it of any line, and the definitions make lines of any.
#[derive(Clone, Copy)]
pub struct Line {
    pub slope: i32,
    pub intercept: i64,
}

pub fn calibrated(edition: u8, l: Line, x: i32) -> Actual
    requires { LineRanged l × Between (pos 0) (pos 400000) x }
    ensures { result ≡ calibrated_of edition l x }
{
    let bx = i64::from(l.slope) * i64::from(x);
    let v = charts::near(edition, l.intercept + bx, 100000);
    Actual(v as i32)
}

// A signal's calibrated value in standard conditions.
pub fn value(edition: u8, reference: i32, l: Line, k: Conditions, x: i32) -> Standard
    requires { OxygenRanged reference × LineRanged l × ConditionsRanged k × Between (pos 0) (pos 400000) x }
    ensures { result ≡ value_of edition reference l k x }
{
    standard_conditions(edition, reference, k, calibrated(edition, l, x))
}
