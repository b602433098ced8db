#![tactic(auto)]

// Standard conditions, the calibration, the annual test, and the figures of a lent list of pairs.
mod conditions;
mod fitting;
mod lent;
mod line;
mod pairs;
mod ranges;
mod regression;
mod residuals;
mod sample;
mod testing;
mod verdicts;

pub use conditions::{Actual, Conditions, Standard, standard_conditions};
pub use fitting::{Figures, fit};
pub use lent::fit_list;
pub use line::{Line, value};
pub use pairs::{Basis, Pair, Requirements};
pub use ranges::{
    all_ranged, between, conditions_ranged, line_ranged, pair_ranged, requirements_ranged, z_ranged,
};
pub use testing::{Verdicts, annual_test};
pub use verdicts::count_fits;
