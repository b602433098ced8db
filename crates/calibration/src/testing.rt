// The outcome of an annual test (paper 01, 'Annual test (8.4, 8.5)').
ghost use Rattle.std.specs.Prelude.{◌≡◌, ◌≤◌, length};
ghost use Rattle.calibration.specs.Pairs.{AllRanged, RequirementsRanged};
ghost use Rattle.calibration.specs.Calibration.{LineRanged};
ghost use Rattle.calibration.specs.Annual.{test_of};
ghost use Rattle.calibration.specs.Outcomes.{tested};

use crate::line::Line;
use crate::pairs::{Basis, Pair};
use crate::residuals::dispersion;
use crate::sample::Sample;
use crate::verdicts::{annual_count_fits, annual_k_factor, function_holds, varied};
use refusals::Refusal;

// The two verdicts of an annual test.
#[derive(Clone, Copy)]
pub struct Verdicts {
    pub variability: bool,
    pub function: bool,
}

// The annual test's outcome, of the function in force. The pairs and their basis come side by side, as for `fit`.
pub fn annual_test(pairs: &[Pair], b: Basis, l: Line) -> Result<Verdicts, Refusal>
    requires { (length pairs.now ≤ 30) × AllRanged pairs.now × RequirementsRanged b.requirements × LineRanged l }
    ensures { tested result ≡ test_of b.edition b.requirements l pairs.now }
{
    let n = pairs.len() as u32;
    if !annual_count_fits(n) {
        return Err(Refusal::Count);
    }
    let sample = Sample { pairs, basis: b };
    if sample.beyond(l) {
        return Err(Refusal::Beyond);
    }
    let r = sample.residuals(l);
    let dispersed = dispersion(n, r);
    let sigma = b.requirements.uncertainty.cast_unsigned();
    Ok(Verdicts {
        variability: varied(
            400000000,
            9 * (n * (n - 1)),
            sigma,
            annual_k_factor(n),
            dispersed,
        ),
        function: function_holds(n, r.sum, dispersed, sigma),
    })
}
