// The outcome of a calibration (paper 01, 'Calibration (6.4, 6.5)').
ghost use Rattle.std.specs.Prelude.{◌≡◌, ◌<◌, ◌≤◌, length};
ghost use Rattle.calibration.specs.Pairs.{AllRanged, RequirementsRanged, ZRanged};
ghost use Rattle.calibration.specs.Calibration.{LineRanged, fit_from_of, fit_of, line_fits_of};
ghost use Rattle.calibration.specs.Outcomes.{fitted};
ghost use Rattle.calibration.specs.InCode.{SumsRanged};

use crate::conditions::Standard;
use crate::line::Line;
use crate::pairs::{Basis, Pair};
use crate::regression::{Regression, Sums, slope};
use crate::residuals::{dispersion, top};
use crate::sample::Sample;
use crate::verdicts::{count_fits, k_factor, varied};
use refusals::Refusal;

// The figures of a calibration: the verdict, the function, its top and N.
#[derive(Clone, Copy)]
pub struct Figures {
    pub passed: bool,
    pub line: Line,
    pub top: Standard,
    pub count: u32,
}

// A function stands: refused where a figure is far out, or the figures and the verdict.
fn line_fits<'a>(s: Sample<'a>, l: Line) -> Result<Figures, Refusal>
    requires { LineRanged l }
    ensures { fitted result ≡ line_fits_of s.entry.basis.edition s.entry.basis.requirements s.entry.pairs.now l }
{
    if s.beyond(l) {
        return Err(Refusal::Beyond);
    }
    let r = s.residuals(l);
    let n = s.pairs.len() as u32;
    let q = s.basis.requirements;
    Ok(Figures {
        passed: varied(
            100000000,
            n * (n - 1),
            q.uncertainty.cast_unsigned(),
            k_factor(n),
            dispersion(n, r),
        ),
        line: l,
        top: top(s.basis.edition, q.limit, r.most),
        count: n,
    })
}

// From the sums on: the divisor, the slope, then the function.
fn fit_from<'a>(s: Sample<'a>, z: i32, u: Sums) -> Result<Figures, Refusal>
    requires { ZRanged z × SumsRanged u × (0 < u.n) }
    ensures { fitted result ≡ fit_from_of s.entry.basis.edition s.entry.basis.requirements z s.entry.pairs.now u }
{
    let edition = s.basis.edition;
    let r = Regression {
        flat: s.is_flat(),
        sums: u,
        z,
    };
    let d = r.divisor();
    if d <= 0 {
        return Err(Refusal::Divisor);
    }
    let Some(slope) = slope(edition, r.rise(), d) else {
        return Err(Refusal::Slope);
    };
    let intercept = r.intercept(edition, slope);
    line_fits(s, Line { slope, intercept })
}

// The calibration's outcome. The pairs and their basis come side by side, since that is what callers lend; a `Sample` is made of them when the count is known.
pub fn fit(pairs: &[Pair], b: Basis, z: i32) -> Result<Figures, Refusal>
    requires { (length pairs.now ≤ 30) × AllRanged pairs.now × RequirementsRanged b.requirements × ZRanged z }
    ensures { fitted result ≡ fit_of b.edition b.requirements z pairs.now }
{
    if !count_fits(pairs.len() as u32) {
        return Err(Refusal::Count);
    }
    let sample = Sample { pairs, basis: b };
    fit_from(sample, z, sample.sums())
}
