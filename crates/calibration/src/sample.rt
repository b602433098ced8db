// Pairs in range with what they are worked out by, and what is worked out over all of them.
ghost use Rattle.std.specs.Prelude.{◌≡◌, true, false, ◌<◌, ◌≤◌, length};
ghost use Rattle.std.specs.List.{list_all};
ghost use Rattle.calibration.specs.Pairs.{PairRanged, RequirementsRanged, pair_ranged_of};
ghost use Rattle.calibration.specs.Calibration.{LineRanged, c_of, flat_of, measured_of, residuals_of, some_beyond, sums_of};

use crate::conditions::{Standard, standard_conditions};
use crate::line::{Line, value};
use crate::pairs::{Basis, Pair};
use crate::regression::{Span, Sums, plus, widened};
use crate::residuals::{Residuals, far, with_residual};

// Pairs with what they are worked out by: at least one, at most thirty, and all in range.
#[derive(Clone, Copy)]
pub struct Sample<'a> {
    pub pairs: &'a [Pair],
    pub basis: Basis,
    ghost some: { 0 < length pairs.now },
    ghost few: { length pairs.now ≤ 30 },
    ghost ranged: { list_all pair_ranged_of pairs.now ≡ true },
    ghost required: { RequirementsRanged basis.requirements },
}

impl<'a> Sample<'a> {
    // y' of a pair. The pair's range is asked by a clause: a pair is a public value of any figures, and only one of the sample is known to be in range.
    pub fn measured(self, p: Pair) -> Standard
        requires { PairRanged p }
        ensures { result ≡ measured_of self.entry.basis.edition self.entry.basis.requirements.oxygen p }
    {
        let b = self.basis;
        standard_conditions(b.edition, b.requirements.oxygen, p.conditions, p.srm)
    }

    // c of a pair, whose range is asked as for y'.
    pub fn fitted_value(self, l: Line, p: Pair) -> Standard
        requires { LineRanged l × PairRanged p }
        ensures { result ≡ c_of self.entry.basis.edition self.entry.basis.requirements.oxygen l p }
    {
        let b = self.basis;
        value(b.edition, b.requirements.oxygen, l, p.conditions, p.signal)
    }

    pub fn sums(self) -> Sums
        ensures { result ≡ sums_of self.entry.pairs.now }
    {
        let mut u = Sums::default();
        for p in self.pairs {
            u = plus(u, *p);
        }
        u
    }

    // Whether the y' differ by less than 15 % of the limit.
    pub fn is_flat(self) -> bool
        ensures { result ≡ flat_of self.entry.basis.edition self.entry.basis.requirements self.entry.pairs.now }
    {
        let first = self.measured(self.pairs[0]);
        let mut s = Span {
            low: first,
            high: first,
        };
        for p in self.pairs {
            s = widened(s, self.measured(*p));
        }
        let width = i64::from(s.high.0) - i64::from(s.low.0);
        100 * width < 15 * i64::from(self.basis.requirements.limit)
    }

    // Whether some y' or c is beyond ±10,000,000. By a loop: with `any` it is left open that each pair is in range.
    pub fn beyond(self, l: Line) -> bool
        requires { LineRanged l }
        ensures { result ≡ some_beyond self.entry.basis.edition self.entry.basis.requirements.oxygen l self.entry.pairs.now }
    {
        for p in self.pairs {
            if far(self.measured(*p)) | far(self.fitted_value(l, *p)) {
                return true;
            }
        }
        false
    }

    pub fn residuals(self, l: Line) -> Residuals
        requires { LineRanged l × (some_beyond self.basis.edition self.basis.requirements.oxygen l self.pairs.now ≡ false) }
        ensures { result ≡ residuals_of self.entry.basis.edition self.entry.basis.requirements.oxygen l self.entry.pairs.now }
    {
        let mut r = Residuals {
            most: self.fitted_value(l, self.pairs[0]),
            sum: 0,
            squares: 0,
        };
        for p in self.pairs {
            r = with_residual(r, self.measured(*p), self.fitted_value(l, *p));
        }
        r
    }
}
