// B and A from the sums over the pairs (paper 01, 'Calibration (6.4, 6.5)').
ghost use Rattle.std.specs.Prelude.{◌≡◌, ◌<◌, ◌≤◌, pos, nat_abs, ◌<ℤ◌};
ghost use Rattle.calibration.specs.Pairs.{Between, PairRanged, ZRanged};
ghost use Rattle.calibration.specs.Calibration.{divisor_of, intercept_of, plus_of, rise_of, widened_of};
ghost use Rattle.calibration.specs.InCode.{SumsRanged, slope_code};

use crate::conditions::Standard;
use crate::pairs::Pair;
use crate::ranges::between_wide;

// N, Σx, Σy, Σxy and Σx². Their range is a ghost field of `Regression`, and none here: the definitions sum pairs of any range.
#[derive(Clone, Copy, Default)]
pub struct Sums {
    pub n: u32,
    pub x: i64,
    pub y: i64,
    pub xy: i64,
    pub xx: i64,
}

// One pair more in the sums. A pair is a public value of any figures, so a clause asks its range; one of a `Sample` is in range.
pub fn plus(u: Sums, p: Pair) -> Sums
    requires { SumsRanged u × (u.n < 30) × PairRanged p }
    ensures { result ≡ plus_of u p }
{
    let x = i64::from(p.signal);
    let y = i64::from(p.srm.0);
    Sums {
        n: u.n + 1,
        x: u.x + x,
        y: u.y + y,
        xy: u.xy + x * y,
        xx: u.xx + x * x,
    }
}

// The least and the greatest of some concentrations.
#[derive(Clone, Copy)]
pub struct Span {
    pub low: Standard,
    pub high: Standard,
}

#[tactic(auto, using(crate::proofs::OrderLaws::min_is, crate::proofs::OrderLaws::max_is), unfolding(crate::specs::Calibration::widened_of))]
pub fn widened(s: Span, v: Standard) -> Span
    ensures { result ≡ widened_of s v }
{
    Span {
        low: s.low.min(v),
        high: s.high.max(v),
    }
}

// B, or none where it is outside 1..1,000,000: near(100000·rise/divisor), worked out from the whole part of rise/divisor and its rest. A whole part below
// -1 or over 10 gives no B in its range (-1 gives none either, but a test against 0 would be one of the sign); the rest times 100000 fits, unsigned. A clause asks
// the sign of the divisor: the caller tests it, and a type for it would be made for this call alone.
pub fn slope(edition: u8, rise: i64, divisor: i64) -> Option<i32>
    requires { (nat_abs rise ≤ 144000000000000) × (pos 0 <ℤ divisor) × (nat_abs divisor ≤ 144000000000000) }
    ensures { result ≡ slope_code edition rise divisor }
{
    let p = charts::divide(rise, divisor);
    if !between_wide(-1, 10, p.whole) {
        return None;
    }
    let rest = p.rest.cast_unsigned();
    let part = charts::near_unsigned(edition, 100000 * rest, divisor.cast_unsigned());
    let b = 100000 * p.whole + part.cast_signed();
    if !between_wide(1, 1000000, b) {
        return None;
    }
    Some(b as i32)
}

// What B and A are worked out from: the branch for the slope, the sums of at least one pair, and Z.
#[derive(Clone, Copy)]
pub struct Regression {
    pub flat: bool,
    pub sums: Sums,
    pub z: i32,
    ghost some: { 0 < sums.n },
    ghost summed: { SumsRanged sums },
    ghost offset: { ZRanged z },
}

impl Regression {
    // The numerator of B, but for its factor 100000.
    pub fn rise(self) -> i64
        ensures { result ≡ rise_of self.flat self.sums }
    {
        let u = self.sums;
        if self.flat {
            return u.y;
        }
        i64::from(u.n) * u.xy - u.x * u.y
    }

    pub fn divisor(self) -> i64
        ensures { result ≡ divisor_of self.flat self.sums self.z }
    {
        let u = self.sums;
        if self.flat {
            return u.x - i64::from(u.n) * i64::from(self.z);
        }
        i64::from(u.n) * u.xx - u.x * u.x
    }

    // A, from the rounded B.
    pub fn intercept(self, edition: u8, b: i32) -> i64
        requires { Between (pos 1) (pos 1000000) b }
        ensures { result ≡ intercept_of edition self.flat self.sums self.z b }
    {
        let u = self.sums;
        let m = i64::from(b);
        if self.flat {
            return -(m * i64::from(self.z));
        }
        charts::near(edition, 100000 * u.y - m * u.x, i64::from(u.n))
    }
}
