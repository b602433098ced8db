// What the verdicts and the top take of the pairs: the residuals, their spread, and the greatest calibrated value.
ghost use Rattle.std.specs.Prelude.{◌≡◌, false, ◌≤◌, pos, nat_abs, ◌≤ℤ◌};
ghost use Rattle.calibration.specs.Pairs.{Between};
ghost use Rattle.calibration.specs.Calibration.{far_of, share_of, top_of};
ghost use Rattle.calibration.specs.InCode.{dispersion_of, with_residual_of};

use crate::conditions::Standard;
use crate::ranges::between;

// The greatest calibrated value, ΣD and ΣD².
#[derive(Clone, Copy)]
pub struct Residuals {
    pub most: Standard,
    pub sum: i64,
    pub squares: i64,
}

pub fn far(v: Standard) -> bool
    ensures { result ≡ far_of v }
{
    !between(-10000000, 10000000, v.0)
}

// One pair more in the residuals.
pub fn with_residual(r: Residuals, y: Standard, c: Standard) -> Residuals
    requires { (nat_abs r.sum ≤ 600000000) × (nat_abs r.squares ≤ 12000000000000000) × (far_of y ≡ false) × (far_of c ≡ false) }
    ensures { result ≡ with_residual_of r y c }
{
    let d = i64::from(y.0) - i64::from(c.0);
    Residuals {
        most: r.most.max(c),
        sum: r.sum + d,
        squares: r.squares + d * d,
    }
}

// Q = NΣD² - (ΣD)², which is not negative.
pub fn dispersion(n: u32, r: Residuals) -> u64
    requires { (n ≤ 30) × (nat_abs r.sum ≤ 600000000) × (nat_abs r.squares ≤ 12000000000000000) × pos 0 ≤ℤ dispersion_of n r }
    ensures { pos result ≡ dispersion_of n r }
{
    (i64::from(n) * r.squares - r.sum * r.sum).cast_unsigned()
}

// near(percent·v/100).
pub fn share(edition: u8, percent: i64, v: i32) -> Standard
    requires { (nat_abs percent ≤ 110) × (nat_abs v ≤ 10000000) }
    ensures { result ≡ share_of edition percent v }
{
    Standard(charts::near(edition, percent * i64::from(v), 100) as i32)
}

// 110 % of max c, and in edition 2 at least 20 % of the limit.
pub fn top(edition: u8, limit: i32, most: Standard) -> Standard
    requires { (far_of most ≡ false) × Between (pos 100) (pos 400000) limit }
    ensures { result ≡ top_of edition limit most }
{
    let first = share(edition, 110, most.0);
    if edition != 2 {
        return first;
    }
    first.max(share(edition, 20, limit))
}
