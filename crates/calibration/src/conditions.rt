// Standard conditions (paper 01, 'Standard conditions (formula 20)'). An edition is a byte here and in the other files: any may be told, and every one but 2
// rounds by the rule of edition 1. Edition and reference oxygen stay two: a `Basis` would ask E and σ too, which play no part.
ghost use Rattle.std.specs.Prelude.{◌≡◌, ◌≤◌, ◌^◌, pos, nat_abs, ◌<ℤ◌};
ghost use Rattle.calibration.specs.Conditions.{standard_of, times_of};
ghost use Rattle.calibration.specs.Pairs.{ConditionsRanged, OxygenRanged};

// A concentration in analyser conditions.
#[derive(Clone, Copy, Default, PartialEq, Eq, PartialOrd, Ord)]
pub struct Actual(pub i32);

// A concentration in standard conditions. Of an `Actual`, only `standard_conditions` makes one.
#[derive(Clone, Copy, PartialEq, Eq, PartialOrd, Ord)]
pub struct Standard(pub i32);

// Paper 01's t, p, h and o.
#[derive(Clone, Copy, Default)]
pub struct Conditions {
    pub temperature: i32,
    pub pressure: i32,
    pub water: i32,
    pub oxygen: i32,
}

// One factor of formula 20, rounded: near(v·n/d). n and d stay two numbers, and a clause asks the sign of d: a fraction would be made only to be taken apart here.
pub fn times(edition: u8, v: i64, n: i64, d: i64) -> i64
    requires { (nat_abs v ≤ 2 ^ 40) × (nat_abs n ≤ 2 ^ 20) × (pos 0 <ℤ d) × (nat_abs d ≤ 2 ^ 20) }
    ensures { result ≡ times_of edition v n d }
{
    charts::near(edition, v * n, d)
}

// The four factors in turn: the only step from analyser conditions to standard conditions. Casts by `as` narrow numbers that are proved to fit; a TryFrom
// would answer an error that can't come.
pub fn standard_conditions(edition: u8, reference: i32, k: Conditions, v: Actual) -> Standard
    requires { OxygenRanged reference × ConditionsRanged k × (nat_abs v.0 ≤ 8000000) }
    ensures { result ≡ standard_of edition reference k v }
{
    let x = i64::from(v.0);
    let t = times(edition, x, 27315 + i64::from(k.temperature), 27315);
    let p = times(edition, t, 10130, 10130 + i64::from(k.pressure));
    let h = times(edition, p, 10000, 10000 - i64::from(k.water));
    let air = 2100 - i64::from(reference);
    let o = times(edition, h, air, 2100 - i64::from(k.oxygen));
    Standard(o as i32)
}
