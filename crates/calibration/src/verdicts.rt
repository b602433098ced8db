// The counts of pairs, the factors, and the tests of both verdicts (paper 01, 'Calibration (6.4, 6.5)' and 'Annual test (8.4, 8.5)').
ghost use Rattle.std.specs.Prelude.{◌≡◌, ◌-◌, ◌*◌, ◌<◌, ◌≤◌, leb, pos, nat_abs};
ghost use Rattle.calibration.specs.Calibration.{count_fits_of, k_of};
ghost use Rattle.calibration.specs.Annual.{annual_count_fits_of, annual_k_of, function_holds_of, t_of};

// The numbers of pairs that a calibration takes, and those of an annual test below, are data, as the factors are.
#[tactic(auto, using(std::proofs::lemmas::Bool::Decides::nat_tests), unfolding(crate::specs::Calibration::count_fits_of))]
pub fn count_fits(n: u32) -> bool
    ensures { result ≡ count_fits_of n }
{
    matches!(n, 15..=20 | 25 | 30)
}

#[tactic(auto, using(std::proofs::lemmas::Bool::Decides::nat_tests), unfolding(crate::specs::Annual::annual_count_fits_of))]
pub fn annual_count_fits(n: u32) -> bool
    ensures { result ≡ annual_count_fits_of n }
{
    matches!(n, 5..=8)
}

// Of the factors each has its own table, and so its own function: data, with 0 where there is no row, as in the definitions. The counts are tested before.

// The factor k of a calibration, in ten-thousandths.
#[tactic(auto, using(std::proofs::lemmas::Bool::Decides::nat_tests), unfolding(crate::specs::Calibration::k_of))]
pub fn k_factor(n: u32) -> u32
    ensures { (result ≡ k_of n) × (result ≤ 10000) }
{
    match n {
        15 => 9761,
        16 => 9777,
        17 => 9791,
        18 => 9803,
        19 => 9814,
        20 => 9824,
        25 => 9861,
        30 => 9885,
        _ => 0,
    }
}

// The factor k of an annual test, in ten-thousandths.
#[tactic(auto, using(std::proofs::lemmas::Bool::Decides::nat_tests), unfolding(crate::specs::Annual::annual_k_of))]
pub fn annual_k_factor(n: u32) -> u32
    ensures { (result ≡ annual_k_of n) × (result ≤ 10000) }
{
    match n {
        5 => 9161,
        6 => 9329,
        7 => 9441,
        8 => 9521,
        _ => 0,
    }
}

// Student's factor T of an annual test, in thousandths.
#[tactic(auto, using(std::proofs::lemmas::Bool::Decides::nat_tests), unfolding(crate::specs::Annual::t_of))]
pub fn t_factor(n: u32) -> u32
    ensures { (result ≡ t_of n) × (result ≤ 3000) }
{
    match n {
        5 => 2132,
        6 => 2015,
        7 => 1943,
        8 => 1895,
        _ => 0,
    }
}

// Whether scale·Q is at most m·σ²·k². The left side can pass 64 bits, so the right one is divided.
pub fn varied(scale: u64, m: u32, sigma: u32, k: u32, q: u64) -> bool
    requires { (0 < scale) × (m ≤ 870) × (sigma ≤ 10000) × (k ≤ 10000) }
    ensures { result ≡ leb (scale * q) (m * (sigma * sigma) * (k * k)) }
{
    let s = u64::from(sigma);
    let f = u64::from(k);
    q <= u64::from(m) * (s * s) * (f * f) / scale
}

// Whether (N-1)L²·10⁶ is at most T²Q. Q is split at 10⁶, so that no product passes 64 bits.
pub fn covered(n: u32, l: u64, q: u64) -> bool
    requires { (n ≤ 8) × (0 < n) × (l ≤ 600000000) × (q ≤ 1000000000000000000) }
    ensures { result ≡ leb ((n - 1) * (l * l) * 1000000) (t_of n * t_of n * q) }
{
    let t = u64::from(t_factor(n));
    let tt = t * t;
    u64::from(n - 1) * (l * l) <= tt * (q / 1000000) + tt * (q % 1000000) / 1000000
}

// The function test: |ΣD| is at most Nσ, or what it exceeds that by is covered.
pub fn function_holds(n: u32, sum: i64, q: u64, sigma: u32) -> bool
    requires { (n ≤ 8) × (0 < n) × (nat_abs sum ≤ 600000000) × (q ≤ 1000000000000000000) × (sigma ≤ 10000) }
    ensures { result ≡ function_holds_of n sum (pos q) (pos sigma) }
{
    let a = sum.unsigned_abs();
    let b = u64::from(n) * u64::from(sigma);
    if a <= b {
        return true;
    }
    covered(n, a - b, q)
}
