#![tactic(auto)]

ghost use Rattle.std.specs.Prelude.{◌≡◌, ◌+◌, ◌-◌, ◌*◌, ◌<◌, ◌≤◌, ◌^◌, pos, nat_abs, ◌+ℤ◌, ◌-ℤ◌, ◌<ℤ◌};
ghost use Rattle.charts.specs.Rounding.{edition_known_of, near_of, rounds_up_of};
ghost use Rattle.charts.specs.Division.{division_of};
ghost use Rattle.charts.specs.Sums.{added};
ghost use Rattle.charts.specs.Charts.{adjustment_of, alarms_of, applied_of, blank, reset_of};
ghost use Rattle.charts.specs.ChartSoundness.{DifferenceRanged, ChartSound, difference_ranged_of, chart_sound_of, within_of};

// The floor of n / d, and what is left over: the rest, in 0..d-1.
#[derive(Clone, Copy)]
pub struct Division {
    pub whole: i64,
    pub rest: i64,
}

// The floor and the rest, with no test of a sign. The machine's remainder has the sign of n; with d added it is above 0 and below 2d for either sign,
// and the quotient is one less for the d that was added. n and d stay two numbers, here and in `near`, and a clause asks the sign of d: both are public functions
// of any numbers, and a fraction would be made by each caller only to be taken apart.
pub fn divide(n: i64, d: i64) -> Division
    requires { (nat_abs n ≤ 2 ^ 62) × (pos 0 <ℤ d) × (nat_abs d ≤ 2 ^ 61) }
    ensures { result ≡ division_of n d }
{
    let r = n % d + d;
    Division {
        whole: n / d - 1 + r / d,
        rest: r % d,
    }
}

// Whether there is such an edition. It stays a byte, here and below: a caller may tell any, and each has its answer.
#[tactic(auto, using(std::proofs::lemmas::Bool::Decides::nat_tests), unfolding(crate::specs::Rounding::edition_known_of))]
pub fn edition_known(edition: u8) -> bool
    ensures { result ≡ edition_known_of edition }
{
    matches!(edition, 1 | 2)
}

// Whether the next whole number is taken where r/d is left over: above a half, and at a half in edition 2 only from an odd number. No branch, since
// rests fall on either side as it comes.
fn rounds_up(edition: u8, odd: bool, r: u64, d: u64) -> bool
    requires { r < d }
    ensures { result ≡ rounds_up_of edition odd r d }
{
    let left = d - r;
    (left < r) | ((left == r) & ((edition != 2) | odd))
}

// The whole number nearest to n / d, a half by the rule of the edition, for a signed numerator. One way for both signs and both editions: `divide`
// brings the remainder into 0..d-1 by adding d and taking it again (`Divided` in specs/Division.antt), and the test of a half goes on from there.
pub fn near(edition: u8, n: i64, d: i64) -> i64
    requires { (nat_abs n ≤ 2 ^ 62) × (pos 0 <ℤ d) × (nat_abs d ≤ 2 ^ 61) }
    ensures { result ≡ near_of edition n d }
{
    let p = divide(n, d);
    let odd = p.whole % 2 != 0;
    if rounds_up(edition, odd, p.rest.cast_unsigned(), d.cast_unsigned()) {
        return p.whole + 1;
    }
    p.whole
}

// The same where the numerator is not negative, for every numerator and every divisor above 0. Not one generic function with `near`: all that they share is
// `rounds_up`, since the floor needs `divide` for a sign, and a trait for the two quotients would be longer than both.
pub fn near_unsigned(edition: u8, n: u64, d: u64) -> u64
    requires { 0 < d }
    ensures { pos result ≡ near_of edition (pos n) (pos d) }
{
    let q = n / d;
    let r = n % d;
    if rounds_up(edition, q % 2 != 0, r, d) {
        return q + 1;
    }
    q
}

// One sum of a chart (paper 01: P, M or V) with the count of the readings in it.
#[derive(Clone, Copy, Default)]
pub struct Sum {
    pub value: u64,
    pub count: u32,
}

// A control chart: P, M and V, the last difference, the count of readings since the reset, and the two adjustments,
// downward at a rising alarm and upward at a falling one. `started` stands beside them, and no Option around them: a chart that is not started may hold
// any figures, and shows no alarm.
#[derive(Clone, Copy, Default)]
pub struct Chart {
    pub started: bool,
    pub readings: u32,
    pub last: i32,
    pub rising: Sum,
    pub falling: Sum,
    pub precision: Sum,
    pub downward: u64,
    pub upward: u64,
}

#[derive(Clone, Copy)]
pub struct Alarms {
    pub rising: bool,
    pub falling: bool,
    pub precision: bool,
}

// A term is added to a sum: adds less takes.
#[tactic(auto, using(crate::specs::CodeLaws::added_none, crate::specs::CodeLaws::added_kept))]
fn add(u: Sum, adds: u64, takes: u64) -> Sum
    requires { (u.value ≤ 2 ^ 62) × (u.count < 4294967295) × (adds ≤ 2 ^ 62) }
    ensures { result ≡ added u (pos adds -ℤ pos takes) }
{
    let z = u.value + adds;
    if z <= takes {
        return Sum::default();
    }
    Sum {
        value: z - takes,
        count: u.count + 1,
    }
}

// The adjustment from a drift sum after a reading, 0 where it shows no alarm.
#[tactic(auto, using(std::proofs::lemmas::Bool::Decides::nat_tests), unfolding(crate::specs::Charts::adjustment_of))]
fn adjustment(edition: u8, u: Sum, s: u16) -> u64
    requires { (u.count ≤ 100000) × (u.value ≤ 800000000 * u.count) }
    ensures { result ≡ adjustment_of edition s u }
{
    let t = u64::from(s);
    if u.value <= 2850 * t {
        return 0;
    }
    let n = u64::from(u.count);
    near_unsigned(edition, 7 * (501 * t * n + u.value), 10000 * n)
}

// A difference raised by 800,000, so that it is not negative.
fn raised(d: i32) -> u64
    requires { DifferenceRanged d }
    ensures { (pos result ≡ d +ℤ pos 800000) × (result ≤ 1200000) }
{
    (i64::from(d) + 800000).cast_unsigned()
}

// A chart that was never reset.
#[tactic(auto, unfolding(crate::specs::Charts::blank, crate::specs::Sums::empty))]
pub fn unstarted() -> Chart
    ensures { result ≡ blank }
{
    Chart::default()
}

impl Chart {
    // A reset: the chart is started, and all its figures are 0.
    #[tactic(auto, unfolding(crate::specs::Charts::reset_of, crate::specs::Sums::empty))]
    pub fn reset(self) -> Chart
        ensures { result ≡ reset_of self }
    {
        Chart {
            started: true,
            ..Chart::default()
        }
    }

    // A reading with difference d, at the standard deviation s, its adjustments rounded by the edition. Each sum is kept unsigned, as what is added
    // less what is taken.
    pub fn apply(self, edition: u8, s: u16, d: i32) -> Chart
        requires { ChartSound self × (self.readings < 100000) × DifferenceRanged d }
        ensures { result ≡ applied_of self edition s d }
    {
        let x = raised(d);
        let step = x.abs_diff(raised(self.last));
        let q = u64::from(s);
        let slack = 501 * q;
        let rising = add(self.rising, 1000 * x, 800000000 + slack);
        let falling = add(self.falling, 800000000, 1000 * x + slack);
        let precision = add(self.precision, 10 * (step * step), 37 * (q * q));
        Chart {
            started: self.started,
            readings: self.readings + 1,
            last: d,
            rising,
            falling,
            precision,
            downward: adjustment(edition, rising, s),
            upward: adjustment(edition, falling, s),
        }
    }

    // The three alarms: a sum over its limit, in a chart that is started.
    #[tactic(auto, unfolding(crate::specs::Charts::alarms_of))]
    pub fn alarms(self, s: u16) -> Alarms
        ensures { result ≡ alarms_of self s }
    {
        let q = u64::from(s);
        let drift = 2850 * q;
        let spread = 138 * (q * q);
        Alarms {
            rising: self.started & (drift < self.rising.value),
            falling: self.started & (drift < self.falling.value),
            precision: self.started & (spread < self.precision.value),
        }
    }

    // Whether a chart is in the range in which its arithmetic fits.
    pub fn sound(self) -> bool
        ensures { result ≡ chart_sound_of self }
    {
        let n = self.readings;
        n <= 100000
            && (difference_ranged(self.last)
                & within(self.rising, 400000000, n)
                & within(self.falling, 800000000, n)
                & within(self.precision, 14400000000000, n))
    }
}

// Whether a number is in the range of a difference.
#[tactic(auto, unfolding(crate::specs::ChartSoundness::difference_ranged_of))]
pub fn difference_ranged(d: i32) -> bool
    ensures { result ≡ difference_ranged_of d }
{
    (-800000..=400000).contains(&d)
}

// Whether a sum has at most as many terms as there are readings, and a value of at most `most` for each.
#[tactic(auto, using(std::proofs::lemmas::Bool::Decides::nat_tests), unfolding(crate::specs::ChartSoundness::within_of))]
fn within(u: Sum, most: u64, readings: u32) -> bool
    requires { (most ≤ 14400000000000) × (readings ≤ 100000) }
    ensures { result ≡ within_of most readings u }
{
    u.count <= readings && u.value <= most * u64::from(u.count)
}

// The difference of a reading and its reference.
pub fn difference(reading: i32, reference: i32) -> i32
    requires { (nat_abs reading ≤ 400000) × (nat_abs reference ≤ 400000) }
    ensures { result ≡ reading -ℤ reference }
{
    reading - reference
}
