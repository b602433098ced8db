// Rounding, sound charts, standard conditions, calibrated values, fits and annual tests, a line for each. A call that asks for ranges is made only where its
// arguments are in them; elsewhere the line ends with `outside`.
use crate::desk::{Desk, PAIRS};
use crate::script_command::{Command, Number, Word};
use calibration::{Actual, Basis, Conditions, Figures, Line, Pair, Requirements, Verdicts};
use charts::Sum;
use refusals::Refusal;

// What stands in the line behind the name, with the numbers of the command; what follows, with the figures; and the figures: none where the call is not made.
type Figured = (&'static [u8], &'static [u8], Option<[i128; 6]>);

// ---- the calls, where their arguments are in range

// n within 2^62 of 0, d from 1 to 2^61.
fn try_near(edition: u8, n: i64, d: i64) -> Option<[i128; 6]> {
    if 1 << 62 < n.unsigned_abs() || d <= 0 || 1 << 61 < d {
        return None;
    }
    Some([charts::near(edition, n, d).into(), 0, 0, 0, 0, 0])
}

// The same over every number with no sign, but for d 0.
fn try_unsigned(edition: u8, n: usize, d: usize) -> Option<[i128; 6]> {
    if d == 0 {
        return None;
    }
    Some([
        charts::near_unsigned(edition, n as u64, d as u64).into(),
        0,
        0,
        0,
        0,
        0,
    ])
}

fn try_standard(edition: u8, reference: i32, k: Conditions, v: i32) -> Option<[i128; 6]> {
    if !calibration::between(-8000000, 8000000, v)
        || !calibration::between(0, 1800, reference)
        || !calibration::conditions_ranged(k)
    {
        return None;
    }
    let y = calibration::standard_conditions(edition, reference, k, Actual(v));
    Some([y.0.into(), 0, 0, 0, 0, 0])
}

fn try_value(edition: u8, reference: i32, l: Line, k: Conditions, x: i32) -> Option<[i128; 6]> {
    if !calibration::between(0, 400000, x)
        || !calibration::between(0, 1800, reference)
        || !calibration::line_ranged(l)
        || !calibration::conditions_ranged(k)
    {
        return None;
    }
    let c = calibration::value(edition, reference, l, k, x);
    Some([c.0.into(), 0, 0, 0, 0, 0])
}

// Like `try_annual`, and no shorter with it: two ranges and two calls.
fn try_fit(pairs: &[Pair], b: Basis, z: i32) -> Option<Result<Figures, Refusal>> {
    if 30 < pairs.len()
        || !calibration::all_ranged(pairs)
        || !calibration::requirements_ranged(b.requirements)
        || !calibration::z_ranged(z)
    {
        return None;
    }
    Some(calibration::fit(pairs, b, z))
}

fn try_annual(pairs: &[Pair], b: Basis, l: Line) -> Option<Result<Verdicts, Refusal>> {
    if 30 < pairs.len()
        || !calibration::all_ranged(pairs)
        || !calibration::requirements_ranged(b.requirements)
        || !calibration::line_ranged(l)
    {
        return None;
    }
    Some(calibration::annual_test(pairs, b, l))
}

// Whether a chart with these readings, this last difference, and this value and count of P is sound.
fn sound(command: &Command) -> Option<[i128; 6]> {
    let mut c = charts::unstarted().reset();
    c.readings = command.a.unsigned;
    c.last = command.b.small;
    c.rising = Sum {
        value: command.c.long.cast_unsigned(),
        count: command.d.unsigned,
    };
    Some([c.sound().into(), 0, 0, 0, 0, 0])
}

pub fn conditions_of(t: Number, p: Number, h: Number, o: Number) -> Conditions {
    Conditions {
        temperature: t.small,
        pressure: p.small,
        water: h.small,
        oxygen: o.small,
    }
}

impl<R: Print> Desk<'_, R> {
    // Commands that write a line of figures. Whether the command is one of them.
    pub fn obey_figures(&mut self, command: &Command) -> bool {
        let Some((head, tail, figures)) = self.figures(command) else {
            return false;
        };
        self.text(command.text);
        self.print(head, &command.written);
        match figures {
            Some(figures) => self.print(tail, &figures),
            None => self.text(b" outside\n"),
        }
        true
    }

    // The figures of rounding and of a sound chart, or else those of calibration.
    fn figures(&self, command: &Command) -> Option<Figured> {
        let line: Figured = match command.word {
            Word::Near => (
                b"near #/#",
                b" #\n",
                try_near(self.edition, command.a.long, command.b.long),
            ),
            Word::Unsigned => (
                b"unsigned #/#",
                b" #\n",
                try_unsigned(self.edition, command.a.size, command.b.size),
            ),
            Word::Sound => (b"", b" #\n", sound(command)),
            _ => return self.calibration_figures(command),
        };
        Some(line)
    }

    fn calibration_figures(&self, command: &Command) -> Option<Figured> {
        let line: Figured = match command.word {
            Word::Standard => (
                b"standard # t # p # h # o # reference #",
                b" is #\n",
                try_standard(
                    self.edition,
                    command.f.small,
                    conditions_of(command.b, command.c, command.d, command.e),
                    command.a.small,
                ),
            ),
            Word::Value => (
                b"value # B # A # t # p # h # o # reference #",
                b" is #\n",
                try_value(
                    self.edition,
                    command.h.small,
                    Line {
                        slope: command.b.small,
                        intercept: command.c.long,
                    },
                    conditions_of(command.d, command.e, command.f, command.g),
                    command.a.small,
                ),
            ),
            Word::Fit | Word::Lent => (
                b" n # E # sigma # reference # Z #",
                b" refusal # passed # B # A # top # N #\n",
                self.fit(command),
            ),
            Word::Annual => (
                b"_ n # sigma # reference # B # A #",
                b" refusal # variability # function #\n",
                self.annual(command),
            ),
            _ => return None,
        };
        Some(line)
    }

    // The row that refuses a fit, 0 for none, and its figures, each 0 where it is refused.
    fn fit(&self, command: &Command) -> Option<[i128; 6]> {
        let b = Basis {
            edition: self.edition,
            requirements: Requirements {
                limit: command.b.small,
                uncertainty: command.c.small,
                oxygen: command.d.small,
            },
        };
        let pairs = self.pairs.as_slice();
        let pairs = &pairs[..command.a.size.min(pairs.len())];
        let fit = match command.word {
            Word::Lent => Some(calibration::fit_list(pairs, b, command.e.small)),
            _ => try_fit(pairs, b, command.e.small),
        };
        match fit {
            Some(Ok(f)) => Some([
                0,
                f.passed.into(),
                f.line.slope.into(),
                f.line.intercept.into(),
                f.top.0.into(),
                f.count.into(),
            ]),
            Some(Err(row)) => Some([row.number().into(), 0, 0, 0, 0, 0]),
            None => None,
        }
    }

    // The row that refuses an annual test, and its two verdicts likewise.
    fn annual(&self, command: &Command) -> Option<[i128; 6]> {
        let b = Basis {
            edition: self.edition,
            requirements: Requirements {
                limit: command.a.small,
                uncertainty: command.c.small,
                oxygen: command.d.small,
            },
        };
        let l = Line {
            slope: command.e.small,
            intercept: command.f.long,
        };
        let pairs = self.pairs.as_slice();
        let pairs = &pairs[..command.b.size.min(pairs.len())];
        match try_annual(pairs, b, l) {
            Some(Ok(v)) => Some([0, v.variability.into(), v.function.into(), 0, 0, 0]),
            Some(Err(row)) => Some([row.number().into(), 0, 0, 0, 0, 0]),
            None => None,
        }
    }

    // Signals, each with its SRM value, in the place of what was listed; behind the last it comes again, up to the end. Whether
    // no value is missing.
    pub fn list_pairs(&mut self, figures: &[i64]) -> bool {
        let mut pair = Pair {
            signal: 0,
            srm: Actual(0),
            conditions: self.first,
        };
        let mut is_signal = true;
        self.pairs.clear();
        for n in figures {
            let n = i32::try_from(*n).unwrap_or(0);
            if is_signal {
                pair.signal = n;
            } else {
                pair.srm = Actual(n);
                let _ = self.pairs.try_push(pair);
                pair.conditions = self.others;
            }
            is_signal = !is_signal;
        }
        for _ in self.pairs.len()..PAIRS {
            let _ = self.pairs.try_push(pair);
        }
        is_signal
    }

    // Another signal and SRM value for the nth pair.
    pub fn change_pair(&mut self, command: &Command) -> bool {
        let Some(pair) = self.pairs.get_mut(command.a.size.wrapping_sub(1)) else {
            return false;
        };
        pair.signal = command.b.small;
        pair.srm = Actual(command.c.small);
        true
    }
}
