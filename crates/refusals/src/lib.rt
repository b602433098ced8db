#![tactic(auto)]

// The table of refusals, from which every layer takes its rows.
ghost use Rattle.std.specs.Prelude.{◌≡◌};
ghost use Rattle.refusals.specs.Rows.{number_of};

use std::error::Error;
use std::fmt;

// Where input is stopped: the rows of the table, each named by what it finds wrong.
#[derive(Clone, Copy, Debug, PartialEq, Eq)]
pub enum Refusal {
    // Of what is lent: its length; bytes that are no whole number of records, or too few or many, or a kind that closes nothing.
    Length = 1,
    Records = 6,
    // Of a block: its check; edition, count, number or a stray byte; another analyser; not the expected number; an edition lower than the one before.
    Check = 2,
    Header = 3,
    Analyser = 4,
    Sequence = 5,
    Edition = 26,
    // Of a state: numbers so large that the arithmetic would not fit.
    State = 7,
    // Of a record: kind, mark or a stray byte; a setting out of place; its minute; a field out of its range.
    Layout = 10,
    Place = 11,
    Minute = 12,
    Range = 13,
    // Of a reading: the chart was never reset, or is full.
    Unstarted = 14,
    Full = 15,
    // Of a pair: its times; its coverage; thirty wait.
    Times = 16,
    Coverage = 17,
    Waiting = 18,
    // Of a value or a closing: no function in force; how many pairs; their days or span; the divisor; the slope; a figure far out; what is stored differs.
    Function = 19,
    Count = 20,
    Days = 21,
    Divisor = 22,
    Slope = 23,
    Beyond = 24,
    Stored = 25,
}

impl Refusal {
    // The number that the table gives the row.
    pub fn number(self) -> u32
        ensures { result ≡ number_of self }
    {
        self as u32
    }
}

impl fmt::Display for Refusal {
    ghost use Rattle.std.specs.Prelude.{Some};
    ghost use Rattle.refusals.specs.Text.{text_of};

    ghost output = { λ r. Some (text_of r) };

    fn fmt<W: fmt::Write>(&self, f: &mut fmt::Formatter<W>) -> fmt::Result {
        let number = self.number();
        write!(f, "refused by row {number}")
    }
}

impl Error for Refusal {}
