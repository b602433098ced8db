// The lines that the reader prints, put behind a text in fixed memory. There is always room, so that none of this can fail. No contract says as much of `write!`.
ghost use Rattle.std.specs.Prelude.{◌≡◌, ◌+◌, ◌≤◌, [], ◌∷◌, ◌++◌};
ghost use Rattle.arrayvec.specs.ArrayString.{array_string_len};
ghost use Rattle.reading.specs.Lines.{decimal_of, flag, flags_text, line_text, place_or_dash, report_line, yes_or_no_of};

use arrayvec::ArrayString;
use charts::Alarms;
use file::Report;
use refusals::Refusal;

// Room for a line of each block of a piece, and for what ends the reading. None has more than 80 bytes.
pub const TEXT: usize = 129 * 80;

// A line that the reader prints.
#[derive(Clone, Copy)]
pub enum Line {
    // A block that was taken: its number, and its record count.
    Taken {
        number: u64,
        count: u8,
    },
    // A block or a short tail that was refused: the number expected, the row, and the place of the record at fault, if it is a record's row.
    Stopped {
        number: u64,
        row: Refusal,
        place: Option<u8>,
    },
    // The last line: the six alarms, and whether the analyser may be used.
    Report(Report),
}

// The digits of a number.
fn put_number(text: &mut ArrayString<TEXT>, n: u64)
    requires { array_string_len text.old + 20 ≤ 10320 }
    ensures bytes { text.new.bytes ≡ text.old.bytes ++ decimal_of n }
    ensures len { array_string_len text.new ≤ array_string_len text.old + 20 }
{
    let mut digits = itoa::Buffer::new();
    text.push_str(digits.format(n));
}

// A record's place, or `-` for none.
fn put_place(text: &mut ArrayString<TEXT>, place: Option<u8>)
    requires { array_string_len text.old + 20 ≤ 10320 }
    ensures bytes { text.new.bytes ≡ text.old.bytes ++ place_or_dash place }
    ensures len { array_string_len text.new ≤ array_string_len text.old + 20 }
{
    match place {
        Some(place) => put_number(text, u64::from(place)),
        None => text.push_str("-"),
    }
}

// 1 for an alarm that stands, else 0.
fn put_flag(text: &mut ArrayString<TEXT>, stands: bool)
    requires { array_string_len text.old + 1 ≤ 10320 }
    ensures { text.new.bytes ≡ text.old.bytes ++ flag stands ∷ [] }
{
    text.push_str(if stands { "1" } else { "0" });
}

// Rising, falling and precision of a chart.
fn put_flags(text: &mut ArrayString<TEXT>, a: Alarms)
    requires { array_string_len text.old + 3 ≤ 10320 }
    ensures { text.new.bytes ≡ text.old.bytes ++ flags_text a }
{
    put_flag(text, a.rising);
    put_flag(text, a.falling);
    put_flag(text, a.precision);
}

// By hand: a bool prints true and false.
fn yes_or_no(answer: bool) -> &'static str
    ensures { result.now ≡ yes_or_no_of answer }
{
    if answer { "yes" } else { "no" }
}

fn put_report(text: &mut ArrayString<TEXT>, r: Report)
    requires { array_string_len text.old + 80 ≤ 10320 }
    ensures bytes { text.new.bytes ≡ text.old.bytes ++ report_line r }
    ensures len { array_string_len text.new ≤ array_string_len text.old + 80 }
{
    text.push_str("alarms ");
    put_flags(text, r.zero);
    put_flags(text, r.span);
    text.push_str(" usable ");
    text.push_str(yes_or_no(r.usable));
    text.push_str("\n");
}

impl Line {
    // A line has at most 80 bytes.
    #[tactic(auto, unfolding(crate::specs::Lines::taken_line))]
    pub fn put(self, text: &mut ArrayString<TEXT>)
        requires { array_string_len text.old + 80 ≤ 10320 }
        ensures bytes { text.new.bytes ≡ text.old.bytes ++ line_text self }
        ensures len { array_string_len text.new ≤ array_string_len text.old + 80 }
    {
        match self {
            Line::Taken { number, count } => {
                put_number(text, number);
                text.push_str(" taken ");
                put_number(text, u64::from(count));
                text.push_str("\n");
            }
            Line::Stopped { number, row, place } => {
                put_number(text, number);
                text.push_str(" refused ");
                put_number(text, u64::from(row.number()));
                text.push_str(" ");
                put_place(text, place);
                text.push_str("\n");
            }
            Line::Report(report) => put_report(text, report),
        }
    }
}
