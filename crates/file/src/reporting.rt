// The report: the six alarms, and whether the analyser may be used (paper 01, 'Usable').
ghost use Rattle.std.specs.Prelude.{◌≡◌};
ghost use Rattle.file.specs.Statement.{Statement3, report_of};

use crate::Report;
use records::State;

// The six alarms and usable of a state; after any list of calls, what the record list says.
pub fn report(st: State) -> Report
    ensures value { result ≡ report_of st }
    ensures statement3 { Statement3 st result }
{
    let zero = st.zero.alarms(st.setting.zero);
    let span = st.span.alarms(st.setting.span);
    // `&` and not `&&`, which would part the proof in two at each; the calls have no effect.
    let quiet = records::silent(zero) & records::silent(span);
    Report {
        zero,
        span,
        usable: quiet
            & (records::young(2629440, st.minute, st.calibration)
                & records::recent(263520, st.minute, st.demand)),
    }
}
