// Charts. The line of a chart has its name, s and the last difference, the sums P, M and V with their counts, the adjustments to be taken off and put on,
// and the rising, falling and precision alarm.
use crate::calibration_cases::conditions_of;
use crate::desk::Desk;
use crate::script_command::{Command, Word};
use charts::Chart;

// A reading, where the chart and the difference are in the range that `apply` asks for; else the chart as it is.
fn applied(edition: u8, c: Chart, s: u16, d: i64) -> Chart {
    let Ok(d) = i32::try_from(d) else {
        return c;
    };
    if !c.sound() || 100000 <= c.readings || !charts::difference_ranged(d) {
        return c;
    }
    c.apply(edition, s, d)
}

impl<R: Print> Desk<'_, R> {
    // Commands on a chart and on the pairs that are listed. Whether the command is one of them, and was obeyed.
    pub fn obey_charts(&mut self, command: &Command) -> bool {
        match command.word {
            Word::Unstarted => self.chart = charts::unstarted(),
            Word::Reset => self.chart = self.chart.reset(),
            Word::Stop => self.chart.started = false,
            Word::Series => {
                self.chart = charts::unstarted().reset();
                self.read(command, 1, command.a.short);
            }
            Word::More => self.read(command, 1, command.a.short),
            Word::Chart => self.chart_line(command.text, command.a.short, self.chart),
            Word::Fill => self.read(command, command.a.unsigned, command.b.short),
            Word::Conditions => {
                self.first = conditions_of(command.a, command.b, command.c, command.d);
                self.others = conditions_of(command.e, command.f, command.g, command.h);
            }
            Word::Pairs => return self.list_pairs(command.list.as_slice()),
            Word::Pair => return self.change_pair(command),
            Word::Sound => {
                self.text(b"sound ");
                return self.obey_figures(command);
            }
            _ => return self.obey_figures(command),
        }
        true
    }

    // Applies the differences one after the other, a number of times over; with a line for each, but for `fill`.
    fn read(&mut self, command: &Command, times: u32, s: u16) {
        for _ in 0..times {
            for d in command.list.as_slice() {
                self.chart = applied(self.edition, self.chart, s, *d);
                if !matches!(command.word, Word::Fill) {
                    self.chart_line(command.text, s, self.chart);
                }
            }
        }
    }

    pub fn chart_line(&mut self, name: &[u8], s: u16, c: Chart) {
        let a = c.alarms(s);
        let figures = [
            s.into(),
            c.last.into(),
            c.rising.value.into(),
            c.rising.count.into(),
            c.falling.value.into(),
            c.falling.count.into(),
            c.precision.value.into(),
            c.precision.count.into(),
            c.downward.into(),
            c.upward.into(),
            a.rising.into(),
            a.falling.into(),
            a.precision.into(),
        ];
        self.text(name);
        self.print(
            b" s # d # P # # M # # V # # off # on # alarms ###\n",
            &figures,
        );
    }
}
