// Records: a state is brought about, and a record is offered to it.
use crate::desk::Desk;
use crate::script_command::{Command, Word};
use arrayvec::ArrayVec;
use charts::Chart;
use records::State;
use refusals::Refusal;

// A state that calls left is sound.
fn step(st: State, record: &[u8; 40]) -> Result<State, Refusal> {
    if !records::sound(4000000000, st) {
        return Err(Refusal::State);
    }
    records::step(st, record)
}

// The readings of a chart; a chart that is not started has none.
fn readings(c: Chart) -> i128 {
    if c.started { c.readings.into() } else { -1 }
}

impl<R: Print> Desk<'_, R> {
    // Commands on the state. Whether the command is one of them.
    pub fn obey_state(&mut self, command: &Command) -> bool {
        match command.word {
            Word::Comment => {}
            Word::Again => {
                self.edition = command.a.byte;
                self.print(b"edition #\n", &command.written);
            }
            Word::Edition => self.edition = command.a.byte,
            Word::New => self.state = records::initial(command.a.unsigned),
            Word::Keep => self.kept = self.state,
            Word::Back => self.state = self.kept,
            Word::Expect => self.state.next = command.a.unsigned,
            Word::Open => self.state.edition = command.a.byte,
            Word::Show => self.show(),
            Word::Charts => self.charts(),
            Word::Report => self.report(),
            Word::End => self.text(b"\n"),
            _ => return self.obey_record(command),
        }
        true
    }

    // Commands on the prepared record. Whether the command is one of them, and was obeyed.
    pub fn obey_record(&mut self, command: &Command) -> bool {
        match command.word {
            Word::Case => {
                self.text(command.text);
                self.text(b":");
            }
            Word::Record => return self.prepare(command),
            Word::Byte => return set(&mut self.record, command.a.size, command.b.size),
            Word::Try => self.attempt(command.text),
            Word::Apply => {
                let times = if command.count == 0 {
                    1
                } else {
                    command.a.size
                };
                self.apply(times, command.b.unsigned);
            }
            _ => return self.obey_file(command),
        }
        true
    }

    // What the prepared record would meet. The state stays as it is.
    fn attempt(&mut self, title: &[u8]) {
        let row = match step(self.state, &self.record) {
            Ok(_) => 0,
            Err(row) => row.number(),
        };
        self.text(title);
        self.print(b": #\n", &[row.into()]);
    }

    // The fields of a record stand from byte 8 on: four bytes of each, but eight of the intercept of a calibration closing. What
    // has no room is left out. Whether there are at most eight.
    fn prepare(&mut self, command: &Command) -> bool {
        let fields = command.list.as_slice();
        if 8 < fields.len() {
            return false;
        }
        let mut all = ArrayVec::<u8, 88>::new();
        let [a, b, c, d] = command.c.unsigned.to_le_bytes();
        let _ = all.try_extend_from_slice(&[command.a.byte, command.b.byte, 0, 0, a, b, c, d]);
        for field in fields {
            let is_intercept = command.a.long == 5 && all.len() == 16;
            let size = if is_intercept { 8 } else { 4 };
            let _ = all.try_extend_from_slice(&field.to_le_bytes()[..size]);
        }
        let _ = all.try_extend_from_slice(&[0; 40]);
        if let Some(record) = all.as_slice().first_chunk::<40>() {
            self.record = *record;
        }
        true
    }

    // The record a number of times, each some minutes after the one before, up to the first that is refused.
    fn apply(&mut self, times: usize, apart: u32) {
        for _ in 0..times {
            match step(self.state, &self.record) {
                Ok(after) => self.state = after,
                Err(row) => return self.print(b" refused #", &[row.number().into()]),
            }
            let minute = records::bytes::read32(&self.record, 4).wrapping_add(apart);
            records::bytes::write32(&mut self.record, 4, minute);
        }
    }

    fn show(&mut self) {
        let st = self.state;
        let demand = match st.demand {
            Some(minute) => minute.into(),
            None => -1,
        };
        let figures = [
            st.minute.into(),
            readings(st.zero),
            readings(st.span),
            st.waiting.into(),
            st.tally.total.into(),
            st.tally.outside.into(),
            st.over.into(),
            demand,
        ];
        self.print(
            b" minute # zero ? span ? pairs # total # outside # over # call ?",
            &figures,
        );
        let Some(f) = st.calibration else {
            return self.text(b" calibration -");
        };
        let figures = [
            f.slope.into(),
            f.intercept.into(),
            f.top.0.into(),
            f.minute.into(),
        ];
        self.print(b" calibration # # # #", &figures);
    }

    fn charts(&mut self) {
        let st = self.state;
        self.chart_line(b"zero", st.setting.zero, st.zero);
        self.chart_line(b"span", st.setting.span, st.span);
    }

    // The six alarms and usable.
    fn report(&mut self) {
        let r = file::reporting::report(self.state);
        let figures = [
            r.zero.rising.into(),
            r.zero.falling.into(),
            r.zero.precision.into(),
            r.span.rising.into(),
            r.span.falling.into(),
            r.span.precision.into(),
        ];
        self.print(b" alarms ######", &figures);
        self.text(if r.usable {
            b" usable yes".as_slice()
        } else {
            b" usable no"
        });
    }
}

// Makes a byte of a number, in the place of another. Whether there is such a place, and the number is a byte.
pub fn set(bytes: &mut [u8], at: usize, byte: usize) -> bool {
    let Some(place) = bytes.get_mut(at) else {
        return false;
    };
    let Ok(byte) = u8::try_from(byte) else {
        return false;
    };
    *place = byte;
    true
}
