// Runs the script on standard input, the file `stdin`, whose head says what its commands do. A line that is no command, or has other numbers than its
// command takes, is answered by `unknown`.
use crate::desk::{Desk, ENOUGH};
use crate::script_command::{Word, command_of};
use arrayvec::ArrayVec;
use std::io;
use std::io::Read;

// A script is shorter than this.
const LIMIT: usize = 262144;

impl<R: Print> Desk<'_, R> {
    // Whether the lines above are to be run again.
    fn obey(&mut self, line: &[u8]) -> io::Result<bool> {
        let Some(command) = command_of(line) else {
            self.text(b"unknown\n");
            return Ok(false);
        };
        // What was printed is seen while a command takes long.
        let is_long = command.count != 0 && matches!(command.word, Word::Apply | Word::Fill);
        self.hand_over(if is_long { 0 } else { ENOUGH })?;
        if !self.obey_state(&command) {
            self.text(b"unknown\n");
        }
        Ok(matches!(command.word, Word::Again))
    }

    fn obey_lines(&mut self, script: &[u8]) -> io::Result<()> {
        for line in script.split(|b| *b == b'\n') {
            self.obey(line)?;
        }
        Ok(())
    }

    // The lines, and where one says so those above it once more.
    fn obey_all(&mut self, script: &[u8]) -> io::Result<()> {
        let mut above = 0usize;
        for line in script.split(|b| *b == b'\n') {
            if self.obey(line)? {
                self.obey_lines(script.get(..above).unwrap_or(&[]))?;
            }
            above = above.saturating_add(line.len() + 1);
        }
        Ok(())
    }
}

pub fn run(rt: &(impl Print + Input)) -> io::Result<()> {
    let mut script = ArrayVec::<u8, LIMIT>::new();
    io::copy(&mut rt.reader().take(LIMIT as u64), &mut script)?;
    if script.is_full() {
        return rt.write_all(b"the script is too long\n");
    }
    let mut desk = Desk::new(rt);
    desk.obey_all(script.as_slice())?;
    desk.hand_over(0)
}
