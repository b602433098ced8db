// A line on standard error that says how much of a long file has been read.
use std::io::{Read, Result};
use std::time::{Clock, Instant};

// The line comes after this time at the earliest, and changes no sooner.
const MILLISECONDS: u128 = 500;

// An input, and how much was read of it. `shown` is the time of the last line, or of the beginning; with none no line is shown, nor where the clock fails.
#[derive(Drop)]
pub struct Watched<'a, I, R> {
    pub source: I,
    rt: &'a R,
    bytes: u64,
    shown: Option<Instant>,
    lines: bool,
}

impl<'a, I: Read, R: Clock + Eprint> Watched<'a, I, R> {
    pub fn new(source: I, rt: &'a R, shows: bool) -> Watched<'a, I, R> {
        Watched {
            source,
            rt,
            bytes: 0,
            shown: if shows { Instant::now(rt).ok() } else { None },
            lines: false,
        }
    }

    // Writes the line, where it is time.
    fn tell(&mut self) {
        let Some(shown) = self.shown else {
            return;
        };
        let Ok(now) = Instant::now(self.rt) else {
            return;
        };
        if now.duration_since(shown).as_millis() < MILLISECONDS {
            return;
        }
        let _ = eprint!(self.rt; "\r{} blocks read", self.bytes / 512);
        self.shown = Some(now);
        self.lines = true;
    }

    // Takes the line away.
    pub fn clear(&mut self) {
        if self.lines {
            let _ = eprint!(self.rt; "\r{:40}\r", "");
            self.lines = false;
        }
    }
}

impl<I: Read, R: Clock + Eprint> Read for Watched<'_, I, R> {
    fn read(&mut self, buf: &mut [u8]) -> Result<usize> {
        let count = self.source.read(buf)?;
        self.bytes = self.bytes.saturating_add(count as u64);
        self.tell();
        Ok(count)
    }
}
