// What a script prints, kept until there is enough of it.
use crate::desk::Desk;
use arrayvec::ArrayString;
use std::fmt::Write;
use std::{io, mem};

impl<R: Print> Desk<'_, R> {
    // Writes what is kept, where that is more than `enough`.
    pub fn hand_over(&mut self, enough: usize) -> io::Result<()> {
        mem::replace(&mut self.written, Ok(()))?;
        if enough < self.out.len() {
            self.rt.write_all(self.out.as_slice())?;
            self.out.clear();
        }
        Ok(())
    }

    fn write(&mut self, text: &[u8]) -> io::Result<()> {
        self.hand_over(0)?;
        self.rt.write_all(text)
    }

    pub fn text(&mut self, text: &[u8]) {
        if self.out.try_extend_from_slice(text).is_err() {
            self.written = self.write(text);
        }
    }

    // A text with a number in each of its places: # is a place of any number, ? of one that is none where it is below 0,
    // % of a byte in hexadecimal, and _ of one that is left out.
    pub fn print(&mut self, text: &[u8], numbers: &[i128]) {
        let mut numbers = numbers.iter();
        for byte in text {
            match *byte {
                b'#' | b'?' | b'%' | b'_' => {
                    if let Some(n) = numbers.next() {
                        self.number(*byte, *n);
                    }
                }
                _ => self.text(&[*byte]),
            }
        }
    }

    fn number(&mut self, place: u8, n: i128) {
        if place == b'?' && n < 0 {
            return self.text(b"-");
        }
        let mut digits = ArrayString::<40>::new();
        let _ = match place {
            b'_' => Ok(()),
            b'%' => write!(digits, "{n:02x}"),
            _ => write!(digits, "{n}"),
        };
        self.text(digits.as_str().as_bytes());
    }
}
