// Standard input that can be left where it was told to be: behind the block that was refused.
use std::fs::Files;
use std::io::{BufRead, Input, Read, Result, StdinLock};
use std::os::unix::fs::FileTypeExt;

const LOCKS: usize = 4;

// A lock reads ahead, 4,096 bytes, only where the input has a position. When it is dropped it goes back by as many bytes as it was not told are consumed, wherever
// the position is by then. So the first bytes of the input are read through the locks, which keep them for going back, and those behind them past the locks, no
// more at a time than what the locks keep.
#[derive(Drop)]
pub struct Source<'a> {
    rt: &'a HostRuntime,
    locks: [StdinLock<'a>; LOCKS],
    // How many bytes of each lock were given out, and of all together; and which lock is next.
    given: [usize; LOCKS],
    kept: usize,
    next: usize,
    // The input has no position, as a pipe: a lock would read it byte by byte.
    flows: bool,
}

// Whether standard input is a pipe or a socket, which have no position. It is asked before the first read: one that keeps packets apart drops what a read
// leaves of a packet.
fn is_stream(rt: &HostRuntime) -> bool {
    match rt.metadata("/dev/stdin") {
        Ok(input) => input.file_type().is_fifo() || input.file_type().is_socket(),
        Err(_) => false,
    }
}

impl<'a> Source<'a> {
    pub fn new(rt: &'a HostRuntime) -> Source<'a> {
        Source {
            rt,
            locks: [rt.reader(), rt.reader(), rt.reader(), rt.reader()],
            given: [0; LOCKS],
            kept: 0,
            next: 0,
            flows: is_stream(rt),
        }
    }

    // All that was given out is consumed, but for the last `unread` bytes, which came with the last read: a refused block is never whole before it.
    pub fn leave(&mut self, unread: usize) {
        let mut back = unread;
        for k in 0..LOCKS {
            let kept = self.given[k].min(back);
            self.locks[k].consume(self.given[k] - kept);
            back -= kept;
        }
    }
}

impl Read for Source<'_> {
    fn read(&mut self, buf: &mut [u8]) -> Result<usize> {
        if self.flows {
            return self.rt.stdin().read(buf);
        }
        let Some(lock) = self.locks.get_mut(self.next) else {
            let most = buf.len().min(self.kept);
            return self.rt.stdin().read(&mut buf[..most]);
        };
        let there = lock.fill_buf()?;
        let rest = there.get(self.given[self.next]..).unwrap_or(&[]);
        let count = rest.len().min(buf.len());
        buf[..count].copy_from_slice(&rest[..count]);
        self.given[self.next] += count;
        self.kept = self.kept.saturating_add(count);
        self.flows = there.len() == 1;
        if count == rest.len() {
            self.next += 1;
        }
        Ok(count)
    }
}
