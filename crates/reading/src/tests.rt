// A run over memory, and over a reader and a writer that fail in mid-stream. What is printed is that of the sample `short`.
use crate::{RunError, run};
use std::io::{Error, ErrorKind, Read, Result, Write};
use std::test::Fail;

// Gives `left` bytes, at most `most` at a time, and then fails once: who tried again would get more.
#[derive(Drop)]
struct Failing {
    left: usize,
    most: usize,
}

impl Read for Failing {
    fn read(&mut self, buf: &mut [u8]) -> Result<usize> {
        if self.left == 0 {
            self.left = self.most;
            return Err(Error::from(ErrorKind::Other));
        }
        let count = self.most.min(self.left).min(buf.len());
        self.left -= count;
        Ok(count)
    }
}

// Takes nothing, and counts how often it was asked.
#[derive(Drop)]
struct Full {
    writes: u32,
}

impl Write for Full {
    fn write(&mut self, _buf: &[u8]) -> Result<usize> {
        self.writes = self.writes.saturating_add(1);
        Err(Error::from(ErrorKind::StorageFull))
    }

    fn flush(&mut self) -> Result<()> {
        Ok(())
    }
}

// Takes all, and counts how often it was asked.
#[derive(Drop)]
struct Counted {
    writes: u32,
}

impl Write for Counted {
    fn write(&mut self, buf: &[u8]) -> Result<usize> {
        self.writes = self.writes.saturating_add(1);
        Ok(buf.len())
    }

    fn flush(&mut self) -> Result<()> {
        Ok(())
    }
}

const SHORT: &[u8] = b"0 refused 1 -\nalarms 000000 usable no\n";

const REFUSED: &[u8] = b"0 refused 2 -\nalarms 000000 usable no\n";

#[test]
fn tells_of_memory(rt: HostRuntime) -> std::result::Result<(), Fail> {
    let mut input: &[u8] = &[0; 511];
    let mut out = Vec::new(rt.alloc());
    run(&mut input, &mut out)?;
    assert_eq!(rt; out.as_slice(), SHORT);
    Ok(())
}

#[test]
fn tells_of_what_came_before_a_failed_read(rt: HostRuntime) -> std::result::Result<(), Fail> {
    let mut out = Vec::new(rt.alloc());
    let mut input = Failing { left: 511, most: 1 };
    let told = run(&mut input, &mut out);
    assert!(rt; matches!(told, Err(RunError::Input(e)) if matches!(e.kind(), ErrorKind::Other)));
    assert_eq!(rt; out.as_slice(), SHORT);
    Ok(())
}

// The first block is refused: it is told of at once, and no read follows.
#[test]
fn reads_no_further_than_a_refused_block(rt: HostRuntime) -> std::result::Result<(), Fail> {
    let mut input = Failing { left: 600, most: 1 };
    let mut out = Vec::new(rt.alloc());
    let told = run(&mut input, &mut out);
    assert!(rt; matches!(told, Ok(0)));
    assert_eq!(rt; input.left, 88);
    assert_eq!(rt; out.as_slice(), REFUSED);
    Ok(())
}

// Of 1,300 bytes that came together 788 stand behind the refused block.
#[test]
fn counts_what_stands_behind_a_refused_block(rt: HostRuntime) -> std::result::Result<(), Fail> {
    let mut input: &[u8] = &[0; 1300];
    let mut out = Vec::new(rt.alloc());
    let unread = run(&mut input, &mut out)?;
    assert_eq!(rt; unread, 788);
    assert_eq!(rt; out.as_slice(), REFUSED);
    Ok(())
}

// The same where the read that brought the block brought bytes behind it.
#[test]
fn reads_no_further_where_more_had_come(rt: HostRuntime) -> std::result::Result<(), Fail> {
    let mut input = Failing {
        left: 1400,
        most: 700,
    };
    let mut out = Vec::new(rt.alloc());
    let told = run(&mut input, &mut out);
    assert!(rt; matches!(told, Ok(188)));
    assert_eq!(rt; input.left, 700);
    assert_eq!(rt; out.as_slice(), REFUSED);
    Ok(())
}

// A block's line is written before anything behind the block is read; and after a write that failed nothing is read or written.
#[test]
fn stops_at_a_failed_write(rt: HostRuntime) -> std::result::Result<(), Fail> {
    let mut input = Failing { left: 600, most: 1 };
    let mut out = Full { writes: 0 };
    let told = run(&mut input, &mut out);
    assert!(rt;
        matches!(told, Err(RunError::Output(e)) if matches!(e.kind(), ErrorKind::StorageFull))
    );
    assert_eq!(rt; input.left, 88);
    assert_eq!(rt; out.writes, 1);
    Ok(())
}

// The lines of a piece are one write, and so is the report: who shares the output never stands within a line.
#[test]
fn writes_a_piece_and_the_report_at_once(rt: HostRuntime) -> std::result::Result<(), Fail> {
    let mut input: &[u8] = &[0; 511];
    let mut out = Counted { writes: 0 };
    run(&mut input, &mut out)?;
    assert_eq!(rt; out.writes, 2);
    Ok(())
}
