// What a script works on.
use arrayvec::ArrayVec;
use calibration::{Conditions, Pair};
use charts::Chart;
use records::State;
use std::io;

// What a script prints is kept up to a line by which it is more than this; and the most that is kept.
pub const ENOUGH: usize = 4096;

const ROOM: usize = 8192;

// The most pairs that a case has.
pub const PAIRS: usize = 1000;

// The most bytes that are listed, those of a block, and those of a target.
pub const LIST: usize = 520;

pub const BLOCK: usize = 512;

pub const TARGET: usize = 600;

// What a target holds before a call.
pub const FILL: u8 = 0xa5;

#[derive(Drop)]
pub struct Desk<'a, R> {
    pub rt: &'a R,
    pub out: ArrayVec<u8, ROOM>,
    // An error, where a text that had no room could not be written.
    pub written: io::Result<()>,
    // The edition that is told.
    pub edition: u8,
    pub chart: Chart,
    // The conditions of the first pair and of the others, and the pairs.
    pub first: Conditions,
    pub others: Conditions,
    pub pairs: ArrayVec<Pair, PAIRS>,
    // A state, one that was kept, and the record that is prepared.
    pub state: State,
    pub kept: State,
    pub record: [u8; 40],
    // The listed records, the run and how many blocks of it were formed, and what the last call left in its target.
    pub list: ArrayVec<u8, LIST>,
    // An array with a count beside it: bytes past the blocks that were formed are poked, sealed and taken too.
    pub run: [[u8; BLOCK]; 4],
    pub formed: usize,
    pub target: [u8; TARGET],
}

impl<'a, R: Print> Desk<'a, R> {
    pub fn new(rt: &'a R) -> Desk<'a, R> {
        let neutral = Conditions {
            temperature: 0,
            pressure: 0,
            water: 0,
            oxygen: 1100,
        };
        let state = records::initial(0);
        Desk {
            rt,
            out: ArrayVec::new(),
            written: Ok(()),
            edition: 1,
            chart: charts::unstarted(),
            first: neutral,
            others: neutral,
            pairs: ArrayVec::new(),
            state,
            kept: state,
            record: [0; 40],
            list: ArrayVec::new(),
            run: [[0; BLOCK]; 4],
            formed: 0,
            target: [FILL; TARGET],
        }
    }
}
