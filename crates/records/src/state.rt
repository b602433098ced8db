// The state (paper 01: the standing).
ghost use Rattle.std.specs.Prelude.{◌≡◌};
ghost use Rattle.records.specs.Kinds.{line_of};

use calibration::{Line, Pair, Requirements, Standard};
use charts::Chart;

// What the first record sets: E, σ and the reference oxygen, s of each chart, and the response minutes.
#[derive(Clone, Copy, Default)]
pub struct Setting {
    pub requirements: Requirements,
    pub zero: u16,
    pub span: u16,
    pub response: u32,
}

// A pair that waits for a closing: its start, its end, and its figures.
#[derive(Clone, Copy, Default)]
pub struct Waiting {
    pub start: u32,
    pub end: u32,
    pub pair: Pair,
}

// The figures of a calibration with its minute.
#[derive(Clone, Copy)]
pub struct Function {
    pub slope: i32,
    pub intercept: i64,
    pub top: Standard,
    pub minute: u32,
}

impl Function {
    // The line that a fit gives, without the rest.
    #[tactic(auto, unfolding(crate::specs::Kinds::line_of))]
    pub fn line(self) -> Line
        ensures { result ≡ line_of self }
    {
        Line {
            slope: self.slope,
            intercept: self.intercept,
        }
    }
}

// The values of a week that count, and how many of them are outside.
#[derive(Clone, Copy, Default)]
pub struct Tally {
    pub total: u32,
    pub outside: u32,
}

// The standing: an analyser, the block number that it expects, a summary of the accepted records, and the edition of the block that is open,
// or between blocks that of the last one taken or formed: 0 before the first. `calibration` is the function in force, and `demand` the minute of the first
// call for a new one since it. Thirty places stand beside their count, since the state goes by value in fixed
// memory, with no heap. `begun` stands beside the minute and the setting, and no Option around them: the state is public, one that has not begun may hold any of
// both, and row 12 and the report ask them all the same.
#[derive(Clone, Copy)]
pub struct State {
    pub analyser: u32,
    pub next: u32,
    pub begun: bool,
    pub minute: u32,
    pub setting: Setting,
    pub zero: Chart,
    pub span: Chart,
    pub waiting: u32,
    pub pairs: [Waiting; 30],
    pub calibration: Option<Function>,
    pub tally: Tally,
    pub over: u32,
    pub demand: Option<u32>,
    pub edition: u8,
}
