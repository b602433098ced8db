// A pair, and what pairs are worked out by.

use crate::conditions::{Actual, Conditions};

// What the fit takes of a pair: the analyser's signal x, the reference method's value y, and the conditions.
#[derive(Clone, Copy, Default)]
pub struct Pair {
    pub signal: i32,
    pub srm: Actual,
    pub conditions: Conditions,
}

// The limit E, the required uncertainty σ and the reference oxygen.
#[derive(Clone, Copy, Default)]
pub struct Requirements {
    pub limit: i32,
    pub uncertainty: i32,
    pub oxygen: i32,
}

// What pairs are worked out by: the edition to round by, and E, σ and the reference oxygen.
#[derive(Clone, Copy)]
pub struct Basis {
    pub edition: u8,
    pub requirements: Requirements,
}
