// The figures of a record (paper 01, 'Records'). A record and a place go side by side, and the clause that a pair's fields are in range stands where it is needed:
// the record is lent bytes, and a type for a record at a place, or for a pair's record, would be made at each call.
ghost use Rattle.std.specs.Prelude.{◌≡◌, true, ◌+◌, ◌≤◌, length};
ghost use Rattle.records.specs.Record.{conditions_of, difference_of, field_of, function_of, length_of, long_field_of, minute, pair_of, reading_ranged_of, requirements_of, setting_of, setting_ranged_of, waiting_of, waiting_ranged_of};

use crate::bytes;
use crate::state::{Function, Setting, Waiting};
use calibration::{Actual, Conditions, Pair, Requirements, Standard};

// A signed field of four bytes. The fields are read from a slice, of which no more is asked than the bytes that are read.
pub fn field(r: &[u8], at: usize) -> i32
    requires { at + 4 ≤ length r.now }
    ensures { result ≡ field_of r.now at }
{
    i32::from_le_bytes(bytes::chunk(r, at))
}

// A signed field of eight bytes.
pub fn long_field(r: &[u8], at: usize) -> i64
    requires { at + 8 ≤ length r.now }
    ensures { result ≡ long_field_of r.now at }
{
    i64::from_le_bytes(bytes::chunk(r, at))
}

#[tactic(auto, unfolding(crate::specs::Record::conditions_of))]
pub fn conditions(r: &[u8], at: usize) -> Conditions
    requires { at + 16 ≤ length r.now }
    ensures { result ≡ conditions_of r.now at }
{
    Conditions {
        temperature: field(r, at),
        pressure: field(r, at + 4),
        water: field(r, at + 8),
        oxygen: field(r, at + 12),
    }
}

#[tactic(auto, unfolding(crate::specs::Record::requirements_of))]
pub fn requirements(r: &[u8; 40]) -> Requirements
    ensures { result ≡ requirements_of r.now }
{
    Requirements {
        limit: field(r, 8),
        uncertainty: field(r, 12),
        oxygen: field(r, 24),
    }
}

#[tactic(auto, unfolding(crate::specs::Record::setting_of))]
pub fn setting(r: &[u8; 40]) -> Setting
    requires { setting_ranged_of r.now ≡ true }
    ensures { result ≡ setting_of r.now }
{
    Setting {
        requirements: requirements(r),
        zero: field(r, 16) as u16,
        span: field(r, 20) as u16,
        response: field(r, 28) as u32,
    }
}

// A reading's difference.
#[tactic(auto, unfolding(crate::specs::Record::difference_of))]
pub fn difference(r: &[u8; 40]) -> i32
    requires { reading_ranged_of r.now ≡ true }
    ensures { result ≡ difference_of r.now }
{
    charts::difference(field(r, 8), field(r, 12))
}

#[tactic(auto, unfolding(crate::specs::Record::pair_of))]
pub fn pair(r: &[u8; 40]) -> Pair
    ensures { result ≡ pair_of r.now }
{
    Pair {
        signal: field(r, 16),
        srm: Actual(field(r, 20)),
        conditions: conditions(r, 24),
    }
}

// A pair's length in minutes. Casts by `as`, here and above, take a number that is proved to fit; a TryFrom would answer an error that can't come.
pub fn length(r: &[u8; 40]) -> u32
    requires { waiting_ranged_of r.now ≡ true }
    ensures { (result ≡ length_of r.now) × (result ≤ 1440) }
{
    field(r, 8) as u32
}

#[tactic(auto, unfolding(crate::specs::Record::minute, crate::specs::Record::waiting_of))]
pub fn waiting(r: &[u8; 40]) -> Waiting
    requires { (waiting_ranged_of r.now ≡ true) × (length_of r.now ≤ minute r.now) }
    ensures { result ≡ waiting_of r.now }
{
    let end = bytes::read32(r, 4);
    Waiting {
        start: end - length(r),
        end: end,
        pair: pair(r),
    }
}

// The stored figures of a calibration closing, with its minute.
#[tactic(auto, unfolding(crate::specs::Record::function_of, crate::specs::Record::minute))]
pub fn function(r: &[u8; 40]) -> Function
    ensures { result ≡ function_of r.now }
{
    Function {
        slope: field(r, 12),
        intercept: long_field(r, 16),
        top: Standard(field(r, 24)),
        minute: bytes::read32(r, 4),
    }
}
