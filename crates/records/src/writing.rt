// Writing a record (paper 01, 'Records' and 'Making blocks and closings'): its head, then field after field.
ghost use Rattle.std.specs.Prelude.{◌≡◌, ◌+◌, ◌≤◌, Ok, [], length};
ghost use Rattle.calibration.specs.Outcomes.{fitted, tested};
ghost use Rattle.records.specs.Bytes.{written};
ghost use Rattle.records.specs.Writing.{annual_record, calibration_record, field_bytes, long_bytes, record_of};

use crate::{bytes, closing};
use calibration::{Figures, Verdicts};

// A record of no fields. Kind and mark are the record's bytes, as they are written.
#[tactic(auto, unfolding(crate::specs::Writing::record_of, crate::specs::Bytes::bytes32, crate::specs::Bytes::bytes16))]
pub fn head(kind: u8, mark: u8, minute: u32) -> [u8; 40]
    ensures { result ≡ record_of kind mark minute [] }
{
    let mut record = [0u8; 40];
    record[0] = kind;
    record[1] = mark;
    bytes::write32(&mut record, 4, minute);
    record
}

// A signed field of four bytes.
#[tactic(auto, using(crate::proofs::WritingLaws::signed_bytes32))]
pub fn write_field(target: &mut [u8], at: usize, z: i32)
    requires { at + 4 ≤ length target.old }
    ensures { target.new ≡ written target.old at (field_bytes z) }
{
    bytes::copy(target, at, &z.to_le_bytes());
}

// A signed field of eight bytes.
#[tactic(auto, using(crate::proofs::WritingLaws::signed_bytes64))]
pub fn write_long_field(target: &mut [u8], at: usize, z: i64)
    requires { at + 8 ≤ length target.old }
    ensures { target.new ≡ written target.old at (long_bytes z) }
{
    bytes::copy(target, at, &z.to_le_bytes());
}

// A calibration closing: Z, and slope, intercept, top and N of a fit.
pub fn calibration(c: Figures, minute: u32, z: i32) -> [u8; 40]
    ensures { result ≡ calibration_record (fitted (Ok c)) minute z }
{
    let mut record = head(5, closing::pass_mark(c), minute);
    write_field(&mut record, 8, z);
    write_field(&mut record, 12, c.line.slope);
    write_long_field(&mut record, 16, c.line.intercept);
    write_field(&mut record, 24, c.top.0);
    bytes::write32(&mut record, 28, c.count);
    record
}

// An annual closing: N.
pub fn annual(v: Verdicts, count: u32, minute: u32) -> [u8; 40]
    ensures { result ≡ annual_record (tested (Ok v)) count minute }
{
    let mut record = head(6, closing::test_mark(v), minute);
    bytes::write32(&mut record, 8, count);
    record
}
