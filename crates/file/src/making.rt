// Making a closing (paper 01, 'Making blocks and closings', and paper 02, C-12).
ghost use Rattle.std.specs.Prelude.{◌≡◌, ◌||◌, eqb, length, IfOk};
ghost use Rattle.refusals.specs.Rows.{outcome_of};
ghost use Rattle.records.specs.Soundness.{Fitting};
ghost use Rattle.records.specs.State.{facts_of};
ghost use Rattle.file.specs.Answered.{PlaceOfTwelve};
ghost use Rattle.file.specs.Closings.{closing_of, closing_refusal, first_rows_of, made_by, made_bytes, make_of, z_fits_of};

use crate::{Refused, listed, turning};
use records::{State, writing};
use refusals::Refusal;

// A closing to be made: its kind, its minute, and Z for a calibration. The kind is a record's byte, as any byte may be asked for: row 6 stops one that
// closes nothing.
#[derive(Clone, Copy)]
pub struct Closing {
    pub kind: u8,
    pub minute: u32,
    pub z: i32,
}

// ---- its rows

// A kind that closes.
fn closes(kind: u8) -> bool
    ensures { result ≡ (eqb kind 5 || eqb kind 6) }
{
    matches!(kind, 5 | 6)
}

// Z in its range for a calibration, 0 for an annual test.
#[tactic(auto, using(records::proofs::SignedLaws::zero_same), unfolding(crate::specs::Closings::z_fits_of))]
fn z_fits(kind: u8, z: i32) -> bool
    ensures { result ≡ z_fits_of kind z }
{
    if kind == 5 {
        return calibration::z_ranged(z);
    }
    z == 0
}

// Rows 11, 12 and 13.
#[tactic(auto, unfolding(crate::specs::Closings::first_rows_of, records::specs::State::facts_of))]
fn first_rows(st: State, closing: Closing) -> Result<(), Refusal>
    ensures { outcome_of result ≡ first_rows_of (facts_of st) closing.kind closing.minute closing.z }
{
    if !st.begun {
        return Err(Refusal::Place);
    }
    if records::untimely(st, closing.minute) {
        return Err(Refusal::Minute);
    }
    if !z_fits(closing.kind, closing.z) {
        return Err(Refusal::Range);
    }
    Ok(())
}

// A closing of either kind after the records before it.
fn close(st: State, closing: Closing) -> Result<[u8; 40], Refusal>
    requires { Fitting st }
    ensures row { outcome_of result ≡ closing_refusal (facts_of st) closing.kind closing.minute closing.z }
    ensures bytes { IfOk result (λ bytes. bytes ≡ closing_of (facts_of st) closing.kind closing.minute closing.z) }
{
    first_rows(st, closing)?;
    if closing.kind == 5 {
        let figures = records::calibration_result(st, closing.z)?;
        return Ok(writing::calibration(figures, closing.minute, closing.z));
    }
    let verdicts = records::annual_result(st)?;
    Ok(writing::annual(verdicts, st.waiting, closing.minute))
}

// Making a closing for a block of the edition told into the target, with any state, any edition, any bytes, any closing and any target. State and edition
// stay two, and an edition is a byte, as in `append`.
pub fn make_closing(
    st: State,
    edition: u8,
    bytes: &[u8],
    closing: Closing,
    target: &mut [u8],
) -> Result<(), Refused>
    ensures value { made_by result ≡ make_of st edition bytes.now closing.kind closing.minute closing.z (length target.old) }
    ensures below { PlaceOfTwelve result }
    ensures target_after { target.new ≡ made_bytes st edition bytes.now closing.kind closing.minute closing.z target.old }
{
    if target.len() != 40 {
        return Err(Refusal::Length.into());
    }
    if !listed::records_fit(0, 11, bytes.len()) {
        return Err(Refusal::Records.into());
    }
    if !closes(closing.kind) {
        return Err(Refusal::Records.into());
    }
    if !turning::ready(st) {
        return Err(Refusal::State.into());
    }
    blocks::told(st.edition, edition)?;
    let before = listed::run_records(turning::open(st, edition), bytes)?;
    let place = (bytes.len() / 40) as u8;
    let record = close(before, closing).map_err(|row| Refused::at(row, place))?;
    target.copy_from_slice(&record);
    Ok(())
}
