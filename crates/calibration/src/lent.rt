// The figures of a lent list of pairs (paper 01, 'Where input is stopped').
ghost use Rattle.std.specs.Prelude.{◌≡◌};
ghost use Rattle.calibration.specs.Outcomes.{fitted};
ghost use Rattle.calibration.specs.LentList.{fit_list_of};

use crate::fitting::{Figures, fit};
use crate::pairs::{Basis, Pair};
use crate::ranges::{all_ranged, requirements_ranged, z_ranged};
use refusals::Refusal;

// The calibration's outcome, from a lent list of pairs of any length: the edition, the ranges, the count, then the fit. Pairs and basis come side by side, as for `fit`.
pub fn fit_list(pairs: &[Pair], b: Basis, z: i32) -> Result<Figures, Refusal>
    ensures { fitted result ≡ fit_list_of b z pairs.now }
{
    if !charts::edition_known(b.edition) {
        return Err(Refusal::Header);
    }
    let ranged = requirements_ranged(b.requirements) & z_ranged(z) & all_ranged(pairs);
    if !ranged {
        return Err(Refusal::Range);
    }
    if 30 < pairs.len() {
        return Err(Refusal::Count);
    }
    fit(pairs, b, z)
}
