// Whether a state is in the range in which its arithmetic fits.
ghost use Rattle.std.specs.Prelude.{◌≡◌};
ghost use Rattle.records.specs.Soundness.{all_sound_of, begun_sound_of, calibration_sound_of, setting_sound_of, sound_of, waiting_sound_of};

use crate::checks::MINUTE_LIMIT;
use crate::state::{Function, Setting, State, Waiting};

#[tactic(auto, unfolding(crate::specs::Soundness::setting_sound_of))]
fn setting_sound(s: Setting) -> bool
    ensures { result ≡ setting_sound_of s }
{
    let q = s.requirements;
    (calibration::requirements_ranged(q) & (s.zero <= 10000))
        & ((s.span <= 10000) & (s.response <= 60))
}

fn begun_sound(begun: bool, s: Setting) -> bool
    ensures { result ≡ begun_sound_of begun s }
{
    !begun || setting_sound(s)
}

#[tactic(auto, unfolding(crate::specs::Soundness::waiting_sound_of))]
fn waiting_sound(w: Waiting) -> bool
    ensures { result ≡ waiting_sound_of w }
{
    let p = w.pair;
    ((w.start <= MINUTE_LIMIT) & (w.end <= MINUTE_LIMIT)) & calibration::pair_ranged(p)
}

fn pairs_sound(pairs: &[Waiting]) -> bool
    ensures { result ≡ all_sound_of pairs.now }
{
    pairs.iter().all(|w| waiting_sound(*w))
}

fn calibration_sound(k: Option<Function>) -> bool
    ensures { result ≡ calibration_sound_of k }
{
    k.is_none_or(|f| calibration::line_ranged(f.line()))
}

// Counts that go record by record are held to `most`. What is tested here stands in the clauses of the functions that need it, and is no ghost field of the
// state: that is public, and a field would ask it of whoever makes one.
#[tactic(auto, unfolding(crate::specs::Soundness::sound_of))]
pub fn sound(most: u32, st: State) -> bool
    ensures { result ≡ sound_of most st }
{
    // Asked first, since the pairs are read to that place.
    if 30 < st.waiting {
        return false;
    }
    ((((st.minute <= MINUTE_LIMIT) & begun_sound(st.begun, st.setting))
        & (st.zero.sound() & st.span.sound()))
        & (((st.waiting <= 30) & pairs_sound(&st.pairs[..st.waiting as usize]))
            & calibration_sound(st.calibration)))
        & (((st.tally.total <= most) & (st.tally.outside <= most)) & (st.over <= most))
}
