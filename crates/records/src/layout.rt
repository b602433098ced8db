// Kind, mark and stray bytes of a record.
ghost use Rattle.std.specs.Prelude.{◌≡◌, ◌&&◌, ◌≤◌, leb};
ghost use Rattle.records.specs.Record.{formed_of, plain_of};

use crate::bytes;

// A mark of at most `marks`, bytes 2 and 3 zero, and every byte from `end` on.
#[tactic(auto, unfolding(crate::specs::Record::plain_of, crate::specs::Record::mark))]
fn plain(r: &[u8; 40], marks: u8, end: usize) -> bool
    requires { end ≤ 40 }
    ensures { result ≡ plain_of marks end r.now }
{
    (r[1] <= marks) & (r[2] == 0) & ((r[3] == 0) & bytes::all_zero(r, end, 40))
}

#[tactic(auto, unfolding(crate::specs::Record::formed_of, crate::specs::Record::kind, crate::specs::Record::mark_limit, crate::specs::Record::fields_end))]
pub fn formed(r: &[u8; 40]) -> bool
    ensures { result ≡ formed_of r.now }
{
    // The kind stays a byte, matched with ranges: a rule of the project.
    match r[0] {
        1 => plain(r, 0, 32),
        2 => plain(r, 1, 16),
        3 => plain(r, 1, 8),
        4 => plain(r, 0, 40),
        5 => plain(r, 1, 32),
        6 => plain(r, 3, 12),
        7 => plain(r, 1, 28),
        8 => plain(r, 0, 8),
        0 => false,
        9..=255 => false,
    }
}
