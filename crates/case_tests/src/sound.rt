// Causes 2, 3 and 5 of the students and the workshops, in one pass.
ghost use Rattle.std.specs.Prelude.{◌≡◌, true, false, ◌≤◌, ◌<◌};
ghost use Rattle.format.specs.Layout.{row_at, row_count};
ghost use Rattle.case_tests.specs.Order.{Counted, Passes, Heads};

use super::order::{Tally, out_of_order};
use super::scans::{bad_form, bad_range};

// Record i is a student or a workshop that passes.
fn is_sound_head(case: &[u8], i: usize, before: Tally) -> bool
    requires i_bound { i < row_count case.now }
    requires counted { Counted case.now i before.students before.workshops }
    ensures passes { result ≡ true → Passes case.now i × ((row_at case.now i).kind < 3) }
    ensures bound { result ≡ false → Passes case.now i → 3 ≤ (row_at case.now i).kind }
{
    records::row_at(case, i).kind < 3
        && !bad_form(case, i)
        && !out_of_order(case, i, before)
        && !bad_range(case, i)
}

// How many students and workshops pass from the front on, up to the first other record.
pub fn heads(case: &[u8]) -> Tally
    ensures { Heads case.now result }
{
    let mut tally = Tally {
        students: 0,
        workshops: 0,
    };
    for i in 0..records::row_count(case.len()) {
        if !is_sound_head(case, i, tally) {
            break;
        }
        tally = tally.with(records::row_at(case, i).kind);
    }
    tally
}
