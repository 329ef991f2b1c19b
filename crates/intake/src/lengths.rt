// Cause 6: the lengths that the case needs.
ghost use Rattle.std.specs.Prelude.{◌≡◌, ◌||◌, ◌*◌, ltb};
ghost use Rattle.lgs.specs.Market.{all_seats};
ghost use Rattle.format.specs.Engine.{market_in};
ghost use Rattle.case_tests.specs.Checked.{CleanCase};

use super::Room;
use case_tests::Counts;

// The seats of all workshops, by their quotas, which the workshop records have after the students'.
pub fn seats_needed(case: &[u8], counts: Counts) -> usize
    requires { CleanCase case.now counts.students counts.workshops }
    ensures { result ≡ all_seats (market_in case.now) }
{
    let mut sum = 0;
    for w in 0..counts.workshops {
        sum += usize::from(records::row_at(case, counts.students + w).second);
    }
    sum
}

// A lent buffer is shorter than the case needs.
pub fn lacks(room: Room, counts: Counts, seats: usize) -> bool
    ensures { result ≡ (ltb room.places counts.students
        || (ltb room.visits (2 * counts.pairs)
        || (ltb room.seats seats || (ltb room.index counts.pairs || ltb room.states counts.students)))) }
{
    room.places < counts.students
        || room.visits / 2 < counts.pairs
        || room.seats < seats
        || room.index < counts.pairs
        || room.states < counts.students
}
