// What stands around the turns: testing the input and making the scratch ready, a student's place, and the answer.
#![tactic(auto)]

ghost use Rattle.std.specs.Prelude.{◌≡◌, ◌<◌, length, set, replicate};
ghost use Rattle.answering.specs.Finish.{to_place, answer_end};
ghost use Rattle.answering.specs.Call.{TestedInput};
ghost use Rattle.api.specs.Answered.{room_of};
ghost use Rattle.tables.specs.Table.{Blank};

use api::{Answer, Refusal, StudentState};
use case_tests::Counts;
use intake::Room;
use model::Run;

// Tests the input, cause by cause, and makes the scratch ready for the run: the seats are zero, and the index is that of the book's records, or zero on a
// refusal. The table becomes that of the case, with the links of the stages, unless the input is refused.
pub fn test(
    case: &[u8],
    book: &[u8],
    places: usize,
    visits: usize,
    seats: &mut [u16],
    index: &mut [u16],
    states: usize,
    table: &mut [u64],
) -> Result<Counts, Refusal>
    requires { Blank table.old }
    ensures { TestedInput case.now book.now
        (room_of places visits (length seats.old) (length index.old) states) result
        seats.new index.new table.new }
{
    let room = Room {
        places,
        visits,
        seats: seats.len(),
        index: index.len(),
        states,
    };
    seats.fill(0);
    let counts = intake::check(case, book, room, index, &mut *table)?;
    tables::link(case, counts.students, table);
    Ok(counts)
}

// How many of the students have a place to be read: all where the run has placed everybody, and else none.
pub fn to_place(r: Run, students: usize) -> usize
    ensures { result ≡ to_place r students }
{
    if r.workshop == 0 {
        return students;
    }
    0
}

// The place of a student is the workshop that her state holds.
pub fn put_place(places: &mut [u16], i: usize, state: StudentState)
    requires { (i < length places.old) × (state.held < 65536) }
    ensures { places.new ≡ set places.old i state.held }
{
    places[i] = state.held as u16;
}

// The answer of a run: a missing interview, or the placement.
fn answer_of(r: Run) -> Answer
    ensures { result ≡ answer_end r }
{
    let workshop = r.workshop;
    let visits = r.count;
    let fares = r.fares;
    if workshop > 0 {
        return Answer::Next {
            student: r.student,
            workshop,
            visits,
            fares,
        };
    }
    Answer::Placed { visits, fares }
}

// After the run: zeros over the seats, and the answer.
pub fn finish(seats: &mut [u16], r: Run) -> Answer
    ensures value { result ≡ answer_end r }
    ensures seats_after { seats.new ≡ replicate (length seats.old) 0 }
{
    seats.fill(0);
    answer_of(r)
}
