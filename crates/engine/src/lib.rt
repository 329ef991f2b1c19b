// The engine: a case and a book are answered in lent memory. The functions here go over the students' states: they take one state out of the lent slice,
// call what works on values and plain slices, and put the result back.
#![tactic(auto)]

ghost use Rattle.std.specs.Prelude.{◌≡◌, length, replicate};
ghost use Rattle.format.specs.Engine.{market_in, results_in};
ghost use Rattle.api.specs.Answered.{zero_state, Answered};
ghost use Rattle.lookup.specs.Given.{market_of, results_of};
ghost use Rattle.answering.specs.Call.{Runnable, Ran};
ghost use Rattle.engine.specs.Runs.{turn_on, whole_run, CanTurn, CanRun};
ghost use Rattle.answering.specs.Finish.{places_held, CanRead};

use api::{Answer, Refusal, StudentState};
use lookup::Input;
use model::Run;

// The state of a student who has not been in hand.
const ZERO: StudentState = StudentState {
    reached: 0,
    held: 0,
    openings: 0,
};

// One turn: the state of the student in hand is read, and stored as the turn leaves it. The run after the turn.
fn take_turn(
    input: &Input<'_>,
    visits: &mut [u16],
    seats: &mut [u16],
    states: &mut [StudentState],
    run: Run,
) -> Run
    requires { CanTurn (market_of input.now) (results_of input.now) visits.old seats.old states.old run }
    ensures { (visits.new, (seats.new, (states.new, result)))
        ≡ turn_on (market_of input.now) (results_of input.now) (visits.old, (seats.old, (states.old, run))) }
{
    let at = run.hand - 1;
    let t = turning::turn(input, visits, seats, states[at], run);
    states[at] = t.state;
    t.run
}

// Turns are taken until no student is in hand.
fn run_all(
    input: &Input<'_>,
    visits: &mut [u16],
    seats: &mut [u16],
    states: &mut [StudentState],
    start: Run,
) -> Run
    requires { CanRun (market_of input.now) (results_of input.now) visits.old seats.old states.old start }
    ensures { (visits.new, (seats.new, (states.new, result))) ≡ whole_run (market_of input.now) (results_of input.now) visits.old seats.old states.old start }
{
    let mut r = start;
    // No range counts the turns: they end when nobody is in hand.
    while r.hand > 0 {
        r = take_turn(input, &mut *visits, &mut *seats, &mut *states, r);
    }
    r
}

// The places of students 1 to n: the workshops that their states hold.
fn read_places(states: &[StudentState], places: &mut [u16], n: usize)
    requires { CanRead states.now places.old n }
    ensures { places.new ≡ places_held n states.now places.old }
{
    // By place: of what a chunk or an adapter of `iter_mut` lends a proof knows nothing afterwards.
    for i in 0..n {
        answering::put_place(&mut *places, i, states[i]);
    }
}

// The run over input that was tested: the answer of the staged rule, with the places and the visits in their buffers. Seats and states are zero before
// and after.
fn run(
    input: &Input<'_>,
    places: &mut [u16],
    visits: &mut [u16],
    seats: &mut [u16],
    states: &mut [StudentState],
) -> Answer
    requires runnable { Runnable input.now.table.case.now input.now.book.now input.now.index.now places.old visits.old seats.old (length states.old) }
    requires blank { states.old ≡ replicate (length states.old) zero_state }
    ensures ran { Ran input.now.table.case.now input.now.book.now places.old visits.old seats.old result places.new visits.new seats.new }
    ensures blank { states.new ≡ replicate (length states.old) zero_state }
{
    let start = turning::begin_run(input.table.case, input.table.words);
    let r = run_all(input, visits, &mut *seats, &mut *states, start);
    let n = answering::to_place(r, input.students);
    read_places(states, places, n);
    states.fill(ZERO);
    answering::finish(seats, r)
}

// The same with the states of 512 students made here, for callers that lend none.
pub fn run_alone(
    input: &Input<'_>,
    places: &mut [u16],
    visits: &mut [u16],
    seats: &mut [u16],
) -> Answer
    requires { Runnable input.now.table.case.now input.now.book.now input.now.index.now places.old visits.old seats.old 512 }
    ensures { Ran input.now.table.case.now input.now.book.now places.old visits.old seats.old result places.new visits.new seats.new }
{
    let mut states = [ZERO; 512];
    run(input, places, visits, seats, &mut states)
}

// A case and a book are answered: placements go to `places`, interviews to `visits`. All else that is lent is scratch, and left zero.
pub fn place(
    case: &[u8],
    book: &[u8],
    places: &mut [u16],
    visits: &mut [u16],
    seats: &mut [u16],
    index: &mut [u16],
    states: &mut [StudentState],
) -> Result<Answer, Refusal>
    ensures { Answered case.now book.now places.old visits.old seats.old index.old states.old result
        places.new visits.new seats.new index.new states.new }
{
    states.fill(ZERO);
    let mut words = [0u64; 1089];
    let counts = answering::test(
        case,
        book,
        places.len(),
        visits.len(),
        &mut *seats,
        &mut *index,
        states.len(),
        &mut words,
    )?;
    let input = Input::new(
        case,
        &words,
        book,
        &*index,
        counts.students,
        counts.workshops,
    );
    let answer = run(&input, places, visits, seats, states);
    index.fill(0);
    Ok(answer)
}
