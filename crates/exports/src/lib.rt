// The library for hosts in other languages: each public function with the machine's way of calling. A slice is a pointer and a length, an answer is numbers.
#![tactic(auto)]

ghost use Rattle.std.specs.Prelude.{◌≡◌, length};
ghost use Rattle.stages.specs.Outcome.{work_out};
ghost use Rattle.api.specs.Answered.{Answered, answer_in};
ghost use Rattle.api.specs.Answers.{report_of};
ghost use Rattle.api.specs.Parts.{part_report_of};
ghost use Rattle.stages.specs.Answered.{stages_answer_for, StagesAnswered};
ghost use Rattle.wishes.specs.Outcome.{write_wishes, read_wishes};
ghost use Rattle.wishes.specs.Answered.{wishes_answer_for, WriteAnswered, ReadAnswered};

use api::{PartReport, Report, StudentState};

// A case and a book are answered (`engine::place`): five numbers.
#[unsafe(no_mangle)]
pub extern "C" fn lgs_place(
    case: &[u8],
    book: &[u8],
    places: &mut [u16],
    visits: &mut [u16],
    seats: &mut [u16],
    index: &mut [u16],
    states: &mut [StudentState],
) -> Report
    ensures value { result ≡ report_of (answer_in case.now book.now places.old visits.old seats.old index.old
        states.old) }
    ensures answered { Answered case.now book.now places.old visits.old seats.old index.old
        states.old
        (answer_in case.now book.now places.old visits.old seats.old index.old
        states.old)
        places.new visits.new seats.new index.new states.new }
{
    Report::from(engine::place(case, book, places, visits, seats, index, states))
}

// The stages of a case are worked out (`stages::stages`): three numbers.
#[unsafe(no_mangle)]
pub extern "C" fn lgs_stages(case: &[u8], stages: &mut [u16]) -> PartReport
    ensures value { result ≡ part_report_of (stages_answer_for (work_out case.now (length stages.old))) }
    ensures stages_answered { StagesAnswered case.now stages.old
        (stages_answer_for (work_out case.now (length stages.old))) stages.new }
{
    PartReport::from(stages::stages(case, &mut *stages))
}

// The wish lines of a case are written (`wishes::write_wishes`): three numbers.
#[unsafe(no_mangle)]
pub extern "C" fn lgs_write_wishes(case: &[u8], text: &mut [u8]) -> PartReport
    ensures value { result ≡ part_report_of (wishes_answer_for (write_wishes case.now (length text.old))) }
    ensures write_answered { WriteAnswered case.now text.old
        (wishes_answer_for (write_wishes case.now (length text.old))) text.new }
{
    PartReport::from(wishes::write_wishes(case, &mut *text))
}

// Wish lines are read into a copy of the case (`wishes::read_wishes`): three numbers.
#[unsafe(no_mangle)]
pub extern "C" fn lgs_read_wishes(case: &[u8], text: &[u8], copy: &mut [u8]) -> PartReport
    ensures value { result ≡ part_report_of (wishes_answer_for (read_wishes case.now text.now (length copy.old))) }
    ensures read_answered { ReadAnswered case.now text.now copy.old
        (wishes_answer_for (read_wishes case.now text.now (length copy.old))) copy.new }
{
    PartReport::from(wishes::read_wishes(case, text, &mut *copy))
}
