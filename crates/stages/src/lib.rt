// Works out the stages of a case: for each student the least that agrees with every workshop, or a refusal.
#![tactic(auto)]

ghost use Rattle.std.specs.Prelude.{◌≡◌, ◌≤◌, length, None};
ghost use Rattle.stages.specs.Outcome.{work_out, stages_after};
ghost use Rattle.stages.specs.Answered.{stages_answer_for, StagesAnswered};
ghost use Rattle.case_tests.specs.Checked.{case_refusal};

use api::{Cause, Refusal};
use case_tests::Counts;
use input::Input;
use tables::Table;

mod input;
mod raising;
mod rounds;

// How many stages there are, in the lent buffer, of a case in which causes 1 to 5, 13 and 6 find nothing, or cause 12.
fn work_out(input: &Input<'_>, stages: &mut [u16]) -> Result<usize, Refusal>
    requires { (case_refusal input.now.table.case.now ≡ None) × (input.now.students ≤ length stages.old) }
    ensures value { result ≡ stages_answer_for (work_out input.now.table.case.now (length stages.old)) }
    ensures stages_after { stages.new ≡ stages_after (work_out input.now.table.case.now (length stages.old)) stages.old }
{
    let students = input.students;
    let mut own = [1u16; 512];
    let Some(()) = rounds::settle(input, &mut own) else {
        return Err(Cause::NoStages.at(0));
    };
    stages[..students].copy_from_slice(&own[..students]);
    Ok(students)
}

// Reads a case, and gives each student's stage in `stages`. The answer is how many there are.
pub fn stages(case: &[u8], stages: &mut [u16]) -> Result<usize, Refusal>
    ensures { StagesAnswered case.now stages.old result stages.new }
{
    let mut words = [0u64; 1089];
    let Counts {
        students,
        workshops,
        ..
    } = case_tests::check_case(case, &mut words)?;
    if stages.len() < students {
        return Err(Cause::Room.at(0));
    }
    let table = Table {
        case,
        words: &words,
    };
    let input = Input {
        table,
        students,
        workshops,
    };
    work_out(&input, &mut *stages)
}
