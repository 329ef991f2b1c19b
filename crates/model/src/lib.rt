// The engine's data; no code. `specs/` has the engine's run as pure functions: on sets and lists (Model), and on the buffers as the code keeps
// them (Turn). `proofs/` shows that both give the answer of the staged rule.
#![tactic(auto)]

use api::StudentState;

// Where a run stands: the student in hand, or 0 when it is over; the last student taken in the order of stages; the workshop that has just
// dropped the student in hand, or 0; the number of interviews held; the student and the workshop of the interview that is missing, or 0; what the
// interviews held have cost.
// 0 is nobody and none, and no Option: `turn_of`, `next_run` and `after_round` (specs/Turn) read these as numbers.
#[derive(Clone, Copy, Default)]
pub struct Run {
    pub hand: usize,
    pub last: usize,
    pub lost: usize,
    pub count: usize,
    pub student: usize,
    pub workshop: usize,
    pub fares: u32,
}

// What a turn gives back.
#[derive(Clone, Copy)]
pub struct Turned {
    pub state: StudentState,
    pub run: Run,
}
