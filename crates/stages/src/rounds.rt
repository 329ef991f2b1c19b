// The workshops in turn, round after round, until nobody is raised. `own` has each student's stage so far.
ghost use Rattle.std.specs.Prelude.{◌≡◌, ◌≤◌, MatchOption, replicate};
ghost use Rattle.lgs.specs.Stages.{NoStages};
ghost use Rattle.format.specs.Engine.{market_in};
ghost use Rattle.stages.specs.Rounds.{starting, turn_of, Going, Stepped, Rounded, Settled};

use super::input::Input;
use super::raising::raise;

// Where a round stands: the workshops whose students agree, whether somebody was raised in it, and how many stages there can be at most.
#[derive(Clone, Copy)]
pub struct Progress {
    pub resting: u64,
    pub moving: bool,
    pub limit: usize,
}

// Workshop w's turn: nothing is done where its students agree already. None where somebody is above the number of stages that there can be.
fn step(input: &Input<'_>, w: usize, own: &mut [u16; 512], p: Progress) -> Option<Progress>
    requires le_w { (1 ≤ w) × (w ≤ input.now.workshops) }
    requires going { Going (market_in input.now.table.case.now) own.old p }
    ensures { MatchOption result (NoStages (market_in input.now.table.case.now))
        (λ q. Going (market_in input.now.table.case.now) own.new q × Stepped (market_in input.now.table.case.now) w own.old own.new p q) }
{
    if bits::has_bit(p.resting, w) {
        return Some(p);
    }
    let r = raise(input, w, &mut *own);
    let limit = p.limit.min(r.kinds);
    if limit < usize::from(r.top) {
        return None;
    }
    Some(Progress {
        resting: bits::with_bit(bits::minus(p.resting, r.moved), w),
        moving: p.moving || r.moved != 0,
        limit,
    })
}

// The workshop that has turn i of a round: rounds go up and down in turn.
fn turn_of(workshops: usize, back: bool, i: usize) -> usize
    requires { (1 ≤ i) × (i ≤ workshops) }
    ensures { result ≡ turn_of workshops back i }
{
    if back { workshops - i + 1 } else { i }
}

// A round: every workshop has its turn. None where no stages agree.
fn round(input: &Input<'_>, own: &mut [u16; 512], last: Progress, back: bool) -> Option<Progress>
    requires { Going (market_in input.now.table.case.now) own.old (starting last) }
    ensures { MatchOption result (NoStages (market_in input.now.table.case.now))
        (λ q. Going (market_in input.now.table.case.now) own.new q × Rounded (market_in input.now.table.case.now) own.old own.new q) }
{
    let mut p = Progress {
        moving: false,
        ..last
    };
    for i in 1..=input.workshops {
        p = step(input, turn_of(input.workshops, back, i), &mut *own, p)?;
    }
    Some(p)
}

// Rounds until nobody is raised, from stage 1 for everybody. None where no stages agree. `own` is lent: an array handed back would be on the stack twice.
pub fn settle(input: &Input<'_>, own: &mut [u16; 512]) -> Option<()>
    requires { own.old ≡ replicate 512 1 }
    ensures { MatchOption result (NoStages (market_in input.now.table.case.now)) (λ done. Settled (market_in input.now.table.case.now) own.new) }
{
    let mut p = Progress {
        resting: 0,
        moving: true,
        limit: input.students,
    };
    let mut back = false;
    // No range counts the rounds: they end when nobody is raised.
    while p.moving {
        p = round(input, &mut *own, p, back)?;
        back = !back;
    }
    Some(())
}
