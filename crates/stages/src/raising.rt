// One workshop: what it asks of the students who matter to it, and those raised to that. `own` has each student's stage so far.
ghost use Rattle.std.specs.Prelude.{◌≡◌, ℕ, ◌≤◌, ◌<◌, length, get_or, replicate};
ghost use Rattle.base.specs.Lists.{count};
ghost use Rattle.lgs.specs.Stages.{stage_of};
ghost use Rattle.format.specs.Engine.{market_in};
ghost use Rattle.stages.specs.Raising.{tier_for, stands_for, Enough, Capped, Noted, Climbed, Lifted, Fit, Raised};

use super::input::Input;

// What workshop w has of each student, in lists of zeros: her tier, and the largest stage in each tier. How many tiers there are, and students in none. The
// lists are the caller's: handed back they would be on the stack twice (docs/BUFFERS.md).
fn note_tops(
    input: &Input<'_>,
    w: usize,
    own: &[u16],
    tiers: &mut [u16; 512],
    tops: &mut [u16; 514],
) -> usize
    requires le_w { (1 ≤ w) × (w ≤ input.now.workshops) }
    requires fit { Fit (market_in input.now.table.case.now) own.now }
    requires blank { (tiers.old ≡ replicate 512 0) × (tops.old ≡ replicate 514 0) }
    ensures value { result ≡ count (stands_for (tier_for (market_in input.now.table.case.now) w)) input.now.students }
    ensures noted { Noted (tier_for (market_in input.now.table.case.now) w) (stage_of own.now) input.now.students tiers.new tops.new }
{
    let reach = input.reach_of(w);
    let mut kinds = 0;
    for s in 0..input.students {
        let tier = input.tier_of(w, reach, s + 1);
        let at = usize::from(tier);
        if tier == 0 || tops[at] == 0 {
            kinds += 1;
        }
        tiers[s] = tier;
        tops[at] = tops[at].max(own[s]);
    }
    kinds
}

// Each tier that has students gets a later stage than those before it. The largest.
fn climb(tops: &mut [u16; 514]) -> u16
    requires { Capped tops.old }
    ensures { Climbed tops.old tops.new result }
{
    let mut best = 0;
    for g in 1..514 {
        if tops[g] != 0 {
            best = tops[g].max(best + 1);
            tops[g] = best;
        }
    }
    tops[0] = 0;
    best
}

// Each student is raised to what her tier asks. The workshops of those raised.
fn lift(input: &Input<'_>, tiers: &[u16; 512], needs: &[u16; 514], own: &mut [u16; 512]) -> u64
    requires { (k : ℕ) → k < input.now.students → get_or tiers.now k 0 ≤ 513 }
    ensures { Lifted (market_in input.now.table.case.now) tiers.now needs.now input.now.students own.old own.new result }
{
    let mut moved = 0;
    for s in 0..input.students {
        let need = needs[usize::from(tiers[s])];
        if own[s] < need {
            own[s] = need;
            moved = bits::union(moved, input.table.set_of(s + 1));
        }
    }
    moved
}

// The workshops of those raised, the largest stage of those who matter to the workshop, and how many stages there can be in all.
#[derive(Clone, Copy)]
pub struct Upshot {
    pub moved: u64,
    pub top: u16,
    pub kinds: usize,
}

// The students are raised to what workshop w asks.
pub fn raise(input: &Input<'_>, w: usize, own: &mut [u16; 512]) -> Upshot
    requires le_w { (1 ≤ w) × (w ≤ input.now.workshops) }
    requires fit { Fit (market_in input.now.table.case.now) own.old }
    ensures raised { Raised (market_in input.now.table.case.now) w input.now.students own.old own.new result.moved result.top }
    ensures enough { Enough (market_in input.now.table.case.now) result.kinds }
{
    let mut tiers = [0u16; 512];
    let mut tops = [0u16; 514];
    let kinds = note_tops(input, w, &own[..], &mut tiers, &mut tops);
    let top = climb(&mut tops);
    let moved = lift(input, &tiers, &tops, &mut *own);
    Upshot { moved, top, kinds }
}
