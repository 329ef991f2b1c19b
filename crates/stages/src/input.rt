// A case in which the causes find nothing, and the tiers of its students.
ghost use Rattle.std.specs.Prelude.{◌≡◌, ◌≤◌};
ghost use Rattle.format.specs.Engine.{market_in};
ghost use Rattle.stages.specs.Raising.{Ready, tier_for, reach_of};

use tables::Table;

// The case with the table of its pairs, and how many students and workshops it has.
#[derive(Clone, Copy)]
pub struct Input<'a> {
    pub table: Table<'a>,
    pub students: usize,
    pub workshops: usize,
    ghost ready: { Ready table.case.now students workshops },
}

impl Input<'_> {
    // How far the workshop's tiers reach: to its outside tier, and nowhere where it has no seats.
    pub fn reach_of(&self, w: usize) -> u16
        requires { (1 ≤ w) × (w ≤ self.now.workshops) }
        ensures { result ≡ reach_of (market_in self.now.table.case.now) w }
    {
        if lookup::quota_of(self.table.case, self.students, w) == 0 {
            return 0;
        }
        lookup::workshop_outside(self.table.case, self.students, w)
    }

    // The tier in which student s matters to workshop w, whose tiers reach so far. 0 is none, and has a place of its own in the lists by tier: with an Option
    // each reader would branch.
    pub fn tier_of(&self, w: usize, reach: u16, s: usize) -> u16
        requires le_w { ((1 ≤ w) × (w ≤ self.now.workshops)) × ((1 ≤ s) × (s ≤ self.now.students)) }
        requires reach_value { reach ≡ reach_of (market_in self.now.table.case.now) w }
        ensures { (result ≡ tier_for (market_in self.now.table.case.now) w s) × (result ≤ 513) }
    {
        if !self.table.has_pair(s, w) {
            return 0;
        }
        let pair = self.table.pair_at(s, w);
        let tier = lookup::workshop_tier(self.table.case, pair);
        if reach < tier { 0 } else { tier }
    }
}
