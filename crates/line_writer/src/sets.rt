// The workshops of a student, by tier.
ghost use Rattle.std.specs.Prelude.{◌≡◌, ◌≤◌, None};
ghost use Rattle.format.specs.Engine.{market_in};
ghost use Rattle.case_tests.specs.Checked.{case_refusal};
ghost use Rattle.line_writer.specs.Groups.{Empty, EmptyAbove, Gathered};

use tables::Table;

// Entry t of `sets` gets the workshops of student s's tier t, from the records of her pairs. Her largest tier, or 0 without pairs: 0 is below every tier.
pub fn gather(table: &Table<'_>, s: usize, sets: &mut [u64]) -> usize
    requires case_value { case_refusal table.now.case.now ≡ None }
    requires le_s { (1 ≤ s) × (s ≤ (market_in table.now.case.now).students) }
    requires empty { Empty sets.old }
    ensures gathered { Gathered (market_in table.now.case.now) s sets.new }
    ensures upper_bound { (result ≤ 65) × EmptyAbove result sets.new }
{
    let mut last: usize = 0;
    for pair in table.pairs_of(s) {
        let row = records::row_at(table.case, pair);
        let tier = usize::from(row.third);
        sets[tier] = bits::with_bit(sets[tier], usize::from(row.second));
        last = last.max(tier);
    }
    last
}
