// A table of the pairs, of where the seats start and of the students of a stage, made once for a call: a pair's record is her first pair's plus the count of
// her workshops before it.
#![tactic(auto)]

ghost use Rattle.std.specs.Prelude.{◌≡◌, true, ℕ, ◌+◌, ◌-◌, ◌/◌, ◌%◌, ◌≤◌, ◌<◌, length, eqb};
ghost use Rattle.base.specs.Lists.{count};
ghost use Rattle.base.specs.Bits.{member};
ghost use Rattle.lgs.specs.Market.{seats_before};
ghost use Rattle.format.specs.Engine.{market_in};
ghost use Rattle.records.specs.Records.{pair_place};
ghost use Rattle.tables.specs.Table.{Tabled, Stretch, Standing, Started};
ghost use Rattle.tables.specs.Table.{set_of, first_of, all_of, entry_of, next_of, head_of, Staged, Linked, Holds, Kept};

use std::ops::Range;

// ---- the making (one slice of words, with three numbers in each, and no struct of arrays: it is 10 KB of stack, and `Tabled` speaks of one list)

// The workshops' records: where the seats of each start, and the set of them all. The pairs are noted before, where they are tested (`case_tests`).
pub fn note_starts(case: &[u8], students: usize, workshops: usize, table: &mut [u64])
    requires standing { Standing case.now students workshops }
    requires table_len { length table.old ≡ 1089 }
    ensures { Started case.now table.old table.new (workshops + 1) }
{
    let mut sum = 0;
    let mut all = 0;
    for w in 1..workshops + 1 {
        table[1023 + w] = sum;
        sum += u64::from(records::row_at(case, students + w - 1).second);
        all = bits::with_bit(all, w);
    }
    table[1088] = all;
}

// The entry with another next student.
fn with_next(entry: u64, next: u64) -> u64
    requires { next < 65536 }
    ensures { Holds result (entry % 65536) next (entry / 4294967296) }
{
    entry / 4294967296 * 4294967296 + next * 65536 + entry % 65536
}

// The entry with another first student.
fn with_head(entry: u64, head: u64) -> u64
    requires { head < 65536 }
    ensures { Holds result (entry % 65536) (entry / 65536 % 65536) head }
{
    head * 4294967296 + entry % 4294967296
}

// Each student gets the next one of her stage, and each stage its first student, from the last student on.
pub fn link(case: &[u8], students: usize, table: &mut [u64])
    requires staged { Staged case.now students }
    requires table_len { length table.old ≡ 1089 }
    requires by_index { (s : ℕ) → 1 ≤ s → s ≤ 512 → entry_of table.old s < 65536 }
    ensures linked { Linked case.now table.new students }
    ensures kept { Kept table.old table.new }
{
    for s in (1..students + 1).rev() {
        let stage = usize::from(records::row_at(case, s - 1).second);
        let next = table[511 + stage] / 4294967296;
        table[511 + s] = with_next(table[511 + s], next);
        table[511 + stage] = with_head(table[511 + stage], s as u64);
    }
}

// ---- the reading

// A case and the table of its pairs.
#[derive(Clone, Copy)]
pub struct Table<'a> {
    pub case: &'a [u8],
    pub words: &'a [u64],
    ghost tabled: { Tabled case.now words.now },
}

// Student s has a pair with every workshop. This and the next two ask only how long the table is, less than a `Table` says.
pub fn has_all(table: &[u64], s: usize) -> bool
    requires { (length table.now ≡ 1089) × (1 ≤ s) × (s ≤ 512) }
    ensures { result ≡ eqb (set_of table.now s) (all_of table.now) }
{
    table[s - 1] == table[1088]
}

// The next student of student s's stage, or 0: the table has numbers, and student 0 is nobody.
pub fn next_of(table: &[u64], s: usize) -> usize
    requires { (length table.now ≡ 1089) × (s ≤ 512) }
    ensures { result ≡ next_of table.now s }
{
    (table[511 + s] / 65536 % 65536) as usize
}

// The first student of stage t, or 0, as above.
pub fn head_of(table: &[u64], t: usize) -> usize
    requires { (length table.now ≡ 1089) × (t ≤ 512) }
    ensures { result ≡ head_of table.now t }
{
    (table[511 + t] / 4294967296) as usize
}

// How many members of the set are below w.
fn members_below(set: u64, w: usize) -> usize
    requires { (1 ≤ w) × (w ≤ 64) }
    ensures { (result ≡ count (member set) (w - 1)) × (result ≤ 64) }
{
    (set & ((1u64 << (w - 1)) - 1)).count_ones() as usize
}

impl Table<'_> {
    // Student s and workshop w have a pair.
    pub fn has_pair(&self, s: usize, w: usize) -> bool
        requires { (1 ≤ s) × (s ≤ 512) × (1 ≤ w) × (w ≤ 64) }
        ensures { result ≡ (market_in self.now.case.now).paired s w }
    {
        bits::has_bit(self.words[s - 1], w)
    }

    // The same of any names. Names of nobody have no pair.
    pub fn is_paired(&self, s: usize, w: usize) -> bool
        ensures { result ≡ (market_in self.now.case.now).paired s w }
    {
        if ((s < 1) | (512 < s)) | ((w < 1) | (64 < w)) {
            return false;
        }
        self.has_pair(s, w)
    }

    // The number of the record of student s's first pair.
    fn first_of(&self, s: usize) -> usize
        requires { (1 ≤ s) × (s ≤ 512) }
        ensures { (result ≡ first_of self.now.words.now s) × (result < 65536) }
    {
        (self.words[511 + s] % 65536) as usize
    }

    // The number of the pair's record. A student who has a pair with every workshop has one with all below w.
    pub fn pair_at(&self, s: usize, w: usize) -> usize
        requires { (market_in self.now.case.now).paired s w ≡ true }
        ensures { result ≡ pair_place self.now.case.now s w }
    {
        let first = self.first_of(s);
        if has_all(self.words, s) {
            return first + (w - 1);
        }
        first + members_below(self.words[s - 1], w)
    }

    // The numbers of the records of student s's pairs.
    pub fn pairs_of(&self, s: usize) -> Range<usize>
        requires { (1 ≤ s) × (s ≤ 512) }
        ensures stretch { Stretch self.now.case.now s result.start (result.end - result.start) }
        ensures order { result.start ≤ result.end }
    {
        let first = self.first_of(s);
        first..first + bits::count(self.words[s - 1]) as usize
    }

    // The workshops that student s has pairs with.
    pub fn set_of(&self, s: usize) -> u64
        requires { (1 ≤ s) × (s ≤ 512) }
        ensures value { result ≡ set_of self.now.words.now s }
        ensures by_index { (w : ℕ) → member result w ≡ (market_in self.now.case.now).paired s w }
    {
        self.words[s - 1]
    }

    // Where the seats of workshop w start.
    pub fn start_of(&self, w: usize) -> usize
        requires { (1 ≤ w) × (w ≤ (market_in self.now.case.now).workshops) }
        ensures { result ≡ seats_before (market_in self.now.case.now) w }
    {
        self.words[1023 + w] as usize
    }
}
