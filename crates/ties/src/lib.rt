// Cause 11: a student gave an equal score earlier in the same tier. Student by student, the book records of her interviews are compared by keys, her
// tier and her score in one number; of all records that tie with an earlier one the lowest is kept. Each key has a slot, equal keys the same one. A first
// pass asks whether two of her keys share a slot; where none do she has no tie. Where some do a second pass compares the keys, and a key whose slot was
// not met before with no other. A score of -1000 ties with nothing: its record is passed over.
#![tactic(auto)]

ghost use Rattle.std.specs.Prelude.{◌≡◌, false, ℕ, ◌+◌, ◌-◌, ◌*◌, ◌≤◌, ◌<◌, [], ◌∷◌, ◌++◌, length, get_or};
ghost use Rattle.base.specs.Search.{first_bad};
ghost use Rattle.format.specs.Layout.{rows, row_at, row_count, entries, entry_at, entry_count};
ghost use Rattle.format.specs.Refusals.{bad_tie};
ghost use Rattle.format.specs.Engine.{market_in};
ghost use Rattle.ties.specs.Ties.{Indexed, tested, Lowered, LoweredBy};
ghost use Rattle.ties.specs.Seen.{Marked, slot_of};

use tables::Table;

// ---- keys, and the book records that have them

// A record to compare: its number in the book, from 0, and its key.
#[derive(Clone, Copy)]
struct Keyed {
    key: u32,
    entry: u16,
}

// A key's slot, one of 64 * SPAN. With 64 and 1 the scores of one tier have slots of their own, with 128 and 16 those of four tiers.
fn slot_of<const SPAN: usize, const STEP: usize>(key: u32) -> usize
    requires { (0 < SPAN) × (SPAN ≤ 128) × (STEP ≤ 64) }
    ensures { result ≡ slot_of SPAN STEP key }
{
    let key = key as usize;
    let digit = key / 65536 * STEP + key % 2048 / SPAN;
    key % SPAN * 64 + digit % 64
}

// Lowers `low` to the later of this record and of an earlier one with the same key.
fn lower(earlier: &[Keyed], this: Keyed, low: usize) -> usize
    ensures { LoweredBy earlier.now this low result }
{
    let mut after = low;
    for other in earlier {
        if other.key == this.key {
            after = after.min(usize::from(this.entry.max(other.entry)));
        }
    }
    after
}

// The same. Where the key's slot was not met no earlier record has this key. It is met from now on.
fn lower_if_met(earlier: &[Keyed], this: Keyed, seen: &mut [u64], low: usize) -> usize
    requires { (length seen.old ≡ 64) × Marked (slot_of 64 1) earlier.now seen.old }
    ensures lowered_by { LoweredBy earlier.now this low result }
    ensures marked { Marked (slot_of 64 1) (earlier.now ++ this ∷ []) seen.new }
{
    if bits::met(seen, slot_of::<64, 1>(this.key)) {
        lower(earlier, this, low)
    } else {
        low
    }
}

// ---- a student's interviews from the case, the book and the index

// A case with its table, and a book and its index that are left after cause 10. The case's pair records begin at `from`.
#[derive(Clone, Copy)]
pub struct IndexedBook<'a> {
    pub table: Table<'a>,
    pub book: &'a [u8],
    pub index: &'a [u16],
    pub from: usize,
    ghost indexed: { Indexed table.case.now book.now index.now from },
}

impl IndexedBook<'_> {
    // The book record of this pair record. One with the score -1000 of the student is passed over.
    fn tested_at(&self, pair: usize) -> Option<u16>
        requires { (self.now.from ≤ pair) × (pair - self.now.from < length self.now.index.now)
            × (get_or self.now.index.now (pair - self.now.from) 0 ≤ entry_count self.now.book.now) }
        ensures { result ≡ tested self.now.book.now (get_or self.now.index.now (pair - self.now.from) 0) }
    {
        let i = self.index[pair - self.from].checked_sub(1)?;
        let never = records::is_never(records::entry_at(self.book, usize::from(i)).student_score);
        (!never).then_some(i)
    }

    // The key of book record i, that of this pair record: the tier and the student's score in one number.
    fn key_at(&self, pair: usize, i: usize) -> u32
        requires { (pair < row_count self.now.table.case.now) × (i < entry_count self.now.book.now) }
        ensures { result ≡ (row_at self.now.table.case.now pair).third * 65536 + (entry_at self.now.book.now i).student_score }
    {
        let tier = records::row_at(self.table.case, pair).third;
        let score = records::entry_at(self.book, i).student_score;
        u32::from(tier) * 65536 + u32::from(records::raised(score))
    }

    // Two of student s's book records share a slot, so they may tie. Where none do none tie.
    fn shares(&self, s: usize) -> bool
        requires { (1 ≤ s) × (s ≤ 512) }
        ensures { result ≡ false → (low : ℕ) → Lowered self.now.table.case.now self.now.book.now (λ i j. (entry_at self.now.book.now i).student ≡ s) low low }
    {
        let mut seen = [0u64; 128];
        let own = self.table.pairs_of(s);
        for pair in own {
            let Some(i) = self.tested_at(pair) else {
                continue;
            };
            let key = self.key_at(pair, usize::from(i));
            if bits::met(&mut seen, slot_of::<128, 16>(key)) {
                return true;
            }
        }
        false
    }

    // Lowers `low` by the book records of student s. The records of her pairs stand together.
    fn tie_of(&self, s: usize, low: usize) -> usize
        requires { (1 ≤ s) × (s ≤ 512) }
        ensures { Lowered self.now.table.case.now self.now.book.now (λ i j. (entry_at self.now.book.now i).student ≡ s) low result }
    {
        // The first m are noted: memory is fixed, so an array and a count and no Vec.
        let mut noted = [Keyed { key: 0, entry: 0 }; 64];
        let mut m = 0;
        let mut seen = [0u64; 64];
        let mut after = low;
        let pairs = self.table.pairs_of(s);
        for pair in pairs {
            let Some(entry) = self.tested_at(pair) else {
                continue;
            };
            let key = self.key_at(pair, usize::from(entry));
            let this = Keyed { key, entry };
            after = lower_if_met(&noted[..m], this, &mut seen, after);
            noted[m] = this;
            m += 1;
        }
        after
    }

    // The first record that ties with an earlier one.
    // `end` is above every record, so that the lowest needs no case for none.
    pub fn first_tie(&self, students: usize) -> Option<usize>
        requires { students ≡ (market_in self.now.table.case.now).students }
        ensures { result ≡ first_bad (bad_tie (rows self.now.table.case.now) (entries self.now.book.now)) (entry_count self.now.book.now) }
    {
        let end = records::entry_count(self.book.len());
        let mut low = end;
        for s in 1..=students {
            if self.shares(s) {
                low = self.tie_of(s, low);
            }
        }
        (low < end).then_some(low)
    }
}
