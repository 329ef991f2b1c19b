// What the run reads from the case, the book, the index of the pairs and the table of the case: a student's, a workshop's and a pair's fields, and the scores.
#![tactic(auto)]

ghost use Rattle.std.specs.Prelude.{◌≡◌, ◌+◌, ◌-◌, ◌≤◌, ◌<◌, length, get_or};
ghost use Rattle.base.specs.Words.{biased};
ghost use Rattle.lgs.specs.Market.{student_outside, workshop_outside};
ghost use Rattle.format.specs.Layout.{row_at, row_count, ends_in_never};
ghost use Rattle.format.specs.Engine.{market_in, results_in};
ghost use Rattle.records.specs.Records.{pair_place, entry_of};
ghost use Rattle.model.specs.Ready.{Booked};
ghost use Rattle.lookup.specs.Clean.{StudentAt, WorkshopAt, Clean, entry_in};

use records::Entry;
use tables::Table;

// ---- a student's and a workshop's own record (a function for each name of the rule, whose clause names its field; each asks less than an `Input` says)

pub fn stage_of(case: &[u8], s: usize) -> u16
    requires { StudentAt case.now s }
    ensures { result ≡ (market_in case.now).stage s }
{
    records::row_at(case, s - 1).second
}

pub fn lot_of(case: &[u8], s: usize) -> u16
    requires { StudentAt case.now s }
    ensures { result ≡ (market_in case.now).lot s }
{
    records::row_at(case, s - 1).fourth
}

pub fn student_outside(case: &[u8], s: usize) -> u16
    requires { StudentAt case.now s }
    ensures { result ≡ student_outside (market_in case.now) s }
{
    records::row_at(case, s - 1).third
}

pub fn quota_of(case: &[u8], students: usize, w: usize) -> u16
    requires { WorkshopAt case.now students w }
    ensures { result ≡ (market_in case.now).quota w }
{
    records::row_at(case, students + w - 1).second
}

pub fn workshop_outside(case: &[u8], students: usize, w: usize) -> u16
    requires { WorkshopAt case.now students w }
    ensures { result ≡ workshop_outside (market_in case.now) w }
{
    records::row_at(case, students + w - 1).third
}

// ---- a pair's record

// The student's tier for the workshop, from the pair's record.
pub fn student_tier(case: &[u8], pair: usize) -> u16
    requires { pair < row_count case.now }
    ensures { result ≡ (row_at case.now pair).third }
{
    records::row_at(case, pair).third
}

// The workshop's tier for the student, from the pair's record.
pub fn workshop_tier(case: &[u8], pair: usize) -> u16
    requires { pair < row_count case.now }
    ensures { result ≡ (row_at case.now pair).fourth }
{
    records::row_at(case, pair).fourth
}

// What a visit of the pair costs, from its record.
pub fn fare_of(case: &[u8], pair: usize) -> u16
    requires { pair < row_count case.now }
    ensures { result ≡ (row_at case.now pair).fifth }
{
    records::row_at(case, pair).fifth
}

// ---- the interview of a pair

// The interview ended in never.
pub fn ended_in_never(entry: Entry) -> bool
    ensures { result ≡ ends_in_never (entry_of entry) }
{
    records::is_never(entry.student_score) || records::is_never(entry.workshop_score)
}

// The number of the book record of a pair's interview, where it was held: `first` is the number of the first pair's record.
pub fn entry_of(index: &[u16], first: usize, pair: usize) -> Option<usize>
    requires { (first ≤ pair) × (pair - first < length index.now) }
    ensures { result ≡ entry_in (get_or index.now (pair - first) 0) }
{
    usize::from(index[pair - first]).checked_sub(1)
}

// Where student s stands at workshop w: its tier for her, and the score that it gave her.
#[derive(Clone, Copy)]
pub struct Standing {
    pub tier: u16,
    pub score: i16,
}

// What a run is given, in which no cause finds anything: a case and its table, a book, the index of the pairs, and how many students and workshops there are.
#[derive(Clone, Copy)]
pub struct Input<'a> {
    pub table: Table<'a>,
    pub book: &'a [u8],
    pub index: &'a [u16],
    pub students: usize,
    pub workshops: usize,
    ghost clean: { Clean table.case.now book.now index.now table.words.now students workshops },
}

impl<'a> Input<'a> {
    ghost use Rattle.lookup.specs.Given.{market_of, results_of};

    // Six parameters: here alone the fact of the type is shown from its parts.
    // From its parts: `words` is the table of the case.
    pub fn new(
        case: &'a [u8],
        words: &'a [u64],
        book: &'a [u8],
        index: &'a [u16],
        students: usize,
        workshops: usize,
    ) -> Input<'a>
        requires { Clean case.now book.now index.now words.now students workshops }
        ensures case_kept { result.table.case.now ≡ case.now }
        ensures words_kept { result.table.words.now ≡ words.now }
        ensures book_kept { result.book.now ≡ book.now }
        ensures index_kept { result.index.now ≡ index.now }
        ensures counts_kept { (result.students ≡ students) × (result.workshops ≡ workshops) }
    {
        let table = Table { case, words };
        Input {
            table,
            book,
            index,
            students,
            workshops,
        }
    }

    // The interview of student s and workshop w; `pair` is the number of their pair's record.
    fn interview(&self, s: usize, w: usize, pair: usize) -> Entry
        requires { Booked (market_of self.now) (results_of self.now) s w × (pair ≡ pair_place self.now.table.case.now s w) }
        ensures student { biased result.student_score ≡ (results_of self.now).student_score s w }
        ensures workshop { biased result.workshop_score ≡ (results_of self.now).workshop_score w s }
    {
        let entry = entry_of(self.index, self.students + self.workshops, pair).unwrap();
        records::entry_at(self.book, entry)
    }

    // The score that student s gave workshop w in their interview; `pair` is the number of their pair's record.
    pub fn student_score_by(&self, s: usize, w: usize, pair: usize) -> i16
        requires { Booked (market_of self.now) (results_of self.now) s w × (pair ≡ pair_place self.now.table.case.now s w) }
        ensures { biased result ≡ (results_of self.now).student_score s w }
    {
        self.interview(s, w, pair).student_score
    }

    // The same, by the table.
    pub fn student_score_of(&self, s: usize, w: usize) -> i16
        requires { Booked (market_of self.now) (results_of self.now) s w }
        ensures { biased result ≡ (results_of self.now).student_score s w }
    {
        self.student_score_by(s, w, self.table.pair_at(s, w))
    }

    pub fn standing_of(&self, s: usize, w: usize) -> Standing
        requires { Booked (market_of self.now) (results_of self.now) s w }
        ensures tier_value { result.tier ≡ (market_of self.now).workshop_tier w s }
        ensures score_value { biased result.score ≡ (results_of self.now).workshop_score w s }
    {
        let pair = self.table.pair_at(s, w);
        Standing {
            tier: workshop_tier(self.table.case, pair),
            score: self.interview(s, w, pair).workshop_score,
        }
    }
}
