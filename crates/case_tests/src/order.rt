// Cause 3: kinds fall, a number out of sequence, pairs not rising, or a pair that names nobody in an earlier record.
ghost use Rattle.std.specs.Prelude.{◌≡◌, false, ◌+◌, ◌^◌, ◌<◌, None, eqb, ltb, ◌&&◌, ◌||◌};
ghost use Rattle.base.specs.Lists.{one};
ghost use Rattle.base.specs.Search.{first_bad};
ghost use Rattle.format.specs.Layout.{rows, row_count};
ghost use Rattle.format.specs.Refusals.{not_within, bad_form, bad_order};
ghost use Rattle.case_tests.specs.Order.{Counted, Ordered};

use api::{Cause, Refusal};
use records::Row;

// How many students and workshops stand among the first records.
#[derive(Clone, Copy)]
pub struct Tally {
    pub students: usize,
    pub workshops: usize,
}

impl Tally {
    // With a record of this kind.
    pub fn with(self, kind: u8) -> Tally
        requires few_students { self.students + 1 < 2 ^ 64 }
        requires few_workshops { self.workshops + 1 < 2 ^ 64 }
        ensures students { result.students ≡ self.students + one (eqb kind 1) }
        ensures workshops { result.workshops ≡ self.workshops + one (eqb kind 2) }
    {
        Tally {
            students: self.students + usize::from(kind == 1),
            workshops: self.workshops + usize::from(kind == 2),
        }
    }
}

// Pair r stands after pair p, by student and then workshop.
fn rises(p: Row, r: Row) -> bool
    ensures { result ≡ (ltb p.first r.first || (eqb p.first r.first && ltb p.second r.second)) }
{
    p.first < r.first || (p.first == r.first && p.second < r.second)
}

// The pair's student or workshop is none of these.
fn names_nobody(r: Row, before: Tally) -> bool
    ensures { result ≡ (not_within 1 before.students r.first || not_within 1 before.workshops r.second) }
{
    !(1..=before.students).contains(&usize::from(r.first))
        || !(1..=before.workshops).contains(&usize::from(r.second))
}

// What the cause tests of record i. Numbers run without gaps so far, so that the counts tell who has a record before it.
pub fn out_of_order(case: &[u8], i: usize, before: Tally) -> bool
    requires i_bound { i < row_count case.now }
    requires counted { Counted case.now i before.students before.workshops }
    requires i_value { bad_form (rows case.now) i ≡ false }
    ensures { result ≡ bad_order (rows case.now) i }
{
    let r = records::row_at(case, i);
    let p = records::row_at(case, i.saturating_sub(1));
    let first = usize::from(r.first);
    match r.kind {
        1 => p.kind > 1 || first != before.students + 1,
        2 => p.kind > 2 || first != before.workshops + 1,
        _ => (p.kind == 3 && !rises(p, r)) || names_nobody(r, before),
    }
}

// The counts of all records, or a refusal for the first record out of order.
pub fn tally_in_order(case: &[u8]) -> Result<Tally, Refusal>
    requires { first_bad (bad_form (rows case.now)) (row_count case.now) ≡ None }
    ensures { Ordered case.now result }
{
    let mut tally = Tally {
        students: 0,
        workshops: 0,
    };
    for i in 0..records::row_count(case.len()) {
        if out_of_order(case, i, tally) {
            return Err(Cause::RecordOrder.at(i));
        }
        tally = tally.with(records::row_at(case, i).kind);
    }
    Ok(tally)
}
