// The pairs, student by student: causes 2, 3 and 5 of them, and their part of the table, in one pass.
ghost use Rattle.std.specs.Prelude.{◌≡◌, true, ℕ, ◌+◌, ◌≤◌, ◌<◌};
ghost use Rattle.format.specs.Layout.{row_count};
ghost use Rattle.tables.specs.Table.{Blank, student_in, workshop_in};
ghost use Rattle.case_tests.specs.Order.{Heads};
ghost use Rattle.case_tests.specs.Pairs.{NextPair, Trail, Piled, Sifted};

use super::order::Tally;
use super::scans::{bad_form, bad_range};

// Record i is a pair of student s with a workshop above `last` that passes.
fn is_next(case: &[u8], i: usize, s: usize, last: u16, workshops: usize) -> bool
    requires { i < row_count case.now }
    ensures next_pair { result ≡ true → NextPair case.now i s last workshops }
    ensures value { NextPair case.now i s last workshops → result ≡ true }
{
    let first = usize::from(records::row_at(case, i).first);
    let second = records::row_at(case, i).second;
    records::row_at(case, i).kind == 3
        && first == s
        && last < second
        && usize::from(second) <= workshops
        && !bad_form(case, i)
        && !bad_range(case, i)
}

// The workshops of one student's pairs, and the record after the last of them.
#[derive(Clone, Copy)]
struct Pile {
    set: u64,
    end: usize,
}

// The pairs of student s that pass, from record `from` on.
fn take_pile(case: &[u8], from: usize, s: usize, workshops: usize) -> Pile
    requires { (from ≤ row_count case.now) × (1 ≤ s) × (workshops ≤ 64) }
    ensures piled { Piled (student_in case.now) (workshop_in case.now) from s result.set result.end }
    ensures by_index { (n : ℕ) → s ≤ n → Trail case.now n workshops from s 0 → Trail case.now n workshops result.end (s + 1) 0 }
{
    let rows = records::row_count(case.len());
    let mut set = 0;
    // 0 is below every workshop, so that the first pair is no case of its own.
    let mut last = 0;
    for i in from..rows {
        if !is_next(case, i, s, last, workshops) {
            return Pile { set, end: i };
        }
        last = records::row_at(case, i).second;
        set = bits::with_bit(set, usize::from(last));
    }
    Pile { set, end: rows }
}

// The first record after the heads that does not pass; and the table has the pairs before it, or all.
pub fn note_pairs(case: &[u8], heads: Tally, table: &mut [u64]) -> Option<usize>
    requires heads { Heads case.now heads }
    requires students_bound { (heads.students ≤ 512) × (heads.workshops ≤ 64) }
    requires blank { Blank table.old }
    ensures { Sifted case.now heads result table.new }
{
    let mut at = heads.students + heads.workshops;
    for s in 0..heads.students {
        let own = take_pile(case, at, s + 1, heads.workshops);
        table[512 + s] = at as u64;
        table[s] = own.set;
        at = own.end;
    }
    (at < records::row_count(case.len())).then_some(at)
}
