// Causes 1 to 5 and 13, which look at the case alone.
#![tactic(auto)]

ghost use Rattle.std.specs.Prelude.{◌≡◌, ◌||◌, ◌%◌, length, None};
ghost use Rattle.format.specs.Refusals.{not_within};
ghost use Rattle.tables.specs.Table.{Blank, Made};
ghost use Rattle.case_tests.specs.Checked.{checked_of, case_refusal, CleanCase};

use api::{Cause, Refusal};

mod lots;
mod order;
mod pairs;
mod scans;
mod sound;

// How many students, workshops and pairs a case has.
// Beside `Tally` it has the pairs, which are known only at the end.
#[derive(Clone, Copy, Debug, PartialEq, Eq)]
pub struct Counts {
    pub students: usize,
    pub workshops: usize,
    pub pairs: usize,
}

// 4: no student, over 512, no workshop, over 64.
fn bad_counts(students: usize, workshops: usize) -> bool
    ensures { result ≡ (not_within 1 512 students || not_within 1 64 workshops) }
{
    !(1..=512).contains(&students) || !(1..=64).contains(&workshops)
}

// Cause 13 of a case in which those before it find nothing, and else its counts.
fn counted(case: &[u8], students: usize, workshops: usize) -> Result<Counts, Refusal>
    requires case_len { length case.now % 16 ≡ 0 }
    requires clean_case { CleanCase case.now students workshops }
    ensures { result ≡ checked_of (case_refusal case.now) case.now }
{
    if let Some(lot) = lots::first_bad_lot(case, students) {
        return Err(Cause::Lot.at(lot));
    }
    Ok(Counts {
        students,
        workshops,
        pairs: records::row_count(case.len()) - students - workshops,
    })
}

// Causes 2 to 5 and 13, each over all records before the next.
fn check_each(case: &[u8]) -> Result<Counts, Refusal>
    requires { length case.now % 16 ≡ 0 }
    ensures { result ≡ checked_of (case_refusal case.now) case.now }
{
    let rows = records::row_count(case.len());
    if let Some(form) = (0..rows).find(|i| scans::bad_form(case, *i)) {
        return Err(Cause::RecordForm.at(form));
    }
    let tally = order::tally_in_order(case)?;
    if bad_counts(tally.students, tally.workshops) {
        return Err(Cause::Counts.at(0));
    }
    if let Some(range) = (0..rows).find(|i| scans::bad_range(case, *i)) {
        return Err(Cause::Range.at(range));
    }
    counted(case, tally.students, tally.workshops)
}

// Causes 1 to 5 and 13, and the table of the case where they find nothing. One pass tells whether 2 to 5 do; where they do each looks for its first record.
pub fn check_case(case: &[u8], table: &mut [u64]) -> Result<Counts, Refusal>
    requires { Blank table.old }
    ensures value { result ≡ checked_of (case_refusal case.now) case.now }
    ensures made { case_refusal case.now ≡ None → Made case.now table.new }
{
    if case.len() % 16 != 0 {
        return Err(Cause::CaseLength.at(0));
    }
    let heads = sound::heads(case);
    let students = heads.students;
    let workshops = heads.workshops;
    if bad_counts(students, workshops) {
        return check_each(case);
    }
    if pairs::note_pairs(case, heads, &mut *table).is_some() {
        return check_each(case);
    }
    tables::note_starts(case, students, workshops, &mut *table);
    counted(case, students, workshops)
}
