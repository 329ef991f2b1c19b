// Causes 8 to 10, and the index: for each pair record the number of its book record, from 1.
#![tactic(auto)]

ghost use Rattle.std.specs.Prelude.{◌≡◌, not, ◌||◌, ℕ, ◌+◌, ◌%◌, ◌^◌, ◌≤◌, ◌<◌, length, replicate, Some, Err};
ghost use Rattle.base.specs.Words.{biased};
ghost use Rattle.base.specs.Search.{first_bad, or_end};
ghost use Rattle.format.specs.Layout.{rows, entries, entry_count};
ghost use Rattle.format.specs.Refusals.{bad_score};
ghost use Rattle.format.specs.Engine.{market_in};
ghost use Rattle.case_tests.specs.Checked.{checked_of, pair_count};
ghost use Rattle.book_tests.specs.Index.{Prepared, bad_any, book_refusal, index_after, lent_index};

use api::{Cause, Refusal};
use reader::BookReader;
use records::Entry;
use tables::Table;

// The record's student and workshop have no pair.
fn is_unpaired(table: &Table<'_>, e: Entry) -> bool
    ensures { result ≡ not ((market_in table.now.case.now).paired e.student e.workshop) }
{
    !table.is_paired(usize::from(e.student), usize::from(e.workshop))
}

// A score of the record is 0 or out of range.
fn is_unscored(e: Entry) -> bool
    ensures { result ≡ (bad_score (biased e.student_score) || bad_score (biased e.workshop_score)) }
{
    !records::good_score(e.student_score) || !records::good_score(e.workshop_score)
}

// Each book record leaves its number at its pair's place. The first record that has no pair or a bad score, or whose pair has a number already. One reader
// goes over the book.
pub fn fill(table: &Table<'_>, book: &[u8], from: usize, index: &mut [u16]) -> Option<usize>
    requires prepared { Prepared table.now.case.now from }
    requires case_in_bounds { (pair_count table.now.case.now ≤ length index.old) × (index.old ≡ replicate (length index.old) 0) }
    ensures value { result ≡ first_bad (bad_any (rows table.now.case.now) (entries book.now)) (entry_count book.now) }
    ensures index_after { index.new ≡ lent_index table.now.case.now book.now (or_end (entry_count book.now) result) (length index.old) }
{
    let mut reader = BookReader { book, next: 0 };
    for i in 0..records::entry_count(book.len()) {
        let e = reader::take(&mut reader);
        if is_unpaired(table, e) || is_unscored(e) {
            return Some(i);
        }
        let p = table.pair_at(usize::from(e.student), usize::from(e.workshop));
        let k = p - from;
        if index[k] != 0 {
            return Some(i);
        }
        index[k] = (i + 1) as u16;
    }
    None
}

// The cause of 8 to 10 that comes first in the table, of a book whose first record with any of them is the one at this place. The index is zero again.
pub fn book_fault(table: &Table<'_>, book: &[u8], at: usize, index: &mut [u16]) -> Refusal
    requires book_len { length book.now % 8 ≡ 0 }
    requires book_value { first_bad (bad_any (rows table.now.case.now) (entries book.now)) (entry_count book.now) ≡ Some at }
    ensures value { Err result ≡ checked_of (book_refusal table.now.case.now book.now) table.now.case.now }
    ensures index_after { index.new ≡ index_after (book_refusal table.now.case.now book.now) table.now.case.now book.now (length index.old) }
{
    index.fill(0);
    let n = records::entry_count(book.len());
    if let Some(pair) = (0..n).find(|i| is_unpaired(table, records::entry_at(book, *i))) {
        return Cause::NoPair.at(pair);
    }
    if let Some(score) = (0..n).find(|i| is_unscored(records::entry_at(book, *i))) {
        return Cause::Mark.at(score);
    }
    Cause::Twice.at(at)
}
