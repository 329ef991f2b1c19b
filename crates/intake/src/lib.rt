// Tests a case, the lent room and a book for the twelve refusals, of which the first in the order of the causes is told, and builds the pairs' table and index.
#![tactic(auto)]

ghost use Rattle.std.specs.Prelude.{◌≡◌, length};
ghost use Rattle.tables.specs.Table.{Blank};
ghost use Rattle.case_tests.specs.Checked.{checked_of};
ghost use Rattle.book_tests.specs.Index.{book_refusal, index_after};
ghost use Rattle.intake.specs.Tested.{lengths_of, CaseTested, Tested};

use api::{Cause, Refusal};
use case_tests::Counts;
use tables::Table;
use ties::IndexedBook;

mod lengths;

// The lengths of the lent buffers.
#[derive(Clone, Copy)]
pub struct Room {
    pub places: usize,
    pub visits: usize,
    pub seats: usize,
    pub index: usize,
    pub states: usize,
}

// Causes 7 to 11 of a case that was tested: the first refusal, and then the index is zero; or the counts of the case, and then the index has, for each pair
// record, the number of its book record from 1.
pub fn check_book(
    table: &Table<'_>,
    book: &[u8],
    counts: Counts,
    index: &mut [u16],
) -> Result<Counts, Refusal>
    requires { CaseTested table.now.case.now index.old counts }
    ensures value { result ≡ checked_of (book_refusal table.now.case.now book.now) table.now.case.now }
    ensures index_after { index.new
        ≡ index_after (book_refusal table.now.case.now book.now) table.now.case.now book.now (length index.old) }
{
    // By a mask, and not `% 8`: no code divides the length of a book (docs/DECISIONS.md).
    if book.len() & 7 != 0 {
        return Err(Cause::BookLength.at(0));
    }
    let from = counts.students + counts.workshops;
    if let Some(stopped) = book_tests::fill(table, book, from, &mut *index) {
        return Err(book_tests::book_fault(table, book, stopped, index));
    }
    let indexed = IndexedBook {
        table: *table,
        book,
        index: &index[..],
        from,
    };
    if let Some(tie) = indexed.first_tie(counts.students) {
        index.fill(0);
        return Err(Cause::EqualMarks.at(tie));
    }
    Ok(counts)
}

// The first refusal in the order of the causes, and then the index is zero; or the counts of the case, and then the index is as `check_book` makes it, and
// `table` is the table of the case.
pub fn check(
    case: &[u8],
    book: &[u8],
    room: Room,
    index: &mut [u16],
    table: &mut [u64],
) -> Result<Counts, Refusal>
    requires blank { Blank table.old }
    requires index_value { room.index ≡ length index.old }
    ensures { Tested case.now book.now (lengths_of room) result index.new table.new }
{
    index.fill(0);
    let counts = case_tests::check_case(case, &mut *table)?;
    let seats = lengths::seats_needed(case, counts);
    if lengths::lacks(room, counts, seats) {
        return Err(Cause::Room.at(0));
    }
    let table = Table {
        case,
        words: &table[..],
    };
    check_book(&table, book, counts, index)
}
