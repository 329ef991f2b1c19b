// The wish lines of a case, put into lent bytes.
#![tactic(auto)]

ghost use Rattle.std.specs.Prelude.{◌≡◌, ◌+◌, ◌*◌, ◌≤◌, length, None};
ghost use Rattle.format.specs.Engine.{market_in};
ghost use Rattle.format.specs.Buffers.{with_head};
ghost use Rattle.case_tests.specs.Checked.{case_refusal, pair_count};
ghost use Rattle.putting.specs.Put.{Put};
ghost use Rattle.wish_lines.specs.Lines.{line_text};
ghost use Rattle.wish_lines.specs.Wishes.{line_of, wish_text};

use putting::{put_byte, put_decimal};
use tables::Table;

mod groups;
mod sets;

// The line of student s.
fn put_line(table: &Table<'_>, s: usize, text: &mut [u8], at: usize) -> usize
    requires case_value { case_refusal table.now.case.now ≡ None }
    requires le_s { ((1 ≤ s) × (s ≤ (market_in table.now.case.now).students)) × (at ≤ length text.old) }
    ensures { Put (line_text (line_of (market_in table.now.case.now) s)) at text.old text.new result }
{
    let mut sets = [0u64; 66];
    let last = sets::gather(table, s, &mut sets);
    let outside = usize::from(records::row_at(table.case, s - 1).third);
    let last = last.max(outside);
    let end = put_decimal(&mut *text, at, s);
    let end = put_byte(&mut *text, end, b':');
    let end = put_byte(&mut *text, end, b' ');
    let end = groups::put_groups(&mut *text, end, &sets, outside, last);
    put_byte(text, end, b'\n')
}

// The lines of a case in which causes 1 to 5 and 13 find nothing, into a buffer with room for them. The text's length.
pub fn put_lines(table: &Table<'_>, students: usize, text: &mut [u8]) -> usize
    requires case_value { case_refusal table.now.case.now ≡ None }
    requires students_value { students ≡ (market_in table.now.case.now).students }
    requires case_in_bounds { 8 * students + 4 * pair_count table.now.case.now ≤ length text.old }
    ensures value { result ≡ length (wish_text (market_in table.now.case.now)) }
    ensures text_after { text.new ≡ with_head (wish_text (market_in table.now.case.now)) text.old }
{
    let mut end = 0;
    for s in 1..=students {
        end = put_line(table, s, &mut *text, end);
    }
    end
}
