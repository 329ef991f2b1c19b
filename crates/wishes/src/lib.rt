// Wish lines (document 02, Paper 6): a case's lines are written into lent bytes, and lines are read into a copy of the case.
#![tactic(auto)]

ghost use Rattle.std.specs.Prelude.{◌≡◌, List, ◌≤◌, length, None};
ghost use Rattle.format.specs.Engine.{market_in};
ghost use Rattle.format.specs.Buffers.{with_head};
ghost use Rattle.case_tests.specs.Checked.{case_refusal};
ghost use Rattle.wish_lines.specs.Lines.{Line};
ghost use Rattle.wishes.specs.Copy.{wished};
ghost use Rattle.wishes.specs.Records.{Judged, AllNoted};
ghost use Rattle.wishes.specs.Answered.{WriteAnswered, ReadAnswered};

use api::{Cause, Refusal};
use case_tests::Counts;
use tables::Table;

mod copying;

// A case in which causes 1 to 5 and 13 find nothing, with the table of its pairs and how many students it has.
#[derive(Clone, Copy)]
struct Input<'a> {
    table: Table<'a>,
    students: usize,
    ghost clean: { (case_refusal table.case.now ≡ None) × (students ≡ (market_in table.case.now).students) },
}

// Reads a case, and gives its wish lines at the head of `text`. The answer is how many bytes they are.
pub fn write_wishes(case: &[u8], text: &mut [u8]) -> Result<usize, Refusal>
    ensures { WriteAnswered case.now text.old result text.new }
{
    let mut words = [0u64; 1089];
    let Counts {
        students,
        pairs,
        ..
    } = case_tests::check_case(case, &mut words)?;
    if text.len() < 8 * students + 4 * pairs {
        return Err(Cause::Room.at(0));
    }
    let table = Table {
        case,
        words: &words,
    };
    Ok(line_writer::put_lines(&table, students, text))
}

// The first refusal of the text's lines: in each line 14 and then 15 before the next line. The groups of line k are noted from place 65 k on.
fn judge(input: &Input<'_>, text: &[u8], groups: &mut [u8]) -> Result<(), Refusal>
    requires { length groups.old ≡ 33280 }
    ensures { Judged (market_in input.now.table.case.now) text.now result groups.new }
{
    let mut at = 0;
    for k in 0..input.students {
        // By place: of parts lent by `chunks_exact_mut` a proof knows nothing afterwards.
        let own = &mut groups[65 * k..65 * k + 65];
        let found = line_reader::check_line(&input.table, text, at, k, own);
        at = found.map_err(move |cause| cause.at(k))?;
    }
    if at < text.len() {
        return Err(Cause::LineForm.at(input.students));
    }
    Ok(())
}

// The copy of the case with the groups that were noted.
fn put_wishes(input: &Input<'_>, groups: &[u8], copy: &mut [u8])
    requires { (length groups.now ≡ 33280) × (length input.now.table.case.now ≤ length copy.old) }
    ensures { (ls : List Line) → AllNoted (market_in input.now.table.case.now) ls groups.now
        → copy.new ≡ with_head (wished ls input.now.table.case.now) copy.old }
{
    copying::copy_bytes(input.table.case, &mut *copy);
    for (k, own) in groups[..65 * input.students].chunks_exact(65).enumerate() {
        copying::put_student(&input.table, k + 1, own, &mut *copy);
    }
}

// The copy for a text, or its first refusal. The groups of all lines are kept until the last is judged: a refusal leaves the copy.
fn read_into(input: &Input<'_>, text: &[u8], copy: &mut [u8]) -> Result<usize, Refusal>
    requires { length input.now.table.case.now ≤ length copy.old }
    ensures { ReadAnswered input.now.table.case.now text.now copy.old result copy.new }
{
    let mut groups = [0u8; 33280];
    judge(input, text, &mut groups)?;
    put_wishes(input, &groups, copy);
    Ok(input.table.case.len())
}

// Reads a case and its wish lines, and gives a copy of the case with their groups at the head of `copy`. The answer is how many bytes it has.
pub fn read_wishes(case: &[u8], text: &[u8], copy: &mut [u8]) -> Result<usize, Refusal>
    ensures { ReadAnswered case.now text.now copy.old result copy.new }
{
    let mut words = [0u64; 1089];
    let Counts { students, .. } = case_tests::check_case(case, &mut words)?;
    if copy.len() < case.len() {
        return Err(Cause::Room.at(0));
    }
    let table = Table {
        case,
        words: &words,
    };
    let input = Input { table, students };
    read_into(&input, text, copy)
}
