// Fields, records and scores of the case and the book, read from their bytes.
#![tactic(auto)]

ghost use Rattle.std.specs.Prelude.{◌≡◌, not, cond, ◌+◌, ◌*◌, ◌/◌, ◌%◌, ◌≤◌, ◌<◌, length, replicate, ltb, eqb};
ghost use Rattle.base.specs.Lists.{one};
ghost use Rattle.base.specs.Words.{word, signed, biased};
ghost use Rattle.base.specs.Bits.{shifted};
ghost use Rattle.format.specs.Layout.{row_at, entry_at, row_count, entry_count, outside_score, says_never};
ghost use Rattle.format.specs.Refusals.{bad_score};
ghost use Rattle.records.specs.Records.{row_of, entry_of};

// A record of the case, as the layout has it. The kind is the byte as it stands, and no enum: cause 2 tests it (`bad_form`).
#[derive(Clone, Copy)]
pub struct Row {
    pub kind: u8,
    pub pad: u8,
    pub first: u16,
    pub second: u16,
    pub third: u16,
    pub fourth: u16,
    pub fifth: u16,
    pub sixth: u16,
    pub seventh: u16,
}

// A record of the book.
#[derive(Clone, Copy)]
pub struct Entry {
    pub student: u16,
    pub workshop: u16,
    pub student_score: i16,
    pub workshop_score: i16,
}

// The 16-bit field at `at`, low byte first.
fn u16_at(bytes: &[u8], at: usize) -> u16
    requires { at + 1 < length bytes.now }
    ensures { result ≡ word bytes.now at }
{
    u16::from(bytes[at]) + 256 * u16::from(bytes[at + 1])
}

// ---- scores

// Two stored bytes become a score.
fn score_of(v: u16) -> i16
    ensures { biased result ≡ (v + 32768) % 65536 }
{
    v.cast_signed()
}

fn score_at(bytes: &[u8], at: usize) -> i16
    requires { at + 1 < length bytes.now }
    ensures { biased result ≡ signed bytes.now at }
{
    score_of(u16_at(bytes, at))
}

// The score 32768 above its value, so that a key can hold it.
pub fn raised(score: i16) -> u16
    ensures { result ≡ biased score }
{
    score.cast_unsigned().wrapping_add(32768)
}

// A function for each test of scores: the clauses speak of scores 32768 above (`biased`), which each caller would have to show.
// Score a is better than score b.
pub fn above(a: i16, b: i16) -> bool
    ensures { result ≡ ltb (biased b) (biased a) }
{
    a > b
}

// The scores are equal.
pub fn equal(a: i16, b: i16) -> bool
    ensures { result ≡ eqb (biased a) (biased b) }
{
    a == b
}

// Score a stands below that of the outside option.
pub fn negative(a: i16) -> bool
    ensures { result ≡ ltb (biased a) outside_score }
{
    a < 0
}

// The score is -1000, 31768 as it is kept: the interview ended in never.
pub fn is_never(score: i16) -> bool
    ensures { result ≡ says_never (biased score) }
{
    score == -1000
}

// A score that the book may have.
pub fn good_score(a: i16) -> bool
    ensures { result ≡ not (bad_score (biased a)) }
{
    if a < -1000 {
        return false;
    }
    if a > 1000 {
        return false;
    }
    a != 0
}

// ---- records

// How many whole records a case of this length has.
pub fn row_count(len: usize) -> usize
    ensures { result ≡ len / 16 }
{
    len / 16
}

// How many whole records a book of this length has, by a shift (`ShiftCounts`).
pub fn entry_count(len: usize) -> usize
    ensures { (result ≡ shifted len 3) × (result ≡ len / 8) }
{
    len >> 3
}

pub fn row_at(case: &[u8], i: usize) -> Row
    requires { i < row_count case.now }
    ensures { row_of result ≡ row_at case.now i }
{
    let at = 16 * i;
    Row {
        kind: case[at],
        pad: case[at + 1],
        first: u16_at(case, at + 2),
        second: u16_at(case, at + 4),
        third: u16_at(case, at + 6),
        fourth: u16_at(case, at + 8),
        fifth: u16_at(case, at + 10),
        sixth: u16_at(case, at + 12),
        seventh: u16_at(case, at + 14),
    }
}

pub fn entry_at(book: &[u8], i: usize) -> Entry
    requires { i < entry_count book.now }
    ensures { entry_of result ≡ entry_at book.now i }
{
    let at = 8 * i;
    Entry {
        student: u16_at(book, at),
        workshop: u16_at(book, at + 2),
        student_score: score_at(book, at + 4),
        workshop_score: score_at(book, at + 6),
    }
}
