// One wish line of a text: its form, whose it is, what it names, and the number of the group that each item stands in.
#![tactic(auto)]

ghost use Rattle.std.specs.Prelude.{◌≡◌, ◌+◌, ◌-◌, ◌≤◌, ◌<◌, length, drop};
ghost use Rattle.format.specs.Engine.{market_in};
ghost use Rattle.wish_lines.specs.Reading.{is_digit, is_first};
ghost use Rattle.wish_lines.specs.Wishes.{Ranged};
ghost use Rattle.line_reader.specs.Items.{cap, stands_at, digits_in, extended, number_in, item_in, shown, Headed, behind_group, in_braces, Turned};
ghost use Rattle.line_reader.specs.Marks.{Noted, BodyRead};
ghost use Rattle.line_reader.specs.Checked.{LineChecked};

use api::Cause;
use tables::Table;

// ---- numbers and items

// A number, up to 1,000, and where it ends.
#[derive(Clone, Copy)]
struct Number {
    value: u64,
    end: usize,
}

fn is_digit(b: u8) -> bool
    ensures { result ≡ is_digit b }
{
    matches!(b, b'0'..=b'9')
}

fn is_first(b: u8) -> bool
    ensures { result ≡ is_first b }
{
    matches!(b, b'1'..=b'9')
}

// The byte b stands at place i.
fn stands(text: &[u8], i: usize, b: u8) -> bool
    ensures { result ≡ stands_at text.now i b }
{
    text.get(i) == Some(&b)
}

// The number x, and then the digits from place `from` on.
fn digits(text: &[u8], from: usize, x: u64) -> Number
    requires { (from ≤ length text.now) × (x ≤ 1000) }
    ensures { (result.value ≡ cap (extended x (drop from text.now))) × (result.end ≡ from + digits_in (drop from text.now)) }
{
    let mut value = x;
    for (k, &b) in text[from..].iter().enumerate() {
        if !is_digit(b) {
            return Number {
                value,
                end: from + k,
            };
        }
        value = (10 * value + u64::from(b - b'0')).min(1000);
    }
    Number {
        value,
        end: text.len(),
    }
}

// The number that begins at place i.
fn number_at(text: &[u8], i: usize) -> Option<Number>
    ensures { result ≡ shown i (number_in (drop i text.now)) }
{
    let b = *text.get(i)?;
    if !is_first(b) {
        return None;
    }
    Some(digits(text, i + 1, u64::from(b - b'0')))
}

// The item that begins at place i: 0 is none.
fn item_at(text: &[u8], i: usize) -> Option<Number>
    ensures { result ≡ shown i (item_in (drop i text.now)) }
{
    if stands(text, i, b'-') {
        return Some(Number {
            value: 0,
            end: i + 1,
        });
    }
    number_at(text, i)
}

// The student's number, the colon and the blank.
fn head(text: &[u8], from: usize) -> Option<Number>
    ensures { Headed text.now from result }
{
    let Number { value, end } = number_at(text, from)?;
    if stands(text, end, b':') && stands(text, end + 1, b' ') {
        return Some(Number {
            value,
            end: end + 2,
        });
    }
    None
}

// ---- one item, with the braces and the comma or the line feed around it

// What follows an item: one of the same group, a group, or the line's end.
#[derive(Clone, Copy)]
enum Next {
    Item,
    Group,
    End,
}

#[derive(Clone, Copy)]
struct Turn {
    value: u64,
    next: Next,
    end: usize,
}

// Behind a group, whose last item is x.
fn behind_group(text: &[u8], x: u64, i: usize) -> Option<Turn>
    ensures { result ≡ behind_group text.now x i }
{
    let next = match text.get(i) {
        Some(b',') => Next::Group,
        Some(b'\n') => Next::End,
        _ => return None,
    };
    Some(Turn {
        value: x,
        next,
        end: i + 1,
    })
}

// In braces, where an item must begin: `more` where one stands before it.
fn in_braces(text: &[u8], i: usize, more: bool) -> Option<Turn>
    ensures { result ≡ in_braces text.now more (shown i (item_in (drop i text.now))) }
{
    let Number { value, end } = item_at(text, i)?;
    if stands(text, end, b',') {
        return Some(Turn {
            value,
            next: Next::Item,
            end: end + 1,
        });
    }
    if more && stands(text, end, b'}') {
        return behind_group(text, value, end + 1);
    }
    None
}

// Where an item must begin: `within` braces behind another, or in a new group.
fn next_item(text: &[u8], i: usize, within: bool) -> Option<Turn>
    ensures { Turned text.now i within result }
{
    if within {
        return in_braces(text, i, true);
    }
    if stands(text, i, b'{') {
        return in_braces(text, i + 1, false);
    }
    let Number { value, end } = item_at(text, i)?;
    behind_group(text, value, end)
}

// ---- what is named

// The set of the workshops named, whether a number is twice there or above 64, and how often none is named.
#[derive(Clone, Copy)]
struct Marks {
    named: u64,
    // A flag and no error: the line is read to its end, since 14 goes before 15.
    stray: bool,
    nones: u64,
}

// Item x of group g.
fn note(groups: &mut [u8], m: Marks, x: u64, g: u8) -> Marks
    requires { (length groups.old ≡ 65) × (m.nones ≤ 1000) }
    ensures { Noted m result groups.old groups.new x g }
{
    if x > 64 {
        return Marks { stray: true, ..m };
    }
    let w = x as usize;
    groups[w] = g;
    if w == 0 {
        return Marks {
            nones: (m.nones + 1).min(1000),
            ..m
        };
    }
    Marks {
        named: bits::with_bit(m.named, w),
        stray: m.stray || bits::has_bit(m.named, w),
        ..m
    }
}

// What the groups of a line name, and where they end.
#[derive(Clone, Copy)]
struct Body {
    marks: Marks,
    end: usize,
}

// The groups of a line, which begin at place `from`.
fn read_groups(text: &[u8], from: usize, groups: &mut [u8]) -> Option<Body>
    requires { (from ≤ length text.now) × (length groups.old ≡ 65) }
    ensures { BodyRead text.now from result groups.new }
{
    let mut marks = Marks {
        named: 0,
        stray: false,
        nones: 0,
    };
    let mut g: u8 = 1;
    let mut within = false;
    let mut i = from;
    // No range counts this loop: an item ends where its text ends.
    while let Some(turn) = next_item(text, i, within) {
        marks = note(groups, marks, turn.value, g);
        i = turn.end;
        match turn.next {
            Next::Item => within = true,
            Next::Group => {
                within = false;
                g = (g + 1).min(200);
            }
            Next::End => return Some(Body { marks, end: i }),
        }
    }
    None
}

// ---- the line

// The line that begins at `from`, which is to be that of student k + 1: where it ends. It is refused for its form, or for what it names. An item's group is
// noted in `groups`: that of none first, then the workshops'.
pub fn check_line(
    table: &Table<'_>,
    text: &[u8],
    from: usize,
    k: usize,
    groups: &mut [u8],
) -> Result<usize, Cause>
    requires ranged { Ranged (market_in table.now.case.now) }
    requires k_bound { (k < 512) × (from ≤ length text.now) }
    requires groups_len { length groups.old ≡ 65 }
    ensures { LineChecked (market_in table.now.case.now) text.now from k result groups.new }
{
    let head = head(text, from).ok_or(Cause::LineForm)?;
    let body = read_groups(text, head.end, groups).ok_or(Cause::LineForm)?;
    let marks = body.marks;
    let own = table.set_of(k + 1);
    let form = marks.nones == 1 && head.value == k as u64 + 1;
    let names = !marks.stray && marks.named == own;
    if !form {
        return Err(Cause::LineForm);
    }
    if !names {
        return Err(Cause::LineNames);
    }
    Ok(body.end)
}
