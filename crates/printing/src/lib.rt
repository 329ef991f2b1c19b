// The text of an answer, put into lent bytes. Text that does not fit is cut off at the buffer's end; nothing is written past it.
#![tactic(auto)]

ghost use Rattle.std.specs.Prelude.{◌++◌, ◌+◌, ◌*◌, ◌≤◌, length};
ghost use Rattle.format.specs.Printed.{ascii, decimal, line_of, place_lines, visit_lines, visits_text, unread, Whole};
ghost use Rattle.api.specs.Text.{interviews_at, text_of};
ghost use Rattle.putting.specs.Put.{Put};
ghost use Rattle.printing.specs.Text.{spaced, TextFits};

use api::{Answer, Refusal};
use putting::{put_byte, put_bytes};

// A number in decimal digits, which the kit's `io` gives. (`putting` puts those of the library, which calls no library of the kit but the standard one.)
fn put_decimal(out: &mut [u8], at: usize, n: usize) -> usize
    requires { at ≤ length out.old }
    ensures { Put (decimal n) at out.old out.new result }
{
    let mut digits = [0u8; 20];
    let k = io::decimal(n as u64, &mut digits);
    put_bytes(out, at, &digits[..k])
}

// A space and a number.
fn put_number(out: &mut [u8], at: usize, n: usize) -> usize
    requires { at ≤ length out.old }
    ensures { Put (ascii " " ++ decimal n) at out.old out.new result }
{
    let end = put_byte(&mut *out, at, b' ');
    put_decimal(out, end, n)
}

// Numbers, each behind a space.
fn put_numbers(out: &mut [u8], at: usize, numbers: &[usize]) -> usize
    requires { at ≤ length out.old }
    ensures { Put (spaced numbers.now) at out.old out.new result }
{
    let mut end = at;
    for &n in numbers {
        end = put_number(&mut *out, end, n);
    }
    end
}

// A line with a word and numbers, of at most 20 digits each.
fn put_line(out: &mut [u8], at: usize, word: &[u8], numbers: &[usize]) -> usize
    requires { at ≤ length out.old }
    ensures put { Put (line_of word.now numbers.now) at out.old out.new result }
    ensures b_in_bounds { length (line_of word.now numbers.now) ≤ length word.now + 21 * length numbers.now + 1 }
{
    let end = put_bytes(&mut *out, at, word);
    let end = put_numbers(&mut *out, end, numbers);
    put_byte(out, end, b'\n')
}

// A line for each place.
fn put_places(out: &mut [u8], at: usize, places: &[u16]) -> usize
    requires { at ≤ length out.old }
    ensures { Put (place_lines 1 places.now) at out.old out.new result }
{
    let mut end = at;
    for (i, &w) in places.iter().enumerate() {
        end = put_line(&mut *out, end, b"place", &[i + 1, usize::from(w)]);
    }
    end
}

// A line for each of the first `count` interviews.
fn put_visit_lines(out: &mut [u8], at: usize, visits: &[u16], count: usize) -> usize
    requires { (at ≤ length out.old) × (2 * count ≤ length visits.now) }
    ensures { Put (visit_lines (interviews_at count visits.now)) at out.old out.new result }
{
    let mut end = at;
    for visit in visits[..2 * count].chunks_exact(2) {
        let names = [usize::from(visit[0]), usize::from(visit[1])];
        end = put_line(&mut *out, end, b"visit", &names);
    }
    end
}

// The line with the count, the lines of the interviews, and the line with what they cost, of at most 17 bytes: ten digits hold a u32.
fn put_visits(out: &mut [u8], at: usize, visits: &[u16], count: usize, fares: u32) -> usize
    requires { (at ≤ length out.old) × (2 * count ≤ length visits.now) }
    ensures put { Put (visits_text (interviews_at count visits.now) fares) at out.old out.new result }
    ensures b_in_bounds { length (visits_text (interviews_at count visits.now) fares) ≤ 9 * length visits.now + 45 }
{
    let end = put_line(&mut *out, at, b"visits", &[count]);
    let end = put_visit_lines(&mut *out, end, visits, count);
    put_line(out, end, b"fares", &[fares as usize])
}

// The text of an answer with n students, from the lent buffers. The result is the text's length, or the buffer's where the text is longer.
// Where `out` has 33 bytes for each entry of the places, 9 for each of the visits and 100 more, it gets the whole text: the lines `next`, `visits`
// and `fares` have at most 47, 28 and 17 bytes.
pub fn put_answer(
    answer: Result<Answer, Refusal>,
    n: usize,
    places: &[u16],
    visits: &[u16],
    out: &mut [u8],
) -> usize
    requires { TextFits answer n places.now visits.now }
    ensures put { Put (text_of answer n places.now visits.now) 0 out.old out.new result }
    ensures whole { 33 * length places.now + 9 * length visits.now + 100 ≤ length out.old
        → Whole (text_of answer n places.now visits.now) out.new result }
{
    match answer {
        Ok(
            Answer::Placed {
                visits: count,
                fares,
            },
        ) => {
            let end = put_places(&mut *out, 0, &places[..n]);
            put_visits(out, end, visits, count, fares)
        }
        Ok(
            Answer::Next {
                student,
                workshop,
                visits: count,
                fares,
            },
        ) => {
            let end = put_line(&mut *out, 0, b"next", &[student, workshop]);
            put_visits(out, end, visits, count, fares)
        }
        Err(Refusal { cause, place }) => {
            put_line(out, 0, b"refused", &[u64::from(cause) as usize, place])
        }
    }
}

// The text where a file cannot be read, whole where `out` has 7 bytes.
pub fn put_unread(out: &mut [u8]) -> usize
    ensures put { Put unread 0 out.old out.new result }
    ensures whole { 7 ≤ length out.old → Whole unread out.new result }
{
    let end = put_bytes(&mut *out, 0, b"unread");
    put_byte(out, end, b'\n')
}
