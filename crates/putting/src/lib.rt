// Text, put into lent bytes. Text that does not fit is cut off at the buffer's end; nothing is written past it. A slice and a place, and no writer: `Put` says
// of two lists what was put, and `write!` would stop at the end.
#![tactic(auto)]

ghost use Rattle.std.specs.Prelude.{[], ◌∷◌, ◌+◌, ◌<◌, ◌≤◌, length};
ghost use Rattle.format.specs.Printed.{decimal};
ghost use Rattle.putting.specs.Put.{Put};

// One byte at `at`; what comes after it.
pub fn put_byte(out: &mut [u8], at: usize, b: u8) -> usize
    requires { at ≤ length out.old }
    ensures { Put (b ∷ []) at out.old out.new result }
{
    if at < out.len() {
        out[at] = b;
        at + 1
    } else {
        at
    }
}

// The bytes of a text, as far as they fit.
pub fn put_bytes(out: &mut [u8], at: usize, text: &[u8]) -> usize
    requires { at ≤ length out.old }
    ensures { Put text.now at out.old out.new result }
{
    let n = text.len().min(out.len() - at);
    out[at..at + n].copy_from_slice(&text[..n]);
    at + n
}

fn put_digit(out: &mut [u8], at: usize, d: usize) -> usize
    requires { (at ≤ length out.old) × (d < 10) }
    ensures { Put ((48 + d) ∷ []) at out.old out.new result }
{
    put_byte(out, at, b'0' + d as u8)
}

// The digits of a number, one after the other.
fn put_digits(out: &mut [u8], at: usize, n: usize) -> usize
    requires { at ≤ length out.old }
    ensures { Put (decimal n) at out.old out.new result }
{
    if n < 10 {
        return put_digit(out, at, n);
    }
    let end = put_digits(&mut *out, at, n / 10);
    put_digit(out, end, n % 10)
}

// A number in decimal digits. Those of one or two, of which wish lines are made, are put without `put_digits`: that is faster.
pub fn put_decimal(out: &mut [u8], at: usize, n: usize) -> usize
    requires { at ≤ length out.old }
    ensures { Put (decimal n) at out.old out.new result }
{
    if n < 10 {
        return put_digit(out, at, n);
    }
    if n < 100 {
        let end = put_digit(&mut *out, at, n / 10);
        return put_digit(out, end, n % 10);
    }
    put_digits(out, at, n)
}
