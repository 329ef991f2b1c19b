// The open workshops as the 64 bits of one number: workshop w, from 1 to 64, is bit w - 1. Functions of the number and no type of its own, because C lends
// the sets as numbers (`StudentState::openings`). Larger sets as the bits of a slice.
#![tactic(auto)]

ghost use Rattle.std.specs.Prelude.{◌≡◌, true, not, ◌&&◌, ◌||◌, ℕ, ◌-◌, ◌*◌, ◌^◌, ◌≤◌, ◌<◌, eqb, length};
ghost use Rattle.std.specs.Int.Bits.{bit_or, bit_and};
ghost use Rattle.base.specs.Lists.{count};
ghost use Rattle.std.specs.Iterator.{YieldsFirst, item_count};
ghost use Rattle.base.specs.Bits.{member, members, Low, Met};

// Workshop w is in the set.
pub fn has_bit(bits: u64, w: usize) -> bool
    requires { (1 ≤ w) × (w ≤ 64) }
    ensures { result ≡ member bits w }
{
    (bits >> (w - 1)) % 2 == 1
}

// The set with workshop w.
pub fn with_bit(bits: u64, w: usize) -> u64
    requires { (1 ≤ w) × (w ≤ 64) }
    ensures value { result ≡ bit_or bits (2 ^ (w - 1)) }
    ensures by_index { (x : ℕ) → member result x ≡ (eqb x w || member bits x) }
{
    bits | (1u64 << (w - 1))
}

// The set without workshop w. Where w was in it, the number is smaller, so a loop that takes one out each turn ends.
pub fn without_bit(bits: u64, w: usize) -> u64
    requires { (1 ≤ w) × (w ≤ 64) }
    ensures value { result ≡ bit_and bits (2 ^ 64 - 1 - 2 ^ (w - 1)) }
    ensures by_index { (x : ℕ) → member result x ≡ (member bits x && not (eqb x w)) }
    ensures upper_bound { member bits w ≡ true → result < bits }
{
    bits & !(1u64 << (w - 1))
}

// What is in either set.
pub fn union(a: u64, b: u64) -> u64
    ensures by_index { (x : ℕ) → member result x ≡ (member a x || member b x) }
    ensures value { a ≡ 0 → b ≡ 0 → result ≡ 0 }
{
    a | b
}

// The members of the first set that the second does not have.
pub fn minus(a: u64, b: u64) -> u64
    ensures { (x : ℕ) → member result x ≡ (member a x && not (member b x)) }
{
    a & !b
}

// How many workshops are open.
pub fn count(bits: u64) -> u32
    ensures { result ≡ count (member bits) 64 }
{
    bits.count_ones()
}

// The lowest-numbered open workshop.
pub fn lowest(bits: u64) -> usize
    requires { 0 < bits }
    ensures { Low bits result }
{
    u64::trailing_zeros(bits) as usize + 1
}

// The set without its lowest-numbered workshop. The number is smaller, so a loop that takes one out each turn ends.
pub fn without_lowest(bits: u64) -> u64
    requires { 0 < bits }
    ensures by_index { (w : ℕ) → Low bits w → (x : ℕ) → member result x ≡ (member bits x && not (eqb x w)) }
    ensures upper_bound { result < bits }
{
    bits & (bits - 1)
}

// The workshops of a set, in rising number.
#[derive(Clone, Copy)]
pub struct Members(pub u64);

impl Iterator for Members {
    type Item = usize;

    ghost next_gives = { YieldsFirst (λ s. members s.0) };

    ghost remaining = { item_count (λ s. members s.0) };

    fn next(&mut self) -> Option<usize> {
        if self.0 == 0 {
            return None;
        }
        let w = lowest(self.0);
        self.0 = without_lowest(self.0);
        Some(w)
    }
}

// Whether the slot was met before. It is from now on.
pub fn met(seen: &mut [u64], slot: usize) -> bool
    requires { slot < 64 * length seen.old }
    ensures { Met seen.old seen.new slot result }
{
    let at = slot / 64;
    let digit = slot % 64;
    let word = seen[at];
    seen[at] = word | (1u64 << digit);
    (word >> digit) % 2 == 1
}
