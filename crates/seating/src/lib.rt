// A workshop's seats: who ranks before whom, who takes a seat and who loses it, and where the workshop's part of the seat slice lies.
#![tactic(auto)]

ghost use Rattle.std.specs.Prelude.{◌≡◌, true, not, ◌&&◌, ◌||◌, ℕ, ◌+◌, ◌-◌, ◌≤◌, ◌<◌, length, get_or, eqb, ltb};
ghost use Rattle.base.specs.Words.{biased};
ghost use Rattle.lgs.specs.Market.{Market, seats_of, seats_before};
ghost use Rattle.format.specs.Engine.{market_in, results_in};
ghost use Rattle.model.specs.Model.{before};
ghost use Rattle.model.specs.Store.{push_padded, part, put_part, last_of};
ghost use Rattle.model.specs.Ready.{Booked, InOrder};
ghost use Rattle.lookup.specs.Clean.{StudentAt, WorkshopAt};
ghost use Rattle.lookup.specs.Given.{market_of, results_of};
ghost use Rattle.seating.specs.Seats.{Stands, named};

use lookup::{Input, Standing};
use std::ops::Range;

// Student x, who stands at the workshop as `own` says, ranks before student y, who stands there as `other` says: by tier, inside a tier by score, and
// with equal scores by the lower lot.
// An order of its own: the larger score is better, and lots are read only where tier and score are equal.
fn ranks_before(case: &[u8], x: u16, own: Standing, y: u16, other: Standing) -> bool
    requires { StudentAt case.now x × StudentAt case.now y }
    ensures { result ≡ (ltb own.tier other.tier || (eqb own.tier other.tier && (ltb (biased other.score) (biased own.score)
        || (eqb (biased other.score) (biased own.score) && ltb ((market_in case.now).lot x) ((market_in case.now).lot y))))) }
{
    if (own.tier == other.tier) & records::equal(other.score, own.score) {
        return lookup::lot_of(case, x as usize) < lookup::lot_of(case, y as usize);
    }
    (own.tier < other.tier) | ((own.tier == other.tier) & records::above(own.score, other.score))
}

// The seat of y is not given to student x, who stands as `own` says: it is taken (not 0), and she does not rank before y.
fn stays(input: &Input<'_>, w: usize, y: u16, x: u16, own: Standing) -> bool
    requires booked { 0 < y → Booked (market_of input.now) (results_of input.now) y w }
    requires booked_2 { Booked (market_of input.now) (results_of input.now) x w }
    requires stands { Stands (market_of input.now) (results_of input.now) w x own.tier own.score }
    ensures { result ≡ (ltb 0 y && not (before (market_of input.now) (results_of input.now) w x y)) }
{
    if y == 0 {
        return false;
    }
    let other = input.standing_of(y as usize, w);
    !ranks_before(input.table.case, x, own, y, other)
}

// Student x, who stands as `own` says, takes her place, from the back: whoever is behind her moves on one seat, and the last holder has none left.
// The last seat is free, or she ranks before its holder.
fn settle(part: &mut [u16], input: &Input<'_>, w: usize, x: u16, own: Standing)
    requires booked { Booked (market_of input.now) (results_of input.now) x w }
    requires stands { Stands (market_of input.now) (results_of input.now) w x own.tier own.score }
    requires by_index { (i : ℕ) → i < length part.old → 0 < get_or part.old i 0
        → Booked (market_of input.now) (results_of input.now) (get_or part.old i 0) w }
    requires in_order { InOrder (market_of input.now) (results_of input.now) w part.old }
    requires part_nonzero { 0 < length part.old }
    requires part_value { 0 < get_or part.old (length part.old - 1) 0
        → before (market_of input.now) (results_of input.now) w x (get_or part.old (length part.old - 1) 0) ≡ true }
    ensures { push_padded (market_of input.now) (results_of input.now) w x part.old
        ≡ (part.new, get_or part.old (length part.old - 1) 0) }
{
    for i in (1..part.len()).rev() {
        let y = part[i - 1];
        if stays(input, w, y, x, own) {
            part[i] = x;
            return;
        }
        part[i] = y;
    }
    part[0] = x;
}

// Whom a seat names. (The seats are lent by the caller, and 0 is an empty one.)
fn holder(seat: u16) -> Option<u16>
    ensures { result ≡ named seat }
{
    (seat > 0).then_some(seat)
}

// Student x takes her place in workshop w's part of the seats, best first. Whoever has no seat left is handed back.
fn seat(part: &mut [u16], input: &Input<'_>, w: usize, x: u16) -> Option<u16>
    requires booked { Booked (market_of input.now) (results_of input.now) x w }
    requires by_index { (i : ℕ) → i < length part.old → 0 < get_or part.old i 0
        → Booked (market_of input.now) (results_of input.now) (get_or part.old i 0) w }
    requires in_order { InOrder (market_of input.now) (results_of input.now) w part.old }
    ensures part_after { part.new ≡ (push_padded (market_of input.now) (results_of input.now) w x part.old).0 }
    ensures value { result ≡ named (push_padded (market_of input.now) (results_of input.now) w x part.old).1 }
{
    let n = part.len();
    if n == 0 {
        return Some(x);
    }
    let own = input.standing_of(x as usize, w);
    let out = part[n - 1];
    if stays(input, w, out, x, own) {
        return Some(x);
    }
    settle(part, input, w, x, own);
    holder(out)
}

// How many seats workshop w has: its quota.
pub fn seats_of(case: &[u8], students: usize, w: usize) -> usize
    requires { WorkshopAt case.now students w }
    ensures { (result ≡ seats_of (market_in case.now) w) × (result ≤ 65535) }
{
    lookup::quota_of(case, students, w) as usize
}

// Who has the last of the seats that stand in `own`: nobody where it is free, or where there are no seats.
pub fn last_of(seats: &[u16], own: Range<usize>) -> Option<u16>
    requires { (own.start ≤ own.end) × (own.end ≤ length seats.now) }
    ensures { (M : Market) (w : ℕ) → own.start ≡ seats_before M w → own.end ≡ own.start + seats_of M w → result ≡ named (last_of M seats.now w) }
{
    if own.is_empty() {
        return None;
    }
    let at = own.end - 1;
    holder(seats[at])
}

// Student x takes her place at workshop w, whose part is lent from the middle of the seats. Whoever has no seat left is handed back.
pub fn seat_at(seats: &mut [u16], input: &Input<'_>, w: usize, x: u16) -> Option<u16>
    requires booked { Booked (market_of input.now) (results_of input.now) x w }
    requires w_in_bounds { seats_before (market_of input.now) w + seats_of (market_of input.now) w ≤ length seats.old }
    requires by_index { (i : ℕ) → i < seats_of (market_of input.now) w
        → 0 < get_or (part (market_of input.now) seats.old w) i 0
        → Booked (market_of input.now) (results_of input.now) (get_or (part (market_of input.now) seats.old w) i 0) w }
    requires in_order { InOrder (market_of input.now) (results_of input.now) w
        (part (market_of input.now) seats.old w) }
    ensures seats_after { seats.new ≡ put_part (market_of input.now) seats.old w
        (push_padded (market_of input.now) (results_of input.now) w x
        (part (market_of input.now) seats.old w)).0 }
    ensures value { result ≡ named (push_padded (market_of input.now) (results_of input.now) w x
        (part (market_of input.now) seats.old w)).1 }
{
    let a = input.table.start_of(w);
    let e = a + seats_of(input.table.case, input.students, w);
    seat(&mut seats[a..e], input, w, x)
}
