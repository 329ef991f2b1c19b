// One turn of the student in hand: she goes to her next tier and is interviewed there, or applies to the best of what is open to her.
#![tactic(auto)]

ghost use Rattle.std.specs.Prelude.{◌≡◌, Some, true, false, not, cond, ◌&&◌, List, [], ◌∷◌, ℕ, suc, ◌+◌, ◌-◌, ◌*◌, ◌≤◌, ◌<◌, length, eqb, ltb};
ghost use Rattle.base.specs.Lists.{count};
ghost use Rattle.base.specs.Words.{biased};
ghost use Rattle.base.specs.Bits.{member, members, Low};
ghost use Rattle.lgs.specs.Market.{Market, Results, seats_of, seats_before};
ghost use Rattle.lgs.specs.Rule.{declined, unopened, best};
ghost use Rattle.format.specs.Buffers.{flat};
ghost use Rattle.format.specs.Engine.{market_in, results_in};
ghost use Rattle.model.specs.Model.{shut_by};
ghost use Rattle.model.specs.Store.{next_in, last_of};
ghost use Rattle.model.specs.Turn.{told_state, with_member, favourite_in, RoundSoFar, due_at, round_to, put_at};
ghost use Rattle.model.specs.Turn.{next_run, after_round, after_seating, open_tier, apply_to, turn_of, begin_run};
ghost use Rattle.model.specs.Ready.{Booked, Ready};
ghost use Rattle.tables.specs.Table.{set_of, all_of};
ghost use Rattle.lookup.specs.Clean.{WorkshopAt, PairAt};
ghost use Rattle.lookup.specs.Given.{market_of, results_of};
ghost use Rattle.seating.specs.Seats.{named};
ghost use Rattle.turning.specs.Next.{Ordered, FirstAfter};
ghost use Rattle.turning.specs.Round.{SeatsAt, SeatedAll, Says, round_of, TierListed};

use api::StudentState;
use bits::Members;
use lookup::Input;
use model::{Run, Turned};
use records::Entry;
use std::ops::Range;
use tables::Table;

// The state of the student in hand after workshop `lost` has dropped her; 0: nobody has (0 as in `Run`).
fn told_state(lost: usize, state: StudentState) -> StudentState
    requires { lost ≤ 64 }
    ensures { result ≡ told_state lost state }
{
    if lost == 0 {
        return state;
    }
    StudentState {
        held: 0,
        openings: bits::without_bit(state.openings, lost),
        ..state
    }
}

// ---- the next student in the order of stages

// The first student of the first stage after `stage` that has one.
fn first_after(table: &[u64], stage: usize) -> Option<usize>
    requires { (length table.now ≡ 1089) × (stage ≤ 512) }
    ensures { (s : ℕ) × (result ≡ named s) × FirstAfter table.now stage s }
{
    for t in stage + 1..=512 {
        let s = tables::head_of(table, t);
        if s > 0 {
            return Some(s);
        }
    }
    None
}

// The first student after `last`, in rising stage and rising number inside a stage: the next one of her stage, where there is one. 0: no last one.
fn next_student(case: &[u8], table: &[u64], last: usize) -> Option<usize>
    requires ordered { Ordered case.now table.now }
    requires last_bound { last ≤ (market_in case.now).students }
    ensures { result ≡ named (next_in (market_in case.now).stage last (market_in case.now).students) }
{
    if last == 0 {
        return first_after(table, 0);
    }
    let next = tables::next_of(table, last);
    if next > 0 {
        return Some(next);
    }
    first_after(table, lookup::stage_of(case, last) as usize)
}

// ---- the best of what is open

// The score that student s gave workshop w; the outside option, 0, has the score 0.
fn score_of(input: &Input<'_>, s: usize, w: usize) -> i16
    requires booked { 0 < w → Booked (market_of input.now) (results_of input.now) s w }
    ensures { biased result ≡ (results_of input.now).student_score s w }
{
    if w == 0 {
        return 0;
    }
    input.student_score_of(s, w)
}

// The best of `start` and the members of the set, in rising number.
fn best_from(input: &Input<'_>, s: usize, start: usize, set: u64) -> usize
    requires booked { 0 < start → Booked (market_of input.now) (results_of input.now) s start }
    requires by_index { (w : ℕ) → member set w ≡ true → Booked (market_of input.now) (results_of input.now) s w }
    ensures { result ≡ best (market_of input.now) (results_of input.now) s start (members set) }
{
    let mut best = start;
    let mut top = score_of(input, s, start);
    for w in Members(set) {
        let score = input.student_score_of(s, w);
        if records::above(score, top) {
            best = w;
            top = score;
        }
    }
    best
}

// The same by her pairs, all of them, in order: the next one's record is the next. (Her set is walked beside her records by hand: a `zip` of the two
// would test two ends each turn.)
fn best_along(input: &Input<'_>, s: usize, start: usize, set: u64) -> usize
    requires le_s { (1 ≤ s) × (s ≤ input.now.students) × (0 < start → Booked (market_of input.now) (results_of input.now) s start) }
    requires by_index { (w : ℕ) → member set w ≡ true → Booked (market_of input.now) (results_of input.now) s w }
    ensures { result ≡ best (market_of input.now) (results_of input.now) s start (members set) }
{
    let mut mine = input.table.set_of(s);
    let mut best = start;
    let mut top = score_of(input, s, start);
    for pair in input.table.pairs_of(s) {
        let w = bits::lowest(mine);
        mine = bits::without_lowest(mine);
        if bits::has_bit(set, w) {
            let given = input.student_score_by(s, w, pair);
            if records::above(given, top) {
                best = w;
                top = given;
            }
        }
    }
    best
}

// Her pairs are gone over: she has not all workshops, so that looking up a record takes a count of ones, and more than half of hers are in the set.
fn goes_along(table: &Table<'_>, s: usize, set: u64) -> bool
    requires { (1 ≤ s) × (s ≤ 512) }
    ensures { result ≡ (not (eqb (set_of table.now.words.now s) (all_of table.now.words.now))
        && ltb (count (member (set_of table.now.words.now s)) 64) (2 * count (member set) 64)) }
{
    if tables::has_all(table.words, s) {
        return false;
    }
    bits::count(table.set_of(s)) < 2 * bits::count(set)
}

// The best of `start` and the set, the faster way of the two.
fn best_of(input: &Input<'_>, s: usize, start: usize, set: u64) -> usize
    requires le_s { (1 ≤ s) × (s ≤ input.now.students) × (0 < start → Booked (market_of input.now) (results_of input.now) s start) }
    requires by_index { (w : ℕ) → member set w ≡ true → Booked (market_of input.now) (results_of input.now) s w }
    ensures { result ≡ best (market_of input.now) (results_of input.now) s start (members set) }
{
    if goes_along(&input.table, s, set) {
        return best_along(input, s, start, set);
    }
    best_from(input, s, start, set)
}

// What the others are compared with first, and the others: first is the outside option if it is open, and else the lowest of the open set.
fn first_and_rest(outside: bool, set: u64) -> (usize, u64)
    requires { 0 < set }
    ensures first { (outside ≡ true → result.0 ≡ 0) × (outside ≡ false → Low set result.0) }
    ensures rest { (outside ≡ true → result.1 ≡ set)
        × (outside ≡ false → (x : ℕ) → member result.1 x ≡ (member set x && not (eqb x result.0))) }
{
    if outside {
        return (0, set);
    }
    (bits::lowest(set), bits::without_lowest(set))
}

// The best of the open set, and of the outside option if it is open; 0 also where nothing is open. (A plain number, as in `favourite_in`: 0 is the
// outside option, which has a score.)
fn favourite(input: &Input<'_>, s: usize, outside: bool, set: u64) -> usize
    requires le_s { (1 ≤ s) × (s ≤ input.now.students) }
    requires by_index { (w : ℕ) → member set w ≡ true → Booked (market_of input.now) (results_of input.now) s w }
    ensures { result ≡ favourite_in (market_of input.now) (results_of input.now) s outside set }
{
    if set == 0 {
        return 0;
    }
    let (start, rest) = first_and_rest(outside, set);
    best_of(input, s, start, rest)
}

// ---- a round of interviews

// Somebody, l, has workshop w's last seat, and stands in a better tier there.
fn is_full_above(table: &Table<'_>, w: usize, l: Option<u16>, tier: u16) -> bool
    requires { (x : ℕ) → l ≡ Some x → ((market_in table.now.case.now).paired x w ≡ true) × PairAt table.now.case.now x w }
    ensures { (x : ℕ) → l ≡ named x → result ≡ (ltb 0 x && ltb ((market_in table.now.case.now).workshop_tier w x) tier) }
{
    let Some(l) = l else {
        return false; // the last seat is free
    };
    lookup::workshop_tier(table.case, table.pair_at(l as usize, w)) < tier
}

// Workshop w, whose seats stand in `own`, is not to be interviewed by a student whom it has in this tier: it has no seats, she is beyond its outside
// tier, or it is full of students in better tiers.
fn is_shut(
    table: &Table<'_>,
    seats: &[u16],
    students: usize,
    w: usize,
    own: Range<usize>,
    tier: u16,
) -> bool
    requires seats_at { SeatsAt table.now.case.now seats.now students w }
    requires own_value { (own.start ≡ seats_before (market_in table.now.case.now) w) × (own.end ≡ own.start + seats_of (market_in table.now.case.now) w) }
    ensures { (B : Results) (s : ℕ) → tier ≡ (market_in table.now.case.now).workshop_tier w s
        → result ≡ shut_by (market_in table.now.case.now) B (last_of (market_in table.now.case.now) seats.now w) s w }
{
    if own.is_empty() {
        return true;
    }
    if lookup::workshop_outside(table.case, students, w) < tier {
        return true;
    }
    is_full_above(table, w, seating::last_of(seats, own), tier)
}

// "She is in that workshop's line group with a negative mark": workshop w declines the student whom it has in this tier, and of whose interview with it
// the book says `entry`.
fn is_declined(case: &[u8], students: usize, w: usize, tier: u16, entry: Entry) -> bool
    requires { WorkshopAt case.now students w }
    ensures { (book : List ℕ) (s : ℕ) → tier ≡ (market_in case.now).workshop_tier w s
        → Says book s w entry
        → result ≡ declined (market_in case.now) (results_in book) s w }
{
    tier == lookup::workshop_outside(case, students, w) && records::negative(entry.workshop_score)
}

// The interview opens nothing: the workshop declines the student, or it ended in never. (The tier is tested first: a branch on the sign of a mark alone
// cannot be foreseen.)
fn is_unopened(case: &[u8], students: usize, w: usize, tier: u16, entry: Entry) -> bool
    requires { WorkshopAt case.now students w }
    ensures { (book : List ℕ) (s : ℕ) → tier ≡ (market_in case.now).workshop_tier w s
        → Says book s w entry
        → result ≡ unopened (market_in case.now) (results_in book) s w }
{
    is_declined(case, students, w, tier, entry) || lookup::ended_in_never(entry)
}

// The interview of student s with workshop w is listed after the first `count`.
fn put_interview(visits: &mut [u16], count: usize, s: u16, w: u16)
    requires { 2 * count + 2 ≤ length visits.old }
    ensures { visits.new ≡ put_at (2 * count) (s ∷ w ∷ []) visits.old }
{
    let at = 2 * count;
    visits[at] = s;
    visits[at + 1] = w;
}

// How many interviews have been held, the open set, the workshop of the missing interview, and what those of this round cost.
#[derive(Clone, Copy)]
pub struct Round {
    pub count: usize,
    pub openings: u64,
    pub missing: Option<usize>,
    pub fares: u32,
}

// The open set after an interview with workshop w: the workshop is in it, unless the interview opens nothing.
fn opened(case: &[u8], students: usize, w: usize, tier: u16, entry: Entry, set: u64) -> u64
    requires { (w ≤ 64) × WorkshopAt case.now students w }
    ensures { (book : List ℕ) (s : ℕ) → tier ≡ (market_in case.now).workshop_tier w s
        → Says book s w entry
        → result ≡ cond (unopened (market_in case.now) (results_in book) s w) set (with_member set w) }
{
    if is_unopened(case, students, w, tier, entry) {
        return set;
    }
    bits::with_bit(set, w)
}

// How many of the student's pairs are of her tier `tier`; the record of each is written, in rising order. Every pair is written at the next free
// place, and the place is kept where the pair is of the tier.
fn list_tier(input: &Input<'_>, s: usize, tier: u16, pairs: &mut [u32]) -> usize
    requires { (1 ≤ s) × (s ≤ input.now.students) × (64 ≤ length pairs.old) }
    ensures { (m : ℕ) → ((w : ℕ) → (market_of input.now).paired s w ≡ true → w ≤ m)
        → TierListed input.now.table.case.now s tier m result pairs.new }
{
    let own = input.table.pairs_of(s);
    let mut n = 0;
    // Counted from 0, so that the compiler takes two records at a time.
    for k in 0..own.end - own.start {
        let pair = own.start + k;
        pairs[n] = pair as u32;
        n += usize::from(lookup::student_tier(input.table.case, pair) == tier);
    }
    n
}

// Student s is interviewed by the workshops of her tier `tier`, in rising number, until an interview is missing. `held` interviews were held before.
fn hold_round(
    input: &Input<'_>,
    visits: &mut [u16],
    seats: &[u16],
    s: usize,
    tier: u16,
    set: u64,
    held: usize,
) -> Round
    requires le_s { (1 ≤ s) × (s ≤ input.now.students) }
    requires by_index { (w : ℕ) → 1 ≤ w → w ≤ input.now.workshops → SeatsAt input.now.table.case.now seats.now input.now.students w }
    requires workshops_in_bounds { 2 * (held
        + count (due_at (market_of input.now) (results_of input.now) seats.now s tier) input.now.workshops)
        ≤ length visits.old }
    ensures value { result ≡ round_of (market_of input.now) held
        (round_to (market_of input.now) (results_of input.now) seats.now s tier set input.now.workshops) }
    ensures visits_after { visits.new ≡ put_at (2 * held)
        (flat (round_to (market_of input.now) (results_of input.now) seats.now s tier set input.now.workshops).interviews) visits.old }
{
    let case = input.table.case;
    let mut pairs = [0u32; 64];
    let n = list_tier(input, s, tier, &mut pairs);
    let mut count = held;
    let mut openings = set;
    let mut fares = 0;
    for pair in &pairs[..n] {
        let pair = *pair as usize;
        let row = records::row_at(case, pair);
        let w = row.second as usize;
        let from = input.table.start_of(w);
        let own = from..from + seating::seats_of(case, input.students, w);
        if is_shut(&input.table, seats, input.students, w, own, row.fourth) {
            continue;
        }
        let first = input.students + input.workshops;
        let Some(e) = lookup::entry_of(input.index, first, pair) else {
            return Round {
                count,
                openings,
                missing: Some(w),
                fares,
            };
        };
        let entry = records::entry_at(input.book, e);
        put_interview(visits, count, s as u16, w as u16);
        openings = opened(case, input.students, w, row.fourth, entry, openings);
        fares += row.fifth as u32;
        count += 1;
    }
    Round {
        count,
        openings,
        missing: None,
        fares,
    }
}

// ---- the turn

// The run after the student in hand is done: the next in the order of stages is in hand.
fn next_run(input: &Input<'_>, run: Run) -> Run
    requires { run.last ≤ (market_of input.now).students }
    ensures { (B : Results) → result ≡ next_run (market_of input.now) B run }
{
    let hand = next_student(input.table.case, input.table.words, run.last).unwrap_or(0);
    Run {
        hand,
        last: hand,
        lost: 0,
        student: 0,
        workshop: 0,
        ..run
    }
}

// The beginning of a run: the first student of the first stage is in hand.
pub fn begin_run(case: &[u8], table: &[u64]) -> Run
    requires { Ordered case.now table.now }
    ensures { (B : Results) → result ≡ begin_run (market_in case.now) B }
{
    let hand = next_student(case, table, 0).unwrap_or(0);
    Run {
        hand,
        last: hand,
        ..Run::default()
    }
}

// The run after a round of the student in hand.
fn after_round(run: Run, round: Round) -> Run
    requires { run.fares + round.fares < 4294967296 }
    ensures { (M : Market) (B : Results) (o : RoundSoFar) → round ≡ round_of M run.count o → result ≡ after_round M B run o }
{
    let held = Run {
        lost: 0,
        count: round.count,
        student: 0,
        workshop: 0,
        fares: run.fares + round.fares,
        ..run
    };
    match round.missing {
        None => held,
        Some(workshop) => Run {
            hand: 0,
            student: run.hand,
            workshop,
            ..held
        },
    }
}

// The student in hand goes to her next tier, and is interviewed there.
fn open_tier(
    input: &Input<'_>,
    visits: &mut [u16],
    seats: &[u16],
    state: StudentState,
    run: Run,
) -> Turned
    requires le_hand { (1 ≤ run.hand) × (run.hand ≤ input.now.students) × (state.reached < 65535) × (run.fares ≤ 32768 * 65535) }
    requires by_index { (w : ℕ) → 1 ≤ w → w ≤ input.now.workshops → SeatsAt input.now.table.case.now seats.now input.now.students w }
    requires workshops_in_bounds { 2 * (run.count
        + count (due_at (market_of input.now) (results_of input.now) seats.now run.hand (suc state.reached)) input.now.workshops)
        ≤ length visits.old }
    ensures value { result ≡ (open_tier (market_of input.now) (results_of input.now) visits.old seats.now state run).turned }
    ensures visits_after { visits.new ≡ (open_tier (market_of input.now) (results_of input.now) visits.old seats.now state run).visits }
{
    let tier = state.reached as u16 + 1;
    let round = hold_round(
        input,
        visits,
        seats,
        run.hand,
        tier,
        state.openings,
        run.count,
    );
    Turned {
        state: StudentState {
            reached: state.reached + 1,
            openings: round.openings,
            ..state
        },
        run: after_round(run, round),
    }
}

// The run after workshop c has taken the student in hand and has dropped x.
fn after_seating(input: &Input<'_>, run: Run, c: usize, x: Option<u16>) -> Run
    requires { run.last ≤ (market_of input.now).students }
    ensures { (B : Results) (y : ℕ) → x ≡ named y → result ≡ after_seating (market_of input.now) B run c y }
{
    let Some(x) = x else {
        return next_run(input, run);
    };
    Run {
        hand: x as usize,
        lost: c,
        student: 0,
        workshop: 0,
        ..run
    }
}

// The student in hand applies to workshop c, or is done without a place where c is 0.
fn apply_to(input: &Input<'_>, seats: &mut [u16], state: StudentState, run: Run, c: usize) -> Turned
    requires last_le_students { run.last ≤ input.now.students }
    requires booked { 0 < c → Booked (market_of input.now) (results_of input.now) run.hand c }
    requires seated_all { SeatedAll (market_of input.now) (results_of input.now) seats.old }
    ensures by_index { (visits : List ℕ)
        → result ≡ (apply_to (market_of input.now) (results_of input.now) visits seats.old state run c).turned }
    ensures by_index_2 { (visits : List ℕ)
        → seats.new ≡ (apply_to (market_of input.now) (results_of input.now) visits seats.old state run c).seats }
{
    if c == 0 {
        return Turned {
            state,
            run: next_run(input, run),
        };
    }
    let x = seating::seat_at(seats, input, c, run.hand as u16);
    Turned {
        state: StudentState {
            held: c as u32,
            ..state
        },
        run: after_seating(input, run, c, x),
    }
}

// One turn of the student in hand, whose state is `state`.
pub fn turn(
    input: &Input<'_>,
    visits: &mut [u16],
    seats: &mut [u16],
    state: StudentState,
    run: Run,
) -> Turned
    requires ready { Ready (market_of input.now) (results_of input.now) visits.old seats.old state run }
    ensures value { result ≡ (turn_of (market_of input.now) (results_of input.now) visits.old seats.old state run).turned }
    ensures visits_after { visits.new ≡ (turn_of (market_of input.now) (results_of input.now) visits.old seats.old state run).visits }
    ensures seats_after { seats.new ≡ (turn_of (market_of input.now) (results_of input.now) visits.old seats.old state run).seats }
{
    let hand = run.hand;
    let told = told_state(run.lost, state);
    let set = told.openings;
    let outside = lookup::student_outside(input.table.case, hand) as u32 == told.reached;
    if (bits::count(set) == 0) & !outside {
        return open_tier(input, visits, seats, told, run);
    }
    let c = favourite(input, hand, outside, set);
    apply_to(input, seats, told, run, c)
}
