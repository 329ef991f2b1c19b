// The causes that test each record of the case by itself.
ghost use Rattle.std.specs.Prelude.{◌≡◌, not, ◌<◌, eqb};
ghost use Rattle.base.specs.Lists.{any};
ghost use Rattle.format.specs.Layout.{rows, row_count, unnamed};
ghost use Rattle.format.specs.Refusals.{bad_form, bad_range};
ghost use Rattle.records.specs.Records.{row_of};

use records::Row;

// A byte that a record of its kind does not name is not zero.
#[tactic(auto, unfolding(base::specs::Lists::any, format::specs::Layout::unnamed))]
fn has_unnamed(r: Row) -> bool
    ensures { result ≡ any (λ x. not (eqb x 0)) (unnamed (row_of r)) }
{
    let last = r.sixth != 0 || r.seventh != 0;
    match r.kind {
        2 => r.pad != 0 || r.fourth != 0 || r.fifth != 0 || last,
        3 => r.pad != 0 || last,
        _ => r.pad != 0 || r.fifth != 0 || last,
    }
}

// 2: kind not 1 to 3, or a byte that should be zero.
#[tactic(auto, using(format::proofs::Positions::row_at_lem), unfolding(format::specs::Refusals::bad_form))]
pub fn bad_form(case: &[u8], i: usize) -> bool
    requires { i < row_count case.now }
    ensures { result ≡ bad_form (rows case.now) i }
{
    let r = records::row_at(case, i);
    !(1..=3).contains(&r.kind) || has_unnamed(r)
}

// 5: stage, quota, tier or outside tier out of range.
#[tactic(auto, using(crate::proofs::Ranging::student, crate::proofs::Ranging::workshop, crate::proofs::Ranging::tiers, crate::proofs::Ranging::other))]
pub fn bad_range(case: &[u8], i: usize) -> bool
    requires { i < row_count case.now }
    ensures { result ≡ bad_range (rows case.now) i }
{
    let r = records::row_at(case, i);
    match r.kind {
        1 => !(1..=512).contains(&r.second) || !(1..=65).contains(&r.third),
        2 => r.second > 512 || !(1..=513).contains(&r.third),
        3 => !(1..=65).contains(&r.third) || !(1..=513).contains(&r.fourth),
        _ => false,
    }
}
