// Cause 13: a lot out of range, or already used by an earlier student. One pass over the students.
ghost use Rattle.std.specs.Prelude.{◌≡◌, length};
ghost use Rattle.base.specs.Search.{first_bad};
ghost use Rattle.format.specs.Layout.{rows, row_count};
ghost use Rattle.format.specs.Refusals.{bad_lot};
ghost use Rattle.case_tests.specs.Lots.{Used, StudentsFirst};

// The lot is out of range, or used. One in range is used from now on. Lot k has slot k - 1.
fn is_bad_lot(used: &mut [u64], lot: u16) -> bool
    requires { length used.old ≡ 8 }
    ensures { Used used.old used.new lot result }
{
    !(1..=512).contains(&lot) || bits::met(used, usize::from(lot) - 1)
}

// The first record that the cause finds.
pub fn first_bad_lot(case: &[u8], students: usize) -> Option<usize>
    requires { StudentsFirst case.now students }
    ensures { result ≡ first_bad (bad_lot (rows case.now)) (row_count case.now) }
{
    let mut used = [0u64; 8];
    for i in 0..students {
        if is_bad_lot(&mut used, records::row_at(case, i).fourth) {
            return Some(i);
        }
    }
    None
}
