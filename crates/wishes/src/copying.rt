// A copy of a case, in lent bytes, with a student's groups put into it.
ghost use Rattle.std.specs.Prelude.{◌≡◌, ◌+◌, ◌-◌, ◌*◌, ◌≤◌, ◌<◌, length};
ghost use Rattle.format.specs.Buffers.{with_head};
ghost use Rattle.format.specs.Layout.{row_count};
ghost use Rattle.wishes.specs.Records.{with_third_at, StudentPut};

use tables::Table;

// The bytes of the case, at the head of the copy. Byte by byte: `copy_from_slice` would ask a host's C library for `memmove` too.
pub fn copy_bytes(case: &[u8], copy: &mut [u8])
    requires { length case.now ≤ length copy.old }
    ensures { copy.new ≡ with_head case.now copy.old }
{
    for i in 0..case.len() {
        copy[i] = case[i];
    }
}

// Record i of the copy with this third field.
fn put_third(copy: &mut [u8], i: usize, x: u16)
    requires { 16 * i + 7 < length copy.old }
    ensures { copy.new ≡ with_third_at copy.old i x }
{
    let [low, high] = x.to_le_bytes();
    copy[16 * i + 6] = low;
    copy[16 * i + 7] = high;
}

// The record of student s with her line group, and those of her pairs with her groups: `groups` has that of none first, then the workshops'.
pub fn put_student(table: &Table<'_>, s: usize, groups: &[u8], copy: &mut [u8])
    requires le_s { ((1 ≤ s) × (s ≤ 512)) × (s ≤ row_count table.now.case.now) }
    requires groups_len { (length groups.now ≡ 65) × (length table.now.case.now ≤ length copy.old) }
    ensures student_put { StudentPut table.now.case.now groups.now s copy.old copy.new }
    ensures copy_len_unchanged { length copy.new ≡ length copy.old }
{
    put_third(&mut *copy, s - 1, u16::from(groups[0]));
    for pair in table.pairs_of(s) {
        let w = usize::from(records::row_at(table.case, pair).second);
        put_third(&mut *copy, pair, u16::from(groups[w]));
    }
}
