// A book reader: the lent bytes together with the number of the next record. What a record is stands in `records::entry_at`.
#![tactic(auto)]

ghost use Rattle.std.specs.Prelude.{◌≡◌, ◌+◌, ◌<◌};
ghost use Rattle.format.specs.Layout.{entry_at, entry_count};
ghost use Rattle.records.specs.Records.{entry_of};

use records::Entry;

#[derive(Clone, Copy)]
pub struct BookReader<'a> {
    pub book: &'a [u8],
    pub next: usize,
}

// Reads the next record and moves on. A function by itself: document 01 asks for one thin function that does so.
pub fn take<'s, 'a>(r: &'s mut BookReader<'a>) -> Entry
    requires { r.old.next < entry_count r.old.book.now }
    ensures { (entry_of result ≡ entry_at r.old.book.now r.old.next)
        × ((r.new.book ≡ r.old.book) × (r.new.next ≡ r.old.next + 1)) }
{
    let at = r.next;
    let o = records::entry_at(r.book, at);
    r.next = at + 1;
    o
}
