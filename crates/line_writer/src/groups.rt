// Items and groups of a line.
ghost use Rattle.std.specs.Prelude.{◌≡◌, cond, [], ◌∷◌, map, ◌+◌, ◌≤◌, ◌<◌, length};
ghost use Rattle.base.specs.Bits.{members};
ghost use Rattle.putting.specs.Put.{Put};
ghost use Rattle.wish_lines.specs.Lines.{item_text, joined, group_text};
ghost use Rattle.line_writer.specs.Groups.{left, items_of, groups_of, EmptyAbove};

use bits::Members;
use putting::{put_byte, put_decimal};

// The byte, or nothing.
fn put_if(text: &mut [u8], at: usize, yes: bool, b: u8) -> usize
    requires { at ≤ length text.old }
    ensures { Put (cond yes (b ∷ []) []) at text.old text.new result }
{
    if yes { put_byte(text, at, b) } else { at }
}

// The members of a set with a comma between each two, and one first where something stands before them.
fn put_members(text: &mut [u8], at: usize, after: bool, set: u64) -> usize
    requires { at ≤ length text.old }
    ensures { Put (left after (map item_text (members set))) at text.old text.new result }
{
    let mut end = at;
    let mut comma = after;
    for w in Members(set) {
        end = put_if(&mut *text, end, comma, b',');
        end = put_decimal(&mut *text, end, w);
        comma = true;
    }
    end
}

// A group: whether none is one of its items, and the set of its workshops.
#[derive(Clone, Copy)]
struct Group {
    outside: bool,
    set: u64,
}

impl Group {
    // How many items it has.
    fn size(self) -> usize
        ensures { result ≡ length (items_of self.outside self.set) }
    {
        usize::from(self.outside) + bits::count(self.set) as usize
    }
}

// The items of a group: none where it is one of them, and the members of the set.
fn put_items(text: &mut [u8], at: usize, group: Group) -> usize
    requires { at ≤ length text.old }
    ensures { Put (joined (map item_text (items_of group.outside group.set))) at text.old text.new result }
{
    let end = put_if(&mut *text, at, group.outside, b'-');
    put_members(text, end, group.outside, group.set)
}

// A group, with braces around two or more items.
fn put_group(text: &mut [u8], at: usize, group: Group) -> usize
    requires { at ≤ length text.old }
    ensures { Put (group_text (items_of group.outside group.set)) at text.old text.new result }
{
    let braces = 1 < group.size();
    let end = put_if(&mut *text, at, braces, b'{');
    let end = put_items(&mut *text, end, group);
    put_if(text, end, braces, b'}')
}

// The groups of tiers 1 to 65 that have items, with a comma between each two; no tier above `last` has any.
pub fn put_groups(text: &mut [u8], at: usize, sets: &[u64], outside: usize, last: usize) -> usize
    requires at_in_bounds { (at ≤ length text.old) × (length sets.now ≡ 66) }
    requires outside_le_last { ((outside ≤ last) × (last ≤ 65)) × EmptyAbove last sets.now }
    ensures { Put (joined (map group_text (groups_of sets.now outside 65 1))) at text.old text.new result }
{
    let mut end = at;
    let mut comma = false;
    for t in 1..=last {
        let group = Group {
            outside: outside == t,
            set: sets[t],
        };
        if group.size() == 0 {
            continue;
        }
        end = put_if(&mut *text, end, comma, b',');
        end = put_group(&mut *text, end, group);
        comma = true;
    }
    end
}
