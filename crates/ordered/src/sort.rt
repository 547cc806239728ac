// Elements put into the order of their keys.
ghost use Rattle.std.specs.Prelude.{◌≡◌, ◌≤◌, length, take, drop, IsTrue};
ghost use Rattle.std.specs.Ordering.{is_lt};
ghost use Rattle.maps.specs.Maps.{has_distinct_keys, map_from};
ghost use Rattle.ordered.specs.Tables.{items, RestKept};

use crate::keys::{KeyOrder, Keyed};
use crate::slots::Slots;
use std::cmp::Ordering;

// How the keys of two elements stand.
fn compare<E: Keyed>(here: &E, there: &E) -> Ordering
    ensures { is_lt result ≡ E.Key.before (E.keyed here.now) (E.keyed there.now) }
{
    if here.key().is_before(&there.key()) {
        Ordering::Less
    } else {
        Ordering::Greater
    }
}

// Orders the first elements, so many as are counted.
fn sort_first<E: Keyed>(slots: &mut [E], len: usize)
    requires { len ≤ length slots.old }
    ensures items { IsTrue (has_distinct_keys E.Key.before E.keyed (take len slots.old))
        → take len slots.new ≡ map_from E.Key.before E.keyed (take len slots.old) }
    ensures rest { drop len slots.new ≡ drop len slots.old }
    ensures long { length slots.new ≡ length slots.old }
{
    slots[..len].sort_unstable_by(compare);
}

impl<E: Keyed> Slots<'_, E> {
    /// Orders the elements that are held, no two of which have one key: they then stand as the map that they are.
    pub fn sort(&mut self)
        ensures items { IsTrue (has_distinct_keys E.Key.before E.keyed (items self.old))
            → items self.new ≡ map_from E.Key.before E.keyed (items self.old) }
        ensures len { self.new.len ≡ self.old.len }
        ensures rest { RestKept self.old self.new }
    {
        let n = self.len;
        sort_first(self.slots, n);
    }
}
