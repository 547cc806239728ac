// A table seen as a map: its elements in the order of their keys.
ghost use Rattle.std.specs.Prelude.{◌≡◌, ◌≤◌, true, List, [], ◌∷◌, length, is_ok, IsTrue, OnErr};
ghost use Rattle.std.specs.Bool.{OnFalse};
ghost use Rattle.maps.specs.Maps.{ascending, lookup, ceiling};
ghost use Rattle.ordered.specs.declared.slots.Slots.{Slots};
ghost use Rattle.ordered.specs.Tables.{room, Put, Removed, RestKept};
ghost use Rattle.ordered.specs.Edits.{Edited, ToPut, ToRemove};

use crate::keys::{KeyOrder, Keyed};
use crate::table::Full;

/// Elements over lent slots, whose map is in the order of their keys, whatever order they stand in.
pub trait Mapped<E: Keyed> {
    ghost map: { Self → List E };

    ghost slots: { Self → Slots E };

    // the elements in the order of their slots, after one is put
    ghost order_after_put: { List E → E → List E };

    // and after that of a key is removed
    ghost order_after_removal: { List E → E.Key → List E };

    /// How many elements are held.
    fn len(&mut self) -> usize
        ensures value { result ≡ length (map self.old) }
        ensures same { self.new ≡ self.old };

    /// How many elements there is room for, those that are held included.
    fn room(&mut self) -> usize
        ensures value { result ≡ room (slots self.old) }
        ensures same { self.new ≡ self.old };

    /// The element of a key, if there is one.
    fn find(&mut self, key: E::Key) -> Option<E>
        ensures value { result ≡ lookup E.Key.before E.keyed (map self.old) key }
        ensures same { self.new ≡ self.old };

    /// The first key that is not before `probe`, if there is one.
    fn not_before(&mut self, probe: E::Key) -> Option<E::Key>
        ensures value { result ≡ ceiling E.Key.before E.keyed (map self.old) probe }
        ensures same { self.new ≡ self.old };

    /// Puts an element in the place of the one of its key, or adds it where there is room. It is refused where its key is
    /// absent and there is no room.
    fn put(&mut self, entry: E) -> Result<(), Full>
        ensures put { Put E.Key.before E.keyed (map self.old) (map self.new)
            (room (slots self.old)) entry (is_ok result) }
        ensures unchanged { OnErr result (self.new ≡ self.old) }
        ensures rest { RestKept (slots self.old) (slots self.new) }
        ensures edited { Edited E.Key.before E.keyed order_after_put order_after_removal
            (slots self.old) (ToPut entry ∷ []) (slots self.new) };

    /// Takes the element of a key out, and says whether there was one.
    fn remove(&mut self, key: E::Key) -> bool
        ensures removed { Removed E.Key.before E.keyed (map self.old) (map self.new) key result }
        ensures unchanged { OnFalse result (self.new ≡ self.old) }
        ensures rest { RestKept (slots self.old) (slots self.new) }
        ensures edited { Edited E.Key.before E.keyed order_after_put order_after_removal
            (slots self.old) (ToRemove key ∷ []) (slots self.new) };

    // The map of every table is in the order of its keys.
    ghost rises: { (x : Self) → IsTrue (ascending E.Key.before E.keyed (map x)) };

    // Every table has slots for its elements.
    ghost fits: { (x : Self) → length (map x) ≤ room (slots x) };
}
