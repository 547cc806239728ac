//! Timetables and stores: what they mean, and what may be asked of them. Whoever brings a store has only to meet these traits.
#![tactic(auto)]

ghost use Rattle.std.specs.Prelude.{◌≡◌, ◌≤◌, Bool, true, false, List, [], ◌∷◌, ◌++◌, length, is_some, is_ok, OnErr};
ghost use Rattle.std.specs.Bool.{OnFalse};
ghost use Rattle.std.specs.Option.{unwrap_or};
ghost use Rattle.ordered.specs.Edits.{ToPut, ToRemove};
ghost use Rattle.schedule.specs.Schedules.{record_of};
ghost use Rattle.timetable.specs.Timetables.{Meaning, StoreEdit, schedule_of, not_before, IsMap, IsWithinCapacity, PutsSchedule, RemovesKey};

pub mod laws;

use ordered::table::Full;
use schedule::key::Key;
use schedule::schedule::Schedule;

/// A finite map from keys to schedules, with three questions that change nothing. They may write to the timetable while they look,
/// and leave it the value that it was.
pub trait Timetable {
    // its map, and beside it how many keys the map can have
    ghost meaning: { Self → Meaning };

    /// How many keys the map has.
    fn count(&mut self) -> usize
        ensures value { result ≡ length (meaning self.old).map }
        ensures same { self.new ≡ self.old };

    /// Whether a key is there. Its schedule is copied to `place`, which is left as it was where the key is absent.
    fn find(&mut self, key: Key, place: &mut Schedule) -> bool
        ensures found { result ≡ is_some (schedule_of (meaning self.old).map key) }
        ensures copied { record_of place.new
            ≡ unwrap_or (schedule_of (meaning self.old).map key) (record_of place.old) }
        ensures left { OnFalse result (place.new ≡ place.old) }
        ensures same { self.new ≡ self.old };

    /// The least key that is not before a probe, whose UID number and day may lie past any key's.
    fn not_before(&mut self, probe: Key) -> Option<Key>
        ensures value { result ≡ not_before (meaning self.old).map probe }
        ensures same { self.new ≡ self.old };

    // the map of every timetable is in the order of its keys, and all its records are schedules
    ghost is_map: { (x : Self) → IsMap (meaning x).map };
}

/// A timetable that can also be changed. Its capacity never changes, and its count never passes it.
///
/// Whoever brings a store may name, by `becomes`, what puts and removals make of it beside its meaning, as of the places where its
/// schedules lie. One with nothing to say of that names the relation that always holds, `λ _ _ _. ⊤`.
pub trait Store: Timetable {
    // a store becomes another by puts and removals that are done in order
    ghost becomes: { Self → List StoreEdit → Self → Type 0 };

    /// How many keys the map can have.
    fn capacity(&mut self) -> usize
        ensures value { result ≡ (Self.meaning self.old).capacity }
        ensures bounded { result ≤ 65535 }
        ensures within { IsWithinCapacity (Self.meaning self.old) }
        ensures same { self.new ≡ self.old };

    /// Sets the schedule of its key. It is refused, with no change, only where the key is absent and the count equals the capacity.
    fn put(&mut self, schedule: Schedule) -> Result<(), Full>
        ensures puts { PutsSchedule (Self.meaning self.old) (Self.meaning self.new)
            (record_of schedule)
            (is_ok result) }
        ensures unchanged { OnErr result (self.new ≡ self.old) }
        ensures within { IsWithinCapacity (Self.meaning self.new) }
        ensures becomes { becomes self.old (ToPut (record_of schedule) ∷ []) self.new };

    /// Takes a key out, and says whether it was there.
    fn remove(&mut self, key: Key) -> bool
        ensures removes { RemovesKey (Self.meaning self.old) (Self.meaning self.new) key result }
        ensures unchanged { OnFalse result (self.new ≡ self.old) }
        ensures within { IsWithinCapacity (Self.meaning self.new) }
        ensures becomes { becomes self.old (ToRemove key ∷ []) self.new };

    // by none it stays the store that it was
    ghost becomes_itself: { (x : Self) → becomes x [] x };

    // and by some that are done after others it becomes what it becomes by all of them
    ghost becomes_on: { (x y z : Self) (first then : List StoreEdit)
        → becomes x first y → becomes y then z → becomes x (first ++ then) z };
}
