//! A store over any table that is seen as a map.
ghost use Rattle.std.specs.Prelude.{◌≡◌, ◌≤◌, true};
ghost use Rattle.ordered.specs.Tables.{room};
ghost use Rattle.schedule.specs.Records.{every_schedule};

use crate::{Bag, Table};
use loose::loose::Loose;
use ordered::mapped::Mapped;
use ordered::ordered::Ordered;
use ordered::table::Full;
use schedule::key::Key;
use schedule::record::Record;
use schedule::schedule::Schedule;
use timetable::{Store, Timetable};

/// How many schedules a store holds at the most.
pub const MOST: usize = 65_535;

/// A store whose schedules lie as plain records in a table, over slots from the caller.
#[derive(Drop)]
pub struct SlotStore<T: Mapped<Record>> {
    table: T,
    ghost small: { room (T.Mapped.slots table) ≤ 65535 },
    ghost valid: { every_schedule (T.Mapped.map table) ≡ true },
}

impl SlotStore<Ordered<'_, Record>> {
    ghost use Rattle.std.specs.Prelude.{min, [], length, take};
    ghost use Rattle.ordered.specs.Tables.{items};
    ghost use Rattle.stores.specs.Stores.{table_of};

    /// An empty store over `slots`, whatever they hold. Its capacity is the number of slots, or 65,535 where there are more.
    pub fn new<'b>(slots: &'b mut [Record]) -> Table<'b>
        ensures empty { items (table_of result).elements ≡ [] }
        ensures capacity { room (table_of result).elements ≡ min (length slots.old) 65535 }
        ensures kept { (table_of result).elements.slots.now ≡ take 65535 slots.old }
    {
        let most = slots.len().min(MOST);
        SlotStore {
            table: Ordered::new(&mut slots[..most]),
        }
    }
}

impl SlotStore<Loose<'_, Record>> {
    ghost use Rattle.std.specs.Prelude.{min, [], length, take};
    ghost use Rattle.ordered.specs.Tables.{items};
    ghost use Rattle.stores.specs.Stores.{table_of};

    /// An empty store over `slots`, whatever they hold. Its capacity is the number of slots, or 65,535 where there are more.
    pub fn new<'b>(slots: &'b mut [Record]) -> Bag<'b>
        ensures empty { items (table_of result).elements ≡ [] }
        ensures capacity { room (table_of result).elements ≡ min (length slots.old) 65535 }
        ensures kept { (table_of result).elements.slots.now ≡ take 65535 slots.old }
    {
        let most = slots.len().min(MOST);
        SlotStore {
            table: Loose::new(&mut slots[..most]),
        }
    }
}

// The map is the table's, and the capacity its number of slots.
impl<T: Mapped<Record>> Timetable for SlotStore<T> {
    ghost use Rattle.std.specs.Prelude.{length};
    ghost use Rattle.timetable.specs.Timetables.{IsWithinCapacity};
    ghost use Rattle.stores.specs.Stores.{meaning_of};

    ghost meaning = { meaning_of T.Mapped.map T.Mapped.slots };

    ghost is_map = { λ s. record { rising = T.Mapped.rises s.table; schedules = s.valid } };

    fn count(&mut self) -> usize
        ensures value { result ≡ length (meaning_of T.Mapped.map T.Mapped.slots self.old).map }
        ensures within { IsWithinCapacity (meaning_of T.Mapped.map T.Mapped.slots self.old) }
        ensures same { self.new ≡ self.old }
    {
        self.table.len()
    }

    fn find(&mut self, key: Key, place: &mut Schedule) -> bool {
        match self.table.find(key) {
            Some(fields) => place.set(&fields),
            None => false,
        }
    }

    fn not_before(&mut self, probe: Key) -> Option<Key> {
        self.table.not_before(probe)
    }
}

// Beyond what every store promises, the slots past the last schedule keep what they had. By puts and removals the slots become
// what these make of them one after another.
impl<T: Mapped<Record>> Store for SlotStore<T> {
    ghost use Rattle.std.specs.Prelude.{[], ◌∷◌, is_ok, OnErr};
    ghost use Rattle.std.specs.Bool.{OnFalse};
    ghost use Rattle.ordered.specs.Tables.{RestKept};
    ghost use Rattle.schedule.specs.Schedules.{record_of};
    ghost use Rattle.timetable.specs.Timetables.{IsWithinCapacity, PutsSchedule, RemovesKey};
    ghost use Rattle.stores.specs.Stores.{table_of, meaning_of, SlotsEdited};
    ghost use Rattle.ordered.specs.Edits.{ToPut, ToRemove};
    ghost use Rattle.ordered.specs.Chains.{edited_none, edited_more};
    ghost use Rattle.schedule.specs.Keys.{key_before};
    ghost use Rattle.schedule.specs.Records.{key_of};

    ghost becomes = { SlotsEdited T.Mapped.order_after_put T.Mapped.order_after_removal
        T.Mapped.slots };

    ghost becomes_itself = { λ s.
        edited_none key_before key_of T.Mapped.order_after_put T.Mapped.order_after_removal
        (T.Mapped.slots s.table) };

    ghost becomes_on = { λ s t u.
        edited_more key_before key_of T.Mapped.order_after_put T.Mapped.order_after_removal
        (T.Mapped.slots s.table) (T.Mapped.slots t.table) (T.Mapped.slots u.table) };

    fn capacity(&mut self) -> usize {
        self.table.room()
    }

    fn put(&mut self, schedule: Schedule) -> Result<(), Full>
        ensures puts { PutsSchedule (meaning_of T.Mapped.map T.Mapped.slots self.old)
            (meaning_of T.Mapped.map T.Mapped.slots self.new) (record_of schedule)
            (is_ok result) }
        ensures unchanged { OnErr result (self.new ≡ self.old) }
        ensures within { IsWithinCapacity (meaning_of T.Mapped.map T.Mapped.slots self.new) }
        ensures rest { RestKept (T.Mapped.slots (table_of self.old))
            (T.Mapped.slots (table_of self.new)) }
        ensures edited { SlotsEdited T.Mapped.order_after_put T.Mapped.order_after_removal
            T.Mapped.slots self.old (ToPut (record_of schedule) ∷ []) self.new }
    {
        self.table.put(schedule.into())
    }

    fn remove(&mut self, key: Key) -> bool
        ensures removes { RemovesKey (meaning_of T.Mapped.map T.Mapped.slots self.old)
            (meaning_of T.Mapped.map T.Mapped.slots self.new) key result }
        ensures unchanged { OnFalse result (self.new ≡ self.old) }
        ensures within { IsWithinCapacity (meaning_of T.Mapped.map T.Mapped.slots self.new) }
        ensures rest { RestKept (T.Mapped.slots (table_of self.old))
            (T.Mapped.slots (table_of self.new)) }
        ensures edited { SlotsEdited T.Mapped.order_after_put T.Mapped.order_after_removal
            T.Mapped.slots self.old (ToRemove key ∷ []) self.new }
    {
        self.table.remove(key)
    }
}
