//! What is pending, done to the store.
ghost use Rattle.std.specs.Prelude.{◌≡◌, true, [], ◌∷◌};
ghost use Rattle.schedule.specs.Transactions.{is_lawful};
ghost use Rattle.timetable.specs.Timetables.{IsWithinCapacity};
ghost use Rattle.overlay.specs.Overlays.{pending_in};
ghost use Rattle.overlay.specs.Settling.{after_try, after_tries, edit_of, edits_of};

use crate::overlay::Overlay;
use crate::pending::Changes;
use crate::questions::schedule_left;
use schedule::transaction::Change;
use timetable::{Store, Timetable};

// Does a transaction to a store.
fn settle_one<S: Store>(store: &mut S, change: &Change)
    requires lawful { is_lawful change.now ≡ true }
    ensures meaning { S.meaning store.new ≡ after_try (S.meaning store.old) change.now }
    ensures within { IsWithinCapacity (S.meaning store.new) }
    ensures becomes { S.Store.becomes store.old (edit_of change.now ∷ []) store.new }
{
    match schedule_left(change) {
        Some(schedule) => {
            let _ = store.put(schedule);
        }
        None => {
            store.remove(change.key());
        }
    }
}

// Does transactions to a store in order, passing over what finds no room.
fn settle_all<S: Store>(store: &mut S, changes: &Changes<'_>)
    ensures meaning { S.meaning store.new ≡ after_tries (S.meaning store.old) changes.now.list.now }
    ensures within { IsWithinCapacity (S.meaning store.old)
        → IsWithinCapacity (S.meaning store.new) }
    ensures becomes { S.Store.becomes store.old (edits_of changes.now.list.now) store.new }
{
    for change in changes.list {
        settle_one(store, change);
    }
}

impl<S: Store> Overlay<S> {
    /// Does what is pending to the store, in order, passing over what finds no room; then nothing is pending.
    pub fn settle(&mut self)
        ensures store { S.meaning self.new.store
            ≡ after_tries (S.meaning self.old.store) (pending_in self.old.pending) }
        ensures within { IsWithinCapacity (S.meaning self.old.store)
            → IsWithinCapacity (S.meaning self.new.store) }
        ensures becomes { S.Store.becomes self.old.store (edits_of (pending_in self.old.pending))
            self.new.store }
        ensures pending { pending_in self.new.pending ≡ [] }
    {
        settle_all(&mut self.store, &self.pending.all());
        self.pending.clear();
    }
}
