// A store with transactions pending over it.
ghost use Rattle.std.specs.Prelude.{◌≡◌, []};
ghost use Rattle.timetable.specs.Timetables.{is_full};
ghost use Rattle.timetable.specs.Laws.{has_key};
ghost use Rattle.overlay.specs.Overlays.{pending_in, overlay_of};

use crate::pending::Pending;
use crate::questions::{count_after, has_after};
use schedule::key::Key;
use timetable::Store;

/// The store itself, and beside it what is pending.
#[derive(Drop)]
pub struct Overlay<S> {
    pub store: S,
    pub pending: Pending,
}

impl<S: Store> Overlay<S> {
    /// The overlay of a store with nothing pending.
    pub fn new(store: S) -> Overlay<S>
        ensures store { result.store ≡ store }
        ensures pending { pending_in result.pending ≡ [] }
    {
        Overlay {
            store,
            pending: Pending::new(),
        }
    }

    /// Whether a key is in the overlay.
    pub fn holds(&mut self, key: Key) -> bool
        ensures value { result ≡ has_key (overlay_of S.meaning self.old).map key }
        ensures same { self.new ≡ self.old }
    {
        has_after(&mut self.store, &self.pending.all(), key)
    }

    /// Whether the overlay has as many keys as the store has room for.
    pub fn is_full(&mut self) -> bool
        ensures value { result ≡ is_full (overlay_of S.meaning self.old) }
        ensures same { self.new ≡ self.old }
    {
        count_after(&mut self.store, &self.pending.all()) == self.store.capacity()
    }
}
