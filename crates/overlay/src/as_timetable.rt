// The overlay as a timetable.
ghost use Rattle.overlay.specs.Overlays.{overlay_of, pending_in};
ghost use Rattle.overlay.specs.Maps.{all_map};

use crate::least::{first_untouched, least_set};
use crate::overlay::Overlay;
use crate::questions::{count_after, find_after};
use schedule::key::Key;
use schedule::schedule::Schedule;
use timetable::{Store, Timetable};

impl<S: Store> Timetable for Overlay<S> {
    ghost meaning = { overlay_of S.meaning };

    ghost is_map = { λ o. all_map (S.meaning o.store).map (pending_in o.pending)
        (S.Timetable.is_map o.store)
        o.pending.lawful };

    fn count(&mut self) -> usize {
        count_after(&mut self.store, &self.pending.all())
    }

    fn find(&mut self, key: Key, place: &mut Schedule) -> bool {
        find_after(&mut self.store, &self.pending.all(), key, place)
    }

    fn not_before(&mut self, probe: Key) -> Option<Key> {
        let kept = first_untouched(&mut self.store, self.pending.as_slice(), probe);
        least_set(self.pending.as_slice(), probe, kept)
    }
}
