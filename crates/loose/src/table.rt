// What a loose table can be asked, and how it changes.
ghost use Rattle.std.specs.Prelude.{◌≡◌, ℕ, ◌-◌, ◌<◌, [], length, take, slice_index_or, slice_set};
ghost use Rattle.maps.specs.Maps.{lookup, map_from};
ghost use Rattle.ordered.specs.Tables.{items, room, IsLent, RestKept};
ghost use Rattle.loose.specs.Order.{in_place_or_last, last_in_its_place};
ghost use Rattle.loose.specs.Maps.{map_rises, map_fits};

use crate::loose::Loose;
use crate::scans::{lowest, scan};
use ordered::keys::{KeyOrder, Keyed};
use ordered::mapped::Mapped;
use ordered::slots::Slots;
use ordered::table::Full;

impl<E: Keyed> Loose<'_, E> {
    /// A table over `slots` that holds nothing, whatever they have in them.
    pub fn new<'b>(slots: &'b mut [E]) -> Loose<'b, E>
        ensures empty { items result.elements ≡ [] }
        ensures room { room result.elements ≡ length slots.old }
        ensures lent { IsLent slots.entry result.elements }
    {
        Loose {
            elements: Slots::new(slots),
        }
    }
}

// The map is the elements put into the order of their keys.
impl<E: Keyed> Mapped<E> for Loose<'_, E> {
    ghost map = { λ t. map_from E.Key.before E.keyed (items t.elements) };

    ghost slots = { λ t. t.elements };

    ghost order_after_put = { in_place_or_last E.Key.before E.keyed };

    ghost order_after_removal = { last_in_its_place E.Key.before E.keyed };

    ghost rises = { λ t.
        map_rises E.Key.before E.keyed E.Key.irreflexive E.Key.transitive E.Key.total
        (items t.elements) };

    ghost fits = { λ t.
        map_fits E.Key.before E.keyed E.Key.irreflexive E.Key.transitive E.Key.total
        t.elements t.distinct };

    fn len(&mut self) -> usize
        ensures value { result ≡ length (map_from E.Key.before E.keyed (items self.old.elements)) }
        ensures held { result ≡ length (items self.old.elements) }
        ensures same { self.new ≡ self.old }
    {
        self.elements.len()
    }

    fn room(&mut self) -> usize {
        self.elements.room()
    }

    fn find(&mut self, key: E::Key) -> Option<E>
        ensures value { result ≡ lookup E.Key.before E.keyed
            (map_from E.Key.before E.keyed (items self.old.elements)) key }
        ensures held { result ≡ lookup E.Key.before E.keyed (items self.old.elements) key }
        ensures same { self.new ≡ self.old }
    {
        match scan(self.elements.as_slice(), key) {
            Some(place) => self.elements.get(place),
            None => None,
        }
    }

    fn not_before(&mut self, probe: E::Key) -> Option<E::Key> {
        lowest(self.elements.as_slice(), probe)
    }

    // A new element goes after the others.
    fn put(&mut self, entry: E) -> Result<(), Full> {
        match scan(self.elements.as_slice(), entry.key()) {
            Some(place) => {
                self.elements.set(place, entry);
                Ok(())
            }
            None => self.elements.try_push(entry),
        }
    }

    // The last element takes the place of the one that goes.
    fn remove(&mut self, key: E::Key) -> bool {
        match scan(self.elements.as_slice(), key) {
            Some(place) => {
                take_out(&mut self.elements, place);
                true
            }
            None => false,
        }
    }
}

// Takes the element at `place` out, and puts the last one there.
fn take_out<E: Copy>(pile: &mut Slots<'_, E>, place: usize)
    requires { place < pile.old.len }
    ensures len { pile.new.len ≡ pile.old.len - 1 }
    ensures items { (d : E) → let last = length (items pile.old) - 1 in
        items pile.new
        ≡ slice_set (take last (items pile.old)) place (slice_index_or (items pile.old) last d) }
    ensures rest { RestKept pile.old pile.new }
{
    if let Some(last) = pile.pop() {
        pile.set(place, last);
    }
}
