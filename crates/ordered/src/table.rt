// What an ordered table can be asked, and how it changes.
ghost use Rattle.std.specs.Prelude.{◌≡◌, [], length, Some, codes, slice_get};
ghost use Rattle.ordered.specs.Tables.{items, room, IsLent};
ghost use Rattle.maps.specs.Maps.{with_element, without_element};
ghost use Rattle.ordered.specs.Fits.{items_fit};

use crate::keys::{KeyOrder, Keyed};
use crate::mapped::Mapped;
use crate::ordered::Ordered;
use crate::slots::Slots;
use std::error::Error;
use std::fmt;

/// There is no room for one element more.
#[derive(Clone, Copy, Debug, PartialEq, Eq)]
pub struct Full;

impl fmt::Display for Full {
    ghost output = { λ _. Some (codes "there is no room for one more") };

    fn fmt<W: fmt::Write>(&self, f: &mut fmt::Formatter<W>) -> fmt::Result {
        f.write_str("there is no room for one more")
    }
}

impl Error for Full {}

impl<E: Keyed> Ordered<'_, E> {
    /// A table over `slots` that holds nothing, whatever they have in them.
    pub fn new<'b>(slots: &'b mut [E]) -> Ordered<'b, E>
        ensures empty { items result.elements ≡ [] }
        ensures room { room result.elements ≡ length slots.old }
        ensures lent { IsLent slots.entry result.elements }
    {
        Ordered {
            elements: Slots::new(slots),
        }
    }

    /// The element at a place that counts from 0, in the order of the keys.
    pub fn nth(&mut self, n: usize) -> Option<E>
        ensures value { result ≡ slice_get (items self.old.elements) n }
        ensures same { self.new ≡ self.old }
    {
        self.elements.get(n)
    }
}

// The map is the elements as they stand.
impl<E: Keyed> Mapped<E> for Ordered<'_, E> {
    ghost map = { λ t. items t.elements };

    ghost slots = { λ t. t.elements };

    ghost order_after_put = { with_element E.Key.before E.keyed };

    ghost order_after_removal = { without_element E.Key.before E.keyed };

    ghost rises = { λ t. t.rising };

    ghost fits = { λ t. items_fit t.elements };

    fn len(&mut self) -> usize {
        self.elements.len()
    }

    fn room(&mut self) -> usize {
        self.elements.room()
    }

    fn find(&mut self, key: E::Key) -> Option<E> {
        match self.elements.search(key) {
            Ok(place) => self.elements.get(place),
            Err(_) => None,
        }
    }

    fn not_before(&mut self, probe: E::Key) -> Option<E::Key> {
        let place = self.elements.seek(probe);
        self.elements.get(place).map(|there| there.key())
    }

    // A new element goes to its place in the order.
    fn put(&mut self, entry: E) -> Result<(), Full> {
        match self.elements.search(entry.key()) {
            Ok(place) => {
                self.elements.set(place, entry);
                Ok(())
            }
            Err(place) => self.elements.insert(place, entry),
        }
    }

    fn remove(&mut self, key: E::Key) -> bool {
        match self.elements.search(key) {
            Ok(place) => {
                self.elements.remove(place);
                true
            }
            Err(_) => false,
        }
    }
}
