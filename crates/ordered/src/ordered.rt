// Elements in the order of their keys.
ghost use Rattle.std.specs.Prelude.{◌≡◌, true, IsTrue};
ghost use Rattle.maps.specs.Maps.{ascending};
ghost use Rattle.ordered.specs.Tables.{items};

use crate::keys::Keyed;
use crate::slots::Slots;

/// A table of elements over lent slots, which stand in the order of their keys.
#[derive(Drop)]
pub struct Ordered<'a, E: Keyed> {
    /// The slots, the first of which hold the elements.
    pub elements: Slots<'a, E>,
    ghost rising: { IsTrue (ascending E.Key.before E.keyed (items elements)) },
}
