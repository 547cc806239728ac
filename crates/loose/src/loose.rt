// Elements in any order.
ghost use Rattle.std.specs.Prelude.{◌≡◌, true, IsTrue};
ghost use Rattle.maps.specs.Maps.{has_distinct_keys};
ghost use Rattle.ordered.specs.Tables.{items};

use ordered::keys::Keyed;
use ordered::slots::Slots;

/// A table of elements over lent slots, in no order, no two of one key.
#[derive(Drop)]
pub struct Loose<'a, E: Keyed> {
    /// The slots, the first of which hold the elements.
    pub elements: Slots<'a, E>,
    ghost distinct: { IsTrue (has_distinct_keys E.Key.before E.keyed (items elements)) },
}
