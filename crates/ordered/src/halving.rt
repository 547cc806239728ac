// The search by halves.
ghost use Rattle.std.specs.Prelude.{◌≡◌, ◌≤◌, length};
ghost use Rattle.maps.specs.Places.{Ascends};
ghost use Rattle.ordered.specs.Bounds.{IsLowerBound};

use crate::keys::{KeyOrder, Keyed};

/// The first of the places below `len` whose key is not before `key`, or `len`, where the keys rise. Places count from 0.
pub fn lower_bound<E: Keyed>(slots: &mut [E], len: usize, key: E::Key) -> usize
    ensures same { slots.new ≡ slots.old }
    ensures within { result ≤ len }
    ensures found { len ≤ length slots.old → Ascends E.Key.before E.keyed slots.old len
        → IsLowerBound E.Key.before E.keyed slots.old len key result }
{
    let mut low = 0;
    let mut high = len.min(slots.len());
    while low < high {
        let mid = low + (high - low) / 2;
        if slots[mid].key().is_before(&key) {
            low = mid + 1;
        } else {
            high = mid;
        }
    }
    low
}
