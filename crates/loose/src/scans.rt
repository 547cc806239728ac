// Searches from the first element to the last.
ghost use Rattle.std.specs.Prelude.{◌≡◌, ℕ, Bool, true, false, length, MatchOption};
ghost use Rattle.maps.specs.Orders.{same};
ghost use Rattle.maps.specs.Maps.{lower, ceiling, map_from};
ghost use Rattle.maps.specs.Places.{NoneOfKey, StandsFirstAt};

use ordered::keys::{KeyOrder, Keyed};

// Whether two keys are one.
fn is_same<K: KeyOrder>(a: K, b: K) -> bool
    ensures { result ≡ same K.before a b }
{
    !a.is_before(&b) && !b.is_before(&a)
}

// The place of the first element of `key`, if there is one.
pub(crate) fn scan<E: Keyed>(elements: &[E], key: E::Key) -> Option<usize>
    ensures { MatchOption result
        (NoneOfKey E.Key.before E.keyed elements.now key (length elements.now))
        (StandsFirstAt E.Key.before E.keyed elements.now key) }
{
    elements
        .iter()
        .position(|element| is_same(element.key(), key))
}

// The lower of `a` and `best`.
fn lower_of<K: KeyOrder>(a: K, best: Option<K>) -> Option<K>
    ensures { result ≡ lower K.before a best }
{
    match best {
        Some(b) if b.is_before(&a) => best,
        _ => Some(a),
    }
}

// The lowest key that is not before `probe`, if there is one.
pub(crate) fn lowest<E: Keyed>(elements: &[E], probe: E::Key) -> Option<E::Key>
    ensures { result
        ≡ ceiling E.Key.before E.keyed (map_from E.Key.before E.keyed elements.now) probe }
{
    elements.iter().fold(None, |best, element| {
        let there = element.key();
        if there.is_before(&probe) {
            best
        } else {
            lower_of(there, best)
        }
    })
}
