// The least key after some transactions.
ghost use Rattle.std.specs.Prelude.{◌≡◌, Bool, ◌||◌};
ghost use Rattle.schedule.specs.declared.key.Key.{Key};
ghost use Rattle.timetable.specs.Laws.{LeastOf};
ghost use Rattle.overlay.specs.Leasts.{is_untouched, is_set, is_lower, takes_place};

use crate::last::last_on;
use crate::questions::sets;
use ordered::keys::KeyOrder;
use schedule::key::Key;
use schedule::order::next_in_train;
use schedule::transaction::Change;
use timetable::Timetable;

// The least key from a probe on that no transaction is on.
pub(crate) fn first_untouched<T: Timetable>(
    timetable: &mut T,
    changes: &[Change],
    probe: Key,
) -> Option<Key>
    ensures least { LeastOf (is_untouched (T.meaning timetable.old).map changes.now) probe result }
    ensures same { timetable.new ≡ timetable.old }
{
    let mut from = probe;
    while let Some(key) = timetable.not_before(from) {
        if last_on(changes, key).is_none() {
            return Some(key);
        }
        from = next_in_train(key);
    }
    None
}

// Whether the transactions leave a schedule under a key.
fn is_set(changes: &[Change], key: Key) -> bool
    ensures { result ≡ is_set changes.now key }
{
    last_on(changes, key).is_some_and(|change| sets(&change))
}

// Whether a key is before the best so far, if there is one.
fn is_lower(key: Key, best: Option<Key>) -> bool
    ensures { result ≡ is_lower key best }
{
    best.is_none_or(|best| key.is_before(&best))
}

// Whether a key that the transactions set is not before the probe, and before the best so far.
fn takes_place(changes: &[Change], probe: Key, key: Key, best: Option<Key>) -> bool
    ensures { result ≡ takes_place changes.now probe key best }
{
    is_set(changes, key) && !key.is_before(&probe) && is_lower(key, best)
}

// The least key from a probe on among those that the transactions set and others, of which `kept` is the least.
pub(crate) fn least_set(changes: &[Change], probe: Key, kept: Option<Key>) -> Option<Key>
    ensures { (test : Key → Bool) → LeastOf test probe kept
        → LeastOf (λ k. test k || is_set changes.now k) probe result }
{
    let mut best = kept;
    for change in changes {
        let key = change.key();
        if takes_place(changes, probe, key, best) {
            best = Some(key);
        }
    }
    best
}
