// What can be asked of a store with transactions pending over it.
ghost use Rattle.std.specs.Prelude.{◌≡◌, ◌≤◌, Bool, true, false, length, is_some, Some, None, MatchOption};
ghost use Rattle.std.specs.Bool.{OnFalse};
ghost use Rattle.std.specs.Option.{unwrap_or};
ghost use Rattle.schedule.specs.Transactions.{is_lawful};
ghost use Rattle.timetable.specs.Timetables.{schedule_of};
ghost use Rattle.timetable.specs.Laws.{has_key};
ghost use Rattle.overlay.specs.Overlays.{done_all, leaves};

use crate::last::last_on;
use crate::pending::Changes;
use schedule::key::Key;
use schedule::schedule::Schedule;
use schedule::transaction::Change;
use timetable::{Store, Timetable};

// Whether a transaction leaves a schedule under its key.
pub(crate) fn sets(change: &Change) -> bool
    ensures { result ≡ is_some (leaves change.now) }
{
    !matches!(change, Change::Delete(_))
}

// The schedule that a transaction leaves under its key.
pub(crate) fn schedule_left(change: &Change) -> Option<Schedule>
    requires lawful { is_lawful change.now ≡ true }
    ensures { MatchOption result (leaves change.now ≡ None)
        (λ s. leaves change.now ≡ Some s.fields) }
{
    match change {
        Change::New(fields) | Change::Revise(fields) => Schedule::try_from(*fields).ok(),
        Change::Delete(_) => None,
    }
}

// Whether a key is there after some transactions.
pub(crate) fn has_after<T: Timetable>(timetable: &mut T, changes: &Changes<'_>, key: Key) -> bool
    ensures value { result
        ≡ has_key (done_all (T.meaning timetable.old).map changes.now.list.now) key }
    ensures same { timetable.new ≡ timetable.old }
{
    match last_on(changes.list, key) {
        Some(change) => sets(&change),
        None => timetable.find(key, &mut Schedule::blank()),
    }
}

// Whether a key is there after some transactions. Its schedule is copied to `place`, which is left as it was where the key is absent.
pub(crate) fn find_after<T: Timetable>(
    timetable: &mut T,
    changes: &Changes<'_>,
    key: Key,
    place: &mut Schedule,
) -> bool
    ensures found { result
        ≡ has_key (done_all (T.meaning timetable.old).map changes.now.list.now) key }
    ensures copied { place.new.fields ≡ unwrap_or
        (schedule_of (done_all (T.meaning timetable.old).map changes.now.list.now) key)
        place.old.fields }
    ensures left { OnFalse result (place.new ≡ place.old) }
    ensures same { timetable.new ≡ timetable.old }
{
    match last_on(changes.list, key) {
        Some(change) => match schedule_left(&change) {
            Some(schedule) => {
                *place = schedule;
                true
            }
            None => false,
        },
        None => timetable.find(key, place),
    }
}

// How many keys there are after some transactions on a store.
pub(crate) fn count_after<S: Store>(store: &mut S, changes: &Changes<'_>) -> usize
    ensures value { result ≡ length (done_all (S.meaning store.old).map changes.now.list.now) }
    ensures same { store.new ≡ store.old }
{
    // a store's count is never above its capacity
    let mut count = store.count().min(store.capacity());
    for (i, change) in changes.list.iter().enumerate() {
        let before = has_after(store, &changes.first(i), change.key());
        if sets(change) {
            if !before {
                count += 1;
            }
        } else if before {
            count -= 1;
        }
    }
    count
}
