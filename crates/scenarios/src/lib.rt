//! Examples of what stores and extracts do, run as tests.
#![tactic(auto)]

ghost use Rattle.std.specs.Prelude.{◌≡◌, IfSome, IfNone};
ghost use Rattle.std.specs.Bool.{IsFalse};
ghost use Rattle.schedule.specs.Records.{in_range, is_schedule};
ghost use Rattle.schedule.specs.Schedules.{record_of};
ghost use Rattle.scenarios.specs.Samples.{sample, permanent_sample};

use forms::end::End;
use forms::letters::Stp;
use schedule::key::Key;
use schedule::record::Record;
use schedule::schedule::Schedule;

/// The record of a train's schedule, by its UID number, that runs every day from the day `from` to
/// the day `to`, both day numbers, as 1A23 with no calls. It need not be one of a schedule.
pub fn record(uid: u32, from: u16, stp: Stp, to: u16) -> Record
    ensures { result ≡ sample (record { uid = uid; from = from; stp = stp }) to }
{
    Record {
        key: Key { uid, from, stp },
        to: End::Day(to),
        days: [true; 7],
        train: *b"1A23",
        ..Schedule::blank().into()
    }
}

/// A permanent schedule of a train, by its UID number, that runs on one day, a day number. There is
/// none where the UID number is 2,600,000 or more, or the day above 36,524.
pub fn one_day(uid: u32, day: u16) -> Option<Schedule>
    ensures schedule { IfSome result (λ s. record_of s ≡ permanent_sample uid day day) }
    ensures none { IfNone result (IsFalse (is_schedule (permanent_sample uid day day))) }
{
    Schedule::try_from(record(uid, day, Stp::Permanent, day)).ok()
}

/// A permanent schedule of a train, by its UID number, that runs every day from the day `from` to
/// the day `to`, both day numbers. There is none where the UID number is 2,600,000 or more, `to`
/// above 36,524 or before `from`.
pub fn permanent(uid: u32, from: u16, to: u16) -> Option<Schedule>
    ensures schedule { IfSome result (λ s. record_of s ≡ permanent_sample uid from to) }
    ensures none { IfNone result (IsFalse (in_range (permanent_sample uid from to))) }
{
    let stp = Stp::Permanent;
    Schedule::begun(Key { uid, from, stp }, End::Day(to), [true; 7], *b"1A23")
}

#[cfg(test)]
mod extracts;

#[cfg(test)]
mod tests {
    use super::*;
    use std::process::Abort;
    use std::test::Fail;
    use stores::{Bag, Table};
    use timetable::{Store, Timetable};

    fn key(uid: u32, day: u16) -> Key {
        Key {
            uid,
            from: day,
            stp: Stp::Permanent,
        }
    }

    // A store of two slots, filled, refused, emptied by one and filled again.
    fn two_slots<S: Store>(rt: &impl Abort, store: &mut S) -> Result<(), Fail> {
        assert!(rt; store.capacity() == 2);
        let a = one_day(5, 10).ok_or("no schedule")?;
        let b = one_day(2, 10).ok_or("no schedule")?;
        let c = one_day(9, 10).ok_or("no schedule")?;
        assert!(rt; store.put(a).is_ok());
        assert!(rt; store.put(b).is_ok());
        assert!(rt; store.put(c).is_err());
        assert!(rt; store.put(a).is_ok());
        assert!(rt; store.count() == 2);
        assert!(rt; store.remove(key(5, 10)));
        assert!(rt; !store.remove(key(5, 10)));
        assert!(rt; store.put(c).is_ok());
        Ok(())
    }

    // What is found after that, and what is not.
    fn found<S: Store>(rt: &impl Abort, store: &mut S) -> Result<(), Fail> {
        let mut place = one_day(7, 7).ok_or("no schedule")?;
        assert!(rt; !store.find(key(5, 10), &mut place));
        assert!(rt; place.key().uid == 7);
        assert!(rt; store.find(key(9, 10), &mut place));
        assert!(rt; place.key().uid == 9);
        let first = store.not_before(key(0, 0)).ok_or("none")?;
        assert!(rt; first.uid == 2);
        let next = store.not_before(key(2, 11)).ok_or("none")?;
        assert!(rt; next.uid == 9);
        assert!(rt; store.not_before(key(4_000_000_000, 65_535)).is_none());
        Ok(())
    }

    // A store of no slots refuses each put and says no to each removal.
    fn no_slots<S: Store>(rt: &impl Abort, store: &mut S) -> Result<(), Fail> {
        assert!(rt; store.capacity() == 0);
        let a = one_day(5, 10).ok_or("no schedule")?;
        assert!(rt; store.put(a).is_err());
        assert!(rt; !store.remove(key(5, 10)));
        assert!(rt; store.count() == 0);
        assert!(rt; store.not_before(key(0, 0)).is_none());
        Ok(())
    }

    #[test]
    fn table_keeps_schedules(rt: HostRuntime) -> Result<(), Fail> {
        let mut slots = [record(1, 1, Stp::Overlay, 1), record(1, 1, Stp::Overlay, 1)];
        let mut store = Table::new(&mut slots);
        two_slots(&rt, &mut store)?;
        found(&rt, &mut store)
    }

    #[test]
    fn bag_keeps_schedules(rt: HostRuntime) -> Result<(), Fail> {
        let mut slots = [record(1, 1, Stp::Overlay, 1), record(1, 1, Stp::Overlay, 1)];
        let mut store = Bag::new(&mut slots);
        two_slots(&rt, &mut store)?;
        found(&rt, &mut store)
    }

    #[test]
    fn no_slots_hold_nothing(rt: HostRuntime) -> Result<(), Fail> {
        let mut slots: [Record; 0] = [];
        let mut table = Table::new(&mut slots);
        no_slots(&rt, &mut table)?;
        let mut others: [Record; 0] = [];
        let mut bag = Bag::new(&mut others);
        no_slots(&rt, &mut bag)
    }

    #[test]
    fn what_is_no_schedule(rt: HostRuntime) {
        assert!(rt; one_day(2_600_000, 1).is_none());
        assert!(rt; one_day(2_599_999, 36_525).is_none());
        assert!(rt; one_day(2_599_999, 36_524).is_some());
        assert!(rt; Schedule::try_from(record(1, 2, Stp::Permanent, 1)).is_err());
    }
}
