// Which schedule of a train is in force.
ghost use Rattle.std.specs.Prelude.{◌≡◌, ◌+◌, None, Some, if◌then◌else◌};
ghost use Rattle.schedule.specs.declared.record.Record.{Record};
ghost use Rattle.timetable.specs.Timetables.{schedule_of, not_before};
ghost use Rattle.running.specs.Running.{covering, IsForceOf};
ghost use Rattle.running.specs.Walking.{outranking, takes, record_in, first_of, IsFirst};

use forms::letters::Stp;
use schedule::key::Key;
use schedule::order::{next_in_train, rank};
use schedule::record::Record;
use schedule::schedule::Schedule;
use timetable::Timetable;

// Whether a schedule covers a day.
fn covers(fields: &Record, day: u16) -> bool
    ensures { result ≡ covering fields.now day }
{
    let weekday = calendar::weekday(day) as usize;
    fields.key.from <= day && fields.to.lasts(day) && fields.days[weekday]
}

// Whether a schedule outranks another.
fn outranks(here: &Record, best: &Record) -> bool
    ensures { result ≡ outranking here.now best.now }
{
    let new = rank(here.key.stp);
    let old = rank(best.key.stp);
    new < old || new == old && best.key.from <= here.key.from
}

// Whether a schedule covers a day and outranks the best so far, if there is one.
fn takes_place(here: &Record, day: u16, best: &Option<Schedule>) -> bool
    ensures { result ≡ takes here.now day (record_in best.now) }
{
    covers(here, day)
        && match best {
            Some(best) => outranks(here, best.record()),
            None => true,
        }
}

/// A walk over the schedules of a train: the best so far, if there is one, and a place to look at another in.
#[derive(Clone, Copy, Debug)]
pub struct Walk {
    pub best: Option<Schedule>,
    pub here: Schedule,
}

impl Walk {
    /// A walk with no best schedule.
    pub fn new() -> Walk
        ensures { result.best ≡ None }
    {
        Walk {
            best: None,
            here: Schedule::blank(),
        }
    }

    // Looks at the schedule of a key, unless it begins after the day: the best is then that one, or as before.
    fn consider<T: Timetable>(&mut self, timetable: &mut T, key: Key, day: u16)
        ensures best { (h : Record) → schedule_of (T.meaning timetable.old).map key ≡ Some h
            → record_in self.new.best
            ≡ (if takes h day (record_in self.old.best) then Some h else record_in self.old.best) }
        ensures same { timetable.new ≡ timetable.old }
    {
        if day < key.from {
            return;
        }
        if timetable.find(key, &mut self.here) && takes_place(self.here.record(), day, &self.best) {
            self.best = Some(self.here);
        }
    }

    /// Walks over a train from a key on, and answers the first key of the next train. From the train's first key on, the best is
    /// then the schedule in force on a day, if there is one.
    pub fn train<T: Timetable>(&mut self, timetable: &mut T, first: Key, day: u16) -> Option<Key>
        ensures best { IsFirst (T.meaning timetable.old).map first
            → IsForceOf (T.meaning timetable.old).map first.uid day self.new.best }
        ensures next { result
            ≡ not_before (T.meaning timetable.old).map (first_of (first.uid + 1)) }
        ensures same { timetable.new ≡ timetable.old }
    {
        self.best = None;
        let mut key = first;
        loop {
            self.consider(timetable, key, day);
            match timetable.not_before(next_in_train(key)) {
                Some(next) if next.uid == first.uid => key = next,
                past => return past,
            }
        }
    }
}

/// The first key that a train can have.
pub fn first_of(uid: u32) -> Key
    ensures { result ≡ first_of uid }
{
    Key {
        uid,
        from: 0,
        stp: Stp::Cancellation,
    }
}

/// The schedule of a train that is in force on a day, if there is one.
pub fn in_force<T: Timetable>(timetable: &mut T, uid: u32, day: u16) -> Option<Schedule>
    ensures value { IsForceOf (T.meaning timetable.old).map uid day result }
    ensures same { timetable.new ≡ timetable.old }
{
    match timetable.not_before(first_of(uid)) {
        Some(first) if first.uid == uid => {
            let mut walk = Walk::new();
            walk.train(timetable, first, day);
            walk.best
        }
        _ => None,
    }
}
