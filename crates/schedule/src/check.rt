// The check that makes a schedule of a record.
ghost use Rattle.std.specs.Prelude.{◌≡◌, ◌≤◌, ◌&&◌, length, take, drop, IsTrue, IsFalse, MatchResult, nat_le};
ghost use Rattle.std.specs.Str.{bytes_eq};
ghost use Rattle.std.specs.List.{list_all};
ghost use Rattle.schedule.specs.Records.{is_at, visits, few_visits, is_filler, in_range, is_bare_if_cancelled, is_schedule};
ghost use Rattle.schedule.specs.Schedules.{record_of};

use crate::key::Key;
use crate::record::{CALLS, Record};
use crate::schedule::{NotASchedule, Schedule};
use calendar::LAST_DAY;
use cif::content::Location;
use forms::end::End;
use forms::letters::Stp;
use forms::numbers::UIDS;

/// Whether a call is at a TIPLOC, whatever its suffix.
pub fn is_at(call: &Location, tiploc: &[u8; 7]) -> bool
    ensures { result ≡ is_at tiploc.now call.now }
{
    call.tiploc == *tiploc
}

/// How many of some calls are at a TIPLOC, whatever their suffixes.
pub fn visits_of(calls: &[Location], tiploc: &[u8; 7]) -> usize
    ensures { result ≡ visits tiploc.now calls.now }
{
    calls.iter().filter(|call| is_at(call, tiploc)).count()
}

// Whether a call's TIPLOC appears in no more than two of the calls.
fn is_seldom(call: &Location, calls: &[Location]) -> bool
    ensures { result ≡ nat_le (visits call.now.tiploc calls.now) 2 }
{
    visits_of(calls, &call.tiploc) <= 2
}

/// Whether no TIPLOC appears in more than two calls.
pub fn few_visits(calls: &[Location]) -> bool
    ensures { result ≡ few_visits calls.now }
{
    calls.iter().all(|call| is_seldom(call, calls))
}

// Whether a call is one that fills the places past the kept calls.
fn is_filler(call: &Location) -> bool
    ensures { result ≡ is_filler call.now }
{
    (call.tiploc == *b"       ")
        & (call.suffix == b' ')
        & call.arrival.is_none()
        & call.departure.is_none()
        & (call.platform == *b"   ")
}

// Whether all calls are fillers.
fn all_fillers(calls: &[Location]) -> bool
    ensures { result ≡ list_all is_filler calls.now }
{
    calls.iter().all(is_filler)
}

// Whether the first calls, so many as are counted, visit no TIPLOC too often, and the others are fillers.
fn are_kept_then_filled(calls: &[Location], count: usize) -> bool
    requires { count ≤ length calls.now }
    ensures { result
        ≡ (few_visits (take count calls.now) && list_all is_filler (drop count calls.now)) }
{
    few_visits(&calls[..count]) && all_fillers(&calls[count..])
}

impl Record {
    // Whether a cancellation has no calls, and blanks for operator and destination.
    fn is_bare_if_cancelled(&self) -> bool
        ensures { result ≡ is_bare_if_cancelled self.now }
    {
        self.key.stp != Stp::Cancellation
            || self.count == 0 && self.operator == *b"  " && self.destination == *b"       "
    }

    // Whether the UID number is one, the schedule lasts to its first day, and no day of it is above the last that has a number.
    fn is_in_range(&self) -> bool
        ensures { result ≡ in_range self.now }
    {
        let numbered = match self.to {
            End::Day(last) => last <= LAST_DAY,
            End::Never => true,
        };
        self.key.uid < UIDS && self.key.from <= LAST_DAY && self.to.lasts(self.key.from) && numbered
    }

    /// Whether this is the record of a schedule.
    pub fn is_schedule(&self) -> bool
        ensures { result ≡ is_schedule self.now }
    {
        let count = self.count as usize;
        if !self.is_in_range() || count > CALLS {
            return false;
        }
        are_kept_then_filled(&self.calls, count) && self.is_bare_if_cancelled()
    }
}

// The schedule that a record holds, if it holds one.
impl TryFrom<Record> for Schedule {
    type Error = NotASchedule;

    ghost try_from_gives = { λ fields r.
        MatchResult r (λ s. (record_of s ≡ fields) × IsTrue (is_schedule fields))
        (λ _. IsFalse (is_schedule fields)) };

    fn try_from(fields: Record) -> Result<Schedule, NotASchedule> {
        if fields.is_schedule() {
            Ok(Schedule { fields })
        } else {
            Err(NotASchedule)
        }
    }
}

impl Schedule {
    /// What the schedule is found by.
    pub fn key(&self) -> Key
        ensures { result ≡ (record_of self.now).key }
    {
        self.fields.key
    }
}
