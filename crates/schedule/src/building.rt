// A schedule as it is read, row by row.
ghost use Rattle.std.specs.Prelude.{◌≡◌, IsFalse, MatchOption, IfOk};
ghost use Rattle.cif.specs.Refusals.{uppermost, fault_of};
ghost use Rattle.schedule.specs.Records.{in_range};
ghost use Rattle.schedule.specs.Schedules.{record_of};
ghost use Rattle.schedule.specs.Building.{begun_with, with_operator, with_destination, is_kept, with_call, call_lines, bringing, Brings, bringing_lines};
ghost use Rattle.schedule.specs.Transactions.{change_of};

use crate::check::visits_of;
use crate::key::Key;
use crate::record::{CALLS, Record};
use crate::schedule::Schedule;
use crate::transaction::Transaction;
use cif::content::Location;
use cif::refusal::{ColumnFault, Refusal};
use forms::end::End;
use forms::letters::Stp;

// Whether a location is a kept call: it has a public arrival or a public departure.
fn is_kept(location: &Location) -> bool
    ensures { result ≡ is_kept location.now }
{
    location.arrival.is_some() || location.departure.is_some()
}

impl Schedule {
    /// The schedule that begins with these, if it is in range: it has no calls, and blanks for operator and destination.
    /// `to` is its last day, or that it has no end.
    pub fn begun(key: Key, to: End, days: [bool; 7], train: [u8; 4]) -> Option<Schedule>
        ensures { let begun = begun_with key to days train in
            MatchOption result (IsFalse (in_range begun)) (λ s. record_of s ≡ begun) }
    {
        let fields = Record {
            key,
            to,
            days,
            train,
            ..Schedule::blank().into()
        };
        Schedule::try_from(fields).ok()
    }

    /// The schedule with an operator; a cancellation stays bare.
    pub fn with_operator(self, operator: [u8; 2]) -> Schedule
        ensures { record_of result ≡ with_operator (record_of self) operator }
    {
        let mut fields = self.fields;
        if fields.key.stp != Stp::Cancellation {
            fields.operator = operator;
        }
        Schedule { fields }
    }

    /// The schedule with a destination; a cancellation stays bare.
    pub fn with_destination(self, destination: [u8; 7]) -> Schedule
        ensures { record_of result ≡ with_destination (record_of self) destination }
    {
        let mut fields = self.fields;
        if fields.key.stp != Stp::Cancellation {
            fields.destination = destination;
        }
        Schedule { fields }
    }

    /// The schedule with a location's call after those that it has, if the location is a kept call. Refused are a 49th
    /// kept call, and a third kept call at one TIPLOC.
    pub fn with_call(self, location: Location) -> Result<Schedule, ColumnFault>
        ensures made { IfOk result (λ s. record_of s ≡ with_call (record_of self) location) }
        ensures told { fault_of result ≡ uppermost (call_lines (record_of self) location) }
    {
        let mut fields = self.fields;
        if fields.key.stp == Stp::Cancellation || !is_kept(&location) {
            return Ok(self);
        }
        let count = fields.count as usize;
        if count >= CALLS {
            return Err(Refusal::TooManyCalls.at(3));
        }
        if visits_of(&fields.calls[..count], &location.tiploc) >= 2 {
            return Err(Refusal::TooManyVisits.at(3));
        }
        fields.calls[count] = location;
        fields.count += 1;
        Ok(Schedule { fields })
    }
}

impl Transaction {
    // The transaction with a step taken on the schedule that it brings.
    fn bringing<F: FnOnce(Schedule) -> Schedule>(self, step: F) -> Transaction
        requires { F.IsAlwaysCallable step }
        ensures { Brings (F.post step) self result }
    {
        match self {
            Transaction::New(schedule) => Transaction::New(step(schedule)),
            Transaction::Revise(schedule) => Transaction::Revise(step(schedule)),
            Transaction::Delete(key) => Transaction::Delete(key),
        }
    }

    /// The transaction with an operator in the schedule that it brings.
    pub fn with_operator(self, operator: [u8; 2]) -> Transaction
        ensures { change_of result ≡ bringing (λ s. with_operator s operator) (change_of self) }
    {
        self.bringing(|schedule| schedule.with_operator(operator))
    }

    /// The transaction with a destination in the schedule that it brings.
    pub fn with_destination(self, destination: [u8; 7]) -> Transaction
        ensures { change_of result
            ≡ bringing (λ s. with_destination s destination) (change_of self) }
    {
        self.bringing(|schedule| schedule.with_destination(destination))
    }

    /// The transaction with a call more in the schedule that it brings; a deletion brings none, and stays as it is. Refused
    /// are a 49th kept call, and a third kept call at one TIPLOC.
    pub fn with_call(self, location: Location) -> Result<Transaction, ColumnFault>
        ensures made { IfOk result
            (λ t. change_of t ≡ bringing (λ s. with_call s location) (change_of self)) }
        ensures told { fault_of result ≡ uppermost (bringing_lines (change_of self) location) }
    {
        match self {
            Transaction::New(schedule) => Ok(Transaction::New(schedule.with_call(location)?)),
            Transaction::Revise(schedule) => Ok(Transaction::Revise(schedule.with_call(location)?)),
            Transaction::Delete(key) => Ok(Transaction::Delete(key)),
        }
    }
}
