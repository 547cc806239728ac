// Transactions.
ghost use Rattle.std.specs.Prelude.{◌≡◌, IsTrue};
ghost use Rattle.schedule.specs.Transactions.{changed_key, is_lawful, change_of};

use crate::key::Key;
use crate::record::Record;
use crate::schedule::Schedule;

/// A transaction: what one BS row and the rows below it ask for.
#[derive(Clone, Copy, Debug, PartialEq, Eq)]
pub enum Transaction {
    /// A schedule whose key is not there yet.
    New(Schedule),
    /// A schedule that takes the place of the one of its key.
    Revise(Schedule),
    /// The key of a schedule that goes.
    Delete(Key),
}

/// A transaction as it lies in memory, with the plain record of its schedule.
#[derive(Clone, Copy, Debug, PartialEq, Eq)]
pub enum Change {
    /// The record of a schedule whose key is not there yet.
    New(Record),
    /// The record of a schedule that takes the place of the one of its key.
    Revise(Record),
    /// The key of a schedule that goes.
    Delete(Key),
}

// A transaction as it lies in memory.
impl From<Transaction> for Change {
    ghost from_gives = { λ t c. (c ≡ change_of t) × IsTrue (is_lawful c) };

    fn from(transaction: Transaction) -> Change {
        match transaction {
            Transaction::New(schedule) => Change::New(schedule.into()),
            Transaction::Revise(schedule) => Change::Revise(schedule.into()),
            Transaction::Delete(key) => Change::Delete(key),
        }
    }
}

impl Change {
    /// The key of the schedule that is changed.
    pub fn key(&self) -> Key
        ensures { result ≡ changed_key self.now }
    {
        match self {
            Change::New(fields) => fields.key,
            Change::Revise(fields) => fields.key,
            Change::Delete(key) => *key,
        }
    }
}
