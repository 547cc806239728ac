// Rows that begin a schedule.
ghost use Rattle.std.specs.Prelude.{◌≡◌};
ghost use Rattle.cif.specs.Refusals.{field_at};
ghost use Rattle.cif.specs.Fields.{transaction_of, uid_of, from_of, stp_of};
ghost use Rattle.cif.specs.Fields.{running_in, action_in, runs_on, schedule_in, operator_in};
ghost use Rattle.cif.specs.WholeRows.{row_bytes};

use crate::content::{Action, BasicSchedule, Running};
use crate::refusal::{ColumnFault, Refusal};
use crate::row::Row;
use forms::letters::{Stp, TransactionType};
use forms::numbers::{date, end, uid};
use forms::text::{Alphabet, days_run, text};

impl Action {
    // Whether a train that runs from a day on lasts to that day.
    fn runs_on(&self, from: (u16, u8)) -> bool
        ensures { result ≡ runs_on from self.now }
    {
        match self {
            Action::New(running) | Action::Revise(running) => running.to.lasts(from.0),
            Action::Delete => true,
        }
    }
}

impl Row {
    // Columns 16 to 36 of a BS row that deletes nothing.
    fn running(&self) -> Result<Running, ColumnFault>
        ensures { result ≡ running_in (row_bytes self.now) }
    {
        let to = self.field(16, 21, end)?;
        let days = self.field(22, 28, days_run)?;
        let train = self.field(33, 36, |bytes| text(Alphabet::Labels, bytes))?;
        Ok(Running { to, days, train })
    }

    // What a BS row does with the schedule, by its transaction.
    fn action(&self, transaction: TransactionType) -> Result<Action, ColumnFault>
        ensures { result ≡ action_in transaction (running_in (row_bytes self.now)) }
    {
        match transaction {
            TransactionType::New => Ok(Action::New(self.running()?)),
            TransactionType::Revise => Ok(Action::Revise(self.running()?)),
            TransactionType::Delete => Ok(Action::Delete),
        }
    }

    // The transaction type, at column 3.
    fn transaction_field(&self) -> Result<TransactionType, ColumnFault>
        ensures { result ≡ field_at 3 (transaction_of (row_bytes self.now)) }
    {
        self.letter(3)
    }

    // The UID number, from column 4 on.
    fn uid_field(&self) -> Result<u32, ColumnFault>
        ensures { result ≡ field_at 4 (uid_of (row_bytes self.now)) }
    {
        self.field(4, 9, uid)
    }

    // The first day, from column 10 on.
    fn from_field(&self) -> Result<(u16, u8), ColumnFault>
        ensures { result ≡ field_at 10 (from_of (row_bytes self.now)) }
    {
        self.field(10, 15, date)
    }

    // The kind of schedule, at column 80.
    fn stp_field(&self) -> Result<Stp, ColumnFault>
        ensures { result ≡ field_at 80 (stp_of (row_bytes self.now)) }
    {
        self.letter(80)
    }

    /// The fields of a BS row, or its first fault: of the fields without their form the leftmost, or else that it runs from a later
    /// day than it runs to.
    pub fn basic_schedule(&self) -> Result<BasicSchedule, ColumnFault>
        ensures { result ≡ schedule_in (row_bytes self.now) }
    {
        let transaction = self.transaction_field()?;
        let uid = self.uid_field()?;
        let from = self.from_field()?;
        let action = self.action(transaction)?;
        let stp = self.stp_field()?;
        if !action.runs_on(from) {
            return Err(Refusal::EndsBeforeStart.at(16));
        }
        Ok(BasicSchedule {
            uid,
            from,
            stp,
            action,
        })
    }

    /// The operator that a BX row names, two bytes, or the fault that it lacks its form.
    pub fn operator(&self) -> Result<[u8; 2], ColumnFault>
        ensures { result ≡ operator_in (row_bytes self.now) }
    {
        self.field(12, 13, |bytes| text(Alphabet::Labels, bytes))
    }
}
