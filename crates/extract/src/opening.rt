// How an extract begins and ends, and what can be asked of it.
ghost use Rattle.std.specs.Prelude.{◌≡◌, ℕ, Bool, true, List, [], OnOk, OnErr};
ghost use Rattle.cif.specs.Refusals.{uppermost, fault_of};
ghost use Rattle.schedule.specs.declared.transaction.Change.{Change};
ghost use Rattle.timetable.specs.Timetables.{Meaning};
ghost use Rattle.extract.specs.Stages.{has_room};
ghost use Rattle.extract.specs.Progress.{idle};
ghost use Rattle.extract.specs.Judging.{mismatches, open_verdict, idle_lines, GoesBy};
ghost use Rattle.extract.specs.Standings.{progress_with, standing_at};

use crate::extract::Extract;
use crate::stage::Stage;
use cif::content::Header;
use cif::identity::Identity;
use cif::refusal::{ColumnFault, Refusal};
use cif::row::Row;
use forms::letters::Coverage;
use schedule::schedule::Schedule;
use schedule::transaction::Transaction;

// Whether the references of a header do not fit the one in force.
fn is_mismatch(header: &Header, reference: &[u8; 7]) -> bool
    ensures { result ≡ mismatches reference.now header.now }
{
    let blank = header.last == *b"       ";
    let suits = match header.coverage {
        Coverage::Full => blank,
        Coverage::Update => !blank,
    };
    header.last != *reference || header.last == header.current || !suits
}

impl Extract {
    /// No extract is open.
    pub fn new() -> Extract
        ensures { progress_with result [] ≡ idle }
    {
        Extract {
            stage: Stage::Idle,
            taken: 0,
            current: *b"       ",
            draft: Transaction::New(Schedule::blank()),
        }
    }

    /// The stage of the open extract.
    pub fn stage(&self) -> Stage
        ensures { result ≡ self.now.stage }
    {
        self.stage
    }

    /// How many rows of the open extract were taken, HD included.
    pub fn rows_taken(&self) -> u16
        ensures { result ≡ self.now.taken }
    {
        self.taken
    }

    /// The current file reference of the open extract.
    pub fn current(&self) -> [u8; 7]
        ensures { result ≡ self.now.current }
    {
        self.current
    }

    /// Opens an extract with its HD row over the reference in force, or says why it is turned away.
    pub fn open(&mut self, row: &Row, reference: &[u8; 7]) -> Result<(), ColumnFault>
        ensures told { (store : Meaning) (cs : List Change) → GoesBy (progress_with self.new cs)
            (open_verdict (standing_at store self.old cs reference.now)
            row.now.identity row.now.bytes)
            result }
        ensures room { (n : ℕ) → has_room self.old.stage n ≡ true → has_room self.new.stage n
            ≡ true }
        ensures unchanged { OnErr result (self.new ≡ self.old) }
    {
        match (self.stage, row.identity()) {
            (Stage::Idle, Identity::Header) => {}
            _ => return Err(Refusal::OutOfPlace.at(1)),
        }
        let header = row.header()?;
        if is_mismatch(&header, reference) {
            return Err(Refusal::ReferenceMismatch.at(40));
        }
        self.stage = Stage::Between;
        self.taken = 1;
        self.current = header.current;
        Ok(())
    }

    /// Drops the open extract, or says that there is none.
    pub fn abandon(&mut self) -> Result<(), ColumnFault>
        ensures told { fault_of result ≡ uppermost (idle_lines self.old.stage) }
        ensures dropped { OnOk result (progress_with self.new [] ≡ idle) }
        ensures unchanged { OnErr result (self.new ≡ self.old) }
    {
        if self.stage == Stage::Idle {
            return Err(Refusal::OutOfPlace.at(0));
        }
        *self = Extract::new();
        Ok(())
    }
}
