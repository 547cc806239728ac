// What a row asks for, and whether it may have it.
ghost use Rattle.std.specs.Prelude.{◌≡◌, ℕ, ◌<◌, Bool, true, false, ◌||◌, List, ◌++◌, length, MatchOption, IfOk, OnOk, nat_le};
ghost use Rattle.cif.specs.declared.content.Content.TheVariants.{Schedule as OfSchedule};
ghost use Rattle.cif.specs.Refusals.{uppermost, fault_of};
ghost use Rattle.schedule.specs.Building.{begun_with, with_call, bringing};
ghost use Rattle.schedule.specs.Records.{in_range};
ghost use Rattle.schedule.specs.Transactions.{change_of};
ghost use Rattle.timetable.specs.Timetables.{is_full};
ghost use Rattle.timetable.specs.Laws.{has_key};
ghost use Rattle.overlay.specs.Overlays.{overlay_of, pending_in};
ghost use Rattle.extract.specs.Progress.{key_in, change_by, is_brief};
ghost use Rattle.extract.specs.Judging.{content_lines, room_lines, call_row_lines, change_lines};
ghost use Rattle.extract.specs.Standings.{standing, range_in};

use crate::extract::Extract;
use cif::content::{Action, BasicSchedule, Location, Running};
use cif::refusal::{ColumnFault, Refusal};
use forms::letters::Stp;
use overlay::overlay::Overlay;
use overlay::pending::MOST;
use schedule::key::Key;
use schedule::schedule::Schedule;
use schedule::transaction::Transaction;
use timetable::Store;

/// How many rows of an extract are taken before its ZZ, HD included.
pub const ROWS: u16 = 9_999;

/// The key of a BS row.
pub fn key_in(b: &BasicSchedule) -> Key
    ensures { result ≡ key_in b.now }
{
    Key {
        uid: b.uid,
        from: b.from.0,
        stp: b.stp,
    }
}

// Whether a BS row has no further rows: it deletes or cancels.
pub(crate) fn is_brief(b: &BasicSchedule) -> bool
    ensures { result ≡ is_brief b.now }
{
    matches!(b.action, Action::Delete) || b.stp == Stp::Cancellation
}

// The schedule that a BS row begins, if it is in range.
fn begun(key: Key, days: Running) -> Option<Schedule>
    ensures { MatchOption result (in_range (begun_with key days.to days.days days.train) ≡ false)
        (λ s. s.fields ≡ begun_with key days.to days.days days.train) }
{
    let Running { to, days, train } = days;
    Schedule::begun(key, to, days, train)
}

// The transaction that a BS row asks for, if it is in range.
fn transaction_in(b: &BasicSchedule) -> Option<Transaction>
    ensures { MatchOption result (range_in b.now b.now.action ≡ false)
        (λ t. change_of t ≡ change_by b.now b.now.action) }
{
    let key = key_in(b);
    match b.action {
        Action::New(days) => Some(Transaction::New(begun(key, days)?)),
        Action::Revise(days) => Some(Transaction::Revise(begun(key, days)?)),
        Action::Delete => Some(Transaction::Delete(key)),
    }
}

impl Extract {
    // There is room for a row more that is not ZZ.
    pub(crate) fn has_room(&self) -> Result<(), ColumnFault>
        ensures told { fault_of result ≡ uppermost (room_lines self.now.taken) }
        ensures room { OnOk result (self.now.taken < 9999) }
    {
        if self.taken >= ROWS {
            return Err(Refusal::TooManyRows.at(1));
        }
        Ok(())
    }

    // The transaction that is being read, with a location's call.
    pub(crate) fn called(&self, location: Location) -> Result<Transaction, ColumnFault>
        ensures told { fault_of result
            ≡ uppermost (call_row_lines (change_of self.now.draft) location self.now.taken) }
        ensures call { IfOk result (λ t. change_of t
            ≡ bringing (λ s. with_call s location) (change_of self.now.draft)) }
        ensures room { OnOk result (self.now.taken < 9999) }
    {
        let called = self.draft.with_call(location)?;
        self.has_room()?;
        Ok(called)
    }

    // Whether a BS row may change its key: a new one is absent, any other is there, and there is room for one more.
    fn may_change<S: Store>(
        &self,
        overlay: &mut Overlay<S>,
        key: Key,
        new: bool,
    ) -> Result<(), ColumnFault>
        ensures told { fault_of result ≡ uppermost (change_lines new
            (has_key (overlay_of S.meaning overlay.old).map key)
            (nat_le 9999 self.now.taken || nat_le 32 (length (pending_in overlay.old.pending)))
            (is_full (overlay_of S.meaning overlay.old))) }
        ensures rows { OnOk result (self.now.taken < 9999) }
        ensures room { OnOk result (length (pending_in overlay.old.pending) < 32) }
        ensures same { overlay.new ≡ overlay.old }
    {
        let there = overlay.holds(key);
        if new && there {
            return Err(Refusal::KeyPresent.at(4));
        }
        if !new && !there {
            return Err(Refusal::KeyAbsent.at(4));
        }
        if self.taken >= ROWS || overlay.pending.len() >= MOST {
            return Err(Refusal::TooManyRows.at(1));
        }
        if new && overlay.is_full() {
            return Err(Refusal::StoreFull.at(1));
        }
        Ok(())
    }

    // The transaction that a BS row asks for, or why it is turned away.
    pub(crate) fn transaction<S: Store>(
        &self,
        overlay: &mut Overlay<S>,
        b: &BasicSchedule,
    ) -> Result<Transaction, ColumnFault>
        requires range { range_in b.now b.now.action ≡ true }
        ensures told { (reference : List ℕ) → fault_of result
            ≡ uppermost (content_lines
            (standing S.meaning self.now overlay.old reference) (OfSchedule b.now)) }
        ensures transaction { IfOk result (λ t. change_of t ≡ change_by b.now b.now.action) }
        ensures rows { OnOk result (self.now.taken < 9999) }
        ensures room { OnOk result (length (pending_in overlay.old.pending) < 32) }
        ensures same { overlay.new ≡ overlay.old }
    {
        self.may_change(overlay, key_in(b), matches!(b.action, Action::New(_)))?;
        // numbers and days that were read are in range
        transaction_in(b).ok_or(Refusal::BadForm.at(10))
    }
}
