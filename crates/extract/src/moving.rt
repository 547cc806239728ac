// How the open extract moves on with each kind of row: as the rule says of any standing that has this extract.
ghost use Rattle.std.specs.Prelude.{◌≡◌, ℕ, ◌<◌, Bool, true, false, List, length, is_ok, Some, OnOk, OnErr, if◌then◌else◌};
ghost use Rattle.cif.specs.declared.content.Content.TheVariants.{Schedule as OfSchedule, Operator as OfOperator, Origin as OfOrigin, Intermediate as OfIntermediate, Terminus as OfTerminus, Unread};
ghost use Rattle.cif.specs.declared.identity.Identity.{Identity};
ghost use Rattle.cif.specs.declared.identity.Identity.TheVariants.{Origin as IsOrigin, Intermediate as IsIntermediate};
ghost use Rattle.overlay.specs.Overlays.{pending_in};
ghost use Rattle.extract.specs.declared.stage.Stage.TheVariants.{Between as IsBetween, Begun as IsBegun, Extra as IsExtra, Running as IsRunning};
ghost use Rattle.extract.specs.Stages.{next_stage, has_room, is_idle};
ghost use Rattle.extract.specs.Judging.{Standing, verdict_on, GoesBy};
ghost use Rattle.extract.specs.Standings.{progress_with, standing, range_in, StandsOn, Passes};

use crate::extract::Extract;
use crate::stage::Stage;
use crate::transactions::is_brief;
use cif::content::{BasicSchedule, Location};
use cif::refusal::ColumnFault;
use overlay::overlay::Overlay;
use overlay::pending::Pending;
use timetable::Store;

impl Extract {
    // A row of which nothing is read.
    pub(crate) fn pass(&mut self, next: Stage) -> Result<(), ColumnFault>
        requires open { is_idle next ≡ false }
        ensures told { (s : Standing) (i : Identity)
            → StandsOn self.old s → Passes i self.old.stage next
            → GoesBy (progress_with self.new s.extract.changes) (verdict_on s (Unread i)) result }
        ensures stage { self.new.stage ≡ (if is_ok result then next else self.old.stage) }
        ensures unchanged { OnErr result (self.new ≡ self.old) }
    {
        self.has_room()?;
        self.stage = next;
        self.taken += 1;
        Ok(())
    }

    // A BX row: the operator.
    pub(crate) fn take_operator(&mut self, operator: [u8; 2]) -> Result<(), ColumnFault>
        requires { self.old.stage ≡ IsBegun }
        ensures told { (s : Standing) → StandsOn self.old s
            → GoesBy (progress_with self.new s.extract.changes) (verdict_on s (OfOperator operator))
            result }
        ensures stage { self.new.stage ≡ (if is_ok result then IsExtra else self.old.stage) }
        ensures unchanged { OnErr result (self.new ≡ self.old) }
    {
        self.has_room()?;
        self.draft = self.draft.with_operator(operator);
        self.stage = Stage::Extra;
        self.taken += 1;
        Ok(())
    }

    // An LO or LI row: a call, if it is kept.
    pub(crate) fn take_call(&mut self, location: Location) -> Result<(), ColumnFault>
        ensures origin { (s : Standing) → StandsOn self.old s
            → next_stage self.old.stage IsOrigin false ≡ Some IsRunning
            → GoesBy (progress_with self.new s.extract.changes) (verdict_on s (OfOrigin location))
            result }
        ensures intermediate { (s : Standing) → StandsOn self.old s
            → next_stage self.old.stage IsIntermediate false ≡ Some IsRunning
            → GoesBy (progress_with self.new s.extract.changes)
            (verdict_on s (OfIntermediate location)) result }
        ensures stage { self.new.stage ≡ (if is_ok result then IsRunning else self.old.stage) }
        ensures unchanged { OnErr result (self.new ≡ self.old) }
    {
        self.draft = self.called(location)?;
        self.stage = Stage::Running;
        self.taken += 1;
        Ok(())
    }

    // An LT row: a call, if it is kept, and the destination. The transaction that was being read joins.
    pub(crate) fn take_terminus(
        &mut self,
        pending: &mut Pending,
        location: Location,
    ) -> Result<(), ColumnFault>
        requires stage { self.old.stage ≡ IsRunning }
        requires room { length (pending_in pending.old) < 32 }
        ensures told { (s : Standing) → StandsOn self.old s
            → s.extract.changes ≡ pending_in pending.old
            → GoesBy (progress_with self.new (pending_in pending.new))
            (verdict_on s (OfTerminus location)) result }
        ensures unchanged { OnErr result ((self.new ≡ self.old) × (pending.new ≡ pending.old)) }
        ensures room { OnOk result
            (has_room self.new.stage (length (pending_in pending.new)) ≡ true) }
    {
        let ended = self.called(location)?.with_destination(location.tiploc);
        pending.join(ended);
        self.stage = Stage::Between;
        self.taken += 1;
        Ok(())
    }

    // A BS row. Where it deletes or cancels, its transaction joins, and otherwise it is the one that is being read.
    pub(crate) fn take_schedule<S: Store>(
        &mut self,
        overlay: &mut Overlay<S>,
        b: &BasicSchedule,
    ) -> Result<(), ColumnFault>
        requires stage { self.old.stage ≡ IsBetween }
        requires range { range_in b.now b.now.action ≡ true }
        ensures told { (reference : List ℕ)
            → GoesBy (progress_with self.new (pending_in overlay.new.pending))
            (verdict_on (standing S.meaning self.old overlay.old reference) (OfSchedule b.now))
            result }
        ensures unchanged { OnErr result ((self.new ≡ self.old) × (overlay.new ≡ overlay.old)) }
        ensures room { OnOk result
            (has_room self.new.stage (length (pending_in overlay.new.pending)) ≡ true) }
        ensures store { overlay.new.store ≡ overlay.old.store }
    {
        let transaction = self.transaction(overlay, b)?;
        if is_brief(b) {
            overlay.pending.join(transaction);
            self.stage = Stage::Between;
            self.taken += 1;
            return Ok(());
        }
        self.draft = transaction;
        self.stage = Stage::Begun;
        self.taken += 1;
        Ok(())
    }
}
