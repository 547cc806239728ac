// What a row does to the open extract.
ghost use Rattle.std.specs.Prelude.{◌≡◌, ℕ, ◌≤◌, List, Bool, true, length, OnErr};
ghost use Rattle.overlay.specs.Overlays.{pending_in};
ghost use Rattle.extract.specs.Stages.{has_room};
ghost use Rattle.extract.specs.Judging.{row_verdict, GoesBy};
ghost use Rattle.extract.specs.Standings.{progress_with, standing};

use crate::extract::Extract;
use crate::stage::Stage;
use cif::identity::Identity;
use cif::refusal::{ColumnFault, Refusal};
use cif::row::Row;
use overlay::overlay::Overlay;
use timetable::Store;

impl Extract {
    /// Takes a row into the extract, or says why it is turned away. It is judged by the stage and the row's identity together.
    pub fn take<S: Store>(&mut self, overlay: &mut Overlay<S>, row: &Row) -> Result<(), ColumnFault>
        requires { has_room self.old.stage (length (pending_in overlay.old.pending)) ≡ true }
        ensures told { (reference : List ℕ)
            → GoesBy (progress_with self.new (pending_in overlay.new.pending))
            (row_verdict (standing S.meaning self.old overlay.old reference)
            row.now.identity row.now.bytes)
            result }
        ensures room { has_room self.new.stage (length (pending_in overlay.new.pending)) ≡ true }
        ensures unchanged { OnErr result ((self.new ≡ self.old) × (overlay.new ≡ overlay.old)) }
        ensures store { overlay.new.store ≡ overlay.old.store }
    {
        match (self.stage, row.identity()) {
            (Stage::Between, Identity::BasicSchedule) => {
                let schedule = row.basic_schedule()?;
                self.take_schedule(overlay, &schedule)
            }
            (Stage::Between, Identity::TiplocInsert) => self.pass(Stage::Between),
            (Stage::Between, Identity::TiplocAmend) => self.pass(Stage::Between),
            (Stage::Between, Identity::TiplocDelete) => self.pass(Stage::Between),
            (Stage::Between, Identity::Association) => self.pass(Stage::Between),
            (Stage::Between, Identity::Trailer) => {
                self.stage = Stage::Complete;
                self.taken += 1;
                Ok(())
            }
            (Stage::Begun, Identity::BasicExtra) => self.take_operator(row.operator()?),
            (Stage::Begun, Identity::Origin) => self.take_call(row.origin()?),
            (Stage::Extra, Identity::Origin) => self.take_call(row.origin()?),
            (Stage::Running, Identity::Intermediate) => self.take_call(row.intermediate()?),
            (Stage::Running, Identity::ChangeEnRoute) => self.pass(Stage::Changed),
            (Stage::Running, Identity::Terminus) => {
                self.take_terminus(&mut overlay.pending, row.terminus()?)
            }
            (Stage::Changed, Identity::Intermediate) => self.take_call(row.intermediate()?),
            _ => Err(Refusal::OutOfPlace.at(1)),
        }
    }
}
