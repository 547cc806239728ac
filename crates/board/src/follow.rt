// A board that follows a store.
ghost use Rattle.std.specs.Prelude.{◌≡◌, ◌*◌, ◌≤◌, length, OnOk};
ghost use Rattle.cif.specs.Refusals.{uppermost, fault_of};
ghost use Rattle.timetable.specs.Timetables.{IsWithinCapacity};
ghost use Rattle.board.specs.Boards.{shown_of, lines_of, slots_of, SlotsKept};
ghost use Rattle.board.specs.Lines.{LinesFor};
ghost use Rattle.board.specs.Turning.{slot_lines};

use crate::display::Board;
use crate::fill::set_lines;
use cif::refusal::{ColumnFault, Refusal};
use ordered::mapped::Mapped;
use timetable::{Store, Timetable};

impl Board<'_> {
    /// Whether there are line slots enough for a store: twice as many as its capacity. Otherwise it is refused with 15.
    pub fn suits<S: Store>(&mut self, store: &mut S) -> Result<(), ColumnFault>
        ensures told { fault_of result
            ≡ uppermost (slot_lines (slots_of self.old) (S.meaning store.old).capacity) }
        ensures enough { OnOk result (2 * (S.meaning store.old).capacity ≤ slots_of self.old) }
        ensures within { IsWithinCapacity (S.meaning store.old) }
        ensures same { self.new ≡ self.old }
        ensures store { store.new ≡ store.old }
    {
        if self.lines.room() < 2 * store.capacity() {
            return Err(Refusal::TooFewSlots.at(0));
        }
        Ok(())
    }

    /// Sets the lines to those that a timetable's map gives for the board's station and day. Without a station there are none.
    /// There are line slots enough, two for each key.
    pub fn follow<T: Timetable>(&mut self, timetable: &mut T)
        requires enough { 2 * length (T.meaning timetable.old).map ≤ slots_of self.old }
        ensures lines { LinesFor (T.meaning timetable.old).map (shown_of self.old)
            (lines_of self.new) }
        ensures shown { shown_of self.new ≡ shown_of self.old }
        ensures slots { SlotsKept self.old self.new }
        ensures same { timetable.new ≡ timetable.old }
    {
        match self.shown {
            Some(shown) => set_lines(timetable, &mut self.lines, &shown),
            None => self.lines.elements.len = 0,
        }
    }
}
