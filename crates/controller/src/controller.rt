// A controller over any store.
ghost use Rattle.std.specs.Prelude.{◌≡◌, true, length};
ghost use Rattle.overlay.specs.Overlays.{pending_in};
ghost use Rattle.extract.specs.Stages.{has_room};

use crate::fault::ExtractFault;
use crate::telling::{numbered, without_row};
use board::display::Board;
use cif::refusal::{ColumnFault, Refusal, RowFault, with_place};
use cif::row::Row;
use extract::extract::Extract;
use extract::stage::Stage;
use overlay::overlay::Overlay;
use timetable::Store;

/// The store with what is pending over it, the extract that is open, the reference in force, seven bytes which the next extract has to
/// follow, and the tally of confirmed transactions.
#[derive(Drop)]
pub struct Controller<S> {
    pub(crate) overlay: Overlay<S>,
    pub(crate) extract: Extract,
    pub(crate) reference: [u8; 7],
    pub(crate) tally: u32,
    ghost room: { has_room extract.stage (length (pending_in overlay.pending)) ≡ true },
}

impl<S: Store> Controller<S> {
    ghost use Rattle.std.specs.Prelude.{[], None, OnOk, OnErr, ◌+◌, ◌*◌, ◌≤◌, min, Some};
    ghost use Rattle.cif.specs.Refusals.{fault_of, uppermost};
    ghost use Rattle.schedule.specs.Records.{seven_blanks};
    ghost use Rattle.board.specs.declared.display.Board.{Board};
    ghost use Rattle.timetable.specs.Timetables.{IsWithinCapacity};
    ghost use Rattle.board.specs.Boards.{shown_of, lines_of, slots_of, SlotsKept};
    ghost use Rattle.extract.specs.Progress.{idle, after_row};
    ghost use Rattle.controller.specs.Calls.{Open as ToOpen, Row as ToHear, Abandon as ToAbandon, refusal_of, bytes_verdict, Confirm as ToConfirm, confirm_lines, Turn as ToTurn};
    ghost use Rattle.controller.specs.Ledger.{new_ledger, answer_of};
    ghost use Rattle.controller.specs.Keeping.{state_in, KeepsTo, DoesAllPending, Obeys};
    ghost use Rattle.controller.specs.Shown.{store_of, reference_of, count_of, progress_in, standing_in, SameButExtract};
    ghost use Rattle.extract.specs.Judging.{is_misplaced, is_no_opening, GoesBy};
    ghost use Rattle.overlay.specs.Settling.{after_tries, edits_of};
    ghost use Rattle.board.specs.Lines.{LinesFor, BoardOf};

    /// A controller over a store: idle, nothing pending, seven blanks for the reference in force, and a tally of 0.
    pub fn new(store: S) -> Controller<S>
        ensures idle { progress_in result ≡ idle }
        ensures store { store_of result ≡ store }
        ensures reference { reference_of result ≡ seven_blanks }
        ensures tally { count_of result ≡ 0 }
        ensures keeps { (b : Board) → shown_of b ≡ None → lines_of b ≡ []
            → IsWithinCapacity (S.meaning store)
            → KeepsTo (state_in S.meaning result b) (new_ledger (S.meaning store).map) }
    {
        Controller {
            overlay: Overlay::new(store),
            extract: Extract::new(),
            reference: *b"       ",
            tally: 0,
        }
    }

    /// Opens an extract with its HD row, any bytes of any length. What is refused, and with what, is in docs/refusals.md; then
    /// nothing changes.
    pub fn open(&mut self, row: &[u8]) -> Result<(), ExtractFault>
        ensures told { fault_of result
            ≡ refusal_of (ToOpen row.now) (standing_in S.meaning self.old) 0 }
        ensures taken { OnOk result
            (progress_in self.new ≡ after_row (progress_in self.old) row.now) }
        ensures unchanged { OnErr result (self.new ≡ self.old) }
        ensures rest { SameButExtract self.old self.new }
        ensures obeys { (b : Board)
            → Obeys (state_in S.meaning self.old b) (state_in S.meaning self.new b)
            (ToOpen row.now) (answer_of result) }
    {
        let number = self.extract.rows_taken() + 1;
        numbered(self.hear_opening(row), number)
    }

    /// Takes a row of the open extract that is not its HD, any bytes of any length. What is refused, and with what, is in
    /// docs/refusals.md; then nothing changes.
    pub fn row(&mut self, row: &[u8]) -> Result<(), ExtractFault>
        ensures told { fault_of result
            ≡ refusal_of (ToHear row.now) (standing_in S.meaning self.old) 0 }
        ensures taken { OnOk result
            (progress_in self.new ≡ after_row (progress_in self.old) row.now) }
        ensures unchanged { OnErr result (self.new ≡ self.old) }
        ensures rest { SameButExtract self.old self.new }
        ensures obeys { (b : Board)
            → Obeys (state_in S.meaning self.old b) (state_in S.meaning self.new b)
            (ToHear row.now) (answer_of result) }
    {
        let number = self.extract.rows_taken() + 1;
        numbered(self.hear(row), number)
    }

    /// Drops the open extract and all that is pending. It is refused with 4 when no extract is open.
    pub fn abandon(&mut self) -> Result<(), ExtractFault>
        ensures told { fault_of result ≡ refusal_of ToAbandon (standing_in S.meaning self.old) 0 }
        ensures dropped { OnOk result (progress_in self.new ≡ idle) }
        ensures unchanged { OnErr result (self.new ≡ self.old) }
        ensures rest { SameButExtract self.old self.new }
        ensures obeys { (b : Board)
            → Obeys (state_in S.meaning self.old b) (state_in S.meaning self.new b)
            ToAbandon (answer_of result) }
    {
        without_row(self.extract.abandon())?;
        self.overlay.pending.clear();
        Ok(())
    }

    // Takes a row by the stage, or tells the fault with the row's identity.
    pub(crate) fn hear(&mut self, bytes: &[u8]) -> Result<(), RowFault>
        ensures told { GoesBy (progress_in self.new)
            (bytes_verdict is_misplaced (standing_in S.meaning self.old) bytes.now) result }
        ensures unchanged { OnErr result (self.new ≡ self.old) }
        ensures rest { SameButExtract self.old self.new }
    {
        let row = with_place(Row::check(bytes), *b"  ")?;
        let letters = row.letters();
        with_place(self.extract.take(&mut self.overlay, &row), letters)?;
        Ok(())
    }

    // Opens an extract, or tells the fault with the row's identity.
    pub(crate) fn hear_opening(&mut self, bytes: &[u8]) -> Result<(), RowFault>
        ensures told { GoesBy (progress_in self.new)
            (bytes_verdict is_no_opening (standing_in S.meaning self.old) bytes.now) result }
        ensures unchanged { OnErr result (self.new ≡ self.old) }
        ensures rest { SameButExtract self.old self.new }
    {
        let row = with_place(Row::check(bytes), *b"  ")?;
        let letters = row.letters();
        with_place(self.extract.open(&row, &self.reference), letters)?;
        Ok(())
    }

    // Whether the extract is complete and the board has line slots enough.
    fn may_confirm(&mut self, board: &mut Board<'_>) -> Result<(), ColumnFault>
        ensures told { fault_of result
            ≡ uppermost (confirm_lines (standing_in S.meaning self.old) (slots_of board.old)) }
        ensures enough { OnOk result
            (2 * (S.meaning (store_of self.old)).capacity ≤ slots_of board.old) }
        ensures within { OnOk result (IsWithinCapacity (S.meaning (store_of self.old))) }
        ensures same { (self.new ≡ self.old) × (board.new ≡ board.old) }
    {
        if self.extract.stage() != Stage::Complete {
            return Err(Refusal::OutOfPlace.at(0));
        }
        board.suits(&mut self.overlay.store)
    }

    /// Does what is pending to the store, and sets the lines of the board to those of the new map for its station and day. It is
    /// refused with 4 unless the extract is complete, and with 15 where the board has fewer line slots than twice the capacity;
    /// then neither controller nor board changes.
    pub fn confirm(&mut self, board: &mut Board<'_>) -> Result<(), ExtractFault>
        ensures told { fault_of result
            ≡ refusal_of ToConfirm (standing_in S.meaning self.old) (slots_of board.old) }
        ensures store { OnOk result (S.meaning (store_of self.new)
            ≡ after_tries (S.meaning (store_of self.old)) (progress_in self.old).changes) }
        ensures all_done { OnOk result
            (DoesAllPending (state_in S.meaning self.old board.old)
            (S.meaning (store_of self.new))) }
        ensures becomes { OnOk result
            (S.Store.becomes (store_of self.old) (edits_of (progress_in self.old).changes)
            (store_of self.new)) }
        ensures lines { OnOk result
            (LinesFor (S.meaning (store_of self.new)).map (shown_of board.old)
            (lines_of board.new)) }
        ensures reference { OnOk result (reference_of self.new ≡ (progress_in self.old).current) }
        ensures tally { OnOk result (count_of self.new
            ≡ min (count_of self.old + length (progress_in self.old).changes) 4294967295) }
        ensures idle { OnOk result (progress_in self.new ≡ idle) }
        ensures shown { shown_of board.new ≡ shown_of board.old }
        ensures slots { SlotsKept board.old board.new }
        ensures unchanged { OnErr result ((self.new ≡ self.old) × (board.new ≡ board.old)) }
        ensures obeys { Obeys (state_in S.meaning self.old board.old)
            (state_in S.meaning self.new board.new)
            ToConfirm (answer_of result) }
    {
        without_row(self.may_confirm(board))?;
        let count = self.overlay.pending.len() as u32;
        self.overlay.settle();
        board.follow(&mut self.overlay.store);
        self.reference = self.extract.current();
        self.extract = Extract::new();
        self.tally = self.tally.saturating_add(count);
        Ok(())
    }

    /// Turns a board to a station, seven bytes of a TIPLOC, and a day, a day number up to 36,524, from the store's map: what is
    /// pending does not show. Anything else is refused with 14, and a board with fewer line slots than twice the capacity with 15;
    /// then the board does not change. The controller never does.
    pub fn turn(
        &mut self,
        board: &mut Board<'_>,
        station: &[u8],
        day: u32,
    ) -> Result<(), ExtractFault>
        ensures told { fault_of result
            ≡ refusal_of (ToTurn station.now day) (standing_in S.meaning self.old)
            (slots_of board.old) }
        ensures lines { OnOk result
            (BoardOf (S.meaning (store_of self.old)).map station.now day (lines_of board.new)) }
        ensures set { OnOk result
            (shown_of board.new ≡ Some (record { station = station.now; day = day })) }
        ensures slots { SlotsKept board.old board.new }
        ensures unchanged { OnErr result (board.new ≡ board.old) }
        ensures same { self.new ≡ self.old }
        ensures obeys { Obeys (state_in S.meaning self.old board.old)
            (state_in S.meaning self.new board.new)
            (ToTurn station.now day) (answer_of result) }
    {
        without_row(board.turn(&mut self.overlay.store, station, day))
    }
}
