// What can be asked of a controller and of its board.
ghost use Rattle.std.specs.Prelude.{◌≡◌, ℕ, length, OnOk, OnErr, slice_get};
ghost use Rattle.cif.specs.Refusals.{fault_of};
ghost use Rattle.extract.specs.Judging.{Standing};
ghost use Rattle.board.specs.Boards.{lines_of, shown_of, slots_of};
ghost use Rattle.page.specs.Pages.{page_for};
ghost use Rattle.controller.specs.declared.answer.Answer.TheVariants.{Told, Tally as Total};
ghost use Rattle.controller.specs.Calls.{Page as ToPage, Tell as ToTell, Tally as ToTally, refusal_of};
ghost use Rattle.controller.specs.Keeping.{Obeys, WritesByLedger, state};
ghost use Rattle.controller.specs.Ledger.{answer_of};

use crate::controller::Controller;
use crate::fault::ExtractFault;
use crate::telling::without_row;
use board::display::Board;
use board::line::Line;
use extract::stage::Stage;
use page::page::write_page;
use schedule::transaction::Change;

impl<S> Controller<S> {
    ghost use Rattle.board.specs.declared.display.Board.{Board};
    ghost use Rattle.controller.specs.Shown.{count_of, progress_in};

    /// The stage of the open extract.
    pub fn stage(&self) -> Stage
        ensures { result ≡ (progress_in self.now).stage }
    {
        self.extract.stage()
    }

    /// How many rows of the open extract were taken, HD included.
    pub fn rows_taken(&self) -> u16
        ensures { result ≡ (progress_in self.now).taken }
    {
        self.extract.rows_taken()
    }

    /// How many transactions are pending.
    pub fn pending_count(&self) -> usize
        ensures { result ≡ length (progress_in self.now).changes }
    {
        self.overlay.pending.len()
    }

    /// The pending transaction at a place counted from 0.
    pub fn pending_at(&self, place: usize) -> Option<Change>
        ensures { result ≡ slice_get (progress_in self.now).changes place }
    {
        self.overlay.pending.as_slice().get(place).copied()
    }

    /// How many transactions were ever confirmed, up to 4,294,967,295.
    pub fn tally(&self) -> u32
        ensures value { result ≡ count_of self.now }
        ensures obeys { (s : Standing) (b : Board) → let here = state s (count_of self.now) b in
            Obeys here here ToTally (Total result) }
    {
        self.tally
    }
}

/// Writes the page of a board into the memory that it is handed; docs/page.md says what stands on it. What is not of 264 bytes is
/// refused with 16, a minute above 1,439 with 17, and a byte of the name outside 32 to 126 with 18; then the memory does not change.
/// The board never does.
pub fn page(
    board: &Board<'_>,
    page: &mut [u8],
    name: &[u8],
    minute: u32,
) -> Result<(), ExtractFault>
    ensures told { (s : Standing) → fault_of result
        ≡ refusal_of (ToPage name.now minute (length page.old)) s (slots_of board.now) }
    ensures page { OnOk result
        (page.new ≡ page_for (shown_of board.now) (lines_of board.now) name.now minute) }
    ensures unchanged { OnErr result (page.new ≡ page.old) }
    ensures obeys { (s : Standing) (tally : ℕ) → let here = state s tally board.now in
        Obeys here here (ToPage name.now minute (length page.old)) (answer_of result) }
    ensures writes { (s : Standing) (tally : ℕ) → OnOk result
        (WritesByLedger (state s tally board.now) (ToPage name.now minute (length page.old))
        page.new) }
{
    without_row(write_page(board, page, name, minute))
}

/// The line of a board at a place counted from 0, or none past its lines.
pub fn tell(board: &mut Board<'_>, place: usize) -> Option<Line>
    ensures value { result ≡ slice_get (lines_of board.old) place }
    ensures same { board.new ≡ board.old }
    ensures obeys { (s : Standing) (tally : ℕ)
        → Obeys (state s tally board.old) (state s tally board.new) (ToTell place) (Told result) }
{
    board.tell(place)
}
