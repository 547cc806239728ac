// A controller with its board.
ghost use Rattle.std.specs.Prelude.{◌≡◌, ℕ, length, min, drop, OnErr};
ghost use Rattle.extract.specs.Judging.{Standing};
ghost use Rattle.timetable.specs.Timetables.{IsWithinCapacity};
ghost use Rattle.board.specs.Boards.{HasSlots};
ghost use Rattle.controller.specs.Calls.{Page as ToPage};
ghost use Rattle.controller.specs.Ledger.{Ledger, new_ledger, answer_of, Writes, is_accepted};
ghost use Rattle.controller.specs.Keeping.{KeepsTo, Obeys, state};
ghost use Rattle.controller.specs.Shown.{store_of};
ghost use Rattle.runs.specs.Calls.{call_meant, call_within, room_of, room_in_bytes, stands, Does, DoesTo, LeavesIn};

use crate::call::Call;
use crate::memory::Memory;
use board::display::Board;
use board::line::Line;
use controller::answer::Answer;
use controller::controller::Controller;
use controller::fault::ExtractFault;
use controller::questions::{page, tell};
use timetable::Store;

/// A controller, and the board that it is installed with.
#[derive(Drop)]
pub struct Installation<'a, S> {
    pub controller: Controller<S>,
    pub board: Board<'a>,
}

// Writes the page of a board into the first bytes of a memory: so many, or all there are.
fn write_within(
    board: &Board<'_>,
    memory: &mut [u8],
    name: &[u8],
    minute: u32,
    asked: usize,
) -> Result<(), ExtractFault>
    ensures obeys { (s : Standing) (tally : ℕ) → let here = state s tally board.now in
        Obeys here here (call_within (room_in_bytes memory.old) (ToPage name.now minute asked))
        (answer_of result) }
    ensures leaves { (s : Standing) (tally : ℕ) (ℓ : Ledger) → KeepsTo (state s tally board.now) ℓ
        → LeavesIn
        (Writes ℓ (call_within (room_in_bytes memory.old) (ToPage name.now minute asked)))
        (is_accepted (answer_of result)) memory.old memory.new }
    ensures behind { drop (min asked (length memory.old)) memory.new
        ≡ drop (min asked (length memory.old)) memory.old }
    ensures unchanged { OnErr result (memory.new ≡ memory.old) }
{
    let handed = asked.min(memory.len());
    page(board, &mut memory[..handed], name, minute)
}

impl<'a, S: Store> Installation<'a, S> {
    /// A new controller over a store, and a new board over line slots.
    pub fn new(store: S, slots: &'a mut [Line]) -> Installation<'a, S>
        ensures keeps { IsWithinCapacity (S.meaning store)
            → KeepsTo (stands S.meaning result) (new_ledger (S.meaning store).map) }
        ensures store { store_of result.controller ≡ store }
        ensures slots { HasSlots slots.entry result.board }
    {
        Installation {
            controller: Controller::new(store),
            board: Board::new(slots),
        }
    }

    /// Does one call, whichever it is. What is refused, and with what, is in docs/refusals.md; then controller, board and memory stay
    /// as they were.
    pub fn call(&mut self, call: &Call<'_>, memory: &mut Memory<'_>) -> Answer
        ensures does { Does S.meaning S.Store.becomes self.old self.new
            (call_within (room_of memory.old) (call_meant call.now)) result }
        ensures memory { DoesTo S.meaning self.old memory.old memory.new
            (call_within (room_of memory.old) (call_meant call.now)) result }
    {
        match call {
            Call::Open(row) => Answer::from(self.controller.open(row)),
            Call::Row(row) => Answer::from(self.controller.row(row)),
            Call::Confirm => Answer::from(self.controller.confirm(&mut self.board)),
            Call::Abandon => Answer::from(self.controller.abandon()),
            Call::Turn(station, day) => {
                Answer::from(self.controller.turn(&mut self.board, station, *day))
            }
            Call::Page {
                name,
                minute,
                length,
            } => { Answer::from(write_within(&self.board, memory.bytes, name, *minute, *length)) }
            Call::Tell(place) => Answer::Told(tell(&mut self.board, *place)),
            Call::Tally => Answer::Tally(self.controller.tally()),
        }
    }
}
