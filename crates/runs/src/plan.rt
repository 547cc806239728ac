// What a run is given.
use crate::call::Call;
use crate::memory::Memory;
use board::line::Line;
use controller::answer::Answer;

/// A store, slots for the lines of a board, the calls, a place for the answer to each, and memory for those that write.
#[derive(Drop)]
pub struct Plan<'a, S> {
    /// The store of the controller, which has to be empty.
    pub store: S,
    /// The line slots of the board.
    pub slots: &'a mut [Line],
    /// The calls, in order.
    pub calls: &'a [Call<'a>],
    /// As many places as there are calls.
    pub answers: &'a mut [Answer],
    /// The memory that calls write into.
    pub memory: Memory<'a>,
}
