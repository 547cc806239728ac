// What a call answers.
ghost use Rattle.std.specs.Prelude.{◌≡◌};
ghost use Rattle.controller.specs.Ledger.{answer_of};

use crate::fault::ExtractFault;
use board::line::Line;

/// That it was done, why it was turned away, the line at a place or none, or the tally.
#[derive(Clone, Copy, Debug, PartialEq, Eq)]
pub enum Answer {
    Done,
    Refused(ExtractFault),
    Told(Option<Line>),
    Tally(u32),
}

// The answer to a call that answers only that it was done.
impl From<Result<(), ExtractFault>> for Answer {
    ghost from_gives = { λ r a. a ≡ answer_of r };

    fn from(done: Result<(), ExtractFault>) -> Answer {
        match done {
            Ok(()) => Answer::Done,
            Err(fault) => Answer::Refused(fault),
        }
    }
}
