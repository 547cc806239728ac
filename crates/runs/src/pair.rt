// Two installations, over stores of any two makes.
use crate::run::Run;
use controller::answer::Answer;
use timetable::{Store, Timetable};

/// One of two installations.
#[derive(Clone, Copy, Debug, PartialEq, Eq)]
pub enum Side {
    /// The one that `left` of a pair holds.
    Left,
    /// The one that `right` of a pair holds.
    Right,
}

/// Two installations, each with the calls that it is asked.
#[derive(Drop)]
pub struct Pair<'a, 'b, S: Timetable, T: Timetable> {
    /// One of them.
    pub left: Run<'a, S>,
    /// The other.
    pub right: Run<'b, T>,
}

impl<S: Store, T: Store> Pair<'_, '_, S, T> {
    ghost use Rattle.runs.specs.Calls.{first_ledger};
    ghost use Rattle.runs.specs.Pairs.{WholePromise};

    /// Makes the next call of one side, and answers it; none where all calls of that side are made.
    pub fn call_next(&mut self, side: Side) -> Option<Answer>
        ensures { ∥ WholePromise S.meaning T.meaning S.Store.becomes T.Store.becomes first_ledger
            self.old self.new side result ∥₁ }
    {
        match side {
            Side::Left => self.left.call_next(),
            Side::Right => self.right.call_next(),
        }
    }
}
