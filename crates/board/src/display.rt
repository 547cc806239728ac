// A departure board.
ghost use Rattle.std.specs.Prelude.{◌≡◌};

use crate::line::Line;
use ordered::ordered::Ordered;

/// A station, seven bytes with blanks at the end, and a day, as a day number, of which a board shows the departures.
#[derive(Clone, Copy, Debug, PartialEq, Eq)]
pub struct StationDay {
    pub station: [u8; 7],
    pub day: u16,
}

/// The lines of a station and day, in order, over line slots from the caller; a new board has no station.
#[derive(Drop)]
pub struct Board<'a> {
    pub(crate) lines: Ordered<'a, Line>,
    pub(crate) shown: Option<StationDay>,
}

impl Board<'_> {
    ghost use Rattle.board.specs.Boards.{shown_of};

    /// The station and day that it was turned to, if it was.
    pub fn shown(&self) -> Option<StationDay>
        ensures { result ≡ shown_of self.now }
    {
        self.shown
    }
}
