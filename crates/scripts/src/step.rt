//! The calls that a script asks for.
ghost use Rattle.std.specs.Prelude.{◌≡◌};
ghost use Rattle.runs.specs.Calls.{call_meant};
ghost use Rattle.scripts.specs.Steps.{call_of, word_of};

use runs::call::Call;

/// A call that a script asks for, with what it is given.
#[derive(Drop)]
pub enum Step {
    /// Open an extract with the bytes of a row.
    Open(Vec<u8>),
    /// Hear the bytes of a row.
    Row(Vec<u8>),
    /// Confirm the extract.
    Confirm,
    /// Abandon the extract.
    Abandon,
    /// Turn the board to a day, by its number, and a station, by the bytes of its TIPLOC; either
    /// may be none that there is.
    Turn(u32, Vec<u8>),
    /// Write the page of the board.
    Page {
        /// The local name that heads it, any bytes.
        name: Vec<u8>,
        /// The minute of the day from which on it shows departures, any number.
        minute: u32,
        /// How many bytes of the memory are handed in.
        length: usize,
    },
    /// Tell the line at a place counted from 0.
    Tell(usize),
    /// Tell the tally.
    Tally,
}

impl Step {
    /// The word that asks for it.
    pub fn word(&self) -> &'static str
        ensures { result.now ≡ word_of self.now }
    {
        match self {
            Step::Open(_) => "open",
            Step::Row(_) => "row",
            Step::Confirm => "confirm",
            Step::Abandon => "abandon",
            Step::Turn(_, _) => "turn",
            Step::Page { .. } => "page",
            Step::Tell(_) => "tell",
            Step::Tally => "tally",
        }
    }

    /// The call that it asks for.
    pub fn call(&self) -> Call<'_>
        ensures { call_meant result ≡ call_of self.now }
    {
        match self {
            Step::Open(row) => Call::Open(row.as_slice()),
            Step::Row(row) => Call::Row(row.as_slice()),
            Step::Confirm => Call::Confirm,
            Step::Abandon => Call::Abandon,
            Step::Turn(day, station) => Call::Turn(station.as_slice(), *day),
            Step::Page {
                name,
                minute,
                length,
            } => Call::Page {
                name: name.as_slice(),
                minute: *minute,
                length: *length,
            },
            Step::Tell(place) => Call::Tell(*place),
            Step::Tally => Call::Tally,
        }
    }
}
