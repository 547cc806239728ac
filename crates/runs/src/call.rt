// The eight calls, as values.

/// A call with what it is given, other than controller and board. A call that writes says how much of the memory it is handed.
#[derive(Clone, Copy, Debug)]
pub enum Call<'a> {
    /// Open an extract with its HD row, any bytes.
    Open(&'a [u8]),
    /// Take any other row, any bytes.
    Row(&'a [u8]),
    /// Do the open extract to the store, and let the board follow.
    Confirm,
    /// Drop the open extract.
    Abandon,
    /// Turn the board to a station, any bytes, and a day, as a day number.
    Turn(&'a [u8], u32),
    /// Write the page of the board.
    Page {
        /// The local name, any bytes.
        name: &'a [u8],
        /// The minute of the day from which on departures are shown, any number.
        minute: u32,
        /// How many bytes of the memory are handed in, from its first one on: so many, or all there are.
        length: usize,
    },
    /// Tell the board's line at a place counted from 0.
    Tell(usize),
    /// Tell how many transactions were ever confirmed.
    Tally,
}
