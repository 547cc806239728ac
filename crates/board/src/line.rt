// A line of a departure board.

/// Where a line stands: departure minute, UID number, and the call's place among the kept calls from 0.
#[derive(Clone, Copy, Debug, PartialEq, Eq, PartialOrd, Ord)]
pub struct LineKey {
    /// The minute of the day at which the call departs, from 1 to 1,439.
    pub minute: u16,
    /// The UID number of its train.
    pub uid: u32,
    /// The place of the call among the kept calls of its schedule, counted from 0.
    pub place: u8,
}

/// A line of a departure board: one call of one train. docs/boards.md says which lines a board has.
#[derive(Clone, Copy, Debug, PartialEq, Eq)]
pub struct Line {
    /// Where the line stands.
    pub key: LineKey,
    /// The platform of the call: three of A–Z, 0–9 and blank.
    pub platform: [u8; 3],
    /// The TIPLOC at which the train ends, with blanks up to seven bytes.
    pub destination: [u8; 7],
    /// The train identity: four of A–Z, 0–9 and blank.
    pub train: [u8; 4],
    /// The operator: two of A–Z, 0–9 and blank, both blank where none was named.
    pub operator: [u8; 2],
}
