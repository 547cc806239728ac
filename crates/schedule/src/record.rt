// A schedule as it lies in memory.
use crate::key::Key;
use cif::content::Location;
use forms::end::End;

/// How many calls a schedule keeps at the most.
pub const CALLS: usize = 48;

/// The plain record of a schedule. The first `count` calls are its kept calls; the others are filled alike, so that equal
/// schedules are equal records. docs/schedules.md has the rules of a schedule.
#[derive(Clone, Copy, Debug, PartialEq, Eq)]
pub struct Record {
    /// What the schedule is found by.
    pub key: Key,
    /// The last day that it runs, which of a schedule is 36,524 at the most, or that it has no end.
    pub to: End,
    /// Whether it runs on each day of the week, Monday first.
    pub days: [bool; 7],
    /// The train identity: four bytes, letters, digits and blanks.
    pub train: [u8; 4],
    /// The operator: two bytes, or two blanks where none was read.
    pub operator: [u8; 2],
    /// The destination: a TIPLOC of seven bytes, filled up with blanks, or seven blanks where none was read.
    pub destination: [u8; 7],
    /// The kept calls in row order, and after them the fillers.
    pub calls: [Location; CALLS],
    /// How many of the calls are kept.
    pub count: u8,
}
