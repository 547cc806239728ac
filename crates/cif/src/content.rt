// What rows hold, by their kind.
use crate::identity::Identity;
use forms::end::End;
use forms::letters::{Coverage, Stp};

/// What an HD row holds: the references of an extract, and how much it covers.
#[derive(Clone, Copy, Debug, PartialEq, Eq)]
pub struct Header {
    /// The file reference of this extract: seven letters and digits.
    pub current: [u8; 7],
    /// The file reference of the extract that it updates, or seven blanks.
    pub last: [u8; 7],
    /// Whether it is a full timetable or an update.
    pub coverage: Coverage,
}

/// What a BS row holds: which schedule it is about, and what is done with it.
#[derive(Clone, Copy, Debug, PartialEq, Eq)]
pub struct BasicSchedule {
    /// The UID number: the place of the UID's letter, from 0, times 100,000 plus its five digits.
    pub uid: u32,
    /// The first day that it runs: its day number (1 January 1960 is 0) and its weekday (Monday is 0).
    pub from: (u16, u8),
    /// The kind of schedule.
    pub stp: Stp,
    /// What is done with the schedule.
    pub action: Action,
}

/// What a BS row does with the schedule that it is about.
#[derive(Clone, Copy, Debug, PartialEq, Eq)]
pub enum Action {
    /// N: it is new.
    New(Running),
    /// R: it takes the place of the one of its key.
    Revise(Running),
    /// D: it goes. No more is read of the row.
    Delete,
}

/// Until when and on which days of the week a train runs, and under which identity.
#[derive(Clone, Copy, Debug, PartialEq, Eq)]
pub struct Running {
    /// The last day that it runs, or that it has no end.
    pub to: End,
    /// Whether it runs on each day of the week, Monday first.
    pub days: [bool; 7],
    /// The train identity: four bytes, letters, digits and blanks.
    pub train: [u8; 4],
}

/// What an LO, LI or LT row holds: where a train calls, and when. An origin has no arrival, a terminus no departure.
#[derive(Clone, Copy, Debug, PartialEq, Eq)]
pub struct Location {
    /// The TIPLOC: one to seven letters and digits, filled up with blanks.
    pub tiploc: [u8; 7],
    /// The suffix: a digit or a blank.
    pub suffix: u8,
    /// The public arrival, as the minute of the day, if there is one.
    pub arrival: Option<u16>,
    /// The public departure, as the minute of the day, if there is one.
    pub departure: Option<u16>,
    /// The platform: three bytes, letters, digits and blanks.
    pub platform: [u8; 3],
}

/// What a row that was read holds.
#[derive(Clone, Copy, Debug, PartialEq, Eq)]
pub enum Content {
    /// HD.
    Header(Header),
    /// BS.
    Schedule(BasicSchedule),
    /// BX: the operator, two bytes.
    Operator([u8; 2]),
    /// LO.
    Origin(Location),
    /// LI.
    Intermediate(Location),
    /// LT.
    Terminus(Location),
    /// A row of another identity, of which nothing more is read.
    Unread(Identity),
}
