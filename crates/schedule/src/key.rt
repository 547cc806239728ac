// What names a schedule.
use forms::letters::Stp;

/// What a schedule is found by: UID, first day and STP letter. A probe's UID and day may lie past any schedule's.
#[derive(Clone, Copy, Debug, PartialEq, Eq)]
pub struct Key {
    /// The UID number: the place of the UID's letter, from 0, times 100,000 plus its five digits. A schedule's is below
    /// 2,600,000.
    pub uid: u32,
    /// The first day that it runs, as a day number: 1 January 1960 is 0. A schedule's is 36,524 at the most.
    pub from: u16,
    /// The kind of schedule.
    pub stp: Stp,
}
