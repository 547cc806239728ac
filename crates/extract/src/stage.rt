// The stages of an extract.

/// How far an extract is read. docs/extracts.md says which rows each stage takes, and the stage after.
#[derive(Clone, Copy, Debug, PartialEq, Eq)]
pub enum Stage {
    /// No extract is open.
    Idle,
    /// Between two schedules: BS, TI, TA, TD, AA or ZZ may follow.
    Between,
    /// A BS began a schedule: BX or LO may follow.
    Begun,
    /// A BX named its operator: LO may follow.
    Extra,
    /// Its calls are read: LI, CR or LT may follow.
    Running,
    /// A CR came: LI may follow.
    Changed,
    /// The ZZ came: the extract can be confirmed.
    Complete,
}
