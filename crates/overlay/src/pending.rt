// Transactions that wait, in the order in which they joined.
ghost use Rattle.std.specs.Prelude.{◌≡◌, ◌≤◌, true, length, take};
ghost use Rattle.schedule.specs.Transactions.{every_lawful};

use schedule::transaction::Change;

/// How many transactions can be pending.
pub const MOST: usize = 32;

/// Up to 32 transactions, as plain records, in the order in which they joined.
#[derive(Clone, Copy)]
pub struct Pending {
    pub(crate) slots: [Change; 32],
    pub(crate) len: usize,
    ghost long: { length slots ≡ 32 },
    ghost few: { len ≤ 32 },
    ghost lawful: { every_lawful (take len slots) ≡ true },
}

// Some of the pending transactions, lent.
#[derive(Clone, Copy)]
pub(crate) struct Changes<'a> {
    pub(crate) list: &'a [Change],
    ghost few: { length list.now ≤ 32 },
    ghost lawful: { every_lawful list.now ≡ true },
}
