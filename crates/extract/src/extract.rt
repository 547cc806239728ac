// The extract that is open, as far as it is read.
ghost use Rattle.std.specs.Prelude.{◌≡◌, ◌≤◌};
ghost use Rattle.extract.specs.Stages.{most_rows};

use crate::stage::Stage;
use schedule::transaction::Transaction;

/// Its stage, the number of rows taken, the current file reference of its header, and the transaction that is being read.
#[derive(Clone, Copy)]
pub struct Extract {
    pub(crate) stage: Stage,
    pub(crate) taken: u16,
    pub(crate) current: [u8; 7],
    pub(crate) draft: Transaction,
    ghost few: { taken ≤ most_rows stage },
}
