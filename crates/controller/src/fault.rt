// Why a call was turned away.
use cif::refusal::RowFault;

/// A row fault and the number of the row, or 0.
#[derive(Clone, Copy, Debug, PartialEq, Eq)]
pub struct ExtractFault {
    /// The refusal, its column, and the row's identity, two blanks where there is no row.
    pub fault: RowFault,
    /// The number of the row: rows taken plus 1, or 0 where there is no row.
    pub row: u16,
}
