// A fault carried up to the extract, level by level, each held whole.
ghost use Rattle.std.specs.Prelude.{◌≡◌};
ghost use Rattle.cif.specs.Refusals.{in_row, map_err};
ghost use Rattle.cif.specs.Reading.{blanks};
ghost use Rattle.controller.specs.Faults.{in_extract};

use crate::fault::ExtractFault;
use cif::refusal::{ColumnFault, RowFault, with_place};

impl From<(RowFault, u16)> for ExtractFault {
    ghost from_gives = { λ e r. r ≡ in_extract e.1 e.0 };

    fn from(e: (RowFault, u16)) -> ExtractFault {
        let (fault, row) = e;
        ExtractFault { fault, row }
    }
}

// A fault of a row, with the row's number.
pub(crate) fn numbered(r: Result<(), RowFault>, row: u16) -> Result<(), ExtractFault>
    ensures { result ≡ map_err (in_extract row) r }
{
    with_place(r, row)?;
    Ok(())
}

// A fault of a call that has no row, with blanks for the identity.
fn without_identity(r: Result<(), ColumnFault>) -> Result<(), RowFault>
    ensures { result ≡ map_err (in_row blanks) r }
{
    with_place(r, *b"  ")?;
    Ok(())
}

// A fault of a call that has no row.
pub(crate) fn without_row(r: Result<(), ColumnFault>) -> Result<(), ExtractFault>
    ensures { result ≡ map_err (in_extract 0) (map_err (in_row blanks) r) }
{
    numbered(without_identity(r), 0)
}
