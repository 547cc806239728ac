// Header rows.
ghost use Rattle.std.specs.Prelude.{◌≡◌};
ghost use Rattle.cif.specs.Fields.{header_in};
ghost use Rattle.cif.specs.WholeRows.{row_bytes};

use crate::content::Header;
use crate::refusal::ColumnFault;
use crate::row::Row;
use forms::text::{last_reference, reference};

impl Row {
    /// The fields of an HD row, or the fault of the leftmost without its form.
    pub fn header(&self) -> Result<Header, ColumnFault>
        ensures { result ≡ header_in (row_bytes self.now) }
    {
        let current = self.field(33, 39, reference)?;
        let last = self.field(40, 46, last_reference)?;
        let coverage = self.letter(47)?;
        Ok(Header {
            current,
            last,
            coverage,
        })
    }
}
