// Rows of a train's calls.
ghost use Rattle.std.specs.Prelude.{◌≡◌, ◌+◌, ◌≤◌};
ghost use Rattle.cif.specs.Refusals.{field_at};
ghost use Rattle.cif.specs.Fields.{tiploc_of, suffix_of, time_at, platform_at, origin_in, intermediate_in, terminus_in};
ghost use Rattle.cif.specs.WholeRows.{row_bytes};

use crate::content::Location;
use crate::refusal::{ColumnFault, Refusal};
use crate::row::Row;
use forms::numbers::time;
use forms::places::{suffix, tiploc};
use forms::text::{Alphabet, text};

impl Row {
    // The TIPLOC, from column 3 on.
    fn tiploc_field(&self) -> Result<[u8; 7], ColumnFault>
        ensures { result ≡ field_at 3 (tiploc_of (row_bytes self.now)) }
    {
        self.field(3, 9, tiploc)
    }

    // The suffix, at column 10.
    fn suffix_field(&self) -> Result<u8, ColumnFault>
        ensures { result ≡ field_at 10 (suffix_of (row_bytes self.now)) }
    {
        suffix(self.byte(10)).ok_or(Refusal::BadForm.at(10))
    }

    // The public time from a column on.
    fn time_field(&self, first: u8) -> Result<Option<u16>, ColumnFault>
        requires from { 1 ≤ first }
        requires within { first ≤ 77 }
        ensures { result ≡ field_at first (time_at first (row_bytes self.now)) }
    {
        self.field(first, first + 3, time)
    }

    // The platform from a column on.
    fn platform_field(&self, first: u8) -> Result<[u8; 3], ColumnFault>
        requires from { 1 ≤ first }
        requires within { first ≤ 78 }
        ensures { result ≡ field_at first (platform_at first (row_bytes self.now)) }
    {
        self.field(first, first + 2, |bytes| text(Alphabet::Labels, bytes))
    }

    /// The fields of an LO row, or the fault of the leftmost without its form.
    pub fn origin(&self) -> Result<Location, ColumnFault>
        ensures { result ≡ origin_in (row_bytes self.now) }
    {
        let tiploc = self.tiploc_field()?;
        let suffix = self.suffix_field()?;
        let departure = self.time_field(16)?;
        let platform = self.platform_field(20)?;
        Ok(Location {
            tiploc,
            suffix,
            arrival: None,
            departure,
            platform,
        })
    }

    /// The fields of an LI row, or the fault of the leftmost without its form.
    pub fn intermediate(&self) -> Result<Location, ColumnFault>
        ensures { result ≡ intermediate_in (row_bytes self.now) }
    {
        let tiploc = self.tiploc_field()?;
        let suffix = self.suffix_field()?;
        let arrival = self.time_field(26)?;
        let departure = self.time_field(30)?;
        let platform = self.platform_field(34)?;
        Ok(Location {
            tiploc,
            suffix,
            arrival,
            departure,
            platform,
        })
    }

    /// The fields of an LT row, or the fault of the leftmost without its form.
    pub fn terminus(&self) -> Result<Location, ColumnFault>
        ensures { result ≡ terminus_in (row_bytes self.now) }
    {
        let tiploc = self.tiploc_field()?;
        let suffix = self.suffix_field()?;
        let arrival = self.time_field(16)?;
        let platform = self.platform_field(20)?;
        Ok(Location {
            tiploc,
            suffix,
            arrival,
            departure: None,
            platform,
        })
    }
}
