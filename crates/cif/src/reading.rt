// Any bytes as a row by itself.
ghost use Rattle.std.specs.Prelude.{◌≡◌};
ghost use Rattle.cif.specs.Refusals.{fault_of};
ghost use Rattle.cif.specs.Reading.{letters_in, content_in, read_in, fault_by_table, LeftmostIsTold};
ghost use Rattle.cif.specs.WholeRows.{row_bytes, row_identity};
ghost use Rattle.cif.specs.Dated.{OnlyNoEndIsNew};

use crate::content::Content;
use crate::identity::Identity;
use crate::refusal::{ColumnFault, RowFault, with_place};
use crate::row::Row;

impl Row {
    /// The two letters of the row's identity, as they stand in columns 1 and 2.
    pub fn letters(&self) -> [u8; 2]
        ensures { result ≡ letters_in (row_bytes self.now) }
    {
        [self.byte(1), self.byte(2)]
    }

    /// What the row holds, by its identity, or the fault of its fields.
    pub fn content(&self) -> Result<Content, ColumnFault>
        ensures { result ≡ content_in (row_identity self.now) (row_bytes self.now) }
    {
        match self.identity {
            Identity::Header => Ok(Content::Header(self.header()?)),
            Identity::BasicSchedule => Ok(Content::Schedule(self.basic_schedule()?)),
            Identity::BasicExtra => Ok(Content::Operator(self.operator()?)),
            Identity::Origin => Ok(Content::Origin(self.origin()?)),
            Identity::Intermediate => Ok(Content::Intermediate(self.intermediate()?)),
            Identity::Terminus => Ok(Content::Terminus(self.terminus()?)),
            other => Ok(Content::Unread(other)),
        }
    }
}

// What bytes hold as a row, by its parts in order.
fn read_in_order(bytes: &[u8]) -> Result<Content, RowFault>
    ensures { result ≡ read_in bytes.now }
{
    let row = with_place(Row::check(bytes), *b"  ")?;
    let content = with_place(row.content(), row.letters())?;
    Ok(content)
}

/// What bytes hold as a row, or the fault that the table of refusals gives. The bytes may be any, and of any length.
pub fn read(bytes: &[u8]) -> Result<Content, RowFault>
    ensures value { result ≡ read_in bytes.now }
    ensures told { fault_of result ≡ fault_by_table bytes.now }
{
    read_in_order(bytes)
}

/// Of the fields that lack their form the leftmost is told, for every kind of row.
pub fn leftmost_is_told()
    ensures { LeftmostIsTold }
{}

/// Any row but a BS with N or R that says that it has no end is read, or refused, as it was while every schedule had a last day.
pub fn only_no_end_is_new()
    ensures { OnlyNoEndIsNew }
{}
