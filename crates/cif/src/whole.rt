// Whether bytes are a row at all.
ghost use Rattle.std.specs.Prelude.{◌≡◌, ℕ, ◌+◌, ◌-◌, ◌<◌, ◌≤◌, length, Some, None, Ok, Err, Option, Result, MatchResult};
ghost use Rattle.forms.specs.Bytes.{columns, byte_at};
ghost use Rattle.std.specs.Fn.{FnOnceReturnsAt};
ghost use Rattle.std.specs.Result.{result_ok};
ghost use Rattle.cif.specs.Refusals.{uppermost, fault_of, field_at};
ghost use Rattle.cif.specs.Rows.{is_printable, first_bad, row_lines, whole_in};
ghost use Rattle.cif.specs.WholeRows.{row_bytes, row_identity};

use crate::identity::Identity;
use crate::refusal::{ColumnFault, Refusal};
use crate::row::{ROW_LENGTH, Row};

/// Whether a byte is printable: from 32 to 126.
pub fn is_printable(b: u8) -> bool
    ensures { result ≡ is_printable b }
{
    matches!(b, 32..=126)
}

// The column of the first byte of a row that is not printable.
fn first_bad(bytes: &[u8]) -> Option<u8>
    requires { length bytes.now ≡ ROW_LENGTH }
    ensures { result ≡ first_bad bytes.now }
{
    let index = bytes.iter().position(|b| !is_printable(*b))?;
    Some(index as u8 + 1)
}

impl Row {
    /// The row that bytes make, or why they make none: they are not 80, one is not printable, or their identity is not known.
    pub fn check(bytes: &[u8]) -> Result<Row, ColumnFault>
        ensures made { MatchResult result
            (λ row. (row_bytes row ≡ bytes.now) × (whole_in bytes.now ≡ Ok (row_identity row)))
            (λ e. whole_in bytes.now ≡ Err e) }
        ensures told { fault_of result ≡ uppermost (row_lines bytes.now) }
    {
        let Ok(bytes) = <[u8; ROW_LENGTH]>::try_from(bytes) else {
            return Err(Refusal::RowLength.at(0));
        };
        if let Some(column) = first_bad(&bytes) {
            return Err(Refusal::BadByte.at(column));
        }
        match Identity::try_from([bytes[0], bytes[1]]) {
            Ok(identity) => Ok(Row { bytes, identity }),
            Err(_) => Err(Refusal::UnknownIdentity.at(1)),
        }
    }

    /// What the row is.
    pub fn identity(&self) -> Identity
        ensures { result ≡ row_identity self.now }
    {
        self.identity
    }

    // The row's own bytes at the columns first to last, which count from 1.
    pub(crate) fn columns(&self, first: usize, last: usize) -> &[u8]
        requires from { 1 ≤ first }
        requires order { first ≤ last }
        requires within { last ≤ ROW_LENGTH }
        ensures { result.now ≡ columns first last (row_bytes self.now) }
    {
        &self.bytes[first - 1..last]
    }

    // The byte at a column.
    pub(crate) fn byte(&self, column: usize) -> u8
        requires from { 1 ≤ column }
        requires within { column ≤ ROW_LENGTH }
        ensures { result ≡ byte_at column (row_bytes self.now) }
    {
        self.bytes[column - 1]
    }

    // What a reader makes of the bytes at the columns first to last, or the fault that they lack their form.
    pub(crate) fn field<T, F: FnOnce(&[u8]) -> Option<T>>(
        &self,
        first: u8,
        last: u8,
        read: F,
    ) -> Result<T, ColumnFault>
        requires from { 1 ≤ first }
        requires order { first ≤ last }
        requires within { last ≤ ROW_LENGTH }
        requires callable { F.IsAlwaysCallable read }
        ensures { (found : Option T)
            × FnOnceReturnsAt F.FnOnce read (columns first last (row_bytes self.now)) found
            × (result ≡ field_at first found) }
    {
        read(self.columns(first as usize, last as usize)).ok_or(Refusal::BadForm.at(first))
    }

    // What the letter at a column stands for, or the fault that it stands for nothing.
    pub(crate) fn letter<L: TryFrom<char>>(&self, column: u8) -> Result<L, ColumnFault>
    where
        L::Error: Drop,
        requires from { 1 ≤ column }
        requires within { column ≤ ROW_LENGTH }
        ensures { (found : Result L L.Error)
            × L.try_from_gives (byte_at column (row_bytes self.now)) found
            × (result ≡ field_at column (result_ok found)) }
    {
        L::try_from(self.byte(column as usize) as char)
            .ok()
            .ok_or(Refusal::BadForm.at(column))
    }
}
