// Why a call is turned away, and where.
ghost use Rattle.std.specs.Prelude.{◌≡◌, Some};
ghost use Rattle.cif.specs.Refusals.{number_of, fault_at, in_row, map_err};
ghost use Rattle.cif.specs.Texts.{words_of};

use std::error::Error;
use std::fmt;

/// Why a call is turned away, by its number in the table of refusals, docs/refusals.md.
#[derive(Clone, Copy, Debug, PartialEq, Eq)]
pub enum Refusal {
    /// The row is not 80 bytes.
    RowLength = 1,
    /// A byte is outside 32 to 126.
    BadByte = 2,
    /// The identity is none of the twelve.
    UnknownIdentity = 3,
    /// The row does not fit the stage or the call.
    OutOfPlace = 4,
    /// A field that is read lacks its form.
    BadForm = 5,
    /// The schedule runs from a later day than it runs to.
    EndsBeforeStart = 6,
    /// The file references do not fit.
    ReferenceMismatch = 7,
    /// New, and the key is there already.
    KeyPresent = 8,
    /// Revise or delete, and the key is not there.
    KeyAbsent = 9,
    /// A 49th kept call.
    TooManyCalls = 10,
    /// A third kept call at one TIPLOC.
    TooManyVisits = 11,
    /// A row after 9,999 that is not ZZ, or a BS after 32 transactions.
    TooManyRows = 12,
    /// New, and there are as many keys as the capacity.
    StoreFull = 13,
    /// The station is no TIPLOC, or the day is above 36,524.
    NoSuchBoard = 14,
    /// The board has fewer line slots than twice the capacity.
    TooFewSlots = 15,
    /// The page handed in is not of 264 bytes.
    PageLength = 16,
    /// The minute is above 1,439.
    NoSuchMinute = 17,
    /// A byte of the local name is outside 32 to 126.
    BadNameByte = 18,
}

impl Refusal {
    /// Each refusal with its number.
    pub const NUMBERS: [(Refusal, u8); 18] = [
        (Refusal::RowLength, Refusal::RowLength as u8),
        (Refusal::BadByte, Refusal::BadByte as u8),
        (Refusal::UnknownIdentity, Refusal::UnknownIdentity as u8),
        (Refusal::OutOfPlace, Refusal::OutOfPlace as u8),
        (Refusal::BadForm, Refusal::BadForm as u8),
        (Refusal::EndsBeforeStart, Refusal::EndsBeforeStart as u8),
        (Refusal::ReferenceMismatch, Refusal::ReferenceMismatch as u8),
        (Refusal::KeyPresent, Refusal::KeyPresent as u8),
        (Refusal::KeyAbsent, Refusal::KeyAbsent as u8),
        (Refusal::TooManyCalls, Refusal::TooManyCalls as u8),
        (Refusal::TooManyVisits, Refusal::TooManyVisits as u8),
        (Refusal::TooManyRows, Refusal::TooManyRows as u8),
        (Refusal::StoreFull, Refusal::StoreFull as u8),
        (Refusal::NoSuchBoard, Refusal::NoSuchBoard as u8),
        (Refusal::TooFewSlots, Refusal::TooFewSlots as u8),
        (Refusal::PageLength, Refusal::PageLength as u8),
        (Refusal::NoSuchMinute, Refusal::NoSuchMinute as u8),
        (Refusal::BadNameByte, Refusal::BadNameByte as u8),
    ];

    /// The number in the table of refusals, 1 to 18.
    pub fn number(self) -> u8
        ensures { result ≡ number_of self }
    {
        self as u8
    }

    /// The fault of this refusal at a column.
    pub fn at(self, column: u8) -> ColumnFault
        ensures { result ≡ fault_at self column }
    {
        ColumnFault {
            refusal: self,
            column,
        }
    }
}

impl fmt::Display for Refusal {
    ghost output = { λ refusal. Some (words_of refusal) };

    fn fmt<W: fmt::Write>(&self, f: &mut fmt::Formatter<W>) -> fmt::Result {
        f.write_str(match self {
            Refusal::RowLength => "the row is not 80 bytes",
            Refusal::BadByte => "a byte is outside 32 to 126",
            Refusal::UnknownIdentity => "the identity is not known",
            Refusal::OutOfPlace => "the row or call does not fit the stage",
            Refusal::BadForm => "a field lacks its form",
            Refusal::EndsBeforeStart => "it runs from a later day than it runs to",
            Refusal::ReferenceMismatch => "the file references do not fit",
            Refusal::KeyPresent => "the schedule is there already",
            Refusal::KeyAbsent => "the schedule is not there",
            Refusal::TooManyCalls => "a 49th kept call",
            Refusal::TooManyVisits => "a third kept call at one TIPLOC",
            Refusal::TooManyRows => "too many rows or transactions",
            Refusal::StoreFull => "the store is full",
            Refusal::NoSuchBoard => "no such station or day",
            Refusal::TooFewSlots => "too few line slots",
            Refusal::PageLength => "the page is not of 264 bytes",
            Refusal::NoSuchMinute => "the minute is above 1439",
            Refusal::BadNameByte => "a byte of the name is outside 32 to 126",
        })
    }
}

impl Error for Refusal {}

/// A refusal and the column that it is about.
#[derive(Clone, Copy, Debug, PartialEq, Eq)]
pub struct ColumnFault {
    /// Why it is turned away.
    pub refusal: Refusal,
    /// The column, 1 to 80, at which the field begins, or 0 where it is about none.
    pub column: u8,
}

/// A column fault and the identity of its row.
#[derive(Clone, Copy, Debug, PartialEq, Eq)]
pub struct RowFault {
    /// The fault within the row.
    pub fault: ColumnFault,
    /// The two letters of the row's identity, or two blanks where none is told.
    pub identity: [u8; 2],
}

impl From<(ColumnFault, [u8; 2])> for RowFault {
    ghost from_gives = { λ e r. r ≡ in_row e.1 e.0 };

    fn from(e: (ColumnFault, [u8; 2])) -> RowFault {
        let (fault, identity) = e;
        RowFault { fault, identity }
    }
}

/// A result whose fault has its place beside it, for the `?` of the level above.
pub fn with_place<T, E, P: Drop>(r: Result<T, E>, place: P) -> Result<T, (E, P)>
    ensures { result ≡ map_err (λ e. (e, place)) r }
{
    r.map_err(|e| (e, place))
}
