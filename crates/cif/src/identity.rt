// What a row is, by its first two columns.
ghost use Rattle.std.specs.Prelude.{Some, codes};
ghost use Rattle.cif.specs.Rows.{HasLetters, Names};

use std::error::Error;
use std::fmt;

/// What a row is, by the two letters that it begins with: a case's number is the first letter's byte and then the second's.
#[derive(Clone, Copy, Debug, PartialEq, Eq)]
pub enum Identity {
    /// HD: header, which opens an extract.
    Header = b'H' as isize * 256 + b'D' as isize,
    /// BS: basic schedule, one change to the timetable.
    BasicSchedule = b'B' as isize * 256 + b'S' as isize,
    /// BX: basic schedule, extra details.
    BasicExtra = b'B' as isize * 256 + b'X' as isize,
    /// LO: origin location.
    Origin = b'L' as isize * 256 + b'O' as isize,
    /// LI: intermediate location.
    Intermediate = b'L' as isize * 256 + b'I' as isize,
    /// LT: terminating location.
    Terminus = b'L' as isize * 256 + b'T' as isize,
    /// CR: changes en route.
    ChangeEnRoute = b'C' as isize * 256 + b'R' as isize,
    /// TI: TIPLOC insert.
    TiplocInsert = b'T' as isize * 256 + b'I' as isize,
    /// TA: TIPLOC amend.
    TiplocAmend = b'T' as isize * 256 + b'A' as isize,
    /// TD: TIPLOC delete.
    TiplocDelete = b'T' as isize * 256 + b'D' as isize,
    /// AA: association of two trains.
    Association = b'A' as isize * 256 + b'A' as isize,
    /// ZZ: trailer, which closes an extract.
    Trailer = b'Z' as isize * 256 + b'Z' as isize,
}

/// Two letters that no row begins with.
#[derive(Clone, Copy, Debug, PartialEq, Eq)]
pub struct UnknownIdentity(pub [u8; 2]);

impl fmt::Display for UnknownIdentity {
    ghost output = { λ _. Some (codes "no row begins with these letters") };

    fn fmt<W: fmt::Write>(&self, f: &mut fmt::Formatter<W>) -> fmt::Result {
        f.write_str("no row begins with these letters")
    }
}

impl Error for UnknownIdentity {}

impl Identity {
    /// Each identity with its two letters as a number, the first letter's byte before the second's.
    pub const LETTERS: [(Identity, u16); 12] = [
        (Identity::Header, Identity::Header as u16),
        (Identity::BasicSchedule, Identity::BasicSchedule as u16),
        (Identity::BasicExtra, Identity::BasicExtra as u16),
        (Identity::Origin, Identity::Origin as u16),
        (Identity::Intermediate, Identity::Intermediate as u16),
        (Identity::Terminus, Identity::Terminus as u16),
        (Identity::ChangeEnRoute, Identity::ChangeEnRoute as u16),
        (Identity::TiplocInsert, Identity::TiplocInsert as u16),
        (Identity::TiplocAmend, Identity::TiplocAmend as u16),
        (Identity::TiplocDelete, Identity::TiplocDelete as u16),
        (Identity::Association, Identity::Association as u16),
        (Identity::Trailer, Identity::Trailer as u16),
    ];
}

impl TryFrom<[u8; 2]> for Identity {
    type Error = UnknownIdentity;

    ghost try_from_gives = { Names };

    fn try_from(letters: [u8; 2]) -> Result<Self, UnknownIdentity> {
        let number = u16::from_be_bytes(letters);
        for (identity, own) in Identity::LETTERS {
            if own == number {
                return Ok(identity);
            }
        }
        Err(UnknownIdentity(letters))
    }
}

impl From<Identity> for [u8; 2] {
    ghost from_gives = { HasLetters };

    fn from(identity: Identity) -> [u8; 2] {
        (identity as u16).to_be_bytes()
    }
}
