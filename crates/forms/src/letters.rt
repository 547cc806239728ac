// Fields of one letter.
ghost use Rattle.std.specs.Prelude.{◌≡◌, Some};
ghost use Rattle.forms.specs.Letters.{stp_letter, transaction_letter, coverage_letter, stp_in, transaction_in, coverage_in, case_or_letter};

use std::error::Error;
use std::fmt;

/// A letter that stands for nothing in its field.
#[derive(Clone, Copy, Debug, PartialEq, Eq)]
pub struct UnknownLetter(pub char);

impl fmt::Display for UnknownLetter {
    fn fmt<W: fmt::Write>(&self, f: &mut fmt::Formatter<W>) -> fmt::Result {
        write!(f, "the letter {} stands for nothing here", self.0)
    }
}

impl Error for UnknownLetter {}

/// What kind of schedule it is, by its STP letter.
#[derive(Clone, Copy, Debug, PartialEq, Eq)]
pub enum Stp {
    /// C: the train does not run on the days that the schedule covers.
    Cancellation = b'C' as isize,
    /// N: a train that runs for a short term only.
    ShortTerm = b'N' as isize,
    /// O: what holds in place of the permanent schedule on the days that it covers.
    Overlay = b'O' as isize,
    /// P: the permanent schedule.
    Permanent = b'P' as isize,
}

impl TryFrom<char> for Stp {
    type Error = UnknownLetter;

    ghost try_from_gives = { λ letter r. r ≡ case_or_letter (stp_in letter) letter };

    fn try_from(letter: char) -> Result<Self, UnknownLetter> {
        match letter {
            'C' => Ok(Stp::Cancellation),
            'N' => Ok(Stp::ShortTerm),
            'O' => Ok(Stp::Overlay),
            'P' => Ok(Stp::Permanent),
            _ => Err(UnknownLetter(letter)),
        }
    }
}

impl Stp {
    /// Each case with its letter.
    pub const LETTERS: [(Stp, u8); 4] = [
        (Stp::Cancellation, Stp::Cancellation as u8),
        (Stp::ShortTerm, Stp::ShortTerm as u8),
        (Stp::Overlay, Stp::Overlay as u8),
        (Stp::Permanent, Stp::Permanent as u8),
    ];

    /// The letter, in upper case.
    pub fn letter(self) -> u8
        ensures value { result ≡ stp_letter self }
        ensures named { stp_in result ≡ Some self }
    {
        self as u8
    }
}

/// What a BS row does with a schedule, by its transaction letter.
#[derive(Clone, Copy, Debug, PartialEq, Eq)]
pub enum TransactionType {
    /// N: it is new.
    New = b'N' as isize,
    /// R: it takes the place of the one of its key.
    Revise = b'R' as isize,
    /// D: it goes.
    Delete = b'D' as isize,
}

impl TryFrom<char> for TransactionType {
    type Error = UnknownLetter;

    ghost try_from_gives = { λ letter r. r ≡ case_or_letter (transaction_in letter) letter };

    fn try_from(letter: char) -> Result<Self, UnknownLetter> {
        match letter {
            'N' => Ok(TransactionType::New),
            'R' => Ok(TransactionType::Revise),
            'D' => Ok(TransactionType::Delete),
            _ => Err(UnknownLetter(letter)),
        }
    }
}

impl TransactionType {
    /// Each case with its letter.
    pub const LETTERS: [(TransactionType, u8); 3] = [
        (TransactionType::New, TransactionType::New as u8),
        (TransactionType::Revise, TransactionType::Revise as u8),
        (TransactionType::Delete, TransactionType::Delete as u8),
    ];

    /// The letter, in upper case.
    pub fn letter(self) -> u8
        ensures value { result ≡ transaction_letter self }
        ensures named { transaction_in result ≡ Some self }
    {
        self as u8
    }
}

/// How much an extract covers, by the letter of its HD row.
#[derive(Clone, Copy, Debug, PartialEq, Eq)]
pub enum Coverage {
    /// F: a full timetable.
    Full = b'F' as isize,
    /// U: what changes after the extract that it names as the last.
    Update = b'U' as isize,
}

impl TryFrom<char> for Coverage {
    type Error = UnknownLetter;

    ghost try_from_gives = { λ letter r. r ≡ case_or_letter (coverage_in letter) letter };

    fn try_from(letter: char) -> Result<Self, UnknownLetter> {
        match letter {
            'F' => Ok(Coverage::Full),
            'U' => Ok(Coverage::Update),
            _ => Err(UnknownLetter(letter)),
        }
    }
}

impl Coverage {
    /// Each case with its letter.
    pub const LETTERS: [(Coverage, u8); 2] = [
        (Coverage::Full, Coverage::Full as u8),
        (Coverage::Update, Coverage::Update as u8),
    ];

    /// The letter, in upper case.
    pub fn letter(self) -> u8
        ensures value { result ≡ coverage_letter self }
        ensures named { coverage_in result ≡ Some self }
    {
        self as u8
    }
}
