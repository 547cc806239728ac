//! Why a task ended before it was done.
ghost use Rattle.std.specs.Prelude.{◌≡◌, IfErr};
ghost use Rattle.list_tasks.specs.declared.error.TaskError.TheVariants.{Other};
ghost use Rattle.list_tasks.specs.Errors.{IsOther, NamesFile, NamesWritten};

use std::alloc::AllocError;
use std::{error, fmt, fs, io};

// What a line of a script may be.
const LINES: &str = "\
no line of a script, or not where it may stand
A line is empty, begins with # and is passed over, or is one of these:
  new CAPACITY SLOTS  begins a history; CAPACITY is from 0 to 65536, SLOTS from 0 to 131072
  other               the calls behind it are the bag's alone; once in a history
  open BYTES          the bytes of a row; \\ and two hexadecimal digits stand for one byte
  row BYTES
  confirm
  abandon
  turn DAY BYTES      DAY is from 0 to 4294967295, and BYTES are a station
  page LENGTH MINUTE BYTES
                      LENGTH is a number from 0, MINUTE from 0 to 4294967295, and BYTES are a local name
  tell PLACE          PLACE is a number from 0
  tally
Only a line that is passed over may stand before the first new.";

/// Why a task ended before it was done. Its `Display` is the text for the user.
#[derive(Debug, Drop)]
pub enum TaskError {
    /// A file cannot be read: its name, and why.
    File(String, io::Error),
    /// A file cannot be written: its name, and why.
    Unwritten(String, io::Error),
    /// A line of a script may not stand there: the script's name, and the line's number from 1.
    Line(String, usize),
    /// What is printed cannot be written, or no memory is left.
    Other(anyhow::Error),
}

impl From<anyhow::Error> for TaskError {
    ghost from_gives = { λ error made. made ≡ Other error };

    fn from(error: anyhow::Error) -> TaskError {
        TaskError::Other(error)
    }
}

impl From<io::Error> for TaskError {
    ghost from_gives = { λ _ error. IsOther error };

    fn from(error: io::Error) -> TaskError {
        TaskError::Other(error.into())
    }
}

impl From<AllocError> for TaskError {
    ghost from_gives = { λ _ error. IsOther error };

    fn from(error: AllocError) -> TaskError {
        TaskError::Other(error.into())
    }
}

impl fmt::Display for TaskError {
    fn fmt<W: fmt::Write>(&self, f: &mut fmt::Formatter<W>) -> fmt::Result {
        match self {
            TaskError::File(name, error) => write!(f, "cannot read {name}: {error}"),
            TaskError::Unwritten(name, error) => write!(f, "cannot write {name}: {error}"),
            TaskError::Line(script, number) => write!(f, "script {script}, line {number}: {LINES}"),
            TaskError::Other(error) => write!(f, "{error}"),
        }
    }
}

impl error::Error for TaskError {}

/// The bytes of a file. Where it cannot be read the error names it.
pub fn read_file(rt: &HostRuntime, name: &str) -> Result<Vec<u8>, TaskError>
    ensures { IfErr result (NamesFile name.now) }
{
    match fs::read(rt, name) {
        Ok(bytes) => Ok(bytes),
        Err(error) => Err(TaskError::File(String::from_str(rt.alloc(), name)?, error)),
    }
}

/// Writes bytes to a file, in the place of what it held. Where it cannot be written the error names
/// it.
pub fn write_file(rt: &HostRuntime, name: &str, bytes: &[u8]) -> Result<(), TaskError>
    ensures { IfErr result (NamesWritten name.now) }
{
    match fs::write(rt, name, bytes) {
        Ok(()) => Ok(()),
        Err(error) => {
            let name = String::from_str(rt.alloc(), name)?;
            Err(TaskError::Unwritten(name, error))
        }
    }
}
