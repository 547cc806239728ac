//! What is said in place of a task.
ghost use Rattle.std.specs.Prelude.{◌≡◌};
ghost use Rattle.clap.specs.Values.{kind_of};
ghost use Rattle.clap.specs.declared.error.kind.ErrorKind.TheVariants.{InvalidValue};
ghost use Rattle.command_line.specs.declared.refusal.NoTask.TheVariants.{OutOfMemory};
ghost use Rattle.command_line.specs.Refusals.{SaysKind};

use clap::Error;
use clap::error::ErrorKind;
use std::alloc::{AllocError, AllocFailed, Global};
use std::{error, fmt};

/// What is said where words ask for no task that can be done.
#[derive(Debug, Drop)]
pub enum NoTask {
    /// Help or the version was asked for: its text, for standard output.
    Shown(String),
    /// The words ask for no task: which word is wrong, and what would be right.
    Wrong(String),
    /// No memory is left.
    OutOfMemory,
}

impl<T: Drop> From<AllocFailed<T>> for NoTask {
    ghost from_gives = { λ _ said. said ≡ OutOfMemory };

    fn from(_error: AllocFailed<T>) -> NoTask {
        NoTask::OutOfMemory
    }
}

impl From<AllocError> for NoTask {
    ghost from_gives = { λ _ said. said ≡ OutOfMemory };

    fn from(_error: AllocError) -> NoTask {
        NoTask::OutOfMemory
    }
}

impl fmt::Display for NoTask {
    fn fmt<W: fmt::Write>(&self, f: &mut fmt::Formatter<W>) -> fmt::Result {
        match self {
            NoTask::Shown(text) | NoTask::Wrong(text) => f.write_str(text.as_str()),
            NoTask::OutOfMemory => f.write_str("error: out of memory\n"),
        }
    }
}

impl error::Error for NoTask {}

// What an error ends with.
const SEE_HELP: &str = "For more information, try '--help'.";

// The text of an error of `clap`, without its advice to put `--` before a word, which stands
// between two tasks here.
fn text_of(alloc: Global, error: &Error) -> Result<String, AllocError> {
    let whole = format!(in alloc; "{error}")?;
    let mut text = String::new(alloc);
    for line in whole.as_str().lines() {
        if line.starts_with("  tip: to pass '") {
            text.push_str("  tip: to name a file that begins with '-', write './' before it")?;
        } else {
            text.push_str(line)?;
        }
        text.push_str("\n")?;
    }
    Ok(text)
}

// What is said for an error of `clap`.
pub(crate) fn refused(alloc: Global, error: &Error) -> NoTask
    ensures { SaysKind (kind_of error.now) result }
{
    if error.kind() == ErrorKind::OutOfMemory {
        return NoTask::OutOfMemory;
    }
    match text_of(alloc, error) {
        Ok(text) if error.use_stderr() => NoTask::Wrong(text),
        Ok(text) => NoTask::Shown(text),
        Err(_) => NoTask::OutOfMemory,
    }
}

// What is said for a word that is no value of an option.
fn no_value(alloc: Global, word: &str, option: &str, possible: &str) -> NoTask
    ensures { SaysKind InvalidValue result }
{
    let text = format!(in alloc;
        "error: invalid value '{word}' for '{option}'\n  [possible values: {possible}]\n\n{SEE_HELP}\n"
    );
    match text {
        Ok(text) => NoTask::Wrong(text),
        Err(_) => NoTask::OutOfMemory,
    }
}

// What is said for a word that names no store.
pub(crate) fn no_store(alloc: Global, word: &str) -> NoTask
    ensures { SaysKind InvalidValue result }
{
    no_value(alloc, word, "--store <STORE>", "table, bag")
}

// What is said for a word that names no time.
pub(crate) fn no_clock(alloc: Global, word: &str) -> NoTask
    ensures { SaysKind InvalidValue result }
{
    no_value(
        alloc,
        word,
        "--at <HH:MM>",
        "two digits, a colon and two digits, as 09:05",
    )
}
