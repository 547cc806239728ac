//! The lines of a script, read one after another.
ghost use Rattle.std.specs.Prelude.{◌≡◌, ℕ, map, Some, None, Ok, Err, option_map, IfOk};
ghost use Rattle.std.specs.Bool.{OnTrue, OnFalse};
ghost use Rattle.scripts.specs.Histories.{history_of, histories_after, histories_in};
ghost use Rattle.scripts.specs.Lines.{meaning_of, new_in, turn_in, page_into, page_in, board_call_in, call_in, meaning_in};
ghost use Rattle.scripts.specs.Steps.{call_of};
ghost use Rattle.scripts.specs.declared.reading.Unread.TheVariants.{Line, Memory};

use crate::history::History;
use crate::step::Step;
use crate::text::{bytes_of, number_up_to, split_blank};
use files::Rows;
use std::alloc::{AllocError, Global};

// How many slots a store may have.
const MOST_SLOTS: u64 = 65_536;

// How many line slots a board may have.
const MOST_LINES: u64 = 131_072;

// A line of a script that has been read.
#[derive(Drop)]
enum ScriptLine {
    Nothing,
    New(usize, usize),
    Other,
    Step(Step),
}

// A new history's slots and line slots.
fn new_in(numbers: &[u8]) -> Option<ScriptLine>
    ensures { option_map meaning_of result ≡ new_in numbers.now }
{
    let (capacity, slots) = split_blank(numbers);
    let capacity = number_up_to(MOST_SLOTS, capacity)?;
    let slots = number_up_to(MOST_LINES, slots?)?;
    Some(ScriptLine::New(capacity as usize, slots as usize))
}

// The call that a day and a station, behind the word `turn`, ask for.
fn turn_in(alloc: Global, rest: &[u8]) -> Result<Option<Step>, AllocError>
    ensures { IfOk result (λ step. option_map call_of step ≡ turn_in rest.now) }
{
    let (day, station) = split_blank(rest);
    let Some(day) = number_up_to(u64::from(u32::MAX), day) else {
        return Ok(None);
    };
    let day = day as u32;
    let station = bytes_of(alloc, station.unwrap_or(&[]))?;
    Ok(station.map(|station| Step::Turn(day, station)))
}

// The call page into so many bytes that a minute and a local name ask for.
fn page_into(alloc: Global, length: usize, rest: &[u8]) -> Result<Option<Step>, AllocError>
    ensures { IfOk result (λ step. option_map call_of step ≡ page_into length rest.now) }
{
    let (minute, name) = split_blank(rest);
    let Some(minute) = number_up_to(u64::from(u32::MAX), minute) else {
        return Ok(None);
    };
    let minute = minute as u32;
    let name = bytes_of(alloc, name.unwrap_or(&[]))?;
    Ok(name.map(|name| Step::Page {
        name,
        minute,
        length,
    }))
}

// The call that a number of bytes, a minute and a local name, behind the word `page`, ask for.
fn page_in(alloc: Global, rest: &[u8]) -> Result<Option<Step>, AllocError>
    ensures { IfOk result (λ step. option_map call_of step ≡ page_in rest.now) }
{
    let (length, rest) = split_blank(rest);
    match (number_up_to(u64::MAX, length), rest) {
        (Some(length), Some(rest)) => page_into(alloc, length as usize, rest),
        _ => Ok(None),
    }
}

// The call that a word and what follows it ask for, of those that are told something of a board.
fn board_step_in(alloc: Global, word: &str, rest: Option<&[u8]>) -> Result<Option<Step>, AllocError>
    ensures { IfOk result (λ step. option_map call_of step
        ≡ board_call_in word.now (option_map (λ text. text.now) rest.entry)) }
{
    match (word, rest) {
        ("turn", Some(rest)) => turn_in(alloc, rest),
        ("page", Some(rest)) => page_in(alloc, rest),
        ("tell", Some(place)) => {
            let place = number_up_to(u64::MAX, place);
            Ok(place.map(|place| Step::Tell(place as usize)))
        }
        _ => Ok(None),
    }
}

// The call that a word and what follows it ask for, if they ask for one.
fn step_in(alloc: Global, word: &str, rest: Option<&[u8]>) -> Result<Option<Step>, AllocError>
    ensures { IfOk result (λ step. option_map call_of step
        ≡ call_in word.now (option_map (λ text. text.now) rest.entry)) }
{
    let step = match (word, rest) {
        ("open", _) => bytes_of(alloc, rest.unwrap_or(&[]))?.map(Step::Open),
        ("row", _) => bytes_of(alloc, rest.unwrap_or(&[]))?.map(Step::Row),
        ("confirm", None) => Some(Step::Confirm),
        ("abandon", None) => Some(Step::Abandon),
        ("tally", None) => Some(Step::Tally),
        _ => board_step_in(alloc, word, rest)?,
    };
    Ok(step)
}

// What a line means, or none where it is no line of a script.
fn script_line(alloc: Global, line: &[u8]) -> Result<Option<ScriptLine>, AllocError>
    ensures { IfOk result (λ read. option_map meaning_of read ≡ meaning_in line.now) }
{
    if line.is_empty() || line[0] == b'#' {
        return Ok(Some(ScriptLine::Nothing));
    }
    let (word, rest) = split_blank(line);
    let Ok(word) = str::from_utf8(word) else {
        return Ok(None);
    };
    let read = match (word, rest) {
        ("new", Some(numbers)) => new_in(numbers),
        ("other", None) => Some(ScriptLine::Other),
        _ => step_in(alloc, word, rest)?.map(ScriptLine::Step),
    };
    Ok(read)
}

// Adds what a line means to the histories before it, and answers whether it may stand there.
fn take(alloc: Global, histories: &mut Vec<History>, read: ScriptLine) -> Result<bool, AllocError>
    ensures taken { IfOk result (λ taken. OnTrue taken
        (histories_after (map history_of histories.old.items) (meaning_of read)
        ≡ Some (map history_of histories.new.items))) }
    ensures refused { IfOk result (λ taken. OnFalse taken
        (histories_after (map history_of histories.old.items) (meaning_of read) ≡ None)) }
    ensures unchanged { IfOk result
        (λ taken. OnFalse taken (histories.new.items ≡ histories.old.items)) }
{
    match read {
        ScriptLine::Nothing => {}
        ScriptLine::New(capacity, slots) => histories.push(History {
            capacity,
            slots,
            calls: Vec::new(alloc),
            other: None,
        })?,
        ScriptLine::Other => match histories.last_mut() {
            Some(history) if history.other.is_none() => history.other = Some(Vec::new(alloc)),
            _ => return Ok(false),
        },
        ScriptLine::Step(step) => match histories.last_mut() {
            Some(history) => history.push(step)?,
            None => return Ok(false),
        },
    }
    Ok(true)
}

/// Why a script is not read.
#[derive(Drop)]
pub enum Unread {
    /// The first line that is none of a script or stands where it may not, by its number, counted
    /// from 1.
    Line(usize),
    /// There is no memory.
    Memory(AllocError),
}

impl From<AllocError> for Unread {
    ghost from_gives = { λ error unread. unread ≡ Memory error };

    fn from(error: AllocError) -> Unread {
        Unread::Memory(error)
    }
}

/// The histories of a script, any bytes. The first line that is none of a script, or stands where
/// it may not, is told by its number.
pub fn histories_in(alloc: Global, script: &[u8]) -> Result<Vec<History>, Unread>
    ensures histories { IfOk result
        (λ histories. histories_in script.now ≡ Ok (map history_of histories.items)) }
    ensures unread { (number : ℕ) → result ≡ Err (Line number)
        → histories_in script.now ≡ Err number }
{
    let mut histories = Vec::new(alloc);
    for (place, line) in Rows::new(script).enumerate() {
        let taken = match script_line(alloc, line)? {
            Some(read) => take(alloc, &mut histories, read)?,
            None => false,
        };
        if !taken {
            return Err(Unread::Line(place + 1));
        }
    }
    Ok(histories)
}
