//! What the matches of a command line ask for.
ghost use Rattle.std.specs.Prelude.{◌≡◌, IfOk, option_map};
ghost use Rattle.clap.specs.Walk.{first_of, rows_of, texts};
ghost use Rattle.clap.specs.Matches.{found_of};
ghost use Rattle.command_line.specs.Requests.{board_request_of, page_request_of, request_of};
ghost use Rattle.command_line.specs.Requests.{number_up_to, slots_in, store_in, count_in, files_in};
ghost use Rattle.command_line.specs.Requests.{board_in, page_in};
ghost use Rattle.command_line.specs.Requests.{request_over, request_with, request_by};

use clap::ArgMatches;
use std::alloc::{AllocError, Global};
use tasks::{StoreKind, Task, Wanted, WantedPage, Work, clock};

// How many slots a store may have.
const MOST_SLOTS: u64 = 65_536;

// The first value of an option or argument.
fn word_in<'a>(matches: &ArgMatches<'a>, id: &str) -> Option<&'a str>
    ensures { option_map (λ word. word.now) result
        ≡ first_of id.now (rows_of (found_of matches.now)) }
{
    matches.get_str(id)
}

// The number that a word writes, if it is not above a limit.
fn number_up_to(most: u64, word: &str) -> Option<u64>
    ensures { result ≡ number_up_to most word.now }
{
    match word.parse::<u64>() {
        Ok(number) => if number <= most { Some(number) } else { None },
        Err(_) => None,
    }
}

// The number of slots that matches ask for.
fn slots_in(matches: &ArgMatches<'_>) -> Option<usize>
    ensures { result ≡ slots_in (rows_of (found_of matches.now)) }
{
    let slots = number_up_to(MOST_SLOTS, word_in(matches, "capacity")?)?;
    Some(slots as usize)
}

// The store that matches ask for.
fn store_in(matches: &ArgMatches<'_>) -> Option<StoreKind>
    ensures { result ≡ store_in (rows_of (found_of matches.now)) }
{
    StoreKind::named(word_in(matches, "store")?)
}

// How many times matches ask that a board be turned or its page be written.
fn count_in(matches: &ArgMatches<'_>) -> Option<u64>
    ensures { result ≡ count_in (rows_of (found_of matches.now)) }
{
    number_up_to(u64::MAX, word_in(matches, "count")?)
}

// The files that matches name.
fn files_in<'a>(alloc: Global, matches: &ArgMatches<'a>) -> Result<Option<Vec<&'a str>>, AllocError>
    ensures { IfOk result (λ files. option_map (λ names. texts names.items) files
        ≡ files_in (rows_of (found_of matches.now))) }
{
    match matches.get_strs("files") {
        Some(files) => Ok(Some(files.to_vec(alloc)?)),
        None => Ok(None),
    }
}

// The board that matches ask for.
fn board_in<'a>(matches: &ArgMatches<'a>) -> Option<Wanted<'a>>
    ensures { option_map board_request_of result ≡ board_in (rows_of (found_of matches.now)) }
{
    Some(Wanted {
        store: store_in(matches)?,
        slots: slots_in(matches)?,
        station: word_in(matches, "station")?,
        date: word_in(matches, "date")?,
    })
}

// The page of a board that matches ask for.
fn page_in<'a>(matches: &ArgMatches<'a>) -> Option<WantedPage<'a>>
    ensures { option_map page_request_of result ≡ page_in (rows_of (found_of matches.now)) }
{
    let at = word_in(matches, "at")?;
    Some(WantedPage {
        name: word_in(matches, "name").unwrap_or(""),
        minute: clock(at)?,
        at,
        svg: word_in(matches, "svg"),
    })
}

// The task over one store that its name, its matches, a board and files ask for.
fn task_over<'a>(
    name: &str,
    matches: &ArgMatches<'a>,
    wanted: Wanted<'a>,
    files: Vec<&'a str>,
) -> Option<Task<'a>>
    ensures { option_map request_of result
        ≡ request_over name.now (rows_of (found_of matches.now)) (board_request_of wanted.entry)
        (texts files.entry.items) }
{
    let work = match name {
        "board" => Work::Board(files),
        "turns" => Work::Turns(count_in(matches)?, files),
        "pages" => Work::Pages(count_in(matches)?, files),
        "extract" => Work::Extracts(word_in(matches, "base"), files),
        "run" => Work::Run(files),
        "glass" => Work::Glass(page_in(matches)?, files),
        _ => return None,
    };
    Some(Task::OverStore(wanted, work))
}

// The task that its name, its matches and files ask for.
fn task_with<'a>(name: &str, matches: &ArgMatches<'a>, files: Vec<&'a str>) -> Option<Task<'a>>
    ensures { option_map request_of result
        ≡ request_with name.now (rows_of (found_of matches.now)) (texts files.entry.items) }
{
    match name {
        "rows" => Some(Task::Rows(files)),
        "replay" => Some(Task::Replay(files)),
        "stores" => Some(Task::Stores(slots_in(matches)?, files)),
        _ => task_over(name, matches, board_in(matches)?, files),
    }
}

// The task that its name and its matches ask for.
pub(crate) fn task_by<'a>(
    alloc: Global,
    name: &str,
    matches: &ArgMatches<'a>,
) -> Result<Option<Task<'a>>, AllocError>
    ensures { IfOk result (λ task. option_map request_of task
        ≡ request_by name.now (rows_of (found_of matches.now))) }
{
    match files_in(alloc, matches)? {
        Some(files) => Ok(task_with(name, matches, files)),
        None => Ok(None),
    }
}
