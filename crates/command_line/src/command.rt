//! The command line as `clap` reads it: the tasks with their arguments, and what help says of them.
ghost use Rattle.std.specs.Prelude.{◌≡◌, false, codes, IfOk};
ghost use Rattle.clap.specs.Simple.{App};
ghost use Rattle.clap.specs.Words.{app_of, rule_of};
ghost use Rattle.command_line.specs.Commands.{at_rule, base_rule, capacity_rule, count_rule};
ghost use Rattle.command_line.specs.Commands.{files_rule, name_rule, required_rule, store_rule};
ghost use Rattle.command_line.specs.Commands.{svg_rule, over_files, over_store, with_board};
ghost use Rattle.command_line.specs.Commands.{run_command, glass_command, replay_command};
ghost use Rattle.command_line.specs.Commands.{rows_command, stores_command, board_command};
ghost use Rattle.command_line.specs.Commands.{turns_command, pages_command, extract_command};
ghost use Rattle.command_line.specs.Commands.{IsCommand, IsLocal, departures, program, with_task};

use clap::builder::ValueParser;
use clap::{Arg, Command};
use std::alloc::{AllocError, Global};

// The store that a task works over.
fn store_option<'a>(alloc: Global) -> Arg<'a>
    ensures rule { rule_of result ≡ store_rule }
    ensures local { result.global ≡ false }
{
    Arg::new(alloc, "store")
        .long("store")
        .value_name("STORE")
        .default_value("table")
        .help("The store that schedules are put into: 'table' or 'bag'")
}

// How many slots a store has.
fn capacity_option<'a>(alloc: Global) -> Arg<'a>
    ensures rule { rule_of result ≡ capacity_rule }
    ensures local { result.global ≡ false }
{
    Arg::new(alloc, "capacity")
        .long("capacity")
        .value_name("CAPACITY")
        .default_value("2000")
        .value_parser(ValueParser::unsigned(0, 65_536))
        .help("How many schedules the store has slots for, from 0 to 65536")
}

// The file whose schedules stand in the store before the extracts come.
fn base_option<'a>(alloc: Global) -> Arg<'a>
    ensures rule { rule_of result ≡ base_rule }
    ensures local { result.global ≡ false }
{
    Arg::new(alloc, "base").long("base").value_name("FILE").help(
        "A file of rows whose schedules are put into the store first",
    )
}

// The local name of a page.
fn name_option<'a>(alloc: Global) -> Arg<'a>
    ensures rule { rule_of result ≡ name_rule }
    ensures local { result.global ≡ false }
{
    Arg::new(alloc, "name")
        .long("name")
        .value_name("NAME")
        .help("The local name that heads the page")
}

// The time of a page.
fn at_option<'a>(alloc: Global) -> Arg<'a>
    ensures rule { rule_of result ≡ at_rule }
    ensures local { result.global ≡ false }
{
    Arg::new(alloc, "at")
        .long("at")
        .value_name("HH:MM")
        .default_value("00:00")
        .help("The time from which on the page shows departures")
}

// The file of a page's picture.
fn svg_option<'a>(alloc: Global) -> Arg<'a>
    ensures rule { rule_of result ≡ svg_rule }
    ensures local { result.global ≡ false }
{
    Arg::new(alloc, "svg")
        .long("svg")
        .value_name("FILE")
        .help("A file that the page is written to, as a picture")
}

// An argument with one value, which has to be given.
fn required_argument<'a>(alloc: Global, id: &'a str, value_name: &'a str, help: &'a str) -> Arg<'a>
    ensures rule { rule_of result ≡ required_rule id.entry.now }
    ensures local { result.global ≡ false }
{
    Arg::new(alloc, id)
        .value_name(value_name)
        .required(true)
        .help(help)
}

// How many times something is done.
fn count_argument<'a>(alloc: Global, help: &'a str) -> Arg<'a>
    ensures rule { rule_of result ≡ count_rule }
    ensures local { result.global ≡ false }
{
    required_argument(alloc, "count", "COUNT", help).value_parser(ValueParser::unsigned(
        0,
        u64::MAX,
    ))
}

// The files of a task, one at least.
fn files_argument<'a>(alloc: Global, value_name: &'a str, help: &'a str) -> Arg<'a>
    ensures rule { rule_of result ≡ files_rule }
    ensures local { result.global ≡ false }
{
    required_argument(alloc, "files", value_name, help).num_args(1..)
}

// Files of rows.
fn row_files_argument<'a>(alloc: Global) -> Arg<'a>
    ensures rule { rule_of result ≡ files_rule }
    ensures local { result.global ≡ false }
{
    files_argument(
        alloc,
        "FILE",
        "A file of rows in the CIF layout, or several",
    )
}

// A task over one store.
fn over_store<'a>(
    alloc: Global,
    name: &'a str,
    about: &'a str,
    after_help: &'a str,
) -> Result<Command<'a>, AllocError>
    ensures { IfOk result (λ c. IsCommand c (over_store name.entry.now)) }
{
    Command::new(alloc, name)
        .about(about)
        .after_help(after_help)
        .arg(store_option(alloc))?
        .arg(capacity_option(alloc))
}

// The same task, given a board's station and date, and files.
fn with_board<'a>(alloc: Global, command: Command<'a>) -> Result<Command<'a>, AllocError>
    requires { IsLocal command }
    ensures { IfOk result (λ c. IsCommand c (with_board (app_of command.entry))) }
{
    command
        .arg(required_argument(
            alloc,
            "station",
            "STATION",
            "The station of the board: a TIPLOC of one to seven letters or digits",
        ))?
        .arg(required_argument(alloc, "date", "DATE", "The date of the board, as YYMMDD"))?
        .arg(row_files_argument(alloc))
}

fn run_command<'a>(alloc: Global) -> Result<Command<'a>, AllocError>
    ensures { IfOk result (λ c. IsCommand c run_command) }
{
    let run = over_store(
        alloc,
        "run",
        "Take extracts in order, confirm each, and print the board",
        "Example:\n  departures run HALTA 240304 week.cif update.cif",
    )?;
    with_board(alloc, run)
}

fn glass_command<'a>(alloc: Global) -> Result<Command<'a>, AllocError>
    ensures { IfOk result (λ c. IsCommand c glass_command) }
{
    let glass = over_store(
        alloc,
        "glass",
        "Take extracts in order, confirm each, and print the page of the board",
        "Example:\n  departures glass --name 'Halta Road' --at 09:00 HALTA 240304 week.cif",
    )?;
    let glass = glass
        .arg(name_option(alloc))?
        .arg(at_option(alloc))?
        .arg(svg_option(alloc))?;
    with_board(alloc, glass)
}

// A task over files alone.
fn over_files<'a>(
    alloc: Global,
    name: &'a str,
    about: &'a str,
    after_help: &'a str,
    files: Arg<'a>,
) -> Result<Command<'a>, AllocError>
    requires rule { rule_of files ≡ files_rule }
    requires local { files.global ≡ false }
    ensures { IfOk result (λ c. IsCommand c (over_files name.entry.now)) }
{
    Command::new(alloc, name)
        .about(about)
        .after_help(after_help)
        .arg(files)
}

fn replay_command<'a>(alloc: Global) -> Result<Command<'a>, AllocError>
    ensures { IfOk result (λ c. IsCommand c replay_command) }
{
    over_files(
        alloc,
        "replay",
        "Do the calls of scripts to controllers over both stores side by side",
        "Example:\n  departures replay example.calls",
        files_argument(alloc, "SCRIPT", "A script of calls, or several"),
    )
}

fn rows_command<'a>(alloc: Global) -> Result<Command<'a>, AllocError>
    ensures { IfOk result (λ c. IsCommand c rows_command) }
{
    over_files(
        alloc,
        "rows",
        "Tell what each row of files holds, or why it is turned away",
        "Example:\n  departures rows week.cif",
        row_files_argument(alloc),
    )
}

fn stores_command<'a>(alloc: Global) -> Result<Command<'a>, AllocError>
    ensures { IfOk result (λ c. IsCommand c stores_command) }
{
    Command::new(alloc, "stores")
        .about("Put the schedules of files into both stores, and list them")
        .after_help("Example:\n  departures stores --capacity 10 week.cif update.cif")
        .arg(capacity_option(alloc))?
        .arg(row_files_argument(alloc))
}

fn board_command<'a>(alloc: Global) -> Result<Command<'a>, AllocError>
    ensures { IfOk result (λ c. IsCommand c board_command) }
{
    let board = over_store(
        alloc,
        "board",
        "Put the schedules of files into a store, and print the board",
        "Example:\n  departures board --store bag HALTA 240304 week.cif",
    )?;
    with_board(alloc, board)
}

fn turns_command<'a>(alloc: Global) -> Result<Command<'a>, AllocError>
    ensures { IfOk result (λ c. IsCommand c turns_command) }
{
    let turns = over_store(
        alloc,
        "turns",
        "Turn a board many times, for measuring",
        "Example:\n  departures turns 1000 HALTA 240304 week.cif",
    )?;
    let count = count_argument(alloc, "How many times the board is turned");
    with_board(alloc, turns.arg(count)?)
}

fn pages_command<'a>(alloc: Global) -> Result<Command<'a>, AllocError>
    ensures { IfOk result (λ c. IsCommand c pages_command) }
{
    let pages = over_store(
        alloc,
        "pages",
        "Write the page of a board many times, for measuring",
        "Example:\n  departures pages 1000 HALTA 240304 week.cif",
    )?;
    let count = count_argument(alloc, "How many times the page is written");
    with_board(alloc, pages.arg(count)?)
}

fn extract_command<'a>(alloc: Global) -> Result<Command<'a>, AllocError>
    ensures { IfOk result (λ c. IsCommand c extract_command) }
{
    let extract = over_store(
        alloc,
        "extract",
        "Take extracts row by row, tell what is pending, and abandon each",
        "Example:\n  departures extract --capacity 1 --base room_base.cif HALTA 240304 room.cif",
    )?;
    with_board(alloc, extract.arg(base_option(alloc))?)
}

// What help says below the tasks.
const AFTER_TASKS: &str = "\
Several tasks can be given, with the word -- between two; they are done in order.
'departures help TASK' says what a task is given.

Example:
  departures run HALTA 240304 week.cif update.cif -- rows week.cif";

// The program before it has tasks. The words do not begin with its name.
fn program<'a>(alloc: Global) -> Result<Command<'a>, AllocError>
    ensures { IfOk result (λ c. IsCommand c program) }
{
    Ok(
        Command::new(alloc, "departures")
            .bin_name("departures")?
            .about("Departure boards from schedule rows in the CIF layout")
            .after_help(AFTER_TASKS)
            .version("1.0.0")
            .no_binary_name(true)
            .subcommand_required(true)
            .subcommand_value_name("TASK")
            .subcommand_help_heading("Tasks"),
    )
}

// A command with a task.
fn with_task<'a>(
    command: Result<Command<'a>, AllocError>,
    task: Result<Command<'a>, AllocError>,
) -> Result<Command<'a>, AllocError>
    ensures { (a t : App) → IfOk command.entry (λ c. IsCommand c a)
        → IfOk task.entry (λ c. IsCommand c t)
        → IfOk result (λ c. IsCommand c (with_task a t)) }
{
    command?.subcommand(task?)
}

// The program with its tasks.
pub(crate) fn departures<'a>(alloc: Global) -> Result<Command<'a>, AllocError>
    ensures { IfOk result (λ c. IsCommand c departures) }
{
    let command = with_task(program(alloc), run_command(alloc));
    let command = with_task(command, glass_command(alloc));
    let command = with_task(command, replay_command(alloc));
    let command = with_task(command, rows_command(alloc));
    let command = with_task(command, stores_command(alloc));
    let command = with_task(command, board_command(alloc));
    let command = with_task(command, turns_command(alloc));
    let command = with_task(command, pages_command(alloc));
    with_task(command, extract_command(alloc))
}
