// Reads files of rows in the CIF layout, and prints what they hold.
#![tactic(auto)]

use command_line::{NoTask, tasks_in};
use controller_tasks::extracts::Extracts;
use controller_tasks::follow::Followed;
use controller_tasks::{extracts, follow, glass, replay};
use list_tasks::error::TaskError;
use list_tasks::keeping::Both;
use list_tasks::{boards, keeping, rows};
use std::env;
use std::process::ExitCode;
use stores::{Bag, Table};
use tasks::{StoreKind, Task, Wanted, WantedPage, Work};
use timetable::Store;

fn run_rows(rt: &HostRuntime, files: &[&str]) -> Result<(), TaskError> {
    let mut total = rows::Counts::new();
    for name in files {
        let counts = rows::print_file(rt, name)?;
        total.add(&counts);
    }
    rows::print_total(rt, files.len() as u64, &total)?;
    Ok(())
}

fn run_stores(rt: &HostRuntime, slots: usize, files: &[&str]) -> Result<(), TaskError> {
    let blank = keeping::empty_record();
    let mut first = vec![in rt.alloc(); blank; slots]?;
    let mut second = vec![in rt.alloc(); blank; slots]?;
    let mut both = Both::new(first.as_mut_slice(), second.as_mut_slice());
    for name in files {
        both.take_file(rt, name)?;
    }
    both.print_stores(rt)?;
    Ok(())
}

// Puts the schedules of files into a store, and says how many were refused.
fn load_files<S: Store>(rt: &HostRuntime, store: &mut S, files: &[&str]) -> Result<u64, TaskError> {
    let mut refused: u64 = 0;
    for name in files {
        refused = refused.saturating_add(boards::load_file(rt, store, name)?);
    }
    Ok(refused)
}

// Does work over an empty store of the kind that is wanted.
fn run_over_store(rt: &HostRuntime, wanted: Wanted, work: &Work) -> Result<(), TaskError> {
    let mut slots = vec![in rt.alloc(); keeping::empty_record(); wanted.slots]?;
    match wanted.store {
        StoreKind::Table => run_work(rt, Table::new(slots.as_mut_slice()), wanted, work),
        StoreKind::Bag => run_work(rt, Bag::new(slots.as_mut_slice()), wanted, work),
    }
}

fn run_work<S: Store + Drop>(
    rt: &HostRuntime,
    store: S,
    wanted: Wanted,
    work: &Work,
) -> Result<(), TaskError> {
    match work {
        Work::Board(files) => run_board(rt, store, wanted, files.as_slice()),
        Work::Turns(times, files) => run_turns(rt, store, wanted, *times, files.as_slice()),
        Work::Pages(times, files) => run_pages(rt, store, wanted, *times, files.as_slice()),
        Work::Extracts(base, files) => run_extracts(rt, store, wanted, *base, files.as_slice()),
        Work::Run(files) => run_followed(rt, store, wanted, None, files.as_slice()),
        Work::Glass(page, files) => run_followed(rt, store, wanted, Some(page), files.as_slice()),
    }
}

// Puts the schedules of the files into a store, and prints the board.
fn run_board<S: Store + Drop>(
    rt: &HostRuntime,
    mut store: S,
    wanted: Wanted,
    files: &[&str],
) -> Result<(), TaskError> {
    let refused = load_files(rt, &mut store, files)?;
    let mut lines = boards::line_slots(rt, &mut store)?;
    boards::print_board(rt, &mut store, lines.as_mut_slice(), wanted, refused)?;
    Ok(())
}

// Puts the schedules of the files into a store, and turns the board so many times.
fn run_turns<S: Store + Drop>(
    rt: &HostRuntime,
    mut store: S,
    wanted: Wanted,
    times: u64,
    files: &[&str],
) -> Result<(), TaskError> {
    let _ = load_files(rt, &mut store, files)?;
    let mut lines = boards::line_slots(rt, &mut store)?;
    boards::print_turns(rt, &mut store, lines.as_mut_slice(), wanted, times)?;
    Ok(())
}

// Puts the schedules of the files into a store, and writes the page of the board so many times.
fn run_pages<S: Store + Drop>(
    rt: &HostRuntime,
    mut store: S,
    wanted: Wanted,
    times: u64,
    files: &[&str],
) -> Result<(), TaskError> {
    let _ = load_files(rt, &mut store, files)?;
    let mut lines = boards::line_slots(rt, &mut store)?;
    boards::print_pages(rt, &mut store, lines.as_mut_slice(), wanted, times)?;
    Ok(())
}

// Loads the base into a store, and takes the extracts of the files over it.
fn run_extracts<S: Store + Drop>(
    rt: &HostRuntime,
    mut store: S,
    wanted: Wanted,
    base: Option<&str>,
    files: &[&str],
) -> Result<(), TaskError> {
    let refused = match base {
        Some(base) => boards::load_file(rt, &mut store, base)?,
        None => 0,
    };
    extracts::print_head(rt, &mut store, wanted.store, refused)?;
    let mut extracts = Extracts::new(rt, store, wanted)?;
    for name in files {
        extracts.take_file(rt, name)?;
    }
    rows::print_outcome(rt, files.len() as u64, "done", &extracts.counts)?;
    Ok(())
}

// Takes the extracts of the files over a store, confirms those without a refused row, and prints the board at the end, or the page of it
// that is wanted.
fn run_followed<S: Store + Drop>(
    rt: &HostRuntime,
    mut store: S,
    wanted: Wanted,
    page: Option<&WantedPage>,
    files: &[&str],
) -> Result<(), TaskError> {
    let mut lines = boards::line_slots(rt, &mut store)?;
    let task = if page.is_some() { "glass" } else { "run" };
    follow::print_head(rt, task, &mut store, wanted.store, lines.len())?;
    let mut followed = Followed::new(store, lines.as_mut_slice(), wanted);
    followed.turn(rt)?;
    for name in files {
        followed.take_file(rt, name)?;
    }
    match page {
        Some(page) => glass::print_page(rt, &followed, page)?,
        None => followed.print_board(rt)?,
    }
    rows::print_outcome(rt, files.len() as u64, "done", &followed.counts)?;
    Ok(())
}

fn run_scripts(rt: &HostRuntime, files: &[&str]) -> Result<(), TaskError> {
    for name in files {
        replay::print_script(rt, name)?;
    }
    Ok(())
}

fn run_task(rt: &HostRuntime, task: &Task) -> Result<(), TaskError> {
    match task {
        Task::Rows(files) => run_rows(rt, files.as_slice()),
        Task::Replay(files) => run_scripts(rt, files.as_slice()),
        Task::Stores(slots, files) => run_stores(rt, *slots, files.as_slice()),
        Task::OverStore(wanted, work) => run_over_store(rt, *wanted, work),
    }
}

// Does tasks one after another.
fn run_tasks(rt: &HostRuntime, tasks: &[Task]) -> Result<(), TaskError> {
    for task in tasks {
        run_task(rt, task)?;
    }
    Ok(())
}

// Reads all words first, and then does the tasks. An error is printed whole to standard error, with status 1.
fn main(rt: HostRuntime) -> anyhow::Result<ExitCode> {
    let words: Vec<String> = env::args(&rt)?.skip(1).collect(rt.alloc())?;
    match tasks_in(rt.alloc(), words.as_slice()) {
        Ok(tasks) => {
            if let Err(error) = run_tasks(&rt, tasks.as_slice()) {
                eprintln!(&rt; "error: {error}")?;
                return Ok(ExitCode::FAILURE);
            }
            Ok(ExitCode::SUCCESS)
        }
        Err(NoTask::Shown(text)) => {
            print!(&rt; "{text}")?;
            Ok(ExitCode::SUCCESS)
        }
        Err(error) => {
            eprint!(&rt; "{error}")?;
            Ok(ExitCode::FAILURE)
        }
    }
}
