//! The departure board of a station and date.
ghost use Rattle.std.specs.Prelude.{◌≡◌, ◌*◌, length, IfOk};
ghost use Rattle.list_tasks.specs.Stations.{filled_up};
ghost use Rattle.list_tasks.specs.Blanks.{blank_line};

use crate::drafts::{Draft, StoreRequest};
use crate::error::{TaskError, read_file};
use board::display::Board;
use board::line::{Line, LineKey};
use cif::reading::read;
use cif::refusal::Refusal;
use files::Rows;
use page::page::{LAST_MINUTE, PAGE_LENGTH, write_page};
use std::alloc::AllocError;
use tasks::Wanted;
use timetable::{Store, Timetable};
use wording::answers::LineWords;

/// A line for slots that hold nothing yet.
pub fn empty_line() -> Line
    ensures { result ≡ blank_line }
{
    Line {
        key: LineKey {
            minute: 0,
            uid: 0,
            place: 0,
        },
        platform: *b"   ",
        destination: *b"       ",
        train: *b"    ",
        operator: *b"  ",
    }
}

/// Line slots for a board of a store: twice as many as it can hold schedules. The store stays as it
/// was.
pub fn line_slots<S: Store>(rt: &HostRuntime, store: &mut S) -> Result<Vec<Line>, AllocError>
    ensures slots { IfOk result (λ slots. length slots.items ≡ 2 * (S.meaning store.old).capacity) }
    ensures same { store.new ≡ store.old }
{
    vec![in rt.alloc(); empty_line(); 2 * store.capacity()]
}

// Does what a row asks, and says whether it was a put that was refused.
fn is_refused<S: Store>(store: &mut S, request: StoreRequest) -> bool
    ensures { (S.meaning store.new).capacity ≡ (S.meaning store.old).capacity }
{
    match request {
        StoreRequest::Put(schedule) => store.put(schedule).is_err(),
        StoreRequest::Unfit(_) => true,
        StoreRequest::Remove(key) => {
            let _ = store.remove(key);
            false
        }
    }
}

/// Puts the schedules of a file into a store, and says how many were refused. Its capacity stays.
pub fn load_file<S: Store>(rt: &HostRuntime, store: &mut S, name: &str) -> Result<u64, TaskError>
    ensures { (S.meaning store.new).capacity ≡ (S.meaning store.old).capacity }
{
    let bytes = read_file(rt, name)?;
    let mut draft = Draft::new();
    let mut refused: u64 = 0;
    for row in Rows::new(bytes.as_slice()) {
        if let Ok(content) = read(row)
            && let Some(request) = draft.take(content)
            && is_refused(store, request)
        {
            refused = refused.saturating_add(1);
        }
    }
    Ok(refused)
}

/// A station's name filled up with blanks to seven bytes, where it has one to seven. Any other is
/// left as it is.
pub fn filled(rt: &HostRuntime, station: &str) -> Result<Vec<u8>, AllocError>
    ensures { IfOk result (λ name. name.items ≡ filled_up station.now) }
{
    let mut name = station.as_bytes().to_vec(rt.alloc())?;
    if !name.is_empty() && name.len() < 7 {
        name.resize(7, b' ')?;
    }
    Ok(name)
}

/// Prints a refusal by its number, after a word or none.
pub fn print_refused(rt: &HostRuntime, before: &str, refusal: Refusal) -> anyhow::Result<()> {
    let number = refusal.number();
    println!(rt; "{before}refused {number}: {refusal}")?;
    Ok(())
}

/// Prints the lines of a board in order.
pub fn print_each(rt: &HostRuntime, shown: &Board) -> anyhow::Result<()> {
    for line in shown.lines() {
        let words = LineWords(line);
        println!(rt; "{words}")?;
    }
    Ok(())
}

/// Prints the lines of a board in order, and how many there are.
pub fn print_lines(rt: &HostRuntime, shown: &Board) -> anyhow::Result<()> {
    print_each(rt, shown)?;
    let lines = shown.lines().len();
    println!(rt; "lines {lines}")?;
    Ok(())
}

// Turns a board to what is wanted so many times, if it can be turned to it. The store stays as it
// was.
fn turned<'b, S: Store>(
    rt: &HostRuntime,
    store: &mut S,
    slots: &'b mut [Line],
    wanted: Wanted,
    times: u64,
) -> anyhow::Result<Result<Board<'b>, Refusal>>
    ensures { store.new ≡ store.old }
{
    let Some(day) = wanted.day() else {
        return Ok(Err(Refusal::NoSuchBoard));
    };
    let station = filled(rt, wanted.station)?;
    let mut shown = Board::new(slots);
    for _ in 0..times {
        if let Err(fault) = shown.turn(store, station.as_slice(), day) {
            return Ok(Err(fault.refusal));
        }
    }
    Ok(Ok(shown))
}

/// Turns a board to what is wanted and prints it, or why it cannot be turned. The store stays as it
/// was.
pub fn print_board<S: Store>(
    rt: &HostRuntime,
    store: &mut S,
    slots: &mut [Line],
    wanted: Wanted,
    refused: u64,
) -> anyhow::Result<()>
    ensures { store.new ≡ store.old }
{
    let shown = match turned(rt, store, slots, wanted, 1)? {
        Ok(shown) => shown,
        Err(refusal) => return print_refused(rt, "", refusal),
    };
    let Wanted {
        store: kind,
        station,
        date,
        ..
    } = wanted;
    let held = store.count();
    let capacity = store.capacity();
    println!(rt;
        "board {station} {date}, store {kind}: {held} of {capacity} schedules, refused {refused}"
    )?;
    print_lines(rt, &shown)
}

/// Turns a board to what is wanted so many times, and prints how many lines it has. The store stays
/// as it was.
pub fn print_turns<S: Store>(
    rt: &HostRuntime,
    store: &mut S,
    slots: &mut [Line],
    wanted: Wanted,
    times: u64,
) -> anyhow::Result<()>
    ensures { store.new ≡ store.old }
{
    let shown = match turned(rt, store, slots, wanted, times)? {
        Ok(shown) => shown,
        Err(refusal) => return print_refused(rt, "", refusal),
    };
    let lines = shown.lines().len();
    println!(rt; "turns {times}: lines {lines}")?;
    Ok(())
}

// The sum of the bytes of a board's page, written so many times into one memory, from each minute of
// the day in turn; a sum of 64 bits begins anew.
fn sum_of_pages(shown: &Board, times: u64) -> u64 {
    let mut page = [0; PAGE_LENGTH];
    let mut sum: u64 = 0;
    for time in 0..times {
        let minute = (time % (u64::from(LAST_MINUTE) + 1)) as u32;
        if write_page(shown, &mut page, &[], minute).is_ok() {
            for byte in &page {
                sum = sum.wrapping_add(u64::from(*byte));
            }
        }
    }
    sum
}

/// Turns a board to what is wanted, writes its page so many times, and prints the sum of the bytes
/// that were written. The store stays as it was.
pub fn print_pages<S: Store>(
    rt: &HostRuntime,
    store: &mut S,
    slots: &mut [Line],
    wanted: Wanted,
    times: u64,
) -> anyhow::Result<()>
    ensures { store.new ≡ store.old }
{
    let shown = match turned(rt, store, slots, wanted, 1)? {
        Ok(shown) => shown,
        Err(refusal) => return print_refused(rt, "", refusal),
    };
    let sum = sum_of_pages(&shown, times);
    println!(rt; "pages {times}: bytes {sum}")?;
    Ok(())
}
