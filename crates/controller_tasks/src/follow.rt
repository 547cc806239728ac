//! Extracts that are followed: each is confirmed at its end, or abandoned where a row of it was
//! refused.
ghost use Rattle.std.specs.Prelude.{◌≡◌};

use crate::extracts::{hand, print_fault};
use board::display::Board;
use board::line::Line;
use cif::refusal::Refusal;
use controller::controller::Controller;
use controller::fault::ExtractFault;
use controller::questions::page;
use extract::stage::Stage;
use files::Rows;
use list_tasks::boards::{filled, print_lines, print_refused};
use list_tasks::error::{TaskError, read_file};
use list_tasks::rows::Counts;
use page::page::PAGE_LENGTH;
use tasks::{StoreKind, Wanted, WantedPage};
use timetable::Store;

/// A controller with the board that follows it, what came of the rows, and how many rows of the
/// open extract were refused.
#[derive(Drop)]
pub struct Followed<'a, 'b, S> {
    controller: Controller<S>,
    board: Board<'b>,
    wanted: Wanted<'a>,
    refused: u64,
    /// How many rows were taken, and how many were refused with each number.
    pub counts: Counts,
}

// What came of an extract.
#[derive(Clone, Copy)]
enum Outcome {
    Confirmed,
    Abandoned(u64),
}

impl<'a, 'b, S: Store + Drop> Followed<'a, 'b, S> {
    ghost use Rattle.std.specs.Prelude.{◌+◌, ◌*◌, ◌<◌, ◌≤◌, ◌||◌, if◌then◌else◌, false, length, is_ok, IsTrue, IfOk, OnOk, OnErr};
    ghost use Rattle.std.specs.Bool.{OnFalse};
    ghost use Rattle.overlay.specs.Settling.{after_tries};
    ghost use Rattle.extract.specs.Progress.{idle};
    ghost use Rattle.cif.specs.Refusals.{fault_of};
    ghost use Rattle.extract.specs.Judging.{Standing};
    ghost use Rattle.board.specs.Boards.{shown_of, lines_of, slots_of};
    ghost use Rattle.page.specs.Pages.{page_for};
    ghost use Rattle.controller.specs.Calls.{Page as ToPage, refusal_of};
    ghost use Rattle.controller.specs.Shown.{store_of, progress_in};
    ghost use Rattle.list_tasks.specs.Counts.{counted};
    ghost use Rattle.controller_tasks.specs.Following.{controller_of, board_of, is_idle, is_complete, Follows, SameStoreAndBoard};

    /// Over a store and line slots: no extract is open, and the board has no station.
    pub fn new(store: S, lines: &'b mut [Line], wanted: Wanted<'a>) -> Followed<'a, 'b, S>
        ensures store { store_of (controller_of result) ≡ store }
        ensures idle { progress_in (controller_of result) ≡ idle }
        ensures slots { slots_of (board_of result) ≡ length lines.old }
        ensures follows { Follows S.meaning result }
    {
        Followed {
            controller: Controller::new(store),
            board: Board::new(lines),
            wanted,
            refused: 0,
            counts: Counts::new(),
        }
    }

    // Turns the board to what is wanted.
    fn turned(&mut self, rt: &HostRuntime) -> anyhow::Result<Result<(), Refusal>>
        ensures follows { Follows S.meaning self.old → Follows S.meaning self.new }
        ensures controller { controller_of self.new ≡ controller_of self.old }
        ensures unchanged { IfOk result (λ turned. OnErr turned (self.new ≡ self.old)) }
    {
        let wanted = self.wanted;
        let Some(day) = wanted.day() else {
            return Ok(Err(Refusal::NoSuchBoard));
        };
        let station = filled(rt, wanted.station)?;
        let turned = self
            .controller
            .turn(&mut self.board, station.as_slice(), day);
        Ok(turned.map_err(|fault| fault.fault.fault.refusal))
    }

    /// Turns the board to what is wanted, and prints how many lines it has, or why it cannot be
    /// turned; then it stays as it was.
    pub fn turn(&mut self, rt: &HostRuntime) -> anyhow::Result<()>
        ensures follows { Follows S.meaning self.old → Follows S.meaning self.new }
        ensures controller { controller_of self.new ≡ controller_of self.old }
    {
        match self.turned(rt)? {
            Ok(()) => self.print_count(rt),
            Err(refusal) => print_refused(rt, "board ", refusal),
        }
    }

    // Prints the station and date of the board, if it has them.
    fn print_shown(&self, rt: &HostRuntime) -> anyhow::Result<()> {
        if self.board.shown().is_some() {
            let Wanted { station, date, .. } = self.wanted;
            print!(rt; "board {station} {date}")?;
        } else {
            print!(rt; "board without a station")?;
        }
        Ok(())
    }

    // Prints how many lines the board has.
    fn print_count(&self, rt: &HostRuntime) -> anyhow::Result<()> {
        self.print_shown(rt)?;
        let lines = self.board.lines().len();
        println!(rt; ": lines {lines}")?;
        Ok(())
    }

    /// Prints the board.
    pub fn print_board(&self, rt: &HostRuntime) -> anyhow::Result<()> {
        self.print_shown(rt)?;
        println!(rt; "")?;
        print_lines(rt, &self.board)
    }

    /// The page of the board, or why it is refused.
    pub fn page(&self, wanted: &WantedPage) -> Result<[u8; PAGE_LENGTH], ExtractFault>
        ensures page { IfOk result (λ page. page
            ≡ page_for (shown_of (board_of self.now)) (lines_of (board_of self.now))
            wanted.now.name.now wanted.now.minute) }
        ensures refused { (s : Standing) → fault_of result
            ≡ refusal_of (ToPage wanted.now.name.now wanted.now.minute PAGE_LENGTH) s
            (slots_of (board_of self.now)) }
    {
        let mut bytes = [b' '; PAGE_LENGTH];
        page(
            &self.board,
            &mut bytes,
            wanted.name.as_bytes(),
            wanted.minute,
        )?;
        Ok(bytes)
    }

    // Confirms the open extract, or drops it where a row of it was refused or it is not complete.
    fn end(&mut self) -> Outcome
        ensures spoiled { 0 < self.old.refused → result ≡ Outcome.Abandoned self.old.refused }
        ensures left { 0 < self.old.refused → SameStoreAndBoard self.old self.new }
        ensures whole { self.old.refused ≡ 0 → IsTrue (is_complete (controller_of self.old))
            → 2 * (S.meaning (store_of (controller_of self.old))).capacity
            ≤ slots_of (board_of self.old)
            → result ≡ Outcome.Confirmed }
        ensures confirmed { result ≡ Outcome.Confirmed
            → S.meaning (store_of (controller_of self.new))
            ≡ after_tries (S.meaning (store_of (controller_of self.old)))
            (progress_in (controller_of self.old)).changes }
        ensures follows { Follows S.meaning self.old → Follows S.meaning self.new }
        ensures idle { OnFalse (is_idle (controller_of self.old))
            (progress_in (controller_of self.new) ≡ idle) }
        ensures none { self.new.refused ≡ 0 }
    {
        let refused = self.refused;
        self.refused = 0;
        if refused == 0 && self.controller.confirm(&mut self.board).is_ok() {
            return Outcome::Confirmed;
        }
        let _ = self.controller.abandon();
        Outcome::Abandoned(refused)
    }

    // Ends the open extract, and prints what came of it, after the words for where it ended.
    fn end_extract(&mut self, rt: &HostRuntime) -> anyhow::Result<()>
        ensures left { 0 < self.old.refused → SameStoreAndBoard self.old self.new }
        ensures follows { Follows S.meaning self.old → Follows S.meaning self.new }
        ensures idle { OnFalse (is_idle (controller_of self.old))
            (progress_in (controller_of self.new) ≡ idle) }
        ensures none { self.new.refused ≡ 0 }
    {
        let rows = self.controller.rows_taken();
        let pending = self.controller.pending_count();
        match self.end() {
            Outcome::Confirmed => {
                let tally = self.controller.tally();
                println!(rt; "confirmed, rows {rows}, transactions {pending}, tally {tally}")?;
                self.print_count(rt)
            }
            Outcome::Abandoned(refused) => {
                println!(rt;
                    "abandoned, rows {rows}, transactions {pending}, rows refused {refused}"
                )?;
                Ok(())
            }
        }
    }

    // Hands a row over and counts it. A refused row counts for the open extract, where one is open.
    fn hear(&mut self, row: &[u8]) -> Result<(), ExtractFault>
        ensures same { SameStoreAndBoard self.old self.new }
        ensures refused { self.new.refused
            ≡ (if is_ok result || is_idle (controller_of self.old) then self.old.refused
            else counted (self.old.refused + 1)) }
    {
        let is_open = self.controller.stage() != Stage::Idle;
        let heard = hand(&mut self.controller, row);
        match &heard {
            Ok(()) => self.counts.note_done(),
            Err(fault) => {
                self.counts.note_refused(fault.fault.fault.refusal);
                if is_open {
                    self.refused = self.refused.saturating_add(1);
                }
            }
        }
        heard
    }

    // Hands a row over, prints why it was refused if it was, and ends an extract that is complete.
    fn take_row(&mut self, rt: &HostRuntime, number: usize, row: &[u8]) -> anyhow::Result<()>
        ensures follows { Follows S.meaning self.old → Follows S.meaning self.new }
        ensures ended { OnOk result (is_complete (controller_of self.new) ≡ false) }
    {
        if let Err(fault) = self.hear(row) {
            print_fault(rt, number, &fault)?;
        }
        if self.controller.stage() == Stage::Complete {
            print!(rt; "row {number}: ")?;
            self.end_extract(rt)?;
        }
        Ok(())
    }

    // Ends an extract that is open where its file ends.
    fn end_file(&mut self, rt: &HostRuntime) -> anyhow::Result<()>
        ensures follows { Follows S.meaning self.old → Follows S.meaning self.new }
        ensures idle { OnOk result (IsTrue (is_idle (controller_of self.new))) }
    {
        if self.controller.stage() != Stage::Idle {
            print!(rt; "end of file: ")?;
            self.end_extract(rt)?;
        }
        Ok(())
    }

    /// Hands the rows of a file over, and ends each extract where it is complete or the file ends.
    pub fn take_file(&mut self, rt: &HostRuntime, name: &str) -> Result<(), TaskError>
        ensures follows { Follows S.meaning self.old → Follows S.meaning self.new }
        ensures idle { OnOk result (IsTrue (is_idle (controller_of self.new))) }
    {
        let bytes = read_file(rt, name)?;
        println!(rt; "file {name}")?;
        for (place, row) in Rows::new(bytes.as_slice()).enumerate() {
            self.take_row(rt, place + 1, row)?;
        }
        self.end_file(rt)?;
        Ok(())
    }
}

/// Prints the word for a task, the kind of the store, its capacity, and how many line slots its board
/// has. The store stays as it was.
pub fn print_head<S: Store>(
    rt: &HostRuntime,
    task: &str,
    store: &mut S,
    kind: StoreKind,
    slots: usize,
) -> anyhow::Result<()>
    ensures { store.new ≡ store.old }
{
    let capacity = store.capacity();
    println!(rt; "{task} store {kind}: capacity {capacity}, line slots {slots}")?;
    Ok(())
}
