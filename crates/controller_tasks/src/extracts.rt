//! Extracts taken row by row. Nothing here touches the store of a controller.
ghost use Rattle.std.specs.Prelude.{◌≡◌, OnErr};
ghost use Rattle.cif.specs.Refusals.{fault_of};
ghost use Rattle.controller.specs.Calls.{refusal_of};
ghost use Rattle.controller.specs.Shown.{store_of, standing_in};
ghost use Rattle.controller_tasks.specs.Handing.{begins_as_header, handed};

use board::display::Board;
use board::line::Line;
use cif::identity::Identity;
use cif::refusal::Refusal;
use controller::controller::Controller;
use controller::fault::ExtractFault;
use extract::stage::Stage;
use files::Rows;
use list_tasks::boards::{filled, line_slots, print_refused};
use list_tasks::error::{TaskError, read_file};
use list_tasks::rows::Counts;
use std::alloc::AllocError;
use tasks::{StoreKind, Wanted};
use timetable::{Store, Timetable};
use wording::answers::RefusedWords;
use wording::changes::ChangeWords;
use wording::words::{Text, stage_name};

// Whether a row begins with the letters of an HD.
fn begins_as_header(row: &[u8]) -> bool
    ensures { result ≡ begins_as_header row.now }
{
    match row {
        [first, second, ..] => {
            matches!(Identity::try_from([*first, *second]), Ok(Identity::Header))
        }
        _ => false,
    }
}

/// Hands a row, any bytes, to the controller: one that begins with HD to open, any other to row.
/// What is refused, and with what, is in docs/refusals.md; then nothing changes.
pub fn hand<S: Store>(controller: &mut Controller<S>, row: &[u8]) -> Result<(), ExtractFault>
    ensures told { fault_of result
        ≡ refusal_of (handed row.now) (standing_in S.meaning controller.old) 0 }
    ensures unchanged { OnErr result (controller.new ≡ controller.old) }
    ensures store { store_of controller.new ≡ store_of controller.old }
{
    if begins_as_header(row) {
        controller.open(row)
    } else {
        controller.row(row)
    }
}

/// Prints why a row of a file was turned away, behind its number in the file.
pub fn print_fault(rt: &HostRuntime, number: usize, fault: &ExtractFault) -> anyhow::Result<()> {
    let words = RefusedWords(fault);
    println!(rt; "row {number}: {words}")?;
    Ok(())
}

/// Extracts that are taken over a store, what came of their rows, and the board that is shown at
/// the end of each.
#[derive(Drop)]
pub struct Extracts<'a, S> {
    controller: Controller<S>,
    /// How many rows were taken, and how many were refused with each number.
    pub counts: Counts,
    lines: Vec<Line>,
    wanted: Wanted<'a>,
}

impl<'a, S: Store + Drop> Extracts<'a, S> {
    ghost use Rattle.std.specs.Prelude.{IfOk};
    ghost use Rattle.extract.specs.Progress.{idle};
    ghost use Rattle.controller.specs.Shown.{store_of, progress_in};
    ghost use Rattle.controller_tasks.specs.Taking.{controller_of};

    /// Over a store: no extract is open, and no row was taken.
    pub fn new(
        rt: &HostRuntime,
        mut store: S,
        wanted: Wanted<'a>,
    ) -> Result<Extracts<'a, S>, AllocError>
        ensures store { IfOk result (λ extracts. store_of (controller_of extracts) ≡ store) }
        ensures idle { IfOk result (λ extracts. progress_in (controller_of extracts) ≡ idle) }
    {
        let lines = line_slots(rt, &mut store)?;
        Ok(Extracts {
            controller: Controller::new(store),
            counts: Counts::new(),
            lines,
            wanted,
        })
    }

    // Prints stage, rows taken and number of pending transactions.
    fn print_state(&self, rt: &HostRuntime, before: &str) -> anyhow::Result<()> {
        let stage = stage_name(self.controller.stage());
        let rows = self.controller.rows_taken();
        let pending = self.controller.pending_count();
        println!(rt; "{before}stage {stage}, rows {rows}, pending {pending}")?;
        Ok(())
    }

    // Prints that a row was done, with the letters of its identity and the state after it.
    fn print_taken(&self, rt: &HostRuntime, number: usize, row: &[u8]) -> anyhow::Result<()> {
        if let [first, second, ..] = row {
            let letters = [*first, *second];
            let identity = Text(&letters);
            print!(rt; "row {number}: done, {identity}, ")?;
        }
        self.print_state(rt, "")
    }

    // Prints the pending transactions in order.
    fn print_pending(&self, rt: &HostRuntime) -> anyhow::Result<()> {
        let pending = self.controller.pending_count();
        println!(rt; "pending {pending} of 32")?;
        for change in (0..pending).filter_map(|place| self.controller.pending_at(place)) {
            let words = ChangeWords(&change);
            println!(rt; "{words}")?;
        }
        Ok(())
    }

    // Turns a board to what is wanted, from the store's own map, and counts its lines.
    fn lines_shown(&mut self, rt: &HostRuntime) -> anyhow::Result<Result<usize, Refusal>>
        ensures { controller_of self.new ≡ controller_of self.old }
    {
        let Some(day) = self.wanted.day() else {
            return Ok(Err(Refusal::NoSuchBoard));
        };
        let station = filled(rt, self.wanted.station)?;
        let mut shown = Board::new(self.lines.as_mut_slice());
        match self.controller.turn(&mut shown, station.as_slice(), day) {
            Ok(()) => Ok(Ok(shown.lines().len())),
            Err(fault) => Ok(Err(fault.fault.fault.refusal)),
        }
    }

    // Prints how many lines the board has, or why it cannot be turned to what is wanted.
    fn print_shown(&mut self, rt: &HostRuntime) -> anyhow::Result<()>
        ensures { controller_of self.new ≡ controller_of self.old }
    {
        match self.lines_shown(rt)? {
            Ok(count) => {
                let Wanted { station, date, .. } = self.wanted;
                println!(rt; "board {station} {date}: lines {count}, none of this extract")?;
                Ok(())
            }
            Err(refusal) => print_refused(rt, "board ", refusal),
        }
    }

    // Tells what is pending and what the board shows, and drops the extract.
    fn end_extract(&mut self, rt: &HostRuntime) -> anyhow::Result<()>
        ensures { store_of (controller_of self.new) ≡ store_of (controller_of self.old) }
    {
        self.print_pending(rt)?;
        self.print_shown(rt)?;
        if self.controller.abandon().is_ok() {
            self.print_state(rt, "abandoned: ")?;
        }
        Ok(())
    }

    // Hands a row over, and prints what came of it.
    fn take_row(&mut self, rt: &HostRuntime, number: usize, row: &[u8]) -> anyhow::Result<()>
        ensures { store_of (controller_of self.new) ≡ store_of (controller_of self.old) }
    {
        match hand(&mut self.controller, row) {
            Ok(()) => {
                self.counts.note_done();
                self.print_taken(rt, number, row)
            }
            Err(fault) => {
                self.counts.note_refused(fault.fault.fault.refusal);
                print_fault(rt, number, &fault)
            }
        }
    }

    /// Hands the rows of a file over, and prints what came of each. The store stays as it was.
    pub fn take_file(&mut self, rt: &HostRuntime, name: &str) -> Result<(), TaskError>
        ensures { store_of (controller_of self.new) ≡ store_of (controller_of self.old) }
    {
        let bytes = read_file(rt, name)?;
        println!(rt; "file {name}")?;
        for (place, row) in Rows::new(bytes.as_slice()).enumerate() {
            self.take_row(rt, place + 1, row)?;
            if self.controller.stage() == Stage::Complete {
                self.end_extract(rt)?;
            }
        }
        if self.controller.stage() != Stage::Idle {
            self.end_extract(rt)?;
        }
        Ok(())
    }
}

/// Prints how many schedules the store has of so many at the most, and how many were refused. The
/// store stays as it was.
pub fn print_head<S: Store>(
    rt: &HostRuntime,
    store: &mut S,
    kind: StoreKind,
    refused: u64,
) -> anyhow::Result<()>
    ensures { store.new ≡ store.old }
{
    let held = store.count();
    let capacity = store.capacity();
    println!(rt; "extract store {kind}: {held} of {capacity} schedules, refused {refused}")?;
    Ok(())
}
