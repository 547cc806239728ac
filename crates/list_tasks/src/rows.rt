//! Rows one by one: what each holds, or why it is turned away.

use crate::error::{TaskError, read_file};
use cif::content::Content;
use cif::reading::read;
use cif::refusal::{Refusal, RowFault};
use controller::answer::Answer;
use files::Rows;
use std::io;
use std::io::{BufWriter, Write};
use wording::rows::Words;
use wording::words::FaultWords;

/// How many numbers are counted: those of the refusals, and 0, which none has.
pub const COUNTED_NUMBERS: usize = Refusal::NUMBERS.len() + 1;

/// How many rows or calls were done, and how many were refused with each number. A count that has
/// come to 18,446,744,073,709,551,615 stays there.
#[derive(Clone, Copy)]
pub struct Counts {
    done: u64,
    refused: [u64; COUNTED_NUMBERS],
}

impl Counts {
    ghost use Rattle.std.specs.Prelude.{◌≡◌, ℕ, ◌+◌, ◌<◌, OnOk, IfErr, IfSome, IfNone};
    ghost use Rattle.cif.specs.Refusals.{number_of};
    ghost use Rattle.list_tasks.specs.Counts.{counted, done_count, refused_count, refused_total, with_done, with_refused, refusal_told};

    /// Nothing was done or refused.
    pub fn new() -> Counts
        ensures done { done_count result ≡ 0 }
        ensures refused { (number : ℕ) → refused_count result number ≡ 0 }
    {
        Counts {
            done: 0,
            refused: [0; COUNTED_NUMBERS],
        }
    }

    /// Counts one that was done.
    pub fn note_done(&mut self)
        ensures { self.new ≡ with_done self.old }
    {
        self.done = self.done.saturating_add(1);
    }

    /// Counts one that was refused.
    pub fn note_refused(&mut self, refusal: Refusal)
        ensures { self.new ≡ with_refused self.old refusal }
    {
        let n = refusal.number() as usize;
        self.refused[n] = self.refused[n].saturating_add(1);
    }

    // Counts a row by what came of it.
    fn note(&mut self, outcome: &Result<Content, RowFault>)
        ensures read { OnOk outcome.now (self.new ≡ with_done self.old) }
        ensures refused { IfErr outcome.now
            (λ fault. self.new ≡ with_refused self.old fault.fault.refusal) }
    {
        match outcome {
            Ok(_) => self.note_done(),
            Err(fault) => self.note_refused(fault.fault.refusal),
        }
    }

    /// Counts a call by its answer.
    pub fn note_answer(&mut self, answer: &Answer)
        ensures done { IfNone (refusal_told answer.now) (self.new ≡ with_done self.old) }
        ensures refused { IfSome (refusal_told answer.now)
            (λ refusal. self.new ≡ with_refused self.old refusal) }
    {
        match answer {
            Answer::Refused(fault) => self.note_refused(fault.fault.fault.refusal),
            _ => self.note_done(),
        }
    }

    /// Adds other counts to them, each to its own.
    pub fn add(&mut self, other: &Counts)
        ensures done { done_count self.new ≡ counted (done_count self.old + done_count other.now) }
        ensures refused { (number : ℕ) → number < COUNTED_NUMBERS
            → refused_count self.new number
            ≡ counted (refused_count self.old number + refused_count other.now number) }
    {
        self.done = self.done.saturating_add(other.done);
        for (k, count) in self.refused.iter_mut().enumerate() {
            *count = count.saturating_add(other.refused[k]);
        }
    }

    // How many rows were refused with a number.
    fn times(&self, refusal: Refusal) -> u64
        ensures { result ≡ refused_count self.now (number_of refusal) }
    {
        self.refused[refusal.number() as usize]
    }

    // How many rows were refused at all.
    fn all_refused(&self) -> u64
        ensures { result ≡ refused_total self.now }
    {
        self.refused
            .iter()
            .fold(0, |all: u64, count| all.saturating_add(*count))
    }

    // How many rows there were.
    fn rows(&self) -> u64
        ensures { result ≡ counted (done_count self.now + refused_total self.now) }
    {
        self.done.saturating_add(self.all_refused())
    }
}

// Writes what a row holds, or why it is turned away, behind its number in its file.
fn write_row<W: Write + Drop>(
    out: &mut W,
    number: usize,
    outcome: &Result<Content, RowFault>,
) -> io::Result<()> {
    match outcome {
        Ok(content) => {
            let words = Words(content);
            writeln!(out, "row {number}: {words}")
        }
        Err(fault) => {
            let words = FaultWords(fault);
            let refusal = fault.fault.refusal;
            writeln!(out, "row {number}: {words}: {refusal}")
        }
    }
}

/// Prints each row of a file, and how many there were, and gives how many were read and refused.
pub fn print_file(rt: &HostRuntime, name: &str) -> Result<Counts, TaskError> {
    let bytes = read_file(rt, name)?;
    let mut out = BufWriter::new(rt.alloc(), io::writer(rt))?;
    writeln!(out, "file {name}")?;
    let mut counts = Counts::new();
    for (place, row) in Rows::new(bytes.as_slice()).enumerate() {
        let outcome = read(row);
        counts.note(&outcome);
        write_row(&mut out, place + 1, &outcome)?;
    }
    let rows = counts.rows();
    let read = counts.done;
    let refused = counts.all_refused();
    writeln!(out, "rows {rows}: read {read}, refused {refused}")?;
    out.flush()?;
    Ok(counts)
}

/// Prints what came of the rows of all files, and each number that was told.
pub fn print_total(rt: &HostRuntime, files: u64, total: &Counts) -> anyhow::Result<()> {
    print_outcome(rt, files, "read", total)
}

/// The same, where rows were not only read: the verb says what was done with them.
pub fn print_outcome(
    rt: &HostRuntime,
    files: u64,
    verb: &str,
    total: &Counts,
) -> anyhow::Result<()> {
    let rows = total.rows();
    let done = total.done;
    let refused = total.all_refused();
    println!(rt; "files {files}, rows {rows}: {verb} {done}, refused {refused}")?;
    print_refusals(rt, total)
}

/// Prints what came of the calls of all histories, and each number that was told.
pub fn print_calls(rt: &HostRuntime, histories: u64, total: &Counts) -> anyhow::Result<()> {
    let calls = total.rows();
    let done = total.done;
    let refused = total.all_refused();
    println!(rt; "histories {histories}, calls {calls}: done {done}, refused {refused}")?;
    print_refusals(rt, total)
}

// Prints each number that was told, with how many times.
fn print_refusals(rt: &HostRuntime, total: &Counts) -> anyhow::Result<()> {
    for (refusal, number) in Refusal::NUMBERS {
        let count = total.times(refusal);
        if count > 0 {
            println!(rt; "refused {number}: {count} times, {refusal}")?;
        }
    }
    Ok(())
}
