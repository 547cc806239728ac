//! Scripts of calls, made to installations over both stores.
ghost use Rattle.std.specs.Prelude.{◌≡◌, IfOk, Ok, Some, length, map, IfErr, Err, replicate};
ghost use Rattle.std.specs.Bool.{Decides};
ghost use Rattle.board.specs.Boards.{lines_of};
ghost use Rattle.runs.specs.Calls.{call_meant, first_ledger};
ghost use Rattle.runs.specs.Runs.{Begins, bytes_in};
ghost use Rattle.runs.specs.declared.pair.Side.TheVariants.{Left, Right};
ghost use Rattle.runs.specs.Pairs.{WholePromise};
ghost use Rattle.scripts.specs.Histories.{history_of, histories_in};
ghost use Rattle.scripts.specs.Steps.{call_of};
ghost use Rattle.list_tasks.specs.Errors.{NamesLine};

use crate::glass::print_frame;
use anyhow::anyhow;
use board::display::{Board, StationDay};
use board::line::Line;
use controller::answer::Answer;
use list_tasks::boards::{empty_line, print_each};
use list_tasks::error::{TaskError, read_file};
use list_tasks::keeping::empty_record;
use list_tasks::rows::{Counts, print_calls};
use page::page::PAGE_LENGTH;
use runs::call::Call;
use runs::memory::Memory;
use runs::pair::{Pair, Side};
use runs::plan::Plan;
use runs::run::Run;
use scripts::history::History;
use scripts::reading::{Unread, histories_in};
use scripts::step::Step;
use std::alloc::AllocError;
use stores::{Bag, Table};
use timetable::{Store, Timetable};
use wording::answers::AnswerWords;
use wording::words::Text;

// How many bytes the memory has that the calls to a controller write into.
const MEMORY: usize = 1_024;

// Line slots for the board of a controller, the calls, a place for the answer to each, and memory for
// those that write.
#[derive(Drop)]
struct RunMemory<'a> {
    lines: Vec<Line>,
    calls: Vec<Call<'a>>,
    answers: Vec<Answer>,
    bytes: Vec<u8>,
}

impl<'a> RunMemory<'a> {
    // For the calls of a history.
    fn new(
        rt: &HostRuntime,
        history: &History,
        steps: &'a [Step],
    ) -> Result<RunMemory<'a>, AllocError>
        ensures lines { IfOk result (λ memory. length memory.lines.items ≡ history.now.slots) }
        ensures calls { IfOk result
            (λ memory. map call_meant memory.calls.items ≡ map call_of steps.now) }
        ensures answers { IfOk result
            (λ memory. length memory.answers.items ≡ length steps.now) }
        ensures bytes { IfOk result (λ memory. memory.bytes.items ≡ replicate MEMORY 0) }
    {
        let mut calls = Vec::new(rt.alloc());
        for step in steps {
            calls.push(step.call())?;
        }
        Ok(RunMemory {
            lines: vec![in rt.alloc(); empty_line(); history.slots]?,
            calls,
            answers: vec![in rt.alloc(); Answer::Done; steps.len()]?,
            bytes: vec![in rt.alloc(); 0; MEMORY]?,
        })
    }

    // The calls, to be done over a store.
    fn plan<'b, S>(&'b mut self, store: S) -> Plan<'b, S>
        ensures calls { result.calls.now ≡ self.old.calls.items }
        ensures slots { result.slots.now ≡ self.old.lines.items }
        ensures answers { result.answers.now ≡ self.old.answers.items }
        ensures store { result.store ≡ store }
        ensures bytes { result.memory.bytes.now ≡ self.old.bytes.items }
    {
        let bytes = self.bytes.as_mut_slice();
        Plan {
            store,
            slots: self.lines.as_mut_slice(),
            calls: self.calls.as_slice(),
            answers: self.answers.as_mut_slice(),
            memory: Memory { bytes },
        }
    }
}

// Makes the next call of a side. It is asked once for each line, and each line is one call.
fn call_next<S: Store, T: Store>(
    pair: &mut Pair<'_, '_, S, T>,
    side: Side,
) -> anyhow::Result<Answer>
    ensures { IfOk result (λ answer.
        ∥ WholePromise S.meaning T.meaning S.Store.becomes T.Store.becomes first_ledger
        pair.old pair.new side (Some answer) ∥₁) }
{
    match pair.call_next(side) {
        Some(answer) => Ok(answer),
        None => Err(anyhow!("a history has fewer calls than lines")),
    }
}

// The memory of a side, as its calls have left it.
fn bytes_of<'p, S: Store, T: Store>(pair: &'p Pair<'_, '_, S, T>, side: Side) -> &'p [u8]
    ensures left { side ≡ Left → result.now ≡ bytes_in pair.now.left }
    ensures right { side ≡ Right → result.now ≡ bytes_in pair.now.right }
{
    match side {
        Side::Left => pair.left.bytes(),
        Side::Right => pair.right.bytes(),
    }
}

// Prints the page that a call of a side has written.
fn print_written<S: Store, T: Store>(
    rt: &HostRuntime,
    pair: &Pair<'_, '_, S, T>,
    side: Side,
) -> anyhow::Result<()> {
    let bytes = bytes_of(pair, side);
    print_frame(rt, &bytes[..bytes.len().min(PAGE_LENGTH)])
}

// Makes the call of each line to a side, prints its answer, and counts it.
fn print_answers<S: Store, T: Store>(
    rt: &HostRuntime,
    pair: &mut Pair<'_, '_, S, T>,
    side: Side,
    steps: &[Step],
    counts: &mut Counts,
) -> anyhow::Result<()> {
    for (place, step) in steps.iter().enumerate() {
        let answer = call_next(pair, side)?;
        let number = place + 1;
        let word = step.word();
        let words = AnswerWords(&answer);
        println!(rt; "{number} {word}: {words}")?;
        if let (Step::Page { .. }, Answer::Done) = (step, &answer) {
            print_written(rt, pair, side)?;
        }
        counts.note_answer(&answer);
    }
    Ok(())
}

// Makes the call of each line to a side.
fn make_all<S: Store, T: Store>(
    pair: &mut Pair<'_, '_, S, T>,
    side: Side,
    steps: &[Step],
) -> anyhow::Result<()> {
    for _ in steps {
        call_next(pair, side)?;
    }
    Ok(())
}

// Prints the station and day of a board, if it has them.
fn print_shown(rt: &HostRuntime, shown: Option<StationDay>) -> anyhow::Result<()> {
    match shown {
        Some(shown) => {
            let station = Text(&shown.station);
            let day = shown.day;
            print!(rt; "{station} day {day}")?;
        }
        None => print!(rt; "without a station")?,
    }
    Ok(())
}

// Prints what a controller and its board tell after the calls.
fn print_end<S: Store>(rt: &HostRuntime, name: &str, run: &Run<'_, S>) -> anyhow::Result<()> {
    let installation = run.installation();
    let tally = installation.controller.tally();
    print!(rt; "{name}: tally {tally}, board ")?;
    print_shown(rt, installation.board.shown())?;
    let lines = installation.board.lines().len();
    println!(rt; ", lines {lines}")?;
    print_each(rt, &installation.board)
}

// Whether two boards show the same lines.
fn is_same(left: &Board, right: &Board) -> bool
    ensures { Decides result (lines_of left.now ≡ lines_of right.now) }
{
    left.lines() == right.lines()
}

// Prints what the bag's controller tells after calls of its own, and whether both boards show the
// same.
fn print_other<T: Store>(rt: &HostRuntime, bag: &Run<'_, T>, same: bool) -> anyhow::Result<()> {
    print_end(rt, "bag", bag)?;
    let verdict = if same { "the same" } else { "different" };
    println!(rt; "boards: {verdict}")?;
    Ok(())
}

// Whether the calls of two runs left the same in their memories.
fn is_same_memory<S: Store, T: Store>(left: &Run<'_, S>, right: &Run<'_, T>) -> bool
    ensures { Decides result (bytes_in left.now ≡ bytes_in right.now) }
{
    left.bytes() == right.bytes()
}

// Prints whether the bag's controller answered the same calls with the same, whether both boards
// show the same, and where the memories differ, that they do.
fn print_compared(
    rt: &HostRuntime,
    same_answers: bool,
    same_board: bool,
    same_memory: bool,
) -> anyhow::Result<()> {
    let answers = if same_answers {
        "the same answers"
    } else {
        "other answers"
    };
    let board = if same_board {
        "the same board"
    } else {
        "another board"
    };
    let memory = if same_memory { "" } else { ", another memory" };
    println!(rt; "bag: {answers}, {board}{memory}")?;
    Ok(())
}

// Prints what both controllers and boards tell after the calls, and whether they tell the same.
fn print_ends<S: Store, T: Store>(
    rt: &HostRuntime,
    history: &History,
    pair: &Pair<'_, '_, S, T>,
) -> anyhow::Result<()> {
    let Pair { left, right } = pair;
    print_end(rt, "table", left)?;
    let same = is_same(&left.installation().board, &right.installation().board);
    if history.other.is_some() {
        return print_other(rt, right, same);
    }
    let answers = left.answers() == right.answers();
    print_compared(rt, answers, same, is_same_memory(left, right))
}

// Prints how a history begins, and how many calls it has.
fn print_head(
    rt: &HostRuntime,
    number: usize,
    capacity: usize,
    history: &History,
) -> anyhow::Result<()> {
    let slots = history.slots;
    let calls = history.calls.len();
    print!(rt; "history {number}: capacity {capacity}, line slots {slots}, calls {calls}")?;
    if let Some(other) = &history.other {
        let calls = other.len();
        print!(rt; " and {calls}")?;
    }
    println!(rt; "")?;
    Ok(())
}

// A run of the calls of a history. It would hand its plan back only over a store that is not empty,
// or without a place for each answer.
fn begun<'a, S: Store + Drop>(plan: Plan<'a, S>) -> anyhow::Result<Run<'a, S>>
    ensures { IfOk result (λ run. Begins S.meaning plan.entry run) }
{
    match Run::new(plan) {
        Ok(run) => Ok(run),
        Err(_) => Err(anyhow!("the calls of a history cannot be made")),
    }
}

// Makes the calls of a history over two stores, and prints what came of them.
fn make_and_print<S: Store, T: Store>(
    rt: &HostRuntime,
    history: &History,
    pair: &mut Pair<'_, '_, S, T>,
    counts: &mut Counts,
) -> anyhow::Result<()> {
    print_answers(rt, pair, Side::Left, history.calls.as_slice(), counts)?;
    if history.other.is_some() {
        println!(rt; "other")?;
        print_answers(rt, pair, Side::Right, history.others(), counts)?;
    } else {
        make_all(pair, Side::Right, history.others())?;
    }
    print_ends(rt, history, pair)
}

// Makes the calls of a history over two stores that are empty, and prints what came of them.
fn replay<S: Store + Drop, T: Store + Drop>(
    rt: &HostRuntime,
    history: &History,
    first: S,
    second: T,
    counts: &mut Counts,
) -> anyhow::Result<()> {
    let mut table = RunMemory::new(rt, history, history.calls.as_slice())?;
    let mut bag = RunMemory::new(rt, history, history.others())?;
    let mut pair = Pair {
        left: begun(table.plan(first))?,
        right: begun(bag.plan(second))?,
    };
    make_and_print(rt, history, &mut pair, counts)
}

// Makes the calls of a history over a table and a bag, and prints what came of them.
fn replay_over_both(
    rt: &HostRuntime,
    number: usize,
    history: &History,
    counts: &mut Counts,
) -> anyhow::Result<()> {
    let mut first = vec![in rt.alloc(); empty_record(); history.capacity]?;
    let mut second = vec![in rt.alloc(); empty_record(); history.capacity]?;
    let mut table = Table::new(first.as_mut_slice());
    let bag = Bag::new(second.as_mut_slice());
    print_head(rt, number, table.capacity(), history)?;
    replay(rt, history, table, bag, counts)
}

// The histories of a script, or an error that names the line that is none of a script.
fn histories_of(rt: &HostRuntime, name: &str, script: &[u8]) -> Result<Vec<History>, TaskError>
    ensures histories { IfOk result (λ histories.
        histories_in script.now ≡ Ok (map history_of histories.items)) }
    ensures slip { IfErr result (NamesLine name.now (λ number.
        histories_in script.now ≡ Err number)) }
{
    match histories_in(rt.alloc(), script) {
        Ok(histories) => Ok(histories),
        Err(Unread::Line(number)) => {
            Err(TaskError::Line(String::from_str(rt.alloc(), name)?, number))
        }
        Err(Unread::Memory(error)) => Err(error.into()),
    }
}

/// Makes the calls of the histories of a script, and prints what came of each call. A script with a
/// line that is none is refused as a whole.
pub fn print_script(rt: &HostRuntime, name: &str) -> Result<(), TaskError> {
    let script = read_file(rt, name)?;
    let histories = histories_of(rt, name, script.as_slice())?;
    println!(rt; "script {name}")?;
    let mut counts = Counts::new();
    for (place, history) in histories.iter().enumerate() {
        replay_over_both(rt, place + 1, history, &mut counts)?;
    }
    print_calls(rt, histories.len() as u64, &counts)?;
    Ok(())
}
