// An installation that is asked one call after another.
ghost use Rattle.std.specs.Prelude.{◌≡◌, ◌+◌, ◌<◌, length, set};
ghost use Rattle.runs.specs.Calls.{call_meant, room_of, call_within, calls_within, Does, DoesTo, stands, Keeps, first_ledger, ledger_at};

use crate::call::Call;
use crate::installation::Installation;
use crate::memory::Memory;
use crate::plan::Plan;
use controller::answer::Answer;
use timetable::{Store, Timetable};

/// An installation with the calls that it is asked, in order: those that were made, and the answer to each.
#[derive(Drop)]
pub struct Run<'a, S: Timetable> {
    // The controller and its board.
    installation: Installation<'a, S>,
    // The calls, in order.
    calls: &'a [Call<'a>],
    // The answers to the calls that were made, in order, and places for the others.
    answers: &'a mut [Answer],
    // The memory that calls write into.
    memory: Memory<'a>,
    // How many of the calls were made.
    made: usize,
    ghost places: { length answers.now ≡ length calls.now },
    ghost keeps: { ∥ Keeps (stands S.meaning installation)
        (ledger_at first_ledger (calls_within (room_of memory) calls.now) answers.now made) ∥₁ },
}

// Does a call, and writes its answer down in the place that is next. It stands by itself, since a run keeps to its ledger only when
// all four have changed.
fn make<S: Store>(
    installation: &mut Installation<'_, S>,
    call: &Call<'_>,
    memory: &mut Memory<'_>,
    answers: &mut [Answer],
    made: &mut usize,
) -> Answer
    requires { made.old < length answers.old }
    ensures does { Does S.meaning S.Store.becomes installation.old installation.new
        (call_within (room_of memory.old) (call_meant call.now)) result }
    ensures memory { DoesTo S.meaning installation.old memory.old memory.new
        (call_within (room_of memory.old) (call_meant call.now)) result }
    ensures answers { answers.new ≡ set answers.old made.old result }
    ensures made { made.new ≡ made.old + 1 }
{
    let answer = installation.call(call, memory);
    answers[*made] = answer;
    *made += 1;
    answer
}

impl<'a, S: Store> Run<'a, S> {
    ghost use Rattle.runs.specs.Runs.{BegunFrom, Next, installation_of, answers_of, bytes_in};

    /// A run of a plan, over a new controller and a new board; no call is made yet. It is refused, and handed back as it was,
    /// where the store is not empty, or there are not as many places for answers as calls.
    pub fn new(mut plan: Plan<'a, S>) -> Result<Run<'a, S>, Plan<'a, S>>
        ensures { BegunFrom S.meaning plan.entry result }
    {
        if plan.store.count() != 0 || plan.answers.len() != plan.calls.len() {
            return Err(plan);
        }
        let Plan {
            store,
            slots,
            calls,
            answers,
            memory,
        } = plan;
        Ok(Run {
            installation: Installation::new(store, slots),
            calls,
            answers,
            memory,
            made: 0,
        })
    }

    /// Makes the next call, and answers it; none where all calls are made.
    pub fn call_next(&mut self) -> Option<Answer>
        ensures { ∥ Next S.meaning S.Store.becomes first_ledger self.old self.new result ∥₁ }
    {
        let call = self.calls.get(self.made)?;
        Some(make(
            &mut self.installation,
            call,
            &mut self.memory,
            self.answers,
            &mut self.made,
        ))
    }

    /// The installation, as the calls that were made have left it.
    pub fn installation(&self) -> &Installation<'a, S>
        ensures { result.now ≡ installation_of self.now }
    {
        &self.installation
    }

    /// The answers to the calls that were made, in order, and then the places that are left.
    pub fn answers(&self) -> &[Answer]
        ensures { result.now ≡ answers_of self.now }
    {
        self.answers
    }

    /// The bytes that calls write into, as the calls that were made have left them.
    pub fn bytes(&self) -> &[u8]
        ensures { result.now ≡ bytes_in self.now }
    {
        self.memory.bytes
    }
}
