// Whole runs: what call by call comes to when all calls of a plan are made.
ghost use Rattle.runs.specs.Calls.{first_ledger};
ghost use Rattle.runs.specs.WholeRuns.{RunOf, BothRuns};

use crate::plan::Plan;
use crate::run::Run;
use timetable::{Store, Timetable};

/// Makes all calls of a plan. It is refused, and handed back as it was, where the store is not empty, or there are not as many
/// places for answers as calls.
pub fn run<'a, S: Store>(plan: Plan<'a, S>) -> Result<Run<'a, S>, Plan<'a, S>>
    ensures { ∥ RunOf S.meaning first_ledger plan.entry result ∥₁ }
{
    let calls = plan.calls;
    let mut run = Run::new(plan)?;
    for _ in calls {
        run.call_next();
    }
    Ok(run)
}

/// Makes all calls of two plans, over stores of any two makes.
pub fn run_both<'a, 'b, S: Store, T: Store>(
    left: Plan<'a, S>,
    right: Plan<'b, T>,
) -> (
    Result<Run<'a, S>, Plan<'a, S>>,
    Result<Run<'b, T>, Plan<'b, T>>,
)
    ensures { ∥ BothRuns S.meaning T.meaning first_ledger left.entry right.entry
        result.0 result.1 ∥₁ }
{
    (run(left), run(right))
}
