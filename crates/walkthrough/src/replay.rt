//! `ya_core`: the steps of the lock for one schedule, without threads.
ghost use Rattle.std.specs.Prelude.{◌≡◌, IfOk};
ghost use Rattle.std.specs.List.{list_any};
ghost use Rattle.walkthrough.specs.Replay.{wins, ComesInside};

use std::alloc::Global;
use ya_core::{Mark, ReplayFault, Step, replay};

/// Returns true if some place enters when the places step in this order, from the start, in a tree with `levels`
/// levels.
pub fn somebody_inside(alloc: Global, levels: u32, picks: &[u32]) -> Result<bool, ReplayFault>
    ensures { IfOk result (λ inside. ComesInside levels picks.now inside) }
{
    let steps = replay(alloc, levels, picks)?;
    Ok(some_win(steps.as_slice()))
}

fn some_win(steps: &[Step]) -> bool
    ensures { result ≡ list_any wins steps.now }
{
    steps.iter().any(|step| has_won(step))
}

/// Returns true if the step won the root.
fn has_won(step: &Step) -> bool
    ensures { result ≡ wins step.now }
{
    match step.mark {
        Mark::Inside => true,
        Mark::Plain | Mark::Out => false,
    }
}
