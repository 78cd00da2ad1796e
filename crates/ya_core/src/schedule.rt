//! The replay of a given schedule.
ghost use Rattle.std.specs.Prelude.{◌≡◌, ◌↔◌, ◌^◌, ◌<◌, ◌≤◌, List, IfOk, IsErrOf, All, Any};
ghost use Rattle.ya_core.specs.declared.step.Step.{Step};
ghost use Rattle.ya_core.specs.Steps.{opening};
ghost use Rattle.ya_core.specs.ArbitrationTree.{HasShape};
ghost use Rattle.ya_core.specs.Machines.{Replays};

use crate::machine::{Machine, NoMemory};
use crate::shape::Shape;
use crate::step::Step;
use std::alloc::Global;
use thiserror::Error;

/// The reason why a schedule was not replayed.
#[derive(Clone, Copy, PartialEq, Eq, Debug, Error)]
pub enum ReplayFault {
    /// P1: some pick is not a place of the tree.
    #[error("fault P1")]
    Place,
    /// P2: the number of levels is not 1 to `MAX_LEVELS`.
    #[error("fault P2")]
    Levels,
    /// P3: out of memory.
    #[error("fault P3")]
    Memory,
}

/// Returns the steps of a run from the start: the picked places step one after another in a tree of that many levels.
///
/// Errors: P2 if no tree has that many levels, else P1 if some pick is not a place, else P3 if memory runs out. Nothing is
/// kept after an error.
pub fn replay(alloc: Global, levels: u32, picks: &[u32]) -> Result<Vec<Step>, ReplayFault>
    ensures steps { IfOk result (λ steps. Replays levels opening picks.now steps.items) }
    // The picks name one run.
    ensures one { IfOk result (λ steps. (other : List Step)
        → Replays levels opening picks.now other → other ≡ steps.items) }

    ensures levels { IsErrOf result ReplayFault.Levels ↔ (HasShape levels → ⊥) }
    ensures place { IsErrOf result ReplayFault.Place
        ↔ (HasShape levels × Any (λ pick. 2 ^ levels ≤ pick) picks.now) }
{
    let shape = Shape::new(levels).ok_or(ReplayFault::Levels)?;
    if picks.iter().any(|pick| *pick as usize >= shape.places()) {
        return Err(ReplayFault::Place);
    }
    match run(alloc, shape, picks) {
        Ok(steps) => Ok(steps),
        Err(NoMemory) => Err(ReplayFault::Memory),
    }
}

/// Returns the steps of the picked places, taken one after another from the start.
fn run(alloc: Global, shape: Shape, picks: &[u32]) -> Result<Vec<Step>, NoMemory>
    requires { All (λ pick. pick < 2 ^ shape) picks.now }
    ensures { IfOk result (λ steps. Replays shape opening picks.now steps.items) }
{
    let mut machine = Machine::new(alloc, shape)?;
    let mut steps = Vec::with_capacity(alloc, picks.len())?;
    for pick in picks {
        steps.push(machine.step(*pick as usize))?;
    }
    Ok(steps)
}
