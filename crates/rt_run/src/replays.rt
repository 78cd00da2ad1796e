//! A replay: one schedule of the lock, and the text of its steps.
ghost use Rattle.std.specs.Prelude.{◌≡◌, ◌↔◌, ◌≤◌, ◌^◌, Any};
ghost use Rattle.ya_core.specs.ArbitrationTree.{HasShape};
ghost use Rattle.rt_run.specs.Replayed.{LeavesReplay};

use crate::faults::AppFault;
use crate::output::write_through;
use crate::status::Status;
use rt_print::{OutputRoom, inside_place, write_replay};
use std::alloc::Global;
use std::io::Write;
use ya_core::{ReplayFault, replay};

/// Replays a schedule of the lock in a tree of `levels` levels: from the start, the picked places make one step each, in
/// order. Writes to `w` one line for each step, and then the place that is inside. Returns 0 if everything was written.
/// Errors, in this order: P2 if `levels` isn't 1 to `ya_core::MAX_LEVELS`; P1 if a pick isn't a place; P3 if memory ran out.
/// Nothing was written then. After `Write` a beginning of the text was written.
pub fn replay_text<W: Write>(
    alloc: Global,
    levels: u32,
    picks: &[u32],
    w: &mut W,
) -> Result<u8, AppFault>
    ensures text { LeavesReplay levels picks.now (W.contents w.old) (W.contents w.new) result }
    ensures levels { (result ≡ Err (AppFault.Replay ReplayFault.Levels)) ↔ (HasShape levels → ⊥) }
    ensures place { (result ≡ Err (AppFault.Replay ReplayFault.Place))
        ↔ (HasShape levels × Any (λ pick. 2 ^ levels ≤ pick) picks.now) }
{
    let steps = replay(alloc, levels, picks).map_err(AppFault::Replay)?;
    let room = OutputRoom::new(alloc).map_err(|_| AppFault::Replay(ReplayFault::Memory))?;
    let steps = steps.as_slice();
    let inside = inside_place(steps);
    let done = Status::Done as u8;
    write_through(w, room, false, done, |out| write_replay(out, steps, inside))
}
