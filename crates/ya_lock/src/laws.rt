//! The meaning of the rule of the lock's table, as contracts of functions with empty bodies.
ghost use Rattle.std.specs.Prelude.{ℕ, ◌≤◌};
ghost use Rattle.ya_lock.specs.LockState.{IsLockState};
ghost use Rattle.ya_lock.specs.WakeUps.{EachSleeperIsRung, SomeSeatIsAwake, IsStep, OwesOrHasPaid};
ghost use Rattle.ya_lock.specs.DueStep.{EachMayStep};
ghost use Rattle.ya_lock.specs.StepKinds.{IsDueStepAlone, IsOtherStep, LeavesProcesses, SameContent, GivesHome, IsGift};

use crate::kept::Kept;
use crate::rule::{LockTable, Ruled, View};

/// The rule of a lock's table holds at every moment between two atomic steps of its seats. It has these
/// consequences. The invariant of the core holds of the words and of the processes that the seats show, so each
/// waiting process is owed a store in its spin word. If some process takes part, some process that takes part goes on
/// with the words as they are. No place has two seats, and at most one seat is inside. Once the value was given, it is
/// in its slot exactly if no process is inside. The current value is what other places may have made (`since`) of the
/// value that a place away has seen, or that a place was given whose pass is still to be made. One seat makes the
/// passes; before it begins, no seat knows anything.
pub fn rule<V: Kept, const L: u32>()
    requires { 1 ≤ L }
    ensures { (s : _) → ⟦<LockTable<V> as Ruled<Option<V>, View<V>, u32>>⟧.rule L s
        → IsLockState V.since L s }
{}

/// At each such moment, each seat of a process that owes no ring may take its due step, one load or store, whatever the
/// words and all other views are. The seat's view goes on as in the core, no other view changes, and the rule is kept.
/// A process that leaves the inside needs a value that `done` allows after the value it found; the step puts it in the
/// slot, and its place has seen it. A process that comes inside takes the value from the slot. [`kinds`] bounds the
/// steps of all other seats.
pub fn steps<V: Kept, const L: u32>()
    requires { 1 ≤ L }
    ensures { (s : _) → ⟦<LockTable<V> as Ruled<Option<V>, View<V>, u32>>⟧.rule L s
        → EachMayStep V.since V.done L s }
{}

/// Between two moments at which the rule holds, each kind of step has only these effects. If a seat makes the due
/// access of its process, this is the step of [`steps`]; it changes the content only if its process was inside. Every
/// other kind changes no word of the tree and no process that isn't idle: the steps that make the passes, the two that
/// join a pass to a guard, and an access of a bell. They don't change the content either, except for the gift, before
/// which there was no content.
pub fn kinds<V: Kept, const L: u32>()
    requires { 1 ≤ L }
    ensures due { (s t : _) → ⟦<LockTable<V> as Ruled<Option<V>, View<V>, u32>>⟧.rule L s
        → ⟦<LockTable<V> as Ruled<Option<V>, View<V>, u32>>⟧.rule L t
        → IsDueStepAlone V.since L s t }
    ensures others { (s t : _) → ⟦<LockTable<V> as Ruled<Option<V>, View<V>, u32>>⟧.rule L s
        → IsOtherStep s t V.since L → LeavesProcesses s t L × SameContent s t }
    ensures gift { (s t : _) (value : _) → ⟦<LockTable<V> as Ruled<Option<V>, View<V>, u32>>⟧.rule L s
        → GivesHome s t value → IsGift L s t value }
{}

/// No wake-up is lost. Only a seat that has looked at its spin word in vain since it last stored in its own bell parks
/// without a time limit, and the kernel lets it sleep only while this bell is 1: its view is `Watching`. At each such
/// moment, if its process can go on with the words as they are, its bell isn't 1, or some seat owes its place a ring
/// (`rung`). Hence if some process takes part, some process that takes part can go on, and isn't asleep or is rung
/// (`awake`). A seat that owes a ring takes no step of its process before its view says that it has paid (`owing`). Its
/// view says so once it has found the bell other than 1, or has stored 0 there: `rung` holds of that moment too.
pub fn no_lost_wakeup<V: Kept, const L: u32>()
    requires { 1 ≤ L }
    ensures rung { (s : _) → ⟦<LockTable<V> as Ruled<Option<V>, View<V>, u32>>⟧.rule L s
        → EachSleeperIsRung s L }
    ensures awake { (s : _) → ⟦<LockTable<V> as Ruled<Option<V>, View<V>, u32>>⟧.rule L s
        → SomeSeatIsAwake s L }
    ensures owing { (s t : _) → IsStep s t V.since L → OwesOrHasPaid s t }
{}
