//! Callers that need clauses which no page has, and which no wrong body can break: each says what holds of any value.
ghost use Rattle.std.specs.Prelude.{◌≡◌};
ghost use Rattle.ya_core.specs.Machines.{state_of};
ghost use Rattle.ya_core.specs.Soundness.{IsSoundState};
ghost use Rattle.ya_core.specs.WalkerModel.{IsWalk};

use ya_core::{Machine, Process, Walker};
use ya_lock::{Guard, Kept};

/// Makes known that a machine's state is sound. Needs `ya_core::Machine::holds`.
pub fn sound(machine: &Machine)
    ensures { IsSoundState machine.now.levels (state_of machine.now) }
{
    machine.holds();
}

/// Returns the process of a walker, which is a walk. Needs `ya_core::Walker::process.proper`.
pub fn process_of(walker: &Walker) -> Process
    ensures { IsWalk walker.now }
{
    walker.process()
}

/// Returns the value that is lent. Needs `ya_lock::Guard::get`.
pub fn lent<V: Kept>(guard: &Guard<V>) -> &V
    ensures { result.now ≡ guard.now.value }
{
    guard.get()
}

/// Returns the value of a guard and stores another. Needs `ya_lock::Guard::get_mut.value` and
/// `ya_lock::Guard::get_mut.writes_back`.
pub fn exchanged(guard: &mut Guard<u64>, new: u64) -> u64
    ensures old { result ≡ guard.old.value }
    ensures new { guard.new.value ≡ new }
{
    let value = guard.get_mut();
    let old = *value;
    *value = new;
    old
}
