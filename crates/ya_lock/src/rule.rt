//! The rule of the lock's table, the views of its seats, and the indices of its words and its slot.
ghost use Rattle.atomic_table.specs.Table.{State};
ghost use Rattle.ya_lock.specs.Rule.{Rule};
ghost use Rattle.ya_lock.specs.declared.rule.View.TheVariants.{Unused};

use crate::kept::Kept;
use atomic_table::{Seat, Table, TableRule};
use std::alloc::{Allocator, Global};
use ya_core::Process;

/// The distance between two words of the tree: a cache line, so that stores in others don't disturb a place that spins
/// on its own word.
pub const SPACING: usize = 8;

/// The index of the lent value, in the table's one slot.
pub const SLOT: usize = 0;

/// The knowledge of a seat of the lock's table. No value of it is made at run time.
pub enum View<V> {
    /// Nothing. A table begins with one such seat.
    Unused,
    /// It is to make the passes. The slot is at home and empty.
    Making,
    /// The same, and it has taken the empty slot.
    Filling,
    /// It gave the value home, and is to make the passes of the places from this one on; with the value that it gave.
    HandingOut(usize, V),
    /// A process: its place, its state, the value that it has seen (inside: that it found), and the number of remote
    /// accesses since its last acquisition began.
    Seated(usize, Process, V, u64),
    /// The same, and its process waits: since the seat last stored in its own bell, it has looked at its spin word in
    /// vain. Only such a seat parks without a time limit.
    Watching(usize, Process, V, u64),
    /// The same as `Seated`, and it owes this rival a ring: it has stored in the rival's spin word, and since then it has
    /// neither found the rival's bell other than 1 nor stored 0 there.
    Owes(usize, Process, V, u64, usize),
    /// A process inside that has joined an idle one: its place, the value that it found, the other's place, the value
    /// that the other has seen, and the number of remote accesses of the process inside.
    Joining(usize, V, usize, V, u64),
    /// It was joined to another seat.
    Spent,
}

/// The rule, at a number of levels. The core's invariant holds of the words and of the processes that the seats show.
/// The value, once it was given, is in its slot exactly if no process is inside.
pub struct LockRule;

impl<V: Kept> TableRule<Option<V>, View<V>, u32> for LockRule {
    ghost holds = { λ levels s. Rule V.since levels s };

    ghost first = { λ _. Unused };
}

/// The words of a lock and the slot of its value.
pub type LockTable<V> = Table<Option<V>, View<V>, u32, LockRule, Global>;

/// A table, with the rule that its type names.
pub trait Ruled<S, V, K> {
    /// The property of the table, at its key, between any two atomic steps.
    ghost rule: { K → State S V → Type 0 };
}

impl<S, V, K, P: TableRule<S, V, K>, A: Allocator> Ruled<S, V, K> for Table<S, V, K, P, A> {
    ghost rule = { λ key s. P.holds key s };
}

/// A thread's right to take steps on the table, with its knowledge.
pub type LockSeat<V> = Seat<Option<V>, View<V>>;
