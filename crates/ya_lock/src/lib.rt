//! The running lock: Yang and Anderson's arbitration tree (1995) over atomic words, lending one value.
//!
//! ```text
//! match TreeLock::<Tally, 1>::new(alloc, start) {    // `Tally` states by `Kept` which changes places may make.
//!     Err((start, NoMemory)) => ..                   // The value comes back.
//!     Ok((lock, passes)) => ..                       // 2 passes, that of place k at index k.
//! }
//! // In each thread, by a pass of its own:
//! let mut guard = lock.enter(rt, pass);              // Waits. The pass is spent.
//! let place = guard.place();
//! guard.get_mut().add(place);
//! let pass = lock.leave(guard);                      // The guard is spent, and a pass is back.
//! ```
//!
//! `crates/walkthrough/src/lock.rt` has `Tally` and the whole of this, with its proof.
//!
//! - [`TreeLock`] has 2 to the power of L places, L from 1 to `ya_core::MAX_LEVELS`. `new` gives the [`Pass`] of each.
//! - A [`Pass`] is the right to enter from one place. It knows the value as its place has last seen it.
//! - A [`Guard`] is a place that is inside. It has the value as it was found and as it is now.
//! - The lent type implements [`Kept`]. Its `since` relates a value to those that other places may make of it, and `done`
//!   relates the value that a place found to those that it may leave. `enter` promises the first and `leave` requires
//!   the second. So the value that a guard finds can be traced to the one that its pass has seen, over any number of
//!   passages of other places.
//! - `confirm` spends a pass under an open guard. It relates the value that the pass has seen to the guard's.
//! - `close` ends the lock.
//! - [`laws`] states the meaning of the rule of the lock's table, at every moment between two atomic steps. The rule
//!   means the invariant of the core, at most one seat inside, and the value in its slot exactly if no seat is inside,
//!   once it was given. It also states the step that each seat of a process may take, with its effect on the value. Every other
//!   kind of step leaves the words of the tree and the processes as they are.
//!
//! Only `enter` may wait, and only `new` allocates. That threads get in, and how soon, is only tested. `docs/LOCK.md`
//! describes the contracts, and the rule that ties each access to a step of the core.
#![tactic(auto)]

mod bell;
mod ghost_value;
mod guard;
mod kept;
pub mod laws;
mod making;
mod pass;
mod passage;
mod rule;
mod step_effects;
mod throttle;
mod tree_lock;

pub use guard::Guard;
pub use kept::Kept;
pub use pass::Pass;
pub use tree_lock::TreeLock;
pub use ya_core::NoMemory;
