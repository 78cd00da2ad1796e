//! The core of the Yang-Anderson lock: the words of the arbitration tree, the steps of one process, and all processes
//! together as a machine without threads. `docs/LOCK.md` describes the algorithm and the argument.
//!
//! - [`Shape`] numbers the words of a tree of 1 to [`MAX_LEVELS`] levels in one flat row. Contracts see its number of
//!   levels.
//! - [`Walker`] is one process, whose caller makes the accesses. It requests one load or store at a time. Contracts see
//!   its place, its process and its remote accesses.
//! - [`Machine`] is all processes with their words; [`replay`] lets them step in a given schedule. Contracts see words
//!   by name and processes by place, and each step as one row of the table of steps (`StepsTo`).
//! - [`laws`] states the properties of every run, for any number of levels.
//!
//! ```text
//! let shape = Shape::new(4)?;                    // 16 places, 109 words
//! let mut walker = Walker::new(shape, 5);        // place 5, idle
//! walker.begin_entry();
//! walker.op()                                    // Store(5, 6). The word C of its side at level 1 := its identifier.
//! walker.done();
//! walker.op()                                    // Store(32, 6). The word T of its node at level 1 := its identifier.
//! ```
//!
//! A running lock drives a walker over atomic words. Besides the contracts of this crate, its proofs may cite the
//! lemmas of `proofs/Promised.antt`, which are part of the crate's promises.
//!
//! Tested, not proved: [`Machine::new`] and [`replay`] can allocate if memory is available. The table of steps is the
//! one in docs/LOCK.md: `library_tests` compares with a second machine, written from that table.
#![tactic(auto)]

pub mod laws;
mod limits;
mod machine;
mod process;
mod schedule;
mod shape;
mod step;
mod walker;
mod word;

pub use limits::{MAX_LEVELS, MAX_PLACES};
pub use machine::{Machine, NoMemory};
pub use process::{EntryPoint, ExitPoint, Process};
pub use schedule::{ReplayFault, replay};
pub use shape::Shape;
pub use step::{Mark, Step};
pub use walker::{Op, Walker};
pub use word::{Access, Word};
