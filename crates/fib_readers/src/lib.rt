//! A forwarding table that readers on other threads query while its writer builds the next one: no reader waits.
//!
//! ```
//! let writer = FibWriter::new(alloc, Fib::new(alloc, &table)?, 2)?;
//! let reader = writer.reader()?; // For another thread: `reader.enter()`, and then `look_up`.
//! table.apply(1, cmd)?;
//! let (writer, done) = writer.publish(&rt, alloc, Fib::new(alloc, &table)?);
//! ```
//!
//! It is built on the toolchain's `left_right`. It publishes whole tables. A reader that enters finds the last of the
//! tables published until then, and these begin with all that it has seen before (`specs/Readers.antt`). This follows
//! from an invariant that the writer keeps with each step (`specs/inside/Published.antt`).
#![tactic(auto)]

mod readers;

pub use readers::{FibReadGuard, FibReader, FibWriter};
