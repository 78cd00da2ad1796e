//! The shared table: several feeds, each on a thread of its own, change one book under the lock, and its journal
//! explains every answer.
//!
//! ```text
//! let (table, passes) = SharedRib::<6>::new(alloc, limit)?;
//! // in the thread of each feed, by a pass of its own:
//! let reply = table.apply(rt, &mut pass, cmd)?;
//! // once all threads are joined:
//! let book = table.settle(rt, passes);
//! ```
#![tactic(auto)]

mod boxed_book;
pub mod laws;
mod lent;
mod outcome;
mod sequential;
mod shared_rib;

pub use lent::Lent;
pub use outcome::Outcome;
pub use rt_rib::Refused;
pub use shared_rib::{FeedPass, SharedRib};
