//! The differences of two routing tables: ranges of addresses that have different answers in them, with both answers.
//!
//! ```
//! let mut tables = Comparison::new(old.table(), new.table(), CompareBy::Hop);
//! let mut next = tables.first_difference(Addr(0));
//! while let Some(difference) = next {
//!     // The addresses from difference.first to difference.last have different answers. Continue after them.
//!     next = tables.difference_after(difference.last);
//! }
//! ```
//!
//! Contracts see a table as its routes. An answer is the result of a look-up among them
//! (`specs/Answers.antt`). If the two tables number their feeds differently, [`Comparison::renumber_new_feeds`] pairs them.
//! These ranges are the only list of the tables' differences (`specs/Differences.antt`, [`laws`]). Only
//! [`ComparedTables::differences`] allocates: it returns the whole list, which several threads find. Each call takes time in
//! proportion to the number of the tables' boundaries in the visited range, without a step for each address.
#![tactic(auto)]

mod comparison;
pub mod laws;
mod listing;
mod pieces;
mod renumbered;
mod table_answers;

pub use comparison::{Comparison, Difference};
pub use listing::ComparedTables;
pub use table_answers::{CompareBy, TableAnswer};
