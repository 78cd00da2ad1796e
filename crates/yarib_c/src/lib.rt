//! `yarib`'s routing tables for C, and so for every language that calls C: one thin export over each call of the libraries
//! `rt_rib`, `rt_cidr`, `rt_diff` and `rt_fib`. `bindings/c/yarib.h` declares them.
//!
//! C keeps a table behind a [`Yarib`], which is a pointer and no more: null where it holds nothing. It holds a table, with or
//! without a journal, or a forwarding table (`src/held.rt`). Nothing checks a caller that is not Rattle, so no export has a
//! `requires`: what it can test itself it answers with a status. Each status has a clause that says when it comes and what
//! stays, and one clause lists the statuses that there are. Contracts see what a handle holds (`specs/Handle.antt`), and what
//! a call does to it in the words of the libraries: replies are `reply_of`'s, look-ups those of `look_up`.
//!
//! A `Global` takes no bytes, so C passes nothing for a parameter `alloc`. What C owes an export: no null pointer, no copy of a
//! handle, and one call at a time on a handle. `bindings/c/handles.c` sees to the last, so the header asks for the others alone.
#![tactic(auto)]

mod changed;
mod changes;
mod commands;
mod differences;
mod forwarding;
mod handle;
mod held;
mod hop_counts;
mod lists;
mod lookups;
mod loose;
mod pages;
mod plain;
mod questions;
mod routes;
mod selections;
mod sizes;
mod status;
mod texts;
mod views;

pub use changed::YaribChange;
pub use commands::{YaribCommand, YaribEntry, YaribReply};
pub use differences::YaribDifference;
pub use handle::Yarib;
pub use hop_counts::YaribHopCount;
pub use routes::YaribRoute;
pub use selections::YaribSelection;
pub use texts::YaribPrefix;
pub use views::YaribView;
