//! A forwarding table (FIB): what a routing table answers each address, found by two reads of memory, or three.
//!
//! ```
//! let mut fib = Fib::new(alloc, &table)?;
//! table.apply(1, cmd)?;
//! fib.follow(&table, &cmd)?; // It answers as the table does again.
//! ```
//!
//! It is the table DIR-24-8 of Gupta, Lin and McKeown (*Routing Lookups in Hardware at Memory Access Speeds*, INFOCOM 1998): an
//! entry of `tbl24` for each first 24 bits of an address, 64 MiB of them. If the 256 addresses of an entry have one answer, the entry
//! is the number of that answer. Otherwise it names a group (a `tbl8`) of 256 numbers, one for each of them. The answers are in a
//! list, so that each is a whole route (`src/dir24_8.rt`).
//!
//! A change puts groups and answers into places that are free (`src/slab.rt`). A place becomes free when no entry led to it during
//! a whole round. A round marks all entries, a few after each change (`src/marking.rt`), and its number is an epoch.
//!
//! Contracts see a [`Fib`] as the routing table that it answers by: [`Fib::look_up`] answers each address what a look-up of that
//! table does (`look_up` in `rt_rib`'s `specs/LookUp.antt`). It is proved that no place is read which isn't there, so no test tries it.
//! [`laws`] says that [`Fib::follow`] may follow each command of a table.
//!
//! No clause says how much memory it takes, or that many threads may look up in one: this is only tested.
#![tactic(auto)]

mod bounds;
mod dir24_8;
mod fib;
mod filling;
mod following;
pub mod laws;
mod marking;
mod purging;
mod routes;
mod slab;
mod slabs;
mod spans;
mod views;

pub use fib::Fib;
pub use slabs::{GROUP_FLAG, GROUP_SIZE};
pub use views::ViewSizes;
