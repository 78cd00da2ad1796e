//! An IPv4 routing table as a set of routes, its commands and replies, and the journal of everything answered.
//!
//! ```
//! let mut book = Book::new(alloc, 100);
//! let prefix = Prefix::parse(b"10.0.0.0/8")?;
//! let hop = Hop::Via(Addr::parse(b"192.0.2.1")?);
//! book.apply(1, Cmd::Add { prefix, pref: 10, hop })?; // Added. The table has one route now.
//! let addr = Addr::parse(b"10.1.2.3")?;
//! book.apply(2, Cmd::Lookup { addr })?; // Found, with the route of feed 1.
//! ```
//!
//! A contract sees a book as four things: the maximum number of routes of a feed, the journal of every answered
//! command, the trie of the routes, and the number of entries that the journal still has room for. An invariant keeps
//! the journal lawful. Each reply is the sequential table's (`specs/Sequential.antt`) in the set of routes that the
//! entries before it leave, and each entry is of a feed from 1 to [`MAX_FEEDS`]. The trie is lawful and holds exactly the
//! routes that the journal leaves ([`Book::holds`]); [`Book::routes`] returns them in dump order. [`laws`] has theorems
//! about all sets of routes and journals.
//!
//! The routes are stored in a trie: each prefix has its offers, the best first (`src/map.rt`, `src/offers.rt`). So a
//! look-up descends once and reads one offer. Besides the journal, for which [`Book::reserve`] reserves room, only an
//! `Add` makes anything grow. A `Purge` of few routes visits only those parts of a large table where its feed added
//! routes (`src/marks.rt`). A `Purge` of many visits the map once, up to the last route of its feed (`src/purge.rt`). A
//! caller with several commands can use [`Table::read_ahead`], with which their waits for memory overlap
//! (`src/ahead.rt`).
//!
//! A book is a [`Table`] and its journal: [`Book::table`] lends the table for queries. A program that runs for months
//! and needs no history can use the table without a journal: it answers commands by the same `reply_of` and
//! `table_after`. Contracts see its limit, its routes and their trie.
//!
//! These queries of a table leave no entry in a journal:
//!
//! - [`Table::look_up`] answers one address, [`Table::look_up_each`] many addresses at once.
//! - [`Table::look_up_all`] returns every route whose prefix covers an address, the best first.
//! - [`Table::lookup_cursor`] answers successive addresses, each with how far its answer holds.
//! - [`Table::hop_counts`] returns how many best routes use each next hop.
//! - [`Table::purge_changes`] returns which best routes a purge would change. [`Table::apply_changed`] executes any other
//!   change, and returns which best route it has changed.
//!
//! The table passes such a look-up to the map (`src/lookups.rt`), where a prefix's first offer is its best one. The map
//! passes it to the trie, whose type keeps it lawful.
//!
//! Only tested, since no clause says it: that a command succeeds if there is memory, which allocator a list uses, that
//! the last address of an answer is as high as it is, that [`Table::offer_bytes`] is near what the lists of offers
//! take, and which prefixes [`Table::likely_prefixes`] lists.
#![tactic(auto)]

mod ahead;
mod answers;
mod book;
mod changes;
mod chunks;
mod commands;
mod hop_counts;
pub mod laws;
mod limits;
mod lookups;
mod map;
mod marks;
mod offers;
mod places;
mod purge;
mod refused;
mod routes;
mod selection;
mod table;

pub use ahead::{READ_AHEAD_COMMANDS, READ_AHEAD_NODES};
pub use answers::LookupCursor;
pub use book::Book;
pub use changes::{BestChange, PurgeChanges};
pub use chunks::{ChunkLookup, look_up_in_chunks};
pub use commands::{Cmd, Entry, Reply};
pub use hop_counts::HopCount;
pub use limits::{MAX_FEEDS, MAX_ROUTES_PER_FEED, feed_ok, limit_ok};
pub use places::RoutesFrom;
pub use refused::Refused;
pub use routes::{Hop, Reason, Route, keep_best};
pub use selection::{PrefixFilter, Selection, keep_feeds, keep_hop};
pub use table::Table;
