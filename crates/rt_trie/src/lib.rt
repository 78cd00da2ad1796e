//! A finite map from IPv4 prefixes, kept as a path-compressed trie of boxes, with longest match (RFC 1812,
//! section 5.2.4.3).
//!
//! ```
//! let mut hops = Trie::new(alloc);
//! let _ = hops.insert(Prefix::parse(b"10.0.0.0/8")?, 1);
//! let _ = hops.insert(Prefix::parse(b"10.1.0.0/16")?, 2);
//! let (prefix, hop) = hops.longest(Addr::parse(b"10.1.2.3")?).ok_or("no route")?; // 10.1.0.0/16 and 2.
//! ```
//!
//! A contract sees a trie as three things:
//!
//! - `pairs`: the list of its prefixes with their values, ordered by base and then by length;
//! - `nodes`: the number of its nodes;
//! - `tree`: these nodes with their prefixes.
//!
//! An invariant keeps the trie lawful, and a clause of [`Trie::nodes`] states this for the tree. Each child is longer
//! than its parent, contained in it and on the side of the next bit. A node without a value has two children. Exactly
//! the stored prefixes have values. [`laws`] has theorems that explain the definitions for the list.
//!
//! Each call is proved to change the list as its clause says, to terminate, and to be safe. An insertion that runs out
//! of memory leaves list and nodes unchanged.
//!
//! Only tested, since no clause says it: an insertion succeeds if there is memory, and no other call needs any. An
//! insertion that can't allocate a later box frees the earlier ones. [`LongestMatchCursor::match_range`] covers all addresses in a small
//! number of calls.
#![tactic(auto)]

mod covering;
mod descent;
mod insertion;
pub mod laws;
mod matches;
mod nodes;
mod places;
mod removal;
mod retaining;
mod search;
mod tries;
mod walks;

pub use covering::Covering;
pub use matches::LongestMatchCursor;
pub use retaining::RetainFilter;
pub use search::LANES;
pub use tries::Trie;
pub use walks::Walk;
