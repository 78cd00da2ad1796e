//! Several routing tables of different feeds, queried as one table.
//!
//! ```
//! // Two tables: no feed has routes in both.
//! let tables = TableUnion::new(tables);
//! let routes = tables.select(&rt, alloc, &asked)?; // The routes that one table of all routes would return.
//! ```
//!
//! A program that executes its feeds on several threads, each with a table of its own, asks these tables as one. Their
//! union is the table of all their routes (`specs/Unions.antt`). It isn't built: each query asks every table and merges
//! the answers: [`TableUnion::select`], [`TableUnion::look_up_each`], [`TableUnion::look_up_all`],
//! [`TableUnion::lookup_cursor`]. A contract sees the tables as their union, so each query has the clause of the same query of
//! a [`Table`](rt_rib::Table). [`laws`] has theorems about the union.
#![tactic(auto)]

mod cursor;
pub mod laws;
mod lookups;
mod merge;
mod pieces;
mod selection;
mod tables;

pub use cursor::UnionCursor;
pub use tables::TableUnion;
