//! Proved examples of the definitions of `ya_core` and `ya_lock`: of each a file of proofs/, and the files of a directory
//! with its name. They are a crate of their own, since nobody who builds the program needs them. So is the value that
//! tests of the lock lend, a list of marks.
#![tactic(auto)]

pub mod callers;
mod marks;

pub use marks::Marks;
