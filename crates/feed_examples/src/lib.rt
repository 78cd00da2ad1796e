//! Proved examples of the definitions of `rt_shared`, `rt_print`, `rt_feed` and `rt_run`: a file of proofs/ for each, and
//! `Replay` for replays. They are in a separate crate, since a build of the program doesn't need them.
#![tactic(auto)]

pub mod callers;
