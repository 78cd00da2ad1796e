//! Proved examples of the definitions of `rt_cidr`, `rt_trie`, `rt_rib`, `rt_diff`, `rt_fib` and `fib_readers`, with a
//! file or a directory in proofs/ for each. They are a separate crate, since building the program doesn't need them.
#![tactic(auto)]

pub mod callers;
