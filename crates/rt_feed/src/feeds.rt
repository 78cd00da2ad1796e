//! Several feeds, each through its own gate and on its own thread.
ghost use Rattle.std.specs.Prelude.{◌≡◌, ◌≢◌, ◌↔◌, ◌⊎◌, ℕ, ◌<◌, ◌≤◌, [], length, All, Any, IsSome, OnOk, slice_index_or};
ghost use Rattle.rt_feed.specs.FeedRuns.{RunsOne};

use crate::faults::RunFault;
use crate::gates::Gate;
use crate::report::Report;
use crate::running::run_feed;
use std::alloc::Global;
use std::sync::Wait;
use std::thread;
use std::thread::Threads;

/// A feed: the gate that answers it and, after a run, its report.
#[derive(Debug, Drop)]
pub struct Feed<G> {
    /// The gate that answers its commands.
    pub gate: G,
    /// The answers to its lines, if it was run to its end.
    pub report: Option<Report>,
}

/// Runs each text through the gate of the feed of the same number, each on its own thread, and joins them all. If no
/// thread can be made, they run one after another.
pub fn run_feeds<R: Threads + Wait + Sync, G: Gate>(
    rt: &R,
    alloc: Global,
    texts: &[Vec<u8>],
    batch: usize,
    feeds: &mut [Feed<G>],
) -> Result<(), RunFault>
    requires { 1 ≤ batch }
    ensures no_text { (result ≡ Err (RunFault.NoText)) ↔ (texts.now ≡ []) }
    ensures count { (result ≡ Err (RunFault.FeedCount)) ↔ ((texts.now ≢ []) × (length texts.now ≢ length feeds.old)) }
    ensures unasked { (texts.now ≡ []) ⊎ (length texts.now ≢ length feeds.old) → feeds.new ≡ feeds.old }
    ensures each { length texts.now ≡ length feeds.old → (i : ℕ) (t : _) (d : _) → i < length texts.now
        → RunsOne G.name G.holds batch (slice_index_or texts.now i t).items
        (slice_index_or feeds.old i d).gate (slice_index_or feeds.new i d).gate (slice_index_or feeds.new i d).report }
    ensures ok { OnOk result (All (λ feed. IsSome feed.report) feeds.new) }
    ensures memory { result ≡ Err (RunFault.Memory) → Any (λ feed. feed.report ≡ None) feeds.new }
{
    if texts.is_empty() {
        return Err(RunFault::NoText);
    }
    if texts.len() != feeds.len() {
        return Err(RunFault::FeedCount);
    }
    thread::for_each_mut(
        rt,
        feeds,
        texts.len(),
        &|i: usize, feed: &mut Feed<G>|
            requires { (i < length texts.now) × (1 ≤ batch) }
            ensures { (t : _) → RunsOne G.name G.holds batch (slice_index_or texts.entry.now i t).items
                feed.entry.now.gate feed.exit.now.gate feed.exit.now.report }
        {
            let text = texts[i].as_slice();
            feed.report = run_feed(rt, alloc, text, batch, &mut feed.gate).ok();
        },
    );
    for feed in feeds.iter() {
        if feed.report.is_none() {
            return Err(RunFault::Memory);
        }
    }
    Ok(())
}
