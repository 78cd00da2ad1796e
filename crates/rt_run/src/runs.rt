//! A run: feed texts in, their reports and the table out.
ghost use Rattle.std.specs.Prelude.{◌≡◌, ◌↔◌, ◌⊎◌, ◌+◌, ◌*◌, ◌^◌, ◌<◌, ◌≤◌, ◌++◌, [], map, length, vec_len, vec_capacity, All, Some, None, IfOk, IsSome};
ghost use Rattle.rt_rib.specs.declared.limits.TheConstants.{MAX_FEEDS};
ghost use Rattle.rt_rib.specs.Book.{IsLimit};
ghost use Rattle.rt_run.specs.RunText.{IsRunText, WritesOrFails, reports_status};
ghost use Rattle.rt_run.specs.inside.Runs.{RunOverBook};
ghost use Rattle.ya_core.specs.ArbitrationTree.{HasShape};

use crate::faults::AppFault;
use crate::output::{write_run, write_through};
use crate::tallies::status_where;
use rt_feed::{Feed, Report, RunFault, TableGate, run_feeds};
use rt_print::OutputRoom;
use rt_rib::{Book, MAX_FEEDS, Refused};
use rt_shared::{FeedPass, SharedRib};
use std::alloc::{AllocError, Global};
use std::io::Write;
use std::mem;
use std::sync::Wait;
use std::thread::Threads;

/// The maximum number of texts of a run: the number of places of the highest lock.
pub const MAX_FEED_FILES: usize = MAX_FEEDS;

/// Runs each text as a feed on its own thread, all over one table. The k-th text is feed k; a feed has at most `limit`
/// routes, and executes up to `batch` commands together. Then writes to `w` each feed's report in order and then the table.
/// Returns the status if everything was written: 5 if some command ran out of memory, else 2 if some line was faulty, else
/// 0. Errors: F1 if there is no text; F3 if memory ran out outside of a command; nothing was written then. After `Write` a
/// beginning of such an output was written. The table's memory isn't freed before the process ends.
pub fn run_texts<R: Threads + Wait + Sync, W: Write>(
    rt: &R,
    alloc: Global,
    texts: &[Vec<u8>],
    limit: u32,
    batch: usize,
    w: &mut W,
) -> Result<u8, AppFault>
    requires limited { IsLimit limit }
    requires few { length texts.now ≤ MAX_FEEDS }
    requires batched { 1 ≤ batch }
    ensures text { WritesOrFails (IsRunText (map (λ text. text.items) texts.now) limit batch) (W.contents w.old) (W.contents w.new) result }
    ensures no_text { (result ≡ Err (AppFault.Run RunFault.NoText)) ↔ (texts.now ≡ []) }
{
    if texts.is_empty() {
        return Err(AppFault::Run(RunFault::NoText));
    }
    let (reports, book) = run_in_lowest_tree(rt, alloc, texts, limit, batch)?;
    let routes = book.routes(alloc)?;
    // Freeing the table node by node would take a tenth of a run, and the system takes its pages back at once.
    mem::forget(book);
    let room = OutputRoom::new(alloc)?;
    let reports = reports.as_slice();
    let routes = routes.as_slice();
    let status = status_of(reports);
    write_through(
        w,
        room,
        false,
        status,
        |out| write_run(out, reports, routes),
    )
}

/// Runs the texts over one table behind the lowest lock that has a place for each. Returns each feed's report, in order, and
/// the book.
fn run_in_lowest_tree<R: Threads + Wait + Sync>(
    rt: &R,
    alloc: Global,
    texts: &[Vec<u8>],
    limit: u32,
    batch: usize,
) -> Result<(Vec<Report>, Book<Global>), Refused>
    requires limited { IsLimit limit }
    requires few { length texts.now ≤ MAX_FEEDS }
    requires batched { 1 ≤ batch }
    ensures { IfOk result (λ run. RunOverBook (record { texts = map (λ text. text.items) texts.now; limit = limit; batch = batch }) run.0.items run.1) }
{
    match texts.len() {
        0..=2 => run_in_tree::<_, 1>(rt, alloc, texts, limit, batch),
        3..=4 => run_in_tree::<_, 2>(rt, alloc, texts, limit, batch),
        5..=8 => run_in_tree::<_, 3>(rt, alloc, texts, limit, batch),
        9..=16 => run_in_tree::<_, 4>(rt, alloc, texts, limit, batch),
        17..=32 => run_in_tree::<_, 5>(rt, alloc, texts, limit, batch),
        _ => run_in_tree::<_, 6>(rt, alloc, texts, limit, batch),
    }
}

/// Runs the texts over one table behind a lock of L levels, the fewest that have a place for each text.
fn run_in_tree<R: Threads + Wait + Sync, const L: u32>(
    rt: &R,
    alloc: Global,
    texts: &[Vec<u8>],
    limit: u32,
    batch: usize,
) -> Result<(Vec<Report>, Book<Global>), Refused>
    requires limited { IsLimit limit }
    requires batched { 1 ≤ batch }
    requires levels { HasShape L }
    requires placed { length texts.now ≤ 2 ^ L }
    requires fewest { (L ≡ 1) ⊎ (2 ^ L < 2 * length texts.now) }
    ensures { IfOk result (λ run. RunOverBook (record { texts = map (λ text. text.items) texts.now; limit = limit; batch = batch }) run.0.items run.1) }
{
    let (table, mut passes) = SharedRib::<L>::new(alloc, limit)?;
    let mut ended = Vec::with_capacity(alloc, passes.len())?;
    let mut reports = Vec::with_capacity(alloc, texts.len())?;
    let mut idle = passes.split_off(texts.len())?;
    let mut feeds = open_gates(alloc, &table, passes)?;
    let Ok(()) = run_feeds(rt, alloc, texts, batch, &mut feeds) else {
        return Err(Refused);
    };
    close_gates(feeds, &mut ended, &mut reports);
    ended.append(&mut idle)?;
    Ok((reports, table.settle(rt, ended)))
}

/// Returns a gate to the table for each pass.
fn open_gates<'a, const L: u32>(
    alloc: Global,
    table: &'a SharedRib<L>,
    passes: Vec<FeedPass>,
) -> Result<Vec<Feed<TableGate<'a, L>>>, AllocError>
    requires { All (λ p. p.table ≡ table.now) passes.items }
    ensures { IfOk result (λ feeds. feeds.items ≡ map (λ p. record { gate = p; report = None }) passes.items) }
{
    let mut feeds = Vec::with_capacity(alloc, passes.len())?;
    for pass in passes {
        feeds.push_reserved(Feed {
            gate: TableGate::new(table, pass),
            report: None,
        });
    }
    Ok(feeds)
}

/// Splits the feeds, which have all been run, into their passes and their reports.
fn close_gates<const L: u32>(
    feeds: Vec<Feed<TableGate<'_, L>>>,
    passes: &mut Vec<FeedPass>,
    reports: &mut Vec<Report>,
)
    requires ran { All (λ feed. IsSome feed.report) feeds.items }
    requires passes { (passes.old.items ≡ []) × (vec_len feeds ≤ vec_capacity passes.old) }
    requires reports { (reports.old.items ≡ []) × (vec_len feeds ≤ vec_capacity reports.old) }
    ensures passes { passes.new.items ≡ map (λ feed. feed.gate) feeds.entry.items }
    ensures reports { map Some reports.new.items ≡ map (λ feed. feed.report) feeds.entry.items }
{
    for feed in feeds {
        let Feed { gate, report } = feed;
        passes.push_reserved(gate.into_pass());
        let Some(report) = report else { unreachable!() };
        reports.push_reserved(report);
    }
}

/// Returns the status of a run with these reports.
fn status_of(reports: &[Report]) -> u8
    ensures { result ≡ reports_status reports.now }
{
    let refused = reports.iter().any(|report| report.has_refusal());
    let faulty = reports.iter().any(|report| report.has_fault());
    status_where(refused, faulty)
}
