//! Runs on several threads: each executes a share of the texts over a table of its own.
ghost use Rattle.std.specs.Prelude.{◌≡◌, ◌≢◌, ◌↔◌, ◌<◌, ◌≤◌, [], ℕ, length, vec_len, map, All, IfOk};
ghost use Rattle.rt_rib.specs.declared.limits.TheConstants.{MAX_FEEDS};
ghost use Rattle.rt_run.specs.RunText.{RunContents, in_batches};
ghost use Rattle.rt_run.specs.Shares.{AreShares, AreTalliesOfShares};
ghost use Rattle.rt_run.specs.TableText.{IsGivenBack};
ghost use Rattle.rt_run.specs.inside.Runs.{LeavesInAnyBatches, EndsPart, EndEachPart, AreOfRuns, AreTalliesOfEach, IsGivenBackByShares};

use crate::dealing::{deal, used_texts};
use crate::input::{RunInput, share_with};
use crate::laws;
use crate::parts::{put_back, take_parts};
use crate::tallies::RejectedInput;
use crate::turns::execute_texts;
use rt_feed::RunFault;
use rt_rib::Table;
use rt_rib::laws::table_by_entry;
use rt_tables::TableUnion;
use rt_tables::laws::{union_has_their_routes, union_is_table};
use std::alloc::{AllocError, Global};
use std::thread;
use std::thread::Threads;

/// The table that a part of the texts leaves, a tally for each text of the run, and the part afterwards; or an error: memory ran
/// out.
type PartRun = Result<(Table<Global>, Vec<RejectedInput>, RunInput), AllocError>;

/// Executes the texts on up to `threads` threads, but at most one for each text that isn't empty: each thread has a share of
/// the texts and a table of its own. If no thread can be created, the caller's executes one share after another. Returns the
/// union of the tables, which one run of all texts could have left, and the tally of each text. Gives back the memory of each
/// text once it is executed, unless it has a faulty line. Callers leak the tables. Errors: F1 if there is no text; F3 if memory
/// ran out outside of a command; some texts may be empty then.
pub(crate) fn run_on_threads<R: Threads + Sync>(
    rt: &R,
    alloc: Global,
    input: &mut RunInput,
    threads: usize,
) -> Result<(TableUnion<Global>, Vec<RejectedInput>), RunFault>
    ensures ran { IfOk result (λ run. LeavesInAnyBatches input.old run.0 run.1.items) }
    ensures given_back { IfOk result (λ run. IsGivenBack input.old run.1.items input.new) }
    ensures tallies { IfOk result (λ run. vec_len run.1 ≡ length input.old.texts) }
    ensures refused { result ≢ Err RunFault.FeedCount }
    ensures no_text { (result ≡ Err RunFault.NoText) ↔ (input.old.texts ≡ []) }
{
    if input.count() == 0 {
        return Err(RunFault::NoText);
    }
    let shares = threads.min(used_texts(input)).max(1);
    let Ok(dealt) = deal(alloc, input, shares) else {
        return Err(RunFault::Memory);
    };
    let Ok(run) = run_shares(rt, alloc, input, &dealt, shares) else {
        return Err(RunFault::Memory);
    };
    Ok(run)
}

/// Executes the texts in shares, each on a thread of its own if one can be created: `dealt` has the share of each text, in
/// order. Returns the union of the tables and the tally of each text. Its error: memory ran out outside of a command.
fn run_shares<R: Threads + Sync>(
    rt: &R,
    alloc: Global,
    input: &mut RunInput,
    dealt: &[usize],
    shares: usize,
) -> Result<(TableUnion<Global>, Vec<RejectedInput>), AllocError>
    requires some { 1 ≤ shares }
    requires few { shares ≤ MAX_FEEDS }
    requires dealt { All (λ share. share < shares) dealt.now }
    ensures ran { IfOk result (λ run. LeavesInAnyBatches input.old run.0 run.1.items) }
    ensures given_back { IfOk result (λ run. IsGivenBack input.old run.1.items input.new) }
    ensures tallies { IfOk result (λ run. vec_len run.1 ≡ length input.old.texts) }
{
    let count = input.count();
    let (tables, told) = execute_shares(rt, alloc, input, dealt, shares)?;
    let tallies = tallies_of(alloc, count, dealt, &told)?;
    laws::shares();
    table_by_entry();
    union_is_table();
    union_has_their_routes();
    Ok((TableUnion::new(tables), tallies))
}

/// Executes each share, on a thread of its own if one can be created. Returns the table and the tallies of each, in order.
/// Its error: memory ran out outside of a command.
fn execute_shares<R: Threads + Sync>(
    rt: &R,
    alloc: Global,
    input: &mut RunInput,
    dealt: &[usize],
    shares: usize,
) -> Result<(Vec<Table<Global>>, Vec<Vec<RejectedInput>>), AllocError>
    requires some { 1 ≤ shares }
    requires dealt { All (λ share. share < shares) dealt.now }
    ensures shares { IfOk result (λ run. (batch : ℕ) → 1 ≤ batch → AreShares (in_batches batch input.old) dealt.now (map (λ table. table.routes) run.0.items) (map (λ tallies. tallies.items) run.1.items)) }
    ensures given_back { IfOk result (λ run. IsGivenBackByShares input.old dealt.now (map (λ tallies. tallies.items) run.1.items) input.new) }
    ensures tallies { IfOk result (λ run. AreTalliesOfEach (length input.old.texts) dealt.now (map (λ tallies. tallies.items) run.1.items)) }
    ensures count { IfOk result (λ run. length run.0.items ≡ shares) }
{
    let parts = take_parts(alloc, input, dealt, shares)?;
    let runs = run_each(rt, alloc, parts)?;
    let (tables, told, parts) = split_runs(alloc, runs)?;
    let mut parts = parts;
    put_back(input, dealt, &mut parts);
    Ok((tables, told))
}

/// Executes each part, on a thread of its own if one can be created. Returns the run of each, in order. Its error: there was no
/// memory for their list.
fn run_each<R: Threads + Sync>(
    rt: &R,
    alloc: Global,
    parts: Vec<RunInput>,
) -> Result<Vec<PartRun>, AllocError>
    ensures count { IfOk result (λ runs. length runs.items ≡ length parts.items) }
    ensures each { IfOk result (λ runs. EndEachPart parts.items runs.items) }
{
    thread::map_vec(
        rt,
        parts,
        &|part: RunInput| -> PartRun
            ensures { EndsPart part result }
        { run_part(alloc, part) },
    )
}

/// Executes the texts of the part one after another.
fn run_part(alloc: Global, part: RunInput) -> PartRun
    ensures { EndsPart part result }
{
    let mut part = part;
    let (table, tallies) = execute_texts(alloc, &mut part)?;
    Ok((table, tallies, part))
}

/// Splits the runs into their tables, their tallies and their parts. Its error: a run has an error, or memory ran out.
fn split_runs(
    alloc: Global,
    runs: Vec<PartRun>,
) -> Result<(Vec<Table<Global>>, Vec<Vec<RejectedInput>>, Vec<RunInput>), AllocError>
    ensures { IfOk result (λ split. AreOfRuns runs.items (map (λ table. table.routes) split.0.items) (map (λ tallies. tallies.items) split.1.items) split.2.items) }
{
    let mut tables = Vec::with_capacity(alloc, runs.len())?;
    let mut told = Vec::with_capacity(alloc, runs.len())?;
    let mut parts = Vec::with_capacity(alloc, runs.len())?;
    for run in runs {
        let (table, tallies, part) = run?;
        tables.push_reserved(table);
        told.push_reserved(tallies);
        parts.push_reserved(part);
    }
    Ok((tables, told, parts))
}

/// Returns the tally of each of this number of texts: the one that the run of its share has for it. Its error: memory ran out.
fn tallies_of(
    alloc: Global,
    count: usize,
    dealt: &[usize],
    told: &[Vec<RejectedInput>],
) -> Result<Vec<RejectedInput>, AllocError>
    requires { AreTalliesOfEach count dealt.now (map (λ tallies. tallies.items) told.now) }
    ensures { IfOk result (λ all. (asked : RunContents) → length asked.texts ≡ count → AreTalliesOfShares asked dealt.now (map (λ tallies. tallies.items) told.now) all.items) }
{
    let mut all = Vec::with_capacity(alloc, count)?;
    for index in 0..count {
        all.push_reserved(told[share_with(dealt, index)][index]);
    }
    Ok(all)
}
