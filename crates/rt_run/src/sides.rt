//! Both sides of a comparison, executed at the same time.
ghost use Rattle.std.specs.Prelude.{◌≡◌, ◌≢◌, ◌↔◌, ◌⊎◌, ◌≤◌, ℕ, [], length, drop, IfOk};
ghost use Rattle.std.specs.Thread.{IsSync};
ghost use Rattle.rt_run.specs.RunText.{in_batches};
ghost use Rattle.rt_run.specs.TableText.{IsGivenBack};
ghost use Rattle.rt_run.specs.inside.Runs.{EndsSide, LeavesBoth};

use crate::dealing::bytes_of;
use crate::input::RunInput;
use crate::parallel::run_on_threads;
use crate::tallies::RejectedInput;
use rt_feed::RunFault;
use rt_tables::TableUnion;
use std::alloc::Global;
use std::thread;
use std::thread::Threads;

/// The union of the tables that the threads of a side leave and the tally of each text, or the reason why there is none.
type SideRun = Result<(TableUnion<Global>, Vec<RejectedInput>), RunFault>;

/// The number of threads that execute each side.
#[derive(Clone, Copy)]
struct SideThreads {
    old: usize,
    new: usize,
}

/// Executes the old texts and the new ones at the same time, each side over tables of its own, as `run_on_threads` does: the
/// sides share the `threads` threads, but each has at least one. If there is one, or if no thread can be created, executes one
/// side after the other. Returns the union of the tables of the old texts, that of the new ones, and the tallies of the old
/// texts and then of the new ones. Callers leak the tables. Errors: F1 if there is no old text or no new text; F3 if memory ran
/// out outside of a command.
pub(crate) fn run_both<R: Threads + Sync>(
    rt: &R,
    alloc: Global,
    threads: usize,
    old_input: &mut RunInput,
    new_input: &mut RunInput,
) -> Result<(TableUnion<Global>, TableUnion<Global>, Vec<RejectedInput>), RunFault>
    ensures ran { IfOk result (λ both. (old_batch new_batch : ℕ) → 1 ≤ old_batch → 1 ≤ new_batch
        → LeavesBoth (in_batches old_batch old_input.old) (in_batches new_batch new_input.old) both.0 both.1 both.2.items) }
    ensures old_given_back { IfOk result (λ both. IsGivenBack old_input.old both.2.items old_input.new) }
    ensures new_given_back { IfOk result (λ both. IsGivenBack new_input.old (drop (length old_input.old.texts) both.2.items) new_input.new) }
    ensures refused { result ≢ Err RunFault.FeedCount }
    ensures no_text { (result ≡ Err RunFault.NoText) ↔ ((old_input.old.texts ≡ []) ⊎ (new_input.old.texts ≡ [])) }
{
    if old_input.count() == 0 || new_input.count() == 0 {
        return Err(RunFault::NoText);
    }
    let (old_run, new_run) = run_sides(rt, alloc, threads, old_input, new_input);
    let (old_tables, mut tallies) = old_run?;
    let (new_tables, mut new_tallies) = new_run?;
    let Ok(()) = tallies.append(&mut new_tallies) else {
        return Err(RunFault::Memory);
    };
    Ok((old_tables, new_tables, tallies))
}

/// Executes the old texts and the new ones, as `run_both` does. Returns the run of each side.
fn run_sides<R: Threads + Sync>(
    rt: &R,
    alloc: Global,
    threads: usize,
    old_input: &mut RunInput,
    new_input: &mut RunInput,
) -> (SideRun, SideRun)
    ensures old { EndsSide old_input.old result.0 old_input.new }
    ensures new { EndsSide new_input.old result.1 new_input.new }
{
    if threads < 2 {
        let old_run = run_on_threads(rt, alloc, old_input, 1);
        let new_run = run_on_threads(rt, alloc, new_input, 1);
        return (old_run, new_run);
    }
    let shared = shared_threads(threads, bytes_of(old_input), bytes_of(new_input));
    run_at_once(rt, alloc, shared, old_input, new_input)
}

/// Executes both sides at the same time, each on its own threads, if they can be created. Returns the run of each side.
fn run_at_once<R: Threads + Sync>(
    rt: &R,
    alloc: Global,
    threads: SideThreads,
    old_input: &mut RunInput,
    new_input: &mut RunInput,
) -> (SideRun, SideRun)
    ensures old { EndsSide old_input.old result.0 old_input.new }
    ensures new { EndsSide new_input.old result.1 new_input.new }
{
    let SideThreads { old, new } = threads;
    thread::join_mut(
        rt,
        &mut || -> SideRun
            requires { IsSync R.row }
            ensures { EndsSide old_input.entry.now result old_input.exit.now }
        { run_on_threads(rt, alloc, old_input, old) },
        &mut || -> SideRun
            requires { IsSync R.row }
            ensures { EndsSide new_input.entry.now result new_input.exit.now }
        { run_on_threads(rt, alloc, new_input, new) },
    )
}

/// Returns the number of threads that execute each side: in proportion to the bytes of its texts, and at least one.
fn shared_threads(threads: usize, old_bytes: usize, new_bytes: usize) -> SideThreads {
    let bytes_per_thread = (old_bytes.saturating_add(new_bytes) / threads.max(1)).max(1);
    let old = old_bytes.saturating_add(bytes_per_thread / 2) / bytes_per_thread;
    let old = old.min(threads.saturating_sub(1)).max(1);
    let new = threads.saturating_sub(old).max(1);
    SideThreads { old, new }
}
