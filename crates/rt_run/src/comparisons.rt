//! Comparisons of two runs: the addresses for which their final tables give different answers.
ghost use Rattle.std.specs.Prelude.{◌≡◌, ◌≢◌, ◌↔◌, ◌⊎◌, ◌≤◌, ℕ, max, [], length, drop, IfOk};
ghost use Rattle.rt_run.specs.RunText.{WritesOrFails, in_batches};
ghost use Rattle.rt_run.specs.TableText.{tallies_status, IsGivenBack};
ghost use Rattle.rt_run.specs.DiffText.{differ_status, IsComparison, IsDiffText, IsCountText};

use crate::faults::AppFault;
use crate::input::RunInput;
use crate::output::{write_differences, write_numbers};
use crate::rendering::Workers;
use crate::sides::run_both;
use crate::status::Status;
use crate::tallies::{RejectedInput, RunSummary, tallies_status};
use rt_diff::Difference;
use rt_feed::RunFault;
use rt_print::{DiffOptions, OutputRoom, count_changes};
use std::alloc::Global;
use std::io::Write;
use std::mem;
use std::thread::Threads;

/// Executes the old texts and the new ones at the same time, if a thread can be created: both sides share up to `threads`
/// threads, and each has at least one. Then compares both sides' tables on several threads, if `threads` is more than one, and
/// writes to `w` each range of addresses for which the two tables give different answers, in ascending order and with the
/// given options: a line `FIRST-LAST OLD -> NEW`, a line `PREFIX OLD -> NEW` for each prefix of the range, or a JSON object
/// instead of a line (`write_difference`). Before them it writes the header, which only CSV has (`DiffOptions::header`). Writes
/// nothing else; hence if nothing is written but the header, both tables give the same answer for every address. All ranges
/// are stored before the first is written. Returns the summary if everything was written. Its errors are those of `run_texts`:
/// F1 if there is no old text or no new text; F3 also if there is no memory for the ranges or the tallies. Gives back the
/// memory of each text once it is executed, unless it has a faulty line; after an error some texts may be empty. Leaks the
/// tables, as `run_texts` does.
pub fn diff_texts<R: Threads + Sync, W: Write>(
    rt: &R,
    alloc: Global,
    threads: usize,
    old_input: &mut RunInput,
    new_input: &mut RunInput,
    options: &DiffOptions,
    w: &mut W,
) -> Result<RunSummary, AppFault>
    ensures text { (old_batch new_batch : ℕ) → 1 ≤ old_batch → 1 ≤ new_batch
        → WritesOrFails (IsDiffText options.now (in_batches old_batch old_input.old) (in_batches new_batch new_input.old)) (W.contents w.old) (W.contents w.new) result }
    ensures old_given_back { IfOk result (λ given. IsGivenBack old_input.old given.tallies.items old_input.new) }
    ensures new_given_back { IfOk result (λ given. IsGivenBack new_input.old (drop (length old_input.old.texts) given.tallies.items) new_input.new) }
    ensures no_text { (result ≡ Err (AppFault.Run RunFault.NoText)) ↔ ((old_input.old.texts ≡ []) ⊎ (new_input.old.texts ≡ [])) }
{
    let workers = Workers { rt, alloc, threads };
    let (differences, given) = compare(&workers, old_input, new_input, options)?;
    let room = OutputRoom::new(alloc)?;
    write_differences(&workers, w, room, options, differences.as_slice(), given)
}

/// Does the same as `diff_texts`, but instead of the ranges it writes their number and that of their addresses: of all, of each
/// kind of change, and of each pair of next hops (`write_change_counts`). Its errors are those of `diff_texts`; F3 also if there
/// is no memory for the counts.
pub fn count_diff_texts<R: Threads + Sync, W: Write>(
    rt: &R,
    alloc: Global,
    threads: usize,
    old_input: &mut RunInput,
    new_input: &mut RunInput,
    options: &DiffOptions,
    w: &mut W,
) -> Result<RunSummary, AppFault>
    ensures text { (old_batch new_batch : ℕ) → 1 ≤ old_batch → 1 ≤ new_batch
        → WritesOrFails (IsCountText options.now (in_batches old_batch old_input.old) (in_batches new_batch new_input.old)) (W.contents w.old) (W.contents w.new) result }
    ensures old_given_back { IfOk result (λ given. IsGivenBack old_input.old given.tallies.items old_input.new) }
    ensures new_given_back { IfOk result (λ given. IsGivenBack new_input.old (drop (length old_input.old.texts) given.tallies.items) new_input.new) }
    ensures no_text { (result ≡ Err (AppFault.Run RunFault.NoText)) ↔ ((old_input.old.texts ≡ []) ⊎ (new_input.old.texts ≡ [])) }
{
    let workers = Workers { rt, alloc, threads };
    let (differences, given) = compare(&workers, old_input, new_input, options)?;
    let counts = count_changes(alloc, differences.as_slice())?;
    let room = OutputRoom::new(alloc)?;
    write_numbers(w, room, options, counts.as_slice(), given)
}

/// Executes both sides and compares their tables, as `diff_texts` does. Returns all ranges of addresses for which the tables
/// give different answers, in ascending order, and the summary. Errors: F1 if there is no old text or no new text; F3 if memory
/// ran out outside of a command. Leaks the tables.
fn compare<R: Threads + Sync>(
    workers: &Workers<'_, R>,
    old_input: &mut RunInput,
    new_input: &mut RunInput,
    options: &DiffOptions,
) -> Result<(Vec<Difference>, RunSummary), RunFault>
    ensures compared { IfOk result (λ found. (old_batch new_batch : ℕ) → 1 ≤ old_batch → 1 ≤ new_batch
        → IsComparison options.now (in_batches old_batch old_input.old) (in_batches new_batch new_input.old) (λ list. list ≡ found.0.items) found.1) }
    ensures old_given_back { IfOk result (λ found. IsGivenBack old_input.old found.1.tallies.items old_input.new) }
    ensures new_given_back { IfOk result (λ found. IsGivenBack new_input.old (drop (length old_input.old.texts) found.1.tallies.items) new_input.new) }
    ensures refused { result ≢ Err RunFault.FeedCount }
    ensures no_text { (result ≡ Err RunFault.NoText) ↔ ((old_input.old.texts ≡ []) ⊎ (new_input.old.texts ≡ [])) }
{
    let Workers { rt, alloc, threads } = *workers;
    let (old_tables, new_tables, tallies) = run_both(rt, alloc, threads, old_input, new_input)?;
    let tables = options.compared_tables(&old_tables, &new_tables);
    let Ok(differences) = tables.differences(rt, alloc, threads) else {
        return Err(RunFault::Memory);
    };
    mem::forget((old_tables, new_tables));
    let status = status_with(tallies.as_slice(), differences.as_slice());
    Ok((differences, RunSummary { status, tallies }))
}

/// Returns the status, from the tallies of both runs and all differences between their tables.
fn status_with(tallies: &[RejectedInput], differences: &[Difference]) -> u8
    ensures { result ≡ max (differ_status differences.now) (tallies_status tallies.now) }
{
    let differ = match differences {
        [] => Status::Done as u8,
        _ => Status::Differ as u8,
    };
    differ.max(tallies_status(tallies))
}
