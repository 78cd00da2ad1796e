//! `rt_shared`: two feeds change the same table, each with a batch, which is contiguous in the journal.
ghost use Rattle.std.specs.Prelude.{◌≡◌, List, IfOk};
ghost use Rattle.rt_shared.specs.declared.outcome.Outcome.{Outcome};
ghost use Rattle.rt_shared.specs.JournalVisits.{CommitsBatch};
ghost use Rattle.walkthrough.specs.Shared.{AreBothUnseen, AreRoutesOfBoth};

use rt_rib::{Cmd, Route};
use rt_shared::laws::visits;
use rt_shared::{FeedPass, Refused, SharedRib};
use std::alloc::Global;
use std::sync::Wait;

/// The maximum number of routes of a feed here.
pub(crate) const LIMIT: u32 = 10;

/// Returns a table of two feeds, and the pass of each.
pub(crate) fn table_of_two(alloc: Global) -> Result<(SharedRib<1>, FeedPass, FeedPass), Refused>
    ensures { IfOk result (λ made. (made.0.limit ≡ LIMIT) × AreBothUnseen made.0 made.1 made.2) }
{
    let (table, mut passes) = SharedRib::<1>::new(alloc, LIMIT)?;
    let Some(second) = passes.pop() else {
        return Err(Refused);
    };
    let Some(first) = passes.pop() else {
        return Err(Refused);
    };
    Ok((table, first, second))
}

/// Executes the commands in one critical section, so that no other feed's come in between, and returns the pass.
pub(crate) fn ask<R: Wait>(
    rt: &R,
    alloc: Global,
    table: &SharedRib<1>,
    pass: FeedPass,
    cmds: &[Cmd],
) -> Result<FeedPass, Refused>
    requires { pass.table ≡ table.now }
    ensures table { IfOk result (λ after. after.table ≡ pass.table) }
    ensures feed { IfOk result (λ after. after.feed ≡ pass.feed) }
    ensures visit { IfOk result (λ after. (outcomes : List Outcome) × CommitsBatch table.now.limit pass.feed pass.seen cmds.now outcomes after.seen) }
{
    let mut pass = pass;
    let mut outcomes = Vec::new(alloc);
    table.apply_batch(rt, &mut pass, cmds, &mut outcomes)?;
    Ok(pass)
}

/// Returns the routes after two feeds have executed these commands, each in one batch. A program gives each feed a
/// thread with a reference to the table and the feed's pass; the clause is then the same, whichever comes first.
pub fn routes_of_both<R: Wait>(
    rt: &R,
    alloc: Global,
    first: &[Cmd],
    second: &[Cmd],
) -> Result<Vec<Route>, Refused>
    ensures { IfOk result (λ routes. AreRoutesOfBoth LIMIT first.now second.now routes.items) }
{
    let (table, one, two) = table_of_two(alloc)?;
    let one = ask(rt, alloc, &table, one, first)?;
    let two = ask(rt, alloc, &table, two, second)?;
    let passes = vec![in alloc; one, two]?;
    // Makes known that a feed's batch stays contiguous, whatever the other feed does.
    visits();
    table.settle(rt, passes).routes(alloc)
}
