//! Purges a feed's routes from a table that a forwarding table follows. After a purge, nothing says which routes it removed, so only a
//! rebuild follows it. Therefore few routes are withdrawn one by one before the purge, each followed by a renewal of its prefix. The
//! purge then removes nothing.
ghost use Rattle.std.specs.Prelude.{◌≡◌, IfOk, IfSome};
ghost use Rattle.rt_rib.specs.Table.{purge};
ghost use Rattle.rt_rib.specs.Book.{IsFeed};

use crate::fib::Fib;
use crate::laws::commands_preserve_other_routes;
use crate::spans::span_of;
use rt_cidr::Prefix;
use rt_rib::{Cmd, Refused, Table};
use std::alloc::Allocator;

/// Says how many entries the withdrawn prefixes may have in total: a quarter of all entries.
const MOST_ENTRIES: usize = 1 << 22;

/// Returns the prefixes of the feed's routes, `count` of them, or `None` if there are none, a rebuild takes less time than their
/// renewals, or memory runs out. No clause mentions them: the purge removes each route that isn't withdrawn.
pub(crate) fn prefixes_to_withdraw<A: Allocator + Copy, B: Allocator + Copy>(
    alloc: A,
    table: &Table<B>,
    feed: u32,
    count: u32,
) -> Option<Vec<Prefix, A>> {
    // As many renewals of a few entries take less time than a rebuild.
    let most = (table.len() / 16).saturating_add(1 << 13);
    if count == 0 || count > most {
        return None;
    }
    let prefixes = table.likely_prefixes(alloc, feed, count as usize).ok()?;
    let mut entries = 0usize;
    for prefix in &prefixes {
        let span = span_of(prefix);
        entries = entries.saturating_add((span.end - span.first) as usize);
    }
    (entries <= MOST_ENTRIES).then_some(prefixes)
}

/// Withdraws the feed's routes to the prefixes from the table, and follows. Error M1 (`Refused`) if memory runs out.
pub(crate) fn withdraw_each<A: Allocator + Copy, B: Allocator + Copy>(
    mut fib: Fib<A, B>,
    table: &mut Table<B>,
    feed: u32,
    prefixes: &[Prefix],
) -> Result<Fib<A, B>, Refused>
    requires feed { IsFeed feed }
    requires same { fib ≡ table.old.routes }
    ensures followed { IfOk result (λ fib. fib ≡ table.new.routes) }
    ensures limit { table.new.limit ≡ table.old.limit }
    ensures rest { purge feed table.new.routes ≡ purge feed table.old.routes }
{
    commands_preserve_other_routes();
    'each: for k in 0..prefixes.len() {
        let cmd = Cmd::Withdraw {
            prefix: prefixes[k],
        };
        table.holds();
        table.apply(feed, cmd)?;
        fib.follow(table, &cmd)?;
    }
    Ok(fib)
}

/// Purges the feed's remaining routes from the table, and follows. If there are none, all answers stay. Returns `None` if there is no
/// forwarding table, or memory runs out.
#[tactic(auto, using(rt_rib::proofs::Promised::purged_limit))]
pub(crate) fn purge_rest<A: Allocator + Copy, B: Allocator + Copy>(
    fib: Option<Fib<A, B>>,
    table: &mut Table<B>,
    feed: u32,
) -> Option<Fib<A, B>>
    requires feed { IsFeed feed }
    requires same { IfSome fib (λ fib. fib ≡ table.old.routes) }
    ensures limit { table.new.limit ≡ table.old.limit }
    ensures routes { table.new.routes ≡ purge feed table.old.routes }
    ensures followed { IfSome result (λ fib. fib ≡ table.new.routes) }
{
    let rest = table.count(feed);
    table.purge(feed);
    let fib = fib?;
    if rest == 0 {
        return Some(fib);
    }
    Fib::new(fib.allocator(), table).ok()
}
