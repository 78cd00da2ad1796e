//! Selecting routes of several tables: each table selects its own, and the lists are merged. Both halves of the tables do so
//! at the same time, if a thread can be created, and so do the pieces of two long lists.
ghost use Rattle.std.specs.Prelude.{◌≡◌, ◌≤◌, ◌/◌, length, map, take, drop, IfOk};
ghost use Rattle.std.specs.Thread.{IsSync};
ghost use Rattle.rt_rib.specs.Selection.{selected};
ghost use Rattle.rt_tables.specs.Unions.{union_of};
ghost use Rattle.rt_tables.specs.inside.Tables.{AreTables, asked_of, IsBeforeFilters};

use crate::pieces::merge_on_threads;
use rt_rib::{Refused, Route, Selection, Table, keep_best};
use std::alloc::Global;
use std::thread::{self, Threads};

/// Returns the selected routes of all tables. The selection must not filter the best routes by feeds or next hop: a
/// table's best route to a prefix may be worse than another table's, whichever of them the filters would keep.
#[cycle(selecting)]
pub(crate) fn select_from<R: Threads + Sync>(
    rt: &R,
    tables: &[Table<Global>],
    alloc: Global,
    asked: &Selection<'_>,
) -> Result<Vec<Route>, Refused>
    requires tables { AreTables (map (λ t. t.routes) tables.now) }
    requires asked { IsBeforeFilters asked.now }
    ensures { IfOk result (λ routes. routes.items ≡ selected asked.now (union_of (map (λ t. t.routes) tables.now))) }
{
    match tables {
        [] => Ok(Vec::new(alloc)),
        [table] => table.select(alloc, asked),
        _ => {
            let (first, second) = select_halves(rt, tables, alloc, asked)?;
            let mut routes = merge_on_threads(rt, alloc, first, second, tables.len())?;
            if asked.only_best {
                keep_best(&mut routes);
            }
            Ok(routes)
        }
    }
}

/// Returns what `select_from` selects in the first half of the tables, and in the second. Error M1 (`Refused`) if memory runs
/// out.
#[cycle(selecting)]
pub(crate) fn select_halves<R: Threads + Sync>(
    rt: &R,
    tables: &[Table<Global>],
    alloc: Global,
    asked: &Selection<'_>,
) -> Result<(Vec<Route>, Vec<Route>), Refused>
    requires several { 2 ≤ length tables.now }
    requires tables { AreTables (map (λ t. t.routes) tables.now) }
    requires asked { IsBeforeFilters asked.now }
    ensures first { IfOk result (λ halves. halves.0.items ≡ selected asked.now (union_of (map (λ t. t.routes) (take (length tables.now / 2) tables.now)))) }
    ensures second { IfOk result (λ halves. halves.1.items ≡ selected asked.now (union_of (map (λ t. t.routes) (drop (length tables.now / 2) tables.now)))) }
{
    let (some, others) = tables.split_at(tables.len() / 2);
    // A closure that borrows a slice tells what it returns; one that borrows a struct that borrows a slice doesn't.
    let (part, only_best) = (asked.part, asked.only_best);
    let (feeds, hop) = (asked.feeds, asked.hop);
    let (first, second) = thread::join(
        rt,
        || -> Result<Vec<Route>, Refused>
            requires { IsSync R.row × AreTables (map (λ t. t.routes) some.now) × IsBeforeFilters (asked_of part only_best feeds.now hop) }
            ensures { IfOk result (λ routes. routes.items ≡ selected (asked_of part only_best feeds.entry.now hop) (union_of (map (λ t. t.routes) some.entry.now))) }
        {
            select_from(
                rt,
                some,
                alloc,
                &Selection {
                    part,
                    only_best,
                    feeds,
                    hop,
                },
            )
        },
        || -> Result<Vec<Route>, Refused>
            requires { IsSync R.row × AreTables (map (λ t. t.routes) others.now) × IsBeforeFilters (asked_of part only_best feeds.now hop) }
            ensures { IfOk result (λ routes. routes.items ≡ selected (asked_of part only_best feeds.entry.now hop) (union_of (map (λ t. t.routes) others.entry.now))) }
        {
            select_from(
                rt,
                others,
                alloc,
                &Selection {
                    part,
                    only_best,
                    feeds,
                    hop,
                },
            )
        },
    );
    Ok((first?, second?))
}
