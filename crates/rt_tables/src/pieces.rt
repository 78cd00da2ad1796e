//! Merging two long lists of routes in dump order: both are cut at one place, and several threads merge the pieces.
ghost use Rattle.std.specs.Prelude.{◌≡◌, ◌+◌, ◌<◌, ◌≤◌, ◌++◌, IfOk, length, take, drop};
ghost use Rattle.std.specs.List.{flat_map};
ghost use Rattle.std.specs.Thread.{IsSync};
ghost use Rattle.rt_rib.specs.Table.{precedes};
ghost use Rattle.rt_tables.specs.inside.Merging.{merged, AreInDumpOrder};

use crate::merge::{ListOrder, append_merged, merge, precedes};
use rt_rib::{Refused, Route};
use std::alloc::Global;
use std::thread::{self, Threads};

/// Two lists that have fewer routes together are merged in one piece: the time to create a thread would be too large a part
/// of what it saves.
const LEAST_ROUTES: usize = 1 << 18;

/// Merges two lists that are in dump order, in up to this number of pieces: each on its own thread, if one can be created. If
/// a list is empty, it returns the other as it is. Frees the lists. Error M1 (`Refused`) if memory runs out.
pub(crate) fn merge_on_threads<R: Threads + Sync>(
    rt: &R,
    alloc: Global,
    first: Vec<Route>,
    second: Vec<Route>,
    pieces: usize,
) -> Result<Vec<Route>, Refused>
    requires first { AreInDumpOrder first.items }
    requires second { AreInDumpOrder second.items }
    ensures { IfOk result (λ routes. routes.items ≡ merged precedes first.items second.items) }
{
    if first.is_empty() || second.is_empty() {
        return merge(ListOrder::Dump, alloc, first, second);
    }
    let merged = merge_in_pieces(rt, alloc, &first, &second, pieces)?;
    joined(alloc, merged)
}

/// Merges two lists that are in dump order, in up to this number of pieces: each on its own thread, if one can be created.
/// Returns the list of each piece, in order. Error M1 (`Refused`) if memory runs out.
#[cycle(merge_in_pieces)]
pub(crate) fn merge_in_pieces<R: Threads + Sync>(
    rt: &R,
    alloc: Global,
    first: &[Route],
    second: &[Route],
    pieces: usize,
) -> Result<Vec<Vec<Route>>, Refused>
    requires first { AreInDumpOrder first.now }
    requires second { AreInDumpOrder second.now }
    ensures { IfOk result (λ lists. flat_map (λ list. list.items) lists.items ≡ merged precedes first.now second.now) }
{
    let count = first.len().saturating_add(second.len());
    if pieces < 2 || count < LEAST_ROUTES {
        let mut routes = Vec::with_capacity(alloc, count)?;
        append_merged(ListOrder::Dump, first, second, &mut routes)?;
        return only_piece(alloc, routes);
    }
    let (i, j) = cut(first, second);
    let (first, others) = first.split_at(i);
    let (second, more) = second.split_at(j);
    let (lists, rest) = thread::join(
        rt,
        || -> Result<Vec<Vec<Route>>, Refused>
            requires { IsSync R.row × AreInDumpOrder first.now × AreInDumpOrder second.now }
            ensures { IfOk result (λ lists. flat_map (λ list. list.items) lists.items ≡ merged precedes first.entry.now second.entry.now) }
        { merge_in_pieces(rt, alloc, first, second, pieces - pieces / 2) },
        || -> Result<Vec<Vec<Route>>, Refused>
            requires { IsSync R.row × AreInDumpOrder others.now × AreInDumpOrder more.now }
            ensures { IfOk result (λ lists. flat_map (λ list. list.items) lists.items ≡ merged precedes others.entry.now more.entry.now) }
        { merge_in_pieces(rt, alloc, others, more, pieces / 2) },
    );
    let mut lists = lists?;
    lists.append(&mut rest?)?;
    Ok(lists)
}

/// Returns the routes as the only piece. Error M1 (`Refused`) if memory runs out.
pub(crate) fn only_piece(alloc: Global, routes: Vec<Route>) -> Result<Vec<Vec<Route>>, Refused>
    ensures { IfOk result (λ lists. flat_map (λ list. list.items) lists.items ≡ routes.items) }
{
    let mut lists = Vec::with_capacity(alloc, 1)?;
    lists.push_reserved(routes);
    Ok(lists)
}

/// Returns the routes of the pieces as one list. The first piece's list takes those of the others. Error M1 (`Refused`) if
/// memory runs out.
fn joined(alloc: Global, pieces: Vec<Vec<Route>>) -> Result<Vec<Route>, Refused>
    ensures { IfOk result (λ routes. routes.items ≡ flat_map (λ list. list.items) pieces.items) }
{
    let mut routes = Vec::new(alloc);
    for mut piece in pieces {
        if routes.is_empty() {
            routes = piece;
        } else {
            routes.append(&mut piece)?;
        }
    }
    Ok(routes)
}

/// Returns where to cut two lists that are in dump order, so that every route before the cut comes before every route behind
/// it: in the middle of the longer list, and at the same place in the order in the other one.
fn cut(first: &[Route], second: &[Route]) -> (usize, usize)
    requires first { AreInDumpOrder first.now }
    requires second { AreInDumpOrder second.now }
    requires some { 0 < length first.now + length second.now }
    ensures first { result.0 ≤ length first.now }
    ensures second { result.1 ≤ length second.now }
    ensures parts { merged precedes first.now second.now ≡ merged precedes (take result.0 first.now) (take result.1 second.now) ++ merged precedes (drop result.0 first.now) (drop result.1 second.now) }
{
    if first.len() < second.len() {
        let middle = second.len() / 2;
        let there = second[middle];
        (
            first.partition_point(|route| !precedes(&there, route)),
            middle,
        )
    } else {
        let middle = first.len() / 2;
        let there = first[middle];
        (
            middle,
            second.partition_point(|route| precedes(route, &there)),
        )
    }
}
