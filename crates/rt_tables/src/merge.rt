//! Merging two lists of routes, in the order of a dump or of the matches of an address.
ghost use Rattle.std.specs.Prelude.{◌≡◌, IfOk, OnOk, ◌++◌};
ghost use Rattle.rt_rib.specs.Table.{precedes};
ghost use Rattle.rt_tables.specs.inside.Merging.{goes_before, merged};

use rt_rib::{Refused, Route};
use std::alloc::Allocator;

/// The order of two lists.
#[derive(Clone, Copy)]
pub(crate) enum ListOrder {
    /// Dump order: by base, then length, then preference, then feed.
    Dump,
    /// The order of the matches of an address: by decreasing length, then preference, then feed.
    Matches,
}

/// Returns true if `a` precedes `b` in dump order.
pub(crate) fn precedes(a: &Route, b: &Route) -> bool
    ensures { result ≡ precedes a.now b.now }
{
    let (base, other_base) = (a.prefix.base(), b.prefix.base());
    let (len, other_len) = (a.prefix.len(), b.prefix.len());
    base < other_base
        || base == other_base && (len < other_len || len == other_len && a.beats(b).is_some())
}

/// Returns true if `a` comes before `b` in this order.
fn goes_before(order: ListOrder, a: &Route, b: &Route) -> bool
    ensures { result ≡ goes_before order a.now b.now }
{
    match order {
        ListOrder::Dump => precedes(a, b),
        ListOrder::Matches => a.beats(b).is_some(),
    }
}

/// Merges two lists that are in this order. If one is empty, it returns the other as it is; else it allocates room for the
/// routes of both at once. Frees the lists. Error M1 (`Refused`) if memory runs out.
pub(crate) fn merge<A: Allocator + Copy>(
    order: ListOrder,
    alloc: A,
    first: Vec<Route, A>,
    second: Vec<Route, A>,
) -> Result<Vec<Route, A>, Refused>
    ensures { IfOk result (λ routes. routes.items ≡ merged (goes_before order) first.items second.items) }
{
    if second.is_empty() {
        return Ok(first);
    }
    if first.is_empty() {
        return Ok(second);
    }
    let mut routes = Vec::with_capacity(alloc, first.len().saturating_add(second.len()))?;
    append_merged(order, &first, &second, &mut routes)?;
    Ok(routes)
}

/// Appends the routes of both lists, which are in this order.
pub(crate) fn append_merged<A: Allocator + Copy>(
    order: ListOrder,
    first: &[Route],
    second: &[Route],
    routes: &mut Vec<Route, A>,
) -> Result<(), Refused>
    ensures { OnOk result (routes.new.items ≡ routes.old.items ++ merged (goes_before order) first.now second.now) }
{
    let (mut i, mut j) = (0, 0);
    while i < first.len() && j < second.len() {
        if goes_before(order, &second[j], &first[i]) {
            routes.push(second[j])?;
            j += 1;
        } else {
            routes.push(first[i])?;
            i += 1;
        }
    }
    routes.extend_from_slice(&first[i..])?;
    routes.extend_from_slice(&second[j..])?;
    Ok(())
}
