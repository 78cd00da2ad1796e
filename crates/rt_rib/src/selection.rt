//! Selecting routes of a table: each part of its prefixes is found by a single descent.
ghost use Rattle.std.specs.Prelude.{◌≡◌, filter, if◌then◌else◌, IfOk};
ghost use Rattle.rt_rib.specs.Maps.{routes_of};
ghost use Rattle.rt_rib.specs.LookUp.{best_routes};
ghost use Rattle.rt_rib.specs.Selection.{is_in, is_by, is_via};
ghost use Rattle.rt_rib.specs.Table.{IsTable};
ghost use Rattle.rt_cidr.specs.Prefix.{contains, same_prefix};

use crate::map::{OfferMap, append, routes};
use crate::refused::Refused;
use crate::routes::{Hop, Route, keep_best};
use rt_cidr::Prefix;
use std::alloc::Allocator;

/// A part of a table's prefixes.
#[derive(Clone, Copy, PartialEq, Eq, Debug)]
pub enum PrefixFilter {
    /// All prefixes.
    All,
    /// This prefix and all longer ones in it.
    Within(Prefix),
    /// This prefix and all shorter ones that contain it.
    Covering(Prefix),
    /// Only this prefix.
    Exact(Prefix),
}

/// The routes of a table to select.
#[derive(Clone, Copy, PartialEq, Eq, Debug)]
pub struct Selection<'a> {
    /// Routes to these prefixes.
    pub part: PrefixFilter,
    /// If true, only the best route of each prefix.
    pub only_best: bool,
    /// Routes of these feeds, or of any if there are none: with `only_best`, those best routes that are theirs.
    pub feeds: &'a [u32],
    /// Routes with this next hop, or with any: with `only_best`, those best routes that use it.
    pub hop: Option<Hop>,
}

/// Returns the routes to the prefixes in the part, in dump order. The whole map has `count` routes.
pub(crate) fn routes_in<A: Allocator + Copy>(
    map: &OfferMap<A>,
    alloc: A,
    count: usize,
    part: PrefixFilter,
) -> Result<Vec<Route, A>, Refused>
    ensures { IfOk result (λ routes. routes.items ≡ filter (λ r. is_in part r.prefix) (routes_of map.now.pairs)) }
{
    match part {
        PrefixFilter::All => map.routes(alloc, count),
        PrefixFilter::Within(prefix) => routes(map.trie.within(prefix), alloc, 0),
        PrefixFilter::Covering(prefix) => routes_covering(map, alloc, prefix),
        PrefixFilter::Exact(prefix) => routes_to(map, alloc, prefix),
    }
}

/// Returns the routes to the prefix and to the shorter ones that contain it.
fn routes_covering<A: Allocator + Copy>(
    map: &OfferMap<A>,
    alloc: A,
    prefix: Prefix,
) -> Result<Vec<Route, A>, Refused>
    ensures { IfOk result (λ routes. routes.items ≡ filter (λ r. contains r.prefix prefix) (routes_of map.now.pairs)) }
{
    let mut routes = Vec::new(alloc);
    for (stored, offers) in map.trie.containing(prefix) {
        append(&mut routes, stored, offers.as_slice())?;
    }
    Ok(routes)
}

/// Returns the routes to the prefix.
fn routes_to<A: Allocator + Copy>(
    map: &OfferMap<A>,
    alloc: A,
    prefix: Prefix,
) -> Result<Vec<Route, A>, Refused>
    ensures { IfOk result (λ routes. routes.items ≡ filter (λ r. same_prefix r.prefix prefix) (routes_of map.now.pairs)) }
{
    let mut routes = Vec::new(alloc);
    match map.trie.get(prefix) {
        None => {}
        Some(offers) => append(&mut routes, prefix, offers.as_slice())?,
    }
    Ok(routes)
}

/// Keeps the selected routes, out of those of a part. The order is unchanged. Doesn't allocate.
pub(crate) fn keep_selected<A: Allocator>(routes: &mut Vec<Route, A>, asked: &Selection<'_>)
    requires { IsTable routes.old.items }
    ensures { routes.new.items ≡ filter (is_via asked.now.hop) (filter (is_by asked.now.feeds.now)
        (if asked.now.only_best then best_routes routes.old.items else routes.old.items)) }
{
    if asked.only_best {
        keep_best(routes);
    }
    keep_feeds(routes, asked.feeds);
    keep_hop(routes, asked.hop);
}

/// Keeps the routes of the feeds; all routes if there are no feeds. The order is unchanged. Doesn't allocate.
pub fn keep_feeds<A: Allocator>(routes: &mut Vec<Route, A>, feeds: &[u32])
    ensures { routes.new.items ≡ filter (is_by feeds.now) routes.old.items }
{
    if !feeds.is_empty() {
        routes.retain(|route| feeds.contains(&route.feed));
    }
}

/// Keeps the routes with the next hop; all routes if there is no next hop. The order is unchanged. Doesn't allocate.
pub fn keep_hop<A: Allocator>(routes: &mut Vec<Route, A>, hop: Option<Hop>)
    ensures { routes.new.items ≡ filter (is_via hop) routes.old.items }
{
    if let Some(hop) = hop {
        routes.retain(|route| route.hop == hop);
    }
}
