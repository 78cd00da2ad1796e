//! How many best routes use each next hop.
ghost use Rattle.std.specs.Prelude.{◌≡◌, ◌-◌, ◌^◌, ◌<◌, length, sum_by, IfOk, OnOk};
ghost use Rattle.rt_rib.specs.declared.hop_counts.HopCount.{HopCount as Count};
ghost use Rattle.rt_rib.specs.HopCounts.{hop_position, AreHopCounts};
ghost use Rattle.rt_rib.specs.Maps.{routes_of};
ghost use Rattle.rt_rib.specs.inside.HopMaps.{AreKeyed, total_routes, CountsOneMore};

use crate::map::OfferMap;
use crate::refused::Refused;
use crate::routes::Hop;
use std::alloc::Allocator;
use std::collections::BTreeMap;

/// The number of best routes that use a next hop.
#[derive(Clone, Copy, PartialEq, Eq, Debug)]
pub struct HopCount {
    /// The next hop.
    pub hop: Hop,
    /// The number of the best routes that use it.
    pub routes: u32,
}

/// Returns how many best routes of the map use each next hop: first `Discard`, then the routers by their addresses.
pub(crate) fn hop_counts<A: Allocator + Copy>(
    map: &OfferMap<A>,
    alloc: A,
) -> Result<Vec<HopCount, A>, Refused>
    requires few { length map.now.pairs < 2 ^ 32 }
    ensures counts { IfOk result (λ counts. AreHopCounts (routes_of map.now.pairs) counts.items) }
    ensures all { IfOk result (λ counts. sum_by (λ (c : Count). c.routes) counts.items ≡ length map.now.pairs) }
{
    let mut counts = BTreeMap::new(alloc);
    for (_, offers) in map.trie.walk() {
        count_one(&mut counts, offers.as_slice()[0].hop)?;
    }
    Ok(counts.values().copied().collect(alloc)?)
}

/// Adds a best route to the count of its next hop.
fn count_one<A: Allocator + Copy>(
    counts: &mut BTreeMap<u64, HopCount, A>,
    hop: Hop,
) -> Result<(), Refused>
    requires keyed { AreKeyed counts.old.entries }
    requires few { total_routes counts.old.entries < 2 ^ 32 - 1 }
    ensures { OnOk result (CountsOneMore hop counts.old.entries counts.new.entries) }
{
    let position = hop_position(hop);
    let routes = match counts.get(&position) {
        Some(count) => count.routes,
        None => 0,
    };
    let count = HopCount {
        hop,
        routes: routes + 1,
    };
    counts.insert(position, count)?;
    Ok(())
}

/// Returns the position of a next hop in the order of counts.
fn hop_position(hop: Hop) -> u64
    ensures { result ≡ hop_position hop }
{
    match hop {
        Hop::Discard => 0,
        Hop::Via(address) => u64::from(address.0) + 1,
    }
}
