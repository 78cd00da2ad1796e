//! Look-ups in the map: of an address, of many addresses whose descents are done together, and of all matches of an
//! address.
ghost use Rattle.std.specs.Prelude.{◌≡◌, ◌++◌, length, map, reverse, IfOk, OnOk};
ghost use Rattle.rt_cidr.specs.declared.address.Addr.{Addr};
ghost use Rattle.rt_trie.specs.Map.{pair_copied, IsLongest};
ghost use Rattle.rt_rib.specs.LookUp.{look_up, look_up_all};
ghost use Rattle.rt_rib.specs.Maps.{Map, route_by, routes_of, IsMap};
ghost use Rattle.rt_rib.specs.inside.Maps.{look_up_each};

use crate::chunks::{ChunkLookup, look_up_in_chunks};
use crate::map::OfferMap;
use crate::offers::{Offer, Offers, route_by};
use crate::refused::Refused;
use crate::routes::Route;
use rt_cidr::{Addr, Prefix};
use rt_trie::LANES;
use std::alloc::Allocator;

/// Returns the best route to the prefix that is the longest match of an address, if there is one.
pub(crate) fn best_at<A: Allocator + Copy>(longest: Option<(Prefix, &Offers<A>)>) -> Option<Route>
    ensures { (m : Map) (addr : Addr) → IsMap m → IsLongest m addr (pair_copied longest.entry)
        → result ≡ look_up addr (routes_of m) }
{
    match longest {
        None => None,
        Some((prefix, offers)) => Some(route_by(prefix, &offers.as_slice()[0])),
    }
}

/// Returns the best route of the longest prefix that covers the address.
pub(crate) fn best_of<A: Allocator + Copy>(map: &OfferMap<A>, addr: Addr) -> Option<Route>
    ensures { result ≡ look_up addr (routes_of map.now.pairs) }
{
    best_at(map.trie.longest(addr))
}

/// Returns the routes of all prefixes that cover the address, the best first.
pub(crate) fn all_of<A: Allocator + Copy>(
    map: &OfferMap<A>,
    alloc: A,
    addr: Addr,
) -> Result<Vec<Route, A>, Refused>
    ensures { IfOk result (λ routes. routes.items ≡ look_up_all addr (routes_of map.now.pairs)) }
{
    let mut routes = Vec::new(alloc);
    for (prefix, offers) in map.trie.covering(addr) {
        append_backward(&mut routes, prefix, offers.as_slice())?;
    }
    // The descent finds the shortest prefix first, which has to be the last.
    routes.reverse();
    Ok(routes)
}

/// Appends the routes of a prefix's offers, the worst first.
fn append_backward<A: Allocator + Copy>(
    routes: &mut Vec<Route, A>,
    prefix: Prefix,
    offers: &[Offer],
) -> Result<(), Refused>
    ensures { OnOk result (reverse routes.new.items ≡ map (route_by prefix) offers.now ++ reverse routes.old.items) }
{
    for k in (0..offers.len()).rev() {
        routes.push(route_by(prefix, &offers[k]))?;
    }
    Ok(())
}

/// Replaces each answer by `best_of` of the address with the same index.
pub(crate) fn best_of_each<A: Allocator + Copy>(
    map: &OfferMap<A>,
    addresses: &[Addr],
    answers: &mut [Option<Route>],
)
    requires { length answers.old ≡ length addresses.now }
    ensures { answers.new ≡ look_up_each addresses.now (routes_of map.now.pairs) }
{
    look_up_in_chunks(map, addresses, answers);
}

/// Each address is answered by `best_of`, with the descents of a chunk done together.
impl<A: Allocator + Copy> ChunkLookup<Addr, Option<Route>> for OfferMap<A> {
    ghost use Rattle.rt_trie.specs.declared.search.TheConstants.{LANES};
    ghost use Rattle.rt_rib.specs.LookUp.{look_up};
    ghost use Rattle.rt_rib.specs.Maps.{routes_of};

    ghost chunk_size = { λ _. LANES };

    ghost answer = { λ map addr _. look_up addr (routes_of map.pairs) };

    fn chunk_size(&self) -> usize {
        LANES
    }

    fn look_up_chunk(&self, addresses: &[Addr], answers: &mut [Option<Route>]) {
        let mut longest = [None; LANES];
        self.trie
            .longest_many(addresses, &mut longest[..addresses.len()]);
        for k in 0..addresses.len() {
            answers[k] = best_at(longest[k]);
        }
    }
}
