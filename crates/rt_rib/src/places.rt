//! Iterating over the routes in dump order, from a position on.
ghost use Rattle.std.specs.Prelude.{◌≡◌, false, map};
ghost use Rattle.rt_trie.specs.Map.{before};
ghost use Rattle.rt_rib.specs.Maps.{routes_of, route_by, IsRanked};
ghost use Rattle.rt_rib.specs.Places.{from_place};

use crate::map::OfferMap;
use crate::offers::{Offer, Offers, insertion_index, offer_of, route_by};
use crate::routes::Route;
use rt_cidr::Prefix;
use rt_trie::Walk;
use std::alloc::Allocator;
use std::fmt;
use std::marker::Model;

/// An iterator over the routes of a table in dump order, from a position on. Contracts see the remaining routes. Visits
/// each node of its part of the trie once. Doesn't allocate.
#[derive(Drop)]
pub struct RoutesFrom<'a, A: Allocator + Copy> {
    prefix: Prefix,
    /// The remaining offers for that prefix.
    offers: &'a [Offer],
    /// The pairs after it.
    walk: Walk<'a, Offers<A>, A>,
}

impl<'a, A: Allocator + Copy> Model for RoutesFrom<'a, A> {
    ghost use Rattle.std.specs.Prelude.{◌++◌, List, map};
    ghost use Rattle.rt_rib.specs.declared.routes.Route.{Route};
    ghost use Rattle.rt_rib.specs.Maps.{routes_of, route_by};

    ghost Value = { List Route };

    ghost view = { λ w. map (route_by w.prefix) w.offers.now ++ routes_of w.walk };
}

impl<'a, A: Allocator + Copy> RoutesFrom<'a, A> {
    /// Returns an iterator that starts at the position of the route.
    pub(crate) fn new(map: &'a OfferMap<A>, from: &Route) -> RoutesFrom<'a, A>
        ensures { result ≡ from_place from.now (routes_of map.now.pairs) }
    {
        let mut walk = map.trie.walk_from(from.prefix);
        match walk.next() {
            None => RoutesFrom {
                prefix: from.prefix,
                offers: &[],
                walk,
            },
            Some((prefix, offers)) => {
                let offers = offers_from(prefix, offers.as_slice(), from);
                RoutesFrom {
                    prefix,
                    offers,
                    walk,
                }
            }
        }
    }
}

/// Shows the prefix of the next route, but no routes.
impl<'a, A: Allocator + Copy> fmt::Debug for RoutesFrom<'a, A> {
    fn fmt<W: fmt::Write>(&self, f: &mut fmt::Formatter<W>) -> fmt::Result {
        f.debug_struct("RoutesFrom")
            .field("prefix", &self.prefix)
            .finish_non_exhaustive()
    }
}

impl<'a, A: Allocator + Copy> Iterator for RoutesFrom<'a, A> {
    ghost use Rattle.std.specs.Iterator.{YieldsFirstBy, item_count};

    type Item = Route;

    ghost next_gives = { YieldsFirstBy (λ x. x) (λ s. s) };

    ghost remaining = { item_count (λ s. s) };

    fn next(&mut self) -> Option<Route> {
        while self.offers.is_empty() {
            match self.walk.next() {
                None => return None,
                Some((prefix, offers)) => {
                    self.prefix = prefix;
                    self.offers = offers.as_slice();
                }
            }
        }
        let offers = self.offers;
        self.offers = &offers[1..];
        Some(route_by(self.prefix, &offers[0]))
    }
}

/// Returns the offers for a prefix whose routes are at or after the position of the given route, which isn't to a later
/// prefix.
fn offers_from<'a>(prefix: Prefix, offers: &'a [Offer], from: &Route) -> &'a [Offer]
    requires later { before prefix from.now.prefix ≡ false }
    requires ranked { IsRanked offers.now }
    ensures { map (route_by prefix) result.now ≡ from_place from.now (map (route_by prefix) offers.now) }
{
    if from.prefix < prefix {
        return offers;
    }
    let index = insertion_index(offers, &offer_of(from));
    &offers[index..]
}
