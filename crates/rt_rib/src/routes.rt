//! Routes: plain data, as callers see it.
ghost use Rattle.std.specs.Prelude.{◌≡◌};
ghost use Rattle.rt_rib.specs.Table.{IsTable};
ghost use Rattle.rt_rib.specs.Order.{comparison, won_by};
ghost use Rattle.rt_rib.specs.LookUp.{best_routes, reason};

use crate::offers::offer_of;
use rt_cidr::{Addr, Prefix};
use std::alloc::Allocator;

/// The destination of packets to a route's addresses.
#[derive(Clone, Copy, PartialEq, Eq, Debug)]
pub enum Hop {
    /// The router with this address.
    Via(Addr),
    /// None: they are discarded, as packets for an aggregate that no longer route serves (RFC 4632, section 5.1).
    Discard,
}

/// A feed's route to a prefix. Of several routes to the same prefix, the best is the one with the lowest preference
/// number and, among those, with the lowest feed number.
#[derive(Clone, Copy, PartialEq, Eq, Debug)]
pub struct Route {
    /// The addresses that the route serves.
    pub prefix: Prefix,
    /// The number of the feed that announced the route, from 1.
    pub feed: u32,
    /// The preference number; the lowest is preferred.
    pub pref: u32,
    /// The next hop.
    pub hop: Hop,
}

/// The reason why a route that covers an address is not its best one (RFC 1812, section 5.2.4.3): the first of these
/// that is true.
#[derive(Clone, Copy, PartialEq, Eq, Debug)]
pub enum Reason {
    /// Its prefix is shorter than the best route's.
    Shorter,
    /// Its preference number is higher.
    Preference,
    /// Its feed number is higher.
    Feed,
}

impl Route {
    /// Returns the reason why the route comes before `other` among the matches of an address: a longer prefix or, if both
    /// prefixes are equally long, a lower preference number or, if both have the same one, a lower feed number. Returns
    /// None if it doesn't come before `other`.
    #[inline(always)]
    pub fn beats(&self, other: &Route) -> Option<Reason>
        ensures { result ≡ won_by (comparison self.now other.now) }
    {
        let (len, other_len) = (self.prefix.len(), other.prefix.len());
        if len == other_len {
            offer_of(self).beats(&offer_of(other))
        } else if len > other_len {
            Some(Reason::Shorter)
        } else {
            None
        }
    }

    /// Returns the reason why the route is not the best one of an address whose best route is `best`.
    pub fn reason(&self, best: &Route) -> Reason
        ensures { result ≡ reason best.now self.now }
    {
        if self.prefix.len() < best.prefix.len() {
            Reason::Shorter
        } else {
            offer_of(best)
                .beats(&offer_of(self))
                .unwrap_or(Reason::Feed)
        }
    }
}

/// Keeps only the best route of each prefix, which is the one that a look-up would return, and removes the others. The
/// routes must be in dump order, as [`Book::routes`](crate::Book::routes) returns them, and stay so. Doesn't allocate.
pub fn keep_best<A: Allocator>(routes: &mut Vec<Route, A>)
    requires { IsTable routes.old.items }
    ensures { routes.new.items ≡ best_routes routes.old.items }
{
    routes.dedup_by(|later, first| later.prefix == first.prefix);
}
