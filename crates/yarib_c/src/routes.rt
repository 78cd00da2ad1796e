//! Routes as C has them.
ghost use Rattle.std.specs.Prelude.{◌≡◌};
ghost use Rattle.yarib_c.specs.Forms.{hop_number, via_number, router_as, router_of};
ghost use Rattle.yarib_c.specs.inside.Routers.{router_by};

use crate::lists::FormOf;
use rt_rib::{Hop, Route};

/// A route, or the answer that there is none: `hop` is 0 for no route, 1 for a router, whose address is `via`, and 2 where the
/// packets are discarded.
#[repr(C)]
#[derive(Clone, Copy)]
pub struct YaribRoute {
    pub base: u32,
    pub pref: u32,
    pub via: u32,
    pub feed: u32,
    pub len: u8,
    pub hop: u8,
}

/// A next hop as two numbers.
pub(crate) fn numbers_of(hop: Hop) -> (u8, u32)
    ensures kind { result.0 ≡ hop_number hop }
    ensures via { result.1 ≡ via_number hop }
{
    match hop {
        Hop::Via(addr) => (1, addr.0),
        Hop::Discard => (2, 0),
    }
}

/// Returns the address of the router to which an answer leads, or the number for no route or for discarding.
pub(crate) fn router_number(found: Option<Route>, no_route: u32, discard: u32) -> u32
    ensures { result ≡ router_as no_route discard found }
{
    match found {
        None => no_route,
        Some(route) => router_of(route.hop, discard),
    }
}

/// Returns the address of the router of a next hop, or the number for no route or for discarding.
pub(crate) fn router_by(hop: Option<Hop>, no_route: u32, discard: u32) -> u32
    ensures { result ≡ router_by no_route discard hop }
{
    match hop {
        None => no_route,
        Some(hop) => router_of(hop, discard),
    }
}

/// Returns the address of the next hop's router, or the number for discarding.
fn router_of(hop: Hop, discard: u32) -> u32
    ensures { result ≡ router_of discard hop }
{
    match hop {
        Hop::Via(addr) => addr.0,
        Hop::Discard => discard,
    }
}

impl FormOf<Route> for YaribRoute {
    ghost use Rattle.yarib_c.specs.Forms.{route_as};

    ghost form = { route_as };

    fn of(route: Route) -> YaribRoute {
        let (hop, via) = numbers_of(route.hop);
        YaribRoute {
            base: route.prefix.base(),
            pref: route.pref,
            via,
            feed: route.feed,
            len: route.prefix.len(),
            hop,
        }
    }
}

impl YaribRoute {
    ghost use Rattle.yarib_c.specs.Forms.{answer_as, hop_as};

    /// The answer that there is no route.
    pub(crate) const NONE: YaribRoute = YaribRoute {
        base: 0,
        pref: 0,
        via: 0,
        feed: 0,
        len: 0,
        hop: 0,
    };

    /// The answer to a look-up.
    pub(crate) fn answer(found: Option<Route>) -> YaribRoute
        ensures { result ≡ answer_as found }
    {
        match found {
            None => YaribRoute::NONE,
            Some(route) => YaribRoute::of(route),
        }
    }

    /// A next hop and no more.
    pub(crate) fn of_hop(hop: Hop) -> YaribRoute
        ensures { result ≡ hop_as hop }
    {
        let (hop, via) = numbers_of(hop);
        YaribRoute {
            via,
            hop,
            ..YaribRoute::NONE
        }
    }
}
