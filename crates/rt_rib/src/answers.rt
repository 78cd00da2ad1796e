//! Look-ups of rising addresses, one after another: each continues from the path of the previous one.
ghost use Rattle.std.specs.Prelude.{◌≡◌, ◌≤◌};
ghost use Rattle.rt_cidr.specs.declared.address.Addr.{Addr};
ghost use Rattle.rt_rib.specs.Maps.{routes_of};

use crate::lookups::best_at;
use crate::map::OfferMap;
use crate::offers::Offers;
use crate::routes::Route;
use rt_cidr::Addr;
use rt_trie::LongestMatchCursor;
use std::alloc::Allocator;
use std::fmt;
use std::marker::Model;

/// A cursor for look-ups of successive addresses. Contracts see the table's routes. It keeps the path of the last
/// look-up. Doesn't allocate.
#[derive(Drop)]
pub struct LookupCursor<'a, A: Allocator + Copy> {
    map: LongestMatchCursor<'a, Offers<A>, A>,
}

impl<'a, A: Allocator + Copy> Model for LookupCursor<'a, A> {
    ghost use Rattle.std.specs.Prelude.{List};
    ghost use Rattle.rt_rib.specs.declared.routes.Route.{Route};
    ghost use Rattle.rt_rib.specs.Maps.{routes_of, IsMap};

    ghost Value = { List Route };

    ghost view = { λ w. routes_of w.map };

    ghost invariant = { λ w. IsMap w.map };
}

/// Shows the address of the last look-up, but no routes.
impl<'a, A: Allocator + Copy> fmt::Debug for LookupCursor<'a, A> {
    fn fmt<W: fmt::Write>(&self, f: &mut fmt::Formatter<W>) -> fmt::Result {
        f.debug_struct("LookupCursor")
            .field("map", &self.map)
            .finish_non_exhaustive()
    }
}

impl<'a, A: Allocator + Copy> LookupCursor<'a, A> {
    ghost use Rattle.rt_rib.specs.LookUp.{look_up};

    pub(crate) fn new(map: &'a OfferMap<A>) -> LookupCursor<'a, A>
        ensures { result ≡ routes_of map.now.pairs }
    {
        LookupCursor {
            map: map.trie.matches(),
        }
    }

    /// Returns the answer to a look-up of the address and a last address: every address from the given one to the last
    /// one has this same answer.
    ///
    /// The last address is as far as the trie's nodes show, so a caller who continues after it visits all addresses in
    /// about two calls per node (no clause says so). If the address isn't lower than the previous one, the look-up
    /// continues where their paths diverge; if it is lower, it starts from the root.
    pub fn lookup_range(&mut self, addr: Addr) -> (Option<Route>, Addr)
        ensures kept { self.new ≡ self.old }
        ensures onward { addr.0 ≤ result.1.0 }
        ensures same { (b : Addr) → addr.0 ≤ b.0 → b.0 ≤ result.1.0 → look_up b self.old ≡ result.0 }
    {
        let (longest, last) = self.map.match_range(addr);
        (best_at(longest), last)
    }
}
