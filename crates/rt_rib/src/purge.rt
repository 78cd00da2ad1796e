//! Removing all of a feed's routes from the map in a single walk.
ghost use Rattle.std.specs.Prelude.{◌≡◌};
ghost use Rattle.rt_rib.specs.Table.{count_of, purge};
ghost use Rattle.rt_rib.specs.Maps.{routes_of};
ghost use Rattle.rt_rib.specs.inside.Purges.{is_over, IsPurged};

use crate::map::OfferMap;
use crate::offers::{Offers, Removal};
use rt_cidr::Prefix;
use rt_trie::RetainFilter;
use std::alloc::Allocator;

/// The state of a purge on its walk over the map.
#[derive(Drop)]
struct Purging {
    feed: u32,
    /// The number of the feed's routes that remain to be removed.
    remaining: u32,
    /// The number of bytes that are allocated for lists of offers, as in `OfferMap`.
    offer_bytes: usize,
}

impl<A: Allocator + Copy> RetainFilter<Offers<A>> for Purging {
    ghost done = { is_over };

    ghost judges = { λ s p v t w stays. IsPurged s t v w stays };

    fn is_done(&self) -> bool {
        self.remaining == 0
    }

    fn keeps(&mut self, _prefix: Prefix, offers: &mut Offers<A>) -> bool {
        let before = offers.bytes();
        let removal = offers.take_out(self.feed);
        let after = offers.bytes();
        self.offer_bytes = self.offer_bytes.wrapping_add(after).wrapping_sub(before);
        match removal {
            Removal::Missing => true,
            Removal::Gone => {
                self.remaining -= 1;
                true
            }
            Removal::Last => {
                self.remaining -= 1;
                false
            }
        }
    }
}

/// Removes all routes of the feed, `count` of them. Visits nothing after the last of them. Doesn't allocate.
pub(crate) fn purge<A: Allocator + Copy>(map: &mut OfferMap<A>, feed: u32, count: u32)
    requires { count ≡ count_of feed (routes_of map.old.pairs) }
    ensures { routes_of map.new.pairs ≡ purge feed (routes_of map.old.pairs) }
{
    let mut purge = Purging {
        feed,
        remaining: count,
        offer_bytes: map.offer_bytes,
    };
    map.trie.retain(&mut purge);
    map.offer_bytes = purge.offer_bytes;
}
