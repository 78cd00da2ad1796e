//! The map from prefixes to their offers: the routes that it represents, and how they change.
ghost use Rattle.std.specs.Prelude.{◌≡◌, ◌-◌, ◌*◌, ◌≤◌, ◌++◌, false, [], IfOk, OnOk, OnErr, IfSome, IsSome, IsNone, is_some, is_none, length, map};
ghost use Rattle.rt_trie.specs.Lawful.{IsLawful};
ghost use Rattle.rt_rib.specs.Table.{has, put_in, take_out};
ghost use Rattle.rt_rib.specs.Maps.{routes_of, route_by, IsMap};
ghost use Rattle.rt_rib.specs.inside.Changes.{AreBestRoutes};

use crate::offers::{Offer, Offers, Removal, offer_of, route_by};
use crate::refused::Refused;
use crate::routes::Route;
use rt_cidr::Prefix;
use rt_trie::{Trie, Walk};
use std::alloc::Allocator;
use std::marker::Model;

/// The best routes to a prefix before and after a change, each `None` if there was no route to it. What makes them is
/// always inlined, because `Table::apply` doesn't need them: LLVM then leaves them out there.
#[derive(Clone, Copy)]
pub(crate) struct BestRoutes {
    pub before: Option<Route>,
    pub after: Option<Route>,
}

/// A map from prefixes to their offers: each prefix once, with at least one offer, its offers in order. Contracts see
/// the trie that stores it.
#[derive(Drop)]
pub(crate) struct OfferMap<A: Allocator + Copy> {
    pub(crate) trie: Trie<Offers<A>, A>,
    /// The number of bytes that are allocated for lists of offers, which `Offers::bytes` counts. No clause says so.
    pub(crate) offer_bytes: usize,
}

impl<A: Allocator + Copy> Model for OfferMap<A> {
    ghost use Rattle.std.specs.Coded.{codes};
    ghost use Rattle.rt_trie.specs.inside.TreeCode.{tree_code};
    ghost use Rattle.rt_rib.specs.Book.{OfferTrie};
    ghost use Rattle.rt_rib.specs.Maps.{IsMap};

    ghost Value = { OfferTrie };

    ghost coded = { Prim.hlevel (codes, tree_code) };

    ghost view = { λ m. m.trie };

    ghost invariant = { λ m. IsMap m.trie.pairs };
}

impl<A: Allocator + Copy> OfferMap<A> {
    /// Returns the empty map. Doesn't allocate.
    pub(crate) fn new(alloc: A) -> OfferMap<A>
        ensures { result.pairs ≡ [] }
    {
        OfferMap {
            trie: Trie::new(alloc),
            offer_bytes: 0,
        }
    }

    /// Returns the number of prefixes.
    pub(crate) fn len(&self) -> usize
        ensures { result ≡ length self.now.pairs }
    {
        self.trie.len()
    }

    /// Returns the number of bytes that are allocated for lists of offers.
    pub(crate) fn offer_bytes(&self) -> usize {
        self.offer_bytes
    }

    /// Returns the number of nodes of the trie, which is lawful.
    pub(crate) fn nodes(&self) -> usize
        ensures nodes { result ≡ self.now.nodes }
        ensures bound { result ≤ 2 * length self.now.pairs - 1 }
        ensures lawful { IsLawful self.now }
        ensures map { IsMap self.now.pairs }
    {
        self.trie.nodes()
    }

    /// Returns the routes that the map represents. Allocates room for `count` of them at once.
    pub(crate) fn routes(&self, alloc: A, count: usize) -> Result<Vec<Route, A>, Refused>
        ensures { IfOk result (λ routes. routes.items ≡ routes_of self.now.pairs) }
    {
        routes(self.trie.walk(), alloc, count)
    }

    /// Returns true if the feed has a route to the prefix.
    pub(crate) fn has(&self, feed: u32, prefix: Prefix) -> bool
        ensures { result ≡ has feed prefix (routes_of self.now.pairs) }
    {
        match self.trie.get(prefix) {
            None => false,
            Some(offers) => offers.has(feed),
        }
    }

    /// Inserts the route unless its feed has one to its prefix; returns the best routes to the prefix before and after, or
    /// `None` if the feed already had one. Fails if memory runs out; the feed then has no route to the prefix, and the map
    /// is unchanged.
    #[inline(always)]
    pub(crate) fn put_in(&mut self, alloc: A, route: Route) -> Result<Option<BestRoutes>, Refused>
        ensures had { IfOk result (λ best. is_none best ≡ has route.feed route.prefix (routes_of self.old.pairs)) }
        ensures kept { IfOk result (λ best. IsNone best → self.new.pairs ≡ self.old.pairs) }
        ensures more { IfOk result (λ best. IsSome best → routes_of self.new.pairs ≡ put_in route (routes_of self.old.pairs)) }
        ensures best { IfOk result (λ best. IfSome best (AreBestRoutes route.prefix (routes_of self.old.pairs) (routes_of self.new.pairs))) }
        ensures refused { OnErr result (self.new ≡ self.old) }
        ensures wanted { OnErr result (has route.feed route.prefix (routes_of self.old.pairs) ≡ false) }
    {
        let offer = offer_of(&route);
        if let Some(offers) = self.trie.get_mut(route.prefix) {
            if offers.has(route.feed) {
                return Ok(None);
            }
            let before = offers.best(route.prefix);
            let bytes = offers.bytes();
            offers.put(alloc, offer)?;
            let after = offers.best(route.prefix);
            let more = offers.bytes();
            self.offer_bytes = self.offer_bytes.wrapping_add(more).wrapping_sub(bytes);
            return Ok(Some(BestRoutes {
                before: Some(before),
                after: Some(after),
            }));
        }
        match self.trie.insert(route.prefix, Offers::one(offer)) {
            Ok(_) => Ok(Some(BestRoutes {
                before: None,
                after: Some(route),
            })),
            Err(_) => Err(Refused),
        }
    }

    /// Replaces the feed's route to the prefix by this one; returns the best routes to the prefix before and after, or
    /// `None` if the feed has no route to it. Doesn't allocate.
    #[inline(always)]
    pub(crate) fn replace(&mut self, route: Route) -> Option<BestRoutes>
        ensures had { is_some result ≡ has route.feed route.prefix (routes_of self.old.pairs) }
        ensures replaced { IsSome result → routes_of self.new.pairs
            ≡ put_in route (take_out route.feed route.prefix (routes_of self.old.pairs)) }
        ensures kept { IsNone result → self.new.pairs ≡ self.old.pairs }
        ensures best { IfSome result (AreBestRoutes route.prefix (routes_of self.old.pairs) (routes_of self.new.pairs)) }
    {
        let offer = offer_of(&route);
        let Some(offers) = self.trie.get_mut(route.prefix) else {
            return None;
        };
        let before = offers.best(route.prefix);
        if !offers.replace(offer) {
            return None;
        }
        let after = offers.best(route.prefix);
        Some(BestRoutes {
            before: Some(before),
            after: Some(after),
        })
    }

    /// Removes the feed's route to the prefix; returns the best routes to the prefix before and after, or `None` if the
    /// feed had no route to it. A prefix whose last offer is removed is removed too. Doesn't allocate.
    #[inline(always)]
    pub(crate) fn take_out(&mut self, feed: u32, prefix: Prefix) -> Option<BestRoutes>
        ensures had { is_some result ≡ has feed prefix (routes_of self.old.pairs) }
        ensures gone { IsSome result → routes_of self.new.pairs ≡ take_out feed prefix (routes_of self.old.pairs) }
        ensures kept { IsNone result → self.new.pairs ≡ self.old.pairs }
        ensures best { IfSome result (AreBestRoutes prefix (routes_of self.old.pairs) (routes_of self.new.pairs)) }
    {
        let Some(offers) = self.trie.get_mut(prefix) else {
            return None;
        };
        let before = offers.best(prefix);
        let bytes = offers.bytes();
        let removal = offers.take_out(feed);
        let after = offers.best(prefix);
        let fewer = offers.bytes();
        self.offer_bytes = self.offer_bytes.wrapping_add(fewer).wrapping_sub(bytes);
        match removal {
            Removal::Missing => None,
            Removal::Gone => Some(BestRoutes {
                before: Some(before),
                after: Some(after),
            }),
            Removal::Last => {
                self.trie.remove(prefix);
                Some(BestRoutes {
                    before: Some(before),
                    after: None,
                })
            }
        }
    }
}

/// Appends the routes of a prefix's offers.
pub(crate) fn append<A: Allocator + Copy>(
    routes: &mut Vec<Route, A>,
    prefix: Prefix,
    offers: &[Offer],
) -> Result<(), Refused>
    ensures { OnOk result (routes.new.items ≡ routes.old.items ++ map (route_by prefix) offers.now) }
{
    for offer in offers {
        routes.push(route_by(prefix, offer))?;
    }
    Ok(())
}

/// Appends the routes of the pairs that remain in the walk, in its order.
pub(crate) fn append_walk<A: Allocator + Copy>(
    routes: &mut Vec<Route, A>,
    walk: Walk<'_, Offers<A>, A>,
) -> Result<(), Refused>
    ensures { OnOk result (routes.new.items ≡ routes.old.items ++ routes_of walk.entry) }
{
    for (prefix, offers) in walk {
        append(routes, prefix, offers.as_slice())?;
    }
    Ok(())
}

/// Returns the routes of the pairs that remain in the walk, in its order. Allocates room for `count` of them at once.
pub(crate) fn routes<A: Allocator + Copy>(
    walk: Walk<'_, Offers<A>, A>,
    alloc: A,
    count: usize,
) -> Result<Vec<Route, A>, Refused>
    ensures { IfOk result (λ routes. routes.items ≡ routes_of walk.entry) }
{
    let mut routes = Vec::with_capacity(alloc, count)?;
    append_walk(&mut routes, walk)?;
    Ok(routes)
}
