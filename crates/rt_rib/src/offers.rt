//! The offers of the feeds for a prefix, the best first. A single offer is the common case, and allocates nothing.
ghost use Rattle.std.specs.Prelude.{◌≡◌, ◌<◌, ◌+◌, false, [], ◌∷◌, length, IsTrue, IsOk, IfOk, OnOk, OnErr, Some, position, slice_get, vec_len, vec_capacity};
ghost use Rattle.std.specs.Option.{option_map};
ghost use Rattle.std.specs.List.{All, list_any};
ghost use Rattle.rt_rib.specs.Order.{offer_of, policy, won_by};
ghost use Rattle.rt_rib.specs.Maps.{route_by, is_from, IsRanked, IsOffers};
ghost use Rattle.rt_rib.specs.inside.Offers.{IsInsertionIndex, HasGained, HasSwapped, TakesOut, without};

use crate::refused::Refused;
use crate::routes::{Hop, Reason, Route};
use rt_cidr::Prefix;
use std::alloc::Allocator;
use std::marker::Model;

/// A feed's offer for a prefix: its route without the prefix.
#[derive(Clone, Copy)]
pub(crate) struct Offer {
    pub feed: u32,
    pub pref: u32,
    pub hop: Hop,
}

impl Offer {
    /// Returns the reason why the offer is better than `other`, which is for the same prefix: a lower preference number
    /// or, if both have the same one, a lower feed number. Returns None if it isn't better. This is the order of routes
    /// to a prefix; no other function compares preference numbers.
    #[inline(always)]
    pub(crate) fn beats(&self, other: &Offer) -> Option<Reason>
        ensures { result ≡ won_by (policy self.now other.now) }
    {
        if self.pref < other.pref {
            Some(Reason::Preference)
        } else if self.pref == other.pref && self.feed < other.feed {
            Some(Reason::Feed)
        } else {
            None
        }
    }
}

/// Returns the route of an offer for a prefix.
pub(crate) fn route_by(prefix: Prefix, offer: &Offer) -> Route
    ensures { result ≡ route_by prefix offer.now }
{
    Route {
        prefix,
        feed: offer.feed,
        pref: offer.pref,
        hop: offer.hop,
    }
}

/// Returns the offer of a route for its prefix.
pub(crate) fn offer_of(route: &Route) -> Offer
    ensures { result ≡ offer_of route.now }
{
    Offer {
        feed: route.feed,
        pref: route.pref,
        hop: route.hop,
    }
}

/// The bytes of an offer in a list.
const OFFER_BYTES: usize = size_of::<Offer>();

/// The bytes of the box that holds a list.
const LIST_BYTES: usize = size_of::<Vec<Offer>>();

/// One offer, or a list of at least two.
#[derive(Drop)]
enum OneOrMany<A: Allocator> {
    One(Offer),
    Many(Box<Vec<Offer, A>, A>),
}

/// The offers for a prefix: at least one, ordered by preference and then by feed, at most one of each feed.
#[derive(Drop)]
pub(crate) struct Offers<A: Allocator + Copy> {
    offers: OneOrMany<A>,
}

impl<A: Allocator + Copy> Model for Offers<A> {
    ghost use Rattle.std.specs.Prelude.{List};
    ghost use Rattle.rt_rib.specs.declared.offers.Offer.{Offer};

    ghost Value = { List Offer };

    ghost use Rattle.rt_rib.specs.inside.OneOrMany.{items, IsOneOrMany};

    ghost view = { λ o. items o.offers };

    ghost invariant = { λ o. IsOneOrMany o.offers };
}

/// The result of removing a feed's offer.
#[derive(Clone, Copy)]
pub(crate) enum Removal {
    /// The feed has no offer.
    Missing,
    /// It is the only one, and stays.
    Last,
    /// It was removed.
    Gone,
}

impl<A: Allocator + Copy> Offers<A> {
    /// Returns a single offer. Doesn't allocate.
    pub(crate) fn one(offer: Offer) -> Offers<A>
        ensures { result ≡ offer ∷ [] }
    {
        Offers {
            offers: OneOrMany::One(offer),
        }
    }

    /// Returns the offers, the best first.
    pub(crate) fn as_slice(&self) -> &[Offer]
        ensures offers { result.now ≡ self.now }
        ensures lawful { IsOffers result.now }
    {
        match &self.offers {
            OneOrMany::One(offer) => std::slice::from_ref(offer),
            OneOrMany::Many(offers) => offers.as_slice(),
        }
    }

    /// Returns the route of the first offer for the prefix, which is the best.
    #[inline(always)]
    pub(crate) fn best(&self, prefix: Prefix) -> Route
        ensures { Some result ≡ option_map (route_by prefix) (slice_get self.now 0) }
    {
        route_by(prefix, &self.as_slice()[0])
    }

    /// Returns the number of bytes that are allocated for them, also for those that a list only has room for. No clause
    /// limits it.
    pub(crate) fn bytes(&self) -> usize {
        match &self.offers {
            OneOrMany::One(_) => 0,
            OneOrMany::Many(offers) => {
                LIST_BYTES.wrapping_add(OFFER_BYTES.wrapping_mul(offers.capacity()))
            }
        }
    }

    /// Returns true if one of them is the feed's.
    pub(crate) fn has(&self, feed: u32) -> bool
        ensures { result ≡ list_any (is_from feed) self.now }
    {
        offer_index(self.as_slice(), feed).is_some()
    }

    /// Inserts the offer of a feed that has none. Fails if memory runs out; the offers are then unchanged.
    pub(crate) fn put(&mut self, alloc: A, offer: Offer) -> Result<(), Refused>
        requires { All (λ o. is_from offer.feed o ≡ false) self.old }
        ensures ok { OnOk result (HasGained self.old self.new offer) }
        ensures refused { OnErr result (self.new ≡ self.old) }
        ensures lawful { IsOffers self.new }
    {
        self.offers.put(alloc, offer)
    }

    /// Replaces the feed's offer by this one, if it has one; returns true if it has one. Doesn't allocate.
    pub(crate) fn replace(&mut self, offer: Offer) -> bool
        ensures had { result ≡ list_any (is_from offer.feed) self.old }
        ensures swapped { HasSwapped self.old self.new offer result }
        ensures lawful { IsOffers self.new }
    {
        self.offers.replace(offer)
    }

    /// Removes the feed's offer, unless it is the only one. Doesn't allocate.
    pub(crate) fn take_out(&mut self, feed: u32) -> Removal
        ensures taken { TakesOut self.old self.new feed result }
        ensures lawful { IsOffers self.new }
    {
        self.offers.take_out(feed)
    }
}

impl<A: Allocator + Copy> OneOrMany<A> {
    ghost use Rattle.rt_rib.specs.inside.OneOrMany.{items, IsOneOrMany};

    /// Inserts the offer of a feed that has none.
    fn put(&mut self, alloc: A, offer: Offer) -> Result<(), Refused>
        requires valid { IsOneOrMany self.old }
        requires fresh { All (λ o. is_from offer.feed o ≡ false) (items self.old) }
        ensures ok { OnOk result (HasGained (items self.old) (items self.new) offer) }
        ensures refused { OnErr result (items self.new ≡ items self.old) }
        ensures valid { IsOneOrMany self.new }
    {
        match self {
            OneOrMany::One(first) => {
                let both = two(alloc, *first, offer)?;
                *self = OneOrMany::Many(both);
                Ok(())
            }
            OneOrMany::Many(offers) => put_among(offers, offer),
        }
    }

    /// Replaces the feed's offer by this one, if it has one; returns true if it has one.
    fn replace(&mut self, offer: Offer) -> bool
        requires { IsOneOrMany self.old }
        ensures had { result ≡ list_any (is_from offer.feed) (items self.old) }
        ensures swapped { HasSwapped (items self.old) (items self.new) offer result }
        ensures valid { IsOneOrMany self.new }
    {
        match self {
            OneOrMany::One(old) => {
                if old.feed != offer.feed {
                    return false;
                }
                *old = offer;
                true
            }
            OneOrMany::Many(offers) => replace_among(offers, offer),
        }
    }

    /// Removes the feed's offer, unless it is the only one.
    fn take_out(&mut self, feed: u32) -> Removal
        requires { IsOneOrMany self.old }
        ensures taken { TakesOut (items self.old) (items self.new) feed result }
        ensures valid { IsOneOrMany self.new }
    {
        match self {
            OneOrMany::One(offer) => {
                if offer.feed == feed {
                    return Removal::Last;
                }
                Removal::Missing
            }
            OneOrMany::Many(offers) => {
                if !take_among(offers, feed) {
                    return Removal::Missing;
                }
                if offers.len() == 1 {
                    let offer = offers[0];
                    *self = OneOrMany::One(offer);
                }
                Removal::Gone
            }
        }
    }
}

/// Returns the index of the feed's offer, if it has one.
fn offer_index(offers: &[Offer], feed: u32) -> Option<usize>
    ensures { result ≡ position (is_from feed) offers.now }
{
    offers.iter().position(|offer| offer.feed == feed)
}

/// Returns the index at which the offer belongs.
pub(crate) fn insertion_index(offers: &[Offer], offer: &Offer) -> usize
    requires { IsRanked offers.now }
    ensures { IsInsertionIndex offer.now offers.now result }
{
    let mut index = 0;
    while index < offers.len() && offers[index].beats(offer).is_some() {
        index += 1;
    }
    index
}

/// Inserts the offer of a feed that has none, where it belongs.
fn put_among<A: Allocator + Copy>(offers: &mut Vec<Offer, A>, offer: Offer) -> Result<(), Refused>
    requires ranked { IsRanked offers.old.items }
    requires fresh { All (λ o. is_from offer.feed o ≡ false) offers.old.items }
    ensures ok { OnOk result (HasGained offers.old.items offers.new.items offer) }
    ensures ranked { IsRanked offers.new.items }
    ensures more { OnOk result (vec_len offers.new ≡ vec_len offers.old + 1) }
    ensures refused { OnErr result (offers.new.items ≡ offers.old.items) }
    ensures room { vec_len offers.old < vec_capacity offers.old → IsOk result }
{
    let index = insertion_index(offers, &offer);
    offers.insert(index, offer)?;
    Ok(())
}

/// Replaces the feed's offer by this one, if it has one; returns true if it has one.
fn replace_among<A: Allocator + Copy>(offers: &mut Vec<Offer, A>, offer: Offer) -> bool
    requires { IsRanked offers.old.items }
    ensures had { result ≡ list_any (is_from offer.feed) offers.old.items }
    ensures swapped { HasSwapped offers.old.items offers.new.items offer result }
    ensures ranked { IsRanked offers.new.items }
    ensures many { vec_len offers.new ≡ vec_len offers.old }
{
    let Some(index) = offer_index(offers, offer.feed) else {
        return false;
    };
    offers.remove(index);
    match put_among(offers, offer) {
        Ok(()) => true,
        Err(_) => unreachable!(),
    }
}

/// Removes the feed's offer, if it has one; returns true if it had one.
fn take_among<A: Allocator + Copy>(offers: &mut Vec<Offer, A>, feed: u32) -> bool
    requires { IsRanked offers.old.items }
    ensures had { result ≡ list_any (is_from feed) offers.old.items }
    ensures kept { result ≡ false → offers.new.items ≡ offers.old.items }
    ensures others { IsTrue result → offers.new.items ≡ without feed offers.old.items }
    ensures fewer { IsTrue result → vec_len offers.new + 1 ≡ vec_len offers.old }
    ensures ranked { IsRanked offers.new.items }
{
    let Some(index) = offer_index(offers, feed) else {
        return false;
    };
    offers.remove(index);
    true
}

/// Returns a list of two offers of different feeds.
fn two<A: Allocator + Copy>(
    alloc: A,
    one: Offer,
    other: Offer,
) -> Result<Box<Vec<Offer, A>, A>, Refused>
    requires { is_from other.feed one ≡ false }
    ensures gained { IfOk result (λ offers. HasGained (one ∷ []) offers.value.items other) }
    ensures ranked { IfOk result (λ offers. IsRanked offers.value.items) }
    ensures both { IfOk result (λ offers. length offers.value.items ≡ 2) }
{
    let offers = if one.beats(&other).is_some() {
        [one, other]
    } else {
        [other, one]
    };
    let offers = Vec::from_array(alloc, offers)?;
    Ok(Box::new(alloc, offers)?)
}
