//! The longest matches of rising addresses, one after another: each look-up continues from the path of the previous
//! one.

ghost use Rattle.std.specs.Prelude.{◌≡◌, ◌≤◌, ◌⊎◌, IfSome, All, Contains, slice_set};
ghost use Rattle.rt_cidr.specs.declared.address.Addr.{Addr};
ghost use Rattle.rt_trie.specs.Map.{pair_copied, IsLongest};
ghost use Rattle.rt_trie.specs.inside.Lawful.{IsLawfulTrie};
ghost use Rattle.rt_trie.specs.inside.Links.{pairs};

use crate::nodes::{Link, PLACES};
use crate::places::{Place, step};
use rt_cidr::{Addr, Prefix};
use std::alloc::Allocator;
use std::fmt;
use std::marker::Model;

/// A cursor for longest matches of successive addresses. It keeps the path of the last look-up. Doesn't allocate.
#[derive(Drop)]
pub struct LongestMatchCursor<'a, V, A: Allocator> {
    root: &'a Link<V, A>,
    /// The address of the last look-up.
    from: Addr,
    way: Way<'a, V, A>,
}

impl<'a, V, A: Allocator> Model for LongestMatchCursor<'a, V, A> {
    ghost use Rattle.rt_trie.specs.Map.{Pairs};
    ghost use Rattle.rt_trie.specs.inside.Links.{pairs};
    ghost use Rattle.rt_trie.specs.inside.Places.{AreMatches};

    ghost Value = { Pairs V };

    ghost view = { λ w. pairs w.root.now };

    ghost invariant = { λ w. AreMatches w.root.now w.from w.way };
}

impl<'a, V, A: Allocator> LongestMatchCursor<'a, V, A> {
    pub(crate) fn new(root: &'a Link<V, A>) -> LongestMatchCursor<'a, V, A>
        requires { IsLawfulTrie root.now }
        ensures { result ≡ pairs root.now }
    {
        LongestMatchCursor {
            root,
            from: Addr(0),
            way: Way::new(root),
        }
    }

    /// Returns the longest match of the address, as `Trie::longest` does, and a last address: every address from the
    /// given one to the last one has this same longest match.
    ///
    /// The last address is as far as the nodes show: the last before a prefix, the last of a prefix, or the last of
    /// all. A caller who continues after it visits all addresses in about two calls per node (no clause says so). If
    /// the address isn't lower than the previous one, the look-up continues where their paths diverge; if it is lower,
    /// it starts from the root.
    pub fn match_range(&mut self, a: Addr) -> (Option<(Prefix, &'a V)>, Addr)
        ensures kept { self.new ≡ self.old }
        ensures onward { a.0 ≤ result.1.0 }
        ensures same { (b : Addr) → a.0 ≤ b.0 → b.0 ≤ result.1.0 → IsLongest self.old b (pair_copied result.0) }
    {
        let mut place = self.way.place_for(self.root, self.from, a);
        self.from = a;
        while let Some(link) = place.below {
            place = step(link, &place, a);
            self.way.keep(place);
        }
        (place.best, Addr(place.last))
    }
}

/// Shows the address of the last look-up, but no nodes.
impl<'a, V, A: Allocator> fmt::Debug for LongestMatchCursor<'a, V, A> {
    fn fmt<W: fmt::Write>(&self, f: &mut fmt::Formatter<W>) -> fmt::Result {
        f.debug_struct("LongestMatchCursor")
            .field("from", &self.from)
            .finish_non_exhaustive()
    }
}

/// The places of a path, from the top down.
#[derive(Drop)]
struct Way<'a, V, A: Allocator> {
    places: [Place<'a, V, A>; PLACES],
    /// The number of places that are kept.
    len: usize,
}

impl<'a, V, A: Allocator> Way<'a, V, A> {
    ghost use Rattle.rt_trie.specs.inside.Lawful.{IsLawfulTrie};
    ghost use Rattle.rt_trie.specs.declared.nodes.TheConstants.{PLACES};
    ghost use Rattle.rt_trie.specs.inside.Links.{pairs};
    ghost use Rattle.rt_trie.specs.inside.Places.{IsPlace, AreMatches};

    /// Returns a path that is at its top.
    fn new(root: &'a Link<V, A>) -> Way<'a, V, A>
        requires { IsLawfulTrie root.now }
        ensures few { result.len ≤ PLACES }
        ensures places { (from : Addr) → All (IsPlace (pairs root.now) from) result.places }
    {
        let top = Place::top(root);
        Way {
            places: [top; PLACES],
            len: 1,
        }
    }

    /// Returns the place from which a look-up of the address continues after one of `from`: the last kept place that
    /// reaches the address, or the top. For a lower address the path starts from the root again.
    fn place_for(&mut self, root: &'a Link<V, A>, from: Addr, a: Addr) -> Place<'a, V, A>
        requires { AreMatches root.now from self.old }
        ensures matches { AreMatches root.now a self.new }
        ensures place { IsPlace (pairs root.now) a result }
        ensures reached { a.0 ≤ result.last }
    {
        if a.0 < from.0 {
            *self = Way::new(root);
        }
        match self.back_to(a) {
            Some(place) => place,
            None => Place::top(root),
        }
    }

    /// Drops the last places until one reaches the address, and returns that one, if there is any.
    fn back_to(&mut self, address: Addr) -> Option<Place<'a, V, A>>
        requires few { self.old.len ≤ PLACES }
        ensures few { self.new.len ≤ PLACES }
        ensures places { self.new.places ≡ self.old.places }
        ensures reached { IfSome result (λ place. address.0 ≤ place.last) }
        ensures one { IfSome result (λ place. Contains self.old.places place) }
    {
        while self.len > 0 {
            let places = &self.places[..];
            let place = places[self.len - 1];
            if address.0 <= place.last {
                return Some(place);
            }
            self.len -= 1;
        }
        None
    }

    /// Appends a place below the last one, if there is room.
    fn keep(&mut self, place: Place<'a, V, A>)
        requires few { self.old.len ≤ PLACES }
        ensures few { self.new.len ≤ PLACES }
        ensures places { (self.new.places ≡ self.old.places) ⊎ (self.new.places ≡ slice_set self.old.places self.old.len place.entry) }
    {
        let at = self.len;
        if at < PLACES {
            let places = &mut self.places[..];
            places[at] = place;
            self.len = at + 1;
        }
    }
}
