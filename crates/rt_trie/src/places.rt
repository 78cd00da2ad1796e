//! The descent of a look-up that also returns how far its answer holds. With it one visits all addresses interval by
//! interval, since answers only change at the boundaries of prefixes.

ghost use Rattle.std.specs.Prelude.{◌≡◌, ◌-◌, ◌^◌, ◌<◌, ◌≤◌, None, IfSome, IsTrue};
ghost use Rattle.std.specs.Option.{option_copied};
ghost use Rattle.rt_cidr.specs.Prefix.{covers};
ghost use Rattle.rt_cidr.specs.declared.address.Addr.{Addr};
ghost use Rattle.rt_trie.specs.Halves.{past};
ghost use Rattle.rt_trie.specs.inside.Lawful.{root, IsLawfulBelow, IsLawfulTrie};
ghost use Rattle.rt_trie.specs.Map.{pair_copied};
ghost use Rattle.rt_trie.specs.inside.Links.{own_pair, pairs, IsNode, or_else, last_cover};
ghost use Rattle.rt_trie.specs.inside.Places.{IsPlace, IsNextPlace};

use crate::nodes::{Link, NodeView, middle};
use rt_cidr::{Addr, Prefix};
use std::alloc::{AllocError, Allocator};

/// A point on the descent of a look-up, and what is known there about each address from the look-up's own to a last
/// one.
pub(crate) struct Place<'a, V, A: Allocator> {
    /// The link below which the longest prefix may still be, if the descent continues.
    pub below: Option<&'a Link<V, A>>,
    /// The pair of the longest prefix above.
    pub best: Option<(Prefix, &'a V)>,
    /// The last address for which this holds.
    pub last: u32,
}

impl<'a, V, A: Allocator> Copy for Place<'a, V, A> {}

impl<'a, V, A: Allocator> Clone for Place<'a, V, A> {
    fn clone(&self) -> Result<Place<'a, V, A>, AllocError> {
        Ok(*self)
    }
}

impl<'a, V, A: Allocator> Place<'a, V, A> {
    /// Returns the place at which every look-up starts.
    pub fn top(root: &'a Link<V, A>) -> Place<'a, V, A>
        requires { IsLawfulTrie root.now }
        ensures place { (from : Addr) → IsPlace (pairs root.now) from result }
        ensures last { result.last ≡ 2 ^ 32 - 1 }
    {
        Place {
            below: Some(root),
            best: None,
            last: u32::MAX,
        }
    }
}

/// Descends one step from a place, at its link.
#[inline(always)]
pub(crate) fn step<'a, V, A: Allocator>(
    link: &'a Link<V, A>,
    place: &Place<'a, V, A>,
    address: Addr,
) -> Place<'a, V, A>
    requires lawful { IsLawfulBelow link.now }
    requires reached { address.0 ≤ place.now.last }
    ensures { IsNextPlace link.now place.now address result }
{
    match link.view() {
        NodeView::Vacant => Place {
            below: None,
            best: place.best,
            last: place.last,
        },
        NodeView::Single(prefix, value) => Place {
            below: None,
            best: if prefix.covers(address) {
                Some((prefix, value))
            } else {
                place.best
            },
            last: place.last.min(reach(&prefix, address)),
        },
        NodeView::Branch(prefix, value, left, right) => {
            step_at_branch(prefix, value, left, right, place, address)
        }
    }
}

/// Descends one step from a place, at a node with that prefix, value and two sides.
#[inline(always)]
fn step_at_branch<'a, V, A: Allocator>(
    prefix: Prefix,
    value: Option<&'a V>,
    left: &'a Link<V, A>,
    right: &'a Link<V, A>,
    place: &Place<'a, V, A>,
    address: Addr,
) -> Place<'a, V, A>
    requires node { (link : Link V A) × IsNode link prefix (option_copied value) left.now right.now }
    requires reached { address.0 ≤ place.now.last }
    ensures { (link : Link V A) → IsNode link prefix (option_copied value.entry) left.now right.now
        → IsNextPlace link place.now address result }
{
    let last = place.last.min(reach(&prefix, address));
    if !prefix.covers(address) {
        return Place {
            below: None,
            best: place.best,
            last,
        };
    }
    let best = best_from(prefix, value, place.best);
    if u64::from(address.0) < middle(prefix.len(), prefix.base()) {
        Place {
            below: Some(left),
            best,
            last: last.min(last_before(right, address)),
        }
    } else {
        Place {
            below: Some(right),
            best,
            last,
        }
    }
}

/// Returns the best pair down to a node that covers the address: the node's own, or the one above if it has no value.
#[inline(always)]
fn best_from<'a, V>(
    prefix: Prefix,
    value: Option<&'a V>,
    above: Option<(Prefix, &'a V)>,
) -> Option<(Prefix, &'a V)>
    ensures { (b : Addr) → IsTrue (covers prefix b)
        → or_else (last_cover (own_pair prefix (option_copied value.entry)) b) (pair_copied above.entry) ≡ pair_copied result }
{
    match value {
        Some(value) => Some((prefix, value)),
        None => above,
    }
}

/// Returns an address such that the prefix covers all addresses from the given one to it, or none of them.
fn reach(prefix: &Prefix, address: Addr) -> u32
    ensures onward { address.0 ≤ result }
    ensures alike { (b : Addr) → address.0 ≤ b.0 → b.0 ≤ result → covers prefix.now b ≡ covers prefix.now address }
{
    if address.0 < prefix.base() {
        prefix.base() - 1
    } else if prefix.covers(address) {
        (past(prefix) - 1) as u32
    } else {
        u32::MAX
    }
}

/// Returns the first address after those that the prefix covers, which is 2^32 if it covers the last of all.
fn past(prefix: &Prefix) -> u64
    ensures { result ≡ past prefix.now }
{
    u64::from(prefix.base()) + (1u64 << (32 - prefix.len()))
}

/// Returns the last address before those of the link's node, which come after the given one, or the last of all if the
/// link holds no node.
fn last_before<V, A: Allocator>(link: &Link<V, A>, address: Addr) -> u32
    requires lawful { IsLawfulBelow link.now }
    requires after { IfSome (root link.now) (λ q. address.0 < q.base) }
    ensures onward { address.0 ≤ result }
    ensures none { (b : Addr) → b.0 ≤ result → last_cover (pairs link.now) b ≡ None }
{
    match link {
        Link::Empty => u32::MAX,
        Link::Leaf(_, base, _) | Link::Fork(_, base, _) | Link::Full(_, base, _) => *base - 1,
    }
}
