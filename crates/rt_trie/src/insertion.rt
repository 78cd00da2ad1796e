//! Inserting a value into a trie. Every box is allocated before the first link is changed.
//!
//! The value is passed in an option, in which the replaced value is returned. So the descent only returns a `bool`.
//! Each recursive call is the last action of its function, and the changes at its end are in functions of their own: it
//! becomes a loop.

ghost use Rattle.std.specs.Prelude.{◌≡◌, ◌≢◌, ◌+◌, ◌/◌, ◌<◌, ◌≤◌, ◌^◌, ◌⊎◌, false, true, None, Some, IsSome, IfSome, IfNone};
ghost use Rattle.rt_cidr.specs.declared.prefixes.Prefix.{Prefix};
ghost use Rattle.rt_trie.specs.declared.nodes.Link.TheVariants.{Empty};
ghost use Rattle.rt_trie.specs.declared.nodes.Position.TheVariants.{Above, Apart};
ghost use Rattle.rt_trie.specs.Halves.{middle, IsChild, PartsAt};
ghost use Rattle.rt_trie.specs.inside.Lawful.{IsLawfulTrie};
ghost use Rattle.rt_trie.specs.inside.Blocks.{StandsAt};
ghost use Rattle.std.specs.Box.{with_value};
ghost use Rattle.rt_trie.specs.inside.Links.{full_link, IsLeafOf, IsForkOf, IsSeenFrom};
ghost use Rattle.rt_trie.specs.inside.Changes.{Inserts, IsGiven};

use crate::nodes::{ForkNode, FullNode, LeafNode, Link, Position, middle, position_of};
use rt_cidr::Prefix;
use std::alloc::Allocator;
use std::mem;

/// A value to insert; after the insertion, the value that was stored at its prefix. With it are the allocator of the
/// nodes, and the number of nodes of the trie.
#[derive(Drop)]
pub(crate) struct NewValue<V, A: Allocator> {
    pub value: Option<V>,
    pub alloc: A,
    pub nodes: usize,
}

/// Inserts the value at p below the link. Returns `false` if memory runs out, and then nothing has changed.
pub(crate) fn insert<V: Drop, A: Allocator + Copy>(
    link: &mut Link<V, A>,
    p: Prefix,
    given: &mut NewValue<V, A>,
) -> bool
    requires lawful { IsLawfulTrie link.old }
    requires given { IsGiven given.old }
    ensures { Inserts link.old link.new p given.old given.new result }
{
    match link {
        Link::Empty => given.insert_at_empty(link, p),
        Link::Leaf(..) => given.insert_at_leaf(link, p),
        Link::Fork(len, base, fork) => {
            let base = *base;
            match position_of(*len, base, &p) {
                Position::Here => given.insert_at_fork(link, p),
                Position::Left => insert(&mut fork.left, p, given),
                Position::Right => insert(&mut fork.right, p, given),
                Position::Above => given.insert_above(link, p, base),
                Position::Apart => given.insert_beside(link, p, base),
            }
        }
        Link::Full(len, base, full) => {
            let base = *base;
            match position_of(*len, base, &p) {
                Position::Here => {
                    mem::swap(&mut full.value, &mut given.value);
                    true
                }
                Position::Left => insert(&mut full.left, p, given),
                Position::Right => insert(&mut full.right, p, given),
                Position::Above => given.insert_above(link, p, base),
                Position::Apart => given.insert_beside(link, p, base),
            }
        }
    }
}

/// Exchanges the given value and the stored one.
#[inline(never)]
fn exchange<V: Drop>(stored: &mut V, value: &mut Option<V>)
    requires given { IsSome value.old }
    ensures stored { value.old ≡ Some stored.new }
    ensures had { value.new ≡ Some stored.old }
{
    let Some(given) = value.take() else {
        unreachable!()
    };
    *value = Some(mem::replace(stored, given));
}

impl<V: Drop, A: Allocator + Copy> NewValue<V, A> {
    /// Inserts a leaf into an empty link.
    #[inline(never)]
    fn insert_at_empty(&mut self, link: &mut Link<V, A>, p: Prefix) -> bool
        requires empty { link.old ≡ Empty }
        requires given { IsGiven self.old }
        ensures { Inserts link.old link.new p self.old self.new result }
    {
        let Some(leaf) = leaf_of(self.alloc, p, &mut self.value) else {
            return false;
        };
        *link = Link::of_leaf(leaf);
        self.nodes += 1;
        true
    }

    /// Inserts at a leaf: in its place, below it, above it or next to it.
    #[inline(never)]
    fn insert_at_leaf(&mut self, link: &mut Link<V, A>, p: Prefix) -> bool
        requires leaf { (q : Prefix) × IsLeafOf q link.old }
        requires lawful { IsLawfulTrie link.old }
        requires given { IsGiven self.old }
        ensures { Inserts link.old link.new p self.old self.new result }
    {
        let Link::Leaf(len, base, leaf) = link else {
            unreachable!()
        };
        let base = *base;
        let q = leaf.prefix;
        match position_of(*len, base, &p) {
            Position::Here => {
                exchange(&mut leaf.value, &mut self.value);
                true
            }
            Position::Left | Position::Right => self.insert_below_leaf(link, p, q),
            Position::Above => self.insert_above(link, p, base),
            Position::Apart => self.insert_beside(link, p, base),
        }
    }

    /// Turns the leaf at q into a full node, and reuses the leaf's box for p below it.
    #[inline(never)]
    fn insert_below_leaf(&mut self, link: &mut Link<V, A>, p: Prefix, q: Prefix) -> bool
        requires leaf { IsLeafOf q link.old }
        requires below { IsChild q false p ⊎ IsChild q true p }
        requires given { IsGiven self.old }
        ensures { Inserts link.old link.new p self.old self.new result }
    {
        let Some(full) = new_full(self.alloc, q) else {
            return false;
        };
        let Link::Leaf(_, _, mut leaf) = mem::replace(link, Link::Empty) else {
            unreachable!()
        };
        let Some(value) = self.value.take() else {
            unreachable!()
        };
        let LeafNode {
            prefix: _,
            value: above,
        } = mem::replace(&mut *leaf, LeafNode { prefix: p, value });
        let (left, right) = on_side(&q, p.base(), Link::of_leaf(leaf));
        fill(link, full, q, Some(above), left, right);
        self.nodes += 1;
        true
    }

    /// Turns the fork at p into a full node, since its prefix is now stored.
    #[inline(never)]
    fn insert_at_fork(&mut self, link: &mut Link<V, A>, p: Prefix) -> bool
        requires lawful { IsLawfulTrie link.old }
        requires fork { IsForkOf p link.old }
        requires given { IsSome self.old.value }
        ensures { Inserts link.old link.new p self.old self.new result }
    {
        let Some(full) = new_full(self.alloc, p) else {
            return false;
        };
        let Link::Fork(_, _, fork) = mem::replace(link, Link::Empty) else {
            unreachable!()
        };
        let ForkNode {
            prefix: _,
            left,
            right,
        } = Box::into_inner(fork);
        fill(link, full, p, self.value.take(), left, right);
        true
    }

    /// Inserts a full node for p, with the old node, whose base is given, on one of its sides.
    #[inline(never)]
    fn insert_above(&mut self, link: &mut Link<V, A>, p: Prefix, base: u32) -> bool
        requires lawful { IsLawfulTrie link.old }
        requires seen { IsSeenFrom link.old base p Above }
        requires given { IsGiven self.old }
        ensures { Inserts link.old link.new p self.old self.new result }
    {
        let Some(full) = new_full(self.alloc, p) else {
            return false;
        };
        let (left, right) = on_side(&p, base, mem::replace(link, Link::Empty));
        fill(link, full, p, self.value.take(), left, right);
        self.nodes += 1;
        true
    }

    /// Inserts a fork with p on one side and the old node, whose base is given, on the other.
    #[inline(never)]
    fn insert_beside(&mut self, link: &mut Link<V, A>, p: Prefix, base: u32) -> bool
        requires lawful { IsLawfulTrie link.old }
        requires seen { IsSeenFrom link.old base p Apart }
        requires given { IsGiven self.old }
        ensures { Inserts link.old link.new p self.old self.new result }
    {
        let prefix = common_prefix(&p, base);
        let node = ForkNode {
            prefix,
            left: Link::Empty,
            right: Link::Empty,
        };
        let Some(mut fork) = Box::new(self.alloc, node).ok() else {
            return false;
        };
        let Some(new) = leaf_of(self.alloc, p, &mut self.value) else {
            return false;
        };
        let new = Link::of_leaf(new);
        let other = mem::replace(link, Link::Empty);
        let (left, right) = if p.base() < base {
            (new, other)
        } else {
            (other, new)
        };
        *fork = ForkNode {
            prefix,
            left,
            right,
        };
        *link = Link::of_fork(fork);
        self.nodes += 2;
        true
    }
}

/// Returns a leaf of p with the given value, or `None` if memory runs out; the value then stays in the option.
fn leaf_of<V: Drop, A: Allocator + Copy>(
    alloc: A,
    p: Prefix,
    value: &mut Option<V>,
) -> Option<Box<LeafNode<V>, A>>
    requires given { IsSome value.old }
    ensures made { IfSome result (λ leaf. (leaf.value.prefix ≡ p) × (value.old ≡ Some leaf.value.value) × (value.new ≡ None)) }
    ensures refused { IfNone result (value.new ≡ value.old) }
{
    let Some(given) = value.take() else {
        unreachable!()
    };
    match Box::new(
        alloc,
        LeafNode {
            prefix: p,
            value: given,
        },
    ) {
        Ok(leaf) => Some(leaf),
        Err(refused) => {
            let LeafNode {
                prefix: _,
                value: given,
            } = refused.value;
            *value = Some(given);
            None
        }
    }
}

/// Returns a full node that has neither value nor branches yet, or `None` if memory runs out.
fn new_full<V: Drop, A: Allocator + Copy>(
    alloc: A,
    prefix: Prefix,
) -> Option<Box<FullNode<V, A>, A>>
    ensures { IfSome result (λ full. full.value ≡ record { prefix = prefix; value = None; left = Empty; right = Empty }) }
{
    let node = FullNode {
        prefix,
        value: None,
        left: Link::Empty,
        right: Link::Empty,
    };
    Box::new(alloc, node).ok()
}

/// Makes a full node with that prefix, value and sides in the box, and puts the box into the link.
fn fill<V: Drop, A: Allocator + Drop>(
    link: &mut Link<V, A>,
    mut full: Box<FullNode<V, A>, A>,
    prefix: Prefix,
    value: Option<V>,
    left: Link<V, A>,
    right: Link<V, A>,
)
    ensures { link.new ≡ full_link (with_value full (record { prefix = prefix; value = value; left = left; right = right })) }
{
    *full = FullNode {
        prefix,
        value,
        left,
        right,
    };
    *link = Link::of_full(full);
}

/// Returns the child as the left or the right of two sides, by its first address; the other side is empty.
fn on_side<V, A: Allocator>(
    parent: &Prefix,
    base: u32,
    child: Link<V, A>,
) -> (Link<V, A>, Link<V, A>)
    ensures left { base < middle parent.now → result ≡ (child, Empty) }
    ensures right { middle parent.now ≤ base → result ≡ (Empty, child) }
{
    if (base as u64) < middle(parent.len(), parent.base()) {
        (child, Link::Empty)
    } else {
        (Link::Empty, child)
    }
}

/// Returns the longest prefix that contains both p and a prefix with this base; the two share no address.
fn common_prefix(p: &Prefix, base: u32) -> Prefix
    requires { (q : Prefix) × (base ≡ q.base) × StandsAt q p.now Apart }
    ensures { (q : Prefix) → base ≡ q.base → StandsAt q p.now Apart
        → (p.now.base < q.base → PartsAt result p.now q) × (q.base ≤ p.now.base → PartsAt result q p.now) }
{
    let a = p.base();
    let bit = highest_difference(a, base);
    let base = (a as u64 >> (bit + 1)) << (bit + 1);
    let Ok(prefix) = Prefix::new(base as u32, 31 - bit) else {
        unreachable!()
    };
    prefix
}

/// Returns the first bit in which two addresses differ, counted from the last bit of an address.
fn highest_difference(a: u32, b: u32) -> u8
    requires differ { a ≢ b }
    ensures bit { result ≤ 31 }
    ensures same { a / 2 ^ (result + 1) ≡ b / 2 ^ (result + 1) }
    ensures differ { a / 2 ^ result ≢ b / 2 ^ result }
{
    31 - (a ^ b).leading_zeros() as u8
}
