//! The nodes of a trie, of three kinds, and the links that hold them.
//!
//! A node's two sides come first in its memory, so that a descent chooses one by an addition instead of a branch.

ghost use Rattle.std.specs.Prelude.{◌≡◌, ◌^◌, ◌<◌, ◌≤◌, ◌↔◌, nat_lt, if◌then◌else◌, IsTrue};
ghost use Rattle.rt_cidr.specs.declared.prefixes.Prefix.{Prefix};
ghost use Rattle.rt_cidr.specs.Prefix.{covers, same_prefix};
ghost use Rattle.rt_trie.specs.Halves.{middle, middle_at};
ghost use Rattle.rt_trie.specs.inside.Lawful.{IsKeyOf};
ghost use Rattle.rt_trie.specs.inside.Blocks.{is_key, StandsAt};
ghost use Rattle.rt_trie.specs.inside.Links.{leaf_link, fork_link, full_link, IsVacant, IsNodeView};

use rt_cidr::{Addr, Prefix};
use std::alloc::Allocator;

/// The maximum number of places on a path: one at its top, and one below a node of each length.
pub(crate) const PLACES: usize = 34;

/// A stored prefix with nothing below it.
#[derive(Drop)]
pub(crate) struct LeafNode<V> {
    pub prefix: Prefix,
    pub value: V,
}

/// A prefix that isn't stored, where two branches diverge.
#[cycle(links)]
#[derive(Drop)]
pub(crate) struct ForkNode<V, A: Allocator> {
    pub left: Link<V, A>,
    pub right: Link<V, A>,
    pub prefix: Prefix,
}

/// A stored prefix with others below it, or what remains of one: a removal doesn't allocate, so it doesn't make a node
/// of another kind.
#[cycle(links)]
#[derive(Drop)]
pub(crate) struct FullNode<V, A: Allocator> {
    pub left: Link<V, A>,
    pub right: Link<V, A>,
    pub prefix: Prefix,
    pub value: Option<V>,
}

/// The contents of the trie, or of a side of a node: nothing, or a node in a box of its kind's size. With the box are
/// the length and base of the node's prefix, so that a look-up that ends at a node need not wait for its memory.
#[cycle(links)]
#[derive(Drop)]
pub(crate) enum Link<V, A: Allocator> {
    Empty,
    Leaf(u8, u32, Box<LeafNode<V>, A>),
    Fork(u8, u32, Box<ForkNode<V, A>, A>),
    Full(u8, u32, Box<FullNode<V, A>, A>),
}

/// The contents of a link, without the difference between a fork and a full node.
#[derive(Drop)]
pub(crate) enum NodeView<'a, V, A: Allocator> {
    /// No node.
    Vacant,
    /// A leaf: its prefix and its value.
    Single(Prefix, &'a V),
    /// A fork or a full node: its prefix, its value if it has one, its left and its right side.
    Branch(Prefix, Option<&'a V>, &'a Link<V, A>, &'a Link<V, A>),
}

/// The position of a prefix relative to another.
pub(crate) enum Position {
    /// The two are equal.
    Here,
    /// It is longer, and in the lower half of the other's addresses.
    Left,
    /// It is longer, and in the upper half of the other's addresses.
    Right,
    /// It is shorter, and contains the other.
    Above,
    /// The two share no address.
    Apart,
}

impl<V, A: Allocator> Link<V, A> {
    pub fn is_empty(&self) -> bool
        ensures { IsTrue result ↔ IsVacant self.now }
    {
        matches!(self, Link::Empty)
    }

    /// Returns the contents of the link.
    #[inline(always)]
    pub fn view(&self) -> NodeView<'_, V, A>
        ensures { IsNodeView self.now result }
    {
        match self {
            Link::Empty => NodeView::Vacant,
            Link::Leaf(_, _, leaf) => {
                let leaf = leaf.as_ref();
                NodeView::Single(leaf.prefix, &leaf.value)
            }
            Link::Fork(_, _, fork) => {
                let fork = fork.as_ref();
                NodeView::Branch(fork.prefix, None, &fork.left, &fork.right)
            }
            Link::Full(_, _, full) => {
                let full = full.as_ref();
                NodeView::Branch(full.prefix, full.value.as_ref(), &full.left, &full.right)
            }
        }
    }

    /// Returns the link to a leaf.
    pub fn of_leaf(leaf: Box<LeafNode<V>, A>) -> Link<V, A>
        ensures { result ≡ leaf_link leaf }
    {
        Link::Leaf(leaf.prefix.len(), leaf.prefix.base(), leaf)
    }

    /// Returns the link to a fork.
    pub fn of_fork(fork: Box<ForkNode<V, A>, A>) -> Link<V, A>
        ensures { result ≡ fork_link fork }
    {
        Link::Fork(fork.prefix.len(), fork.prefix.base(), fork)
    }

    /// Returns the link to a full node.
    pub fn of_full(full: Box<FullNode<V, A>, A>) -> Link<V, A>
        ensures { result ≡ full_link full }
    {
        Link::Full(full.prefix.len(), full.prefix.base(), full)
    }
}

/// Returns the first address of the upper half of the prefix with that length and base, or its base if it covers only
/// one address.
#[inline(always)]
pub(crate) fn middle(len: u8, base: u32) -> u64
    requires { len ≤ 32 }
    ensures { result ≡ middle_at len base }
{
    base as u64 + (1u64 << (32 - len)) / 2
}

/// The start of the upper half of a prefix's addresses, in units of `offset`.
const HALF: u64 = 1 << 31;

/// The end of a prefix's addresses, in units of `offset`.
pub(crate) const END: u64 = 1 << 32;

/// Returns the distance from the base of the prefix with that length and base to the address, in units of which the
/// prefix covers 2^32, however many addresses these are. For an address before or past the prefix it is at least 2^32.
#[inline(always)]
pub(crate) fn offset(len: u8, base: u32, address: u32) -> u64
    requires { len ≤ 32 }
    ensures covered { (q : Prefix) → IsKeyOf len base q → IsTrue (covers q (record { 0 = address })) ↔ result < 2 ^ 32 }
    ensures half { (q : Prefix) → IsKeyOf len base q → IsTrue (covers q (record { 0 = address })) → q.len < 32
        → 2 ^ 31 ≤ result ↔ middle q ≤ address }
    ensures none { len ≡ 32 → result < 2 ^ 32 → result < 2 ^ 31 }
{
    u64::from(address.wrapping_sub(base)) << len
}

/// Returns the left or the right side of a node, whichever the address at that offset is on.
#[inline(always)]
pub(crate) fn side<T: Copy>(offset: u64, left: T, right: T) -> T
    ensures { result ≡ (if nat_lt offset (2 ^ 31) then left else right) }
{
    if offset < HALF { left } else { right }
}

/// Returns true if the length and the base are those of p.
#[inline(always)]
pub(crate) fn is_key_of(len: u8, base: u32, p: &Prefix) -> bool
    ensures value { result ≡ is_key len base p.now }
    ensures key { (q : Prefix) → IsKeyOf len base q → result ≡ same_prefix q p.now }
{
    base == p.base() && len == p.len()
}

/// Returns the position of p relative to the prefix with that length and base.
#[inline(always)]
pub(crate) fn position_of(len: u8, base: u32, p: &Prefix) -> Position
    requires { len ≤ 32 }
    ensures { (q : Prefix) → IsKeyOf len base q → StandsAt q p.now result }
{
    let offset = offset(len, base, p.base());
    if len < p.len() && offset < END {
        if offset < HALF {
            Position::Left
        } else {
            Position::Right
        }
    } else if is_key_of(len, base, p) {
        Position::Here
    } else if p.len() <= len && p.covers(Addr(base)) {
        Position::Above
    } else {
        Position::Apart
    }
}
