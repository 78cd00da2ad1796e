//! Removing a value from a trie, which doesn't allocate.

ghost use Rattle.std.specs.Prelude.{◌≡◌, ◌+◌, ◌<◌, ◌≤◌, ◌⊎◌, false, IsTrue};
ghost use Rattle.rt_cidr.specs.declared.prefixes.Prefix.{Prefix};
ghost use Rattle.rt_trie.specs.declared.nodes.Link.TheVariants.{Empty};
ghost use Rattle.rt_trie.specs.Map.{get};
ghost use Rattle.rt_trie.specs.inside.Links.{pairs, count, IsLone, IsVacant, IsLeafOf};
ghost use Rattle.rt_trie.specs.inside.Lawful.{IsLawfulTrie, IsLawfulBelow, IsNeeded, IsFilled};
ghost use Rattle.rt_trie.specs.inside.Changes.{IsErased, IsSpliced, AreSidesOf};

use crate::nodes::{ForkNode, FullNode, LeafNode, Link, Position, position_of};
use rt_cidr::Prefix;
use std::alloc::Allocator;
use std::mem;

/// Removes the value at p below the link, and returns it if there was one.
pub(crate) fn remove<V: Drop, A: Allocator + Drop>(
    link: &mut Link<V, A>,
    nodes: &mut usize,
    p: Prefix,
) -> Option<V>
    requires lawful { IsLawfulTrie link.old }
    requires counted { count link.old ≤ nodes.old }
    ensures erased { IsErased link.old link.new p }
    ensures value { result ≡ get (pairs link.old) p }
    ensures counted { nodes.new + count link.old ≡ nodes.old + count link.new }
{
    let gone = match link {
        Link::Empty => return None,
        Link::Leaf(..) => {
            return if is_leaf_of(link, &p) {
                remove_leaf(link, nodes)
            } else {
                None
            };
        }
        Link::Fork(len, base, fork) => match position_of(*len, *base, &p) {
            Position::Left => remove(&mut fork.left, nodes, p),
            Position::Right => remove(&mut fork.right, nodes, p),
            Position::Here | Position::Above | Position::Apart => return None,
        },
        Link::Full(len, base, full) => match position_of(*len, *base, &p) {
            Position::Here => full.value.take(),
            Position::Left => remove(&mut full.left, nodes, p),
            Position::Right => remove(&mut full.right, nodes, p),
            Position::Above | Position::Apart => return None,
        },
    };
    splice(link, nodes);
    gone
}

/// Returns true if the leaf is that of p.
fn is_leaf_of<V, A: Allocator>(link: &Link<V, A>, p: &Prefix) -> bool
    requires { (q : Prefix) × IsLeafOf q link.now }
    ensures here { IsTrue result → IsLeafOf p.now link.now }
    ensures other { result ≡ false → get (pairs link.now) p.now ≡ None }
{
    let Link::Leaf(_, _, leaf) = link else {
        unreachable!()
    };
    leaf.prefix == *p
}

/// Removes the leaf, and returns its value.
fn remove_leaf<V: Drop, A: Allocator + Drop>(link: &mut Link<V, A>, nodes: &mut usize) -> Option<V>
    requires leaf { (q : Prefix) × IsLeafOf q link.old }
    requires counted { 1 ≤ nodes.old }
    ensures value { (q : Prefix) → IsLeafOf q link.old → get (pairs link.old) q ≡ result }
    ensures empty { link.new ≡ Empty }
    ensures counted { nodes.new + 1 ≡ nodes.old }
{
    let Link::Leaf(_, _, leaf) = mem::replace(link, Link::Empty) else {
        unreachable!()
    };
    let LeafNode { prefix: _, value } = Box::into_inner(leaf);
    *nodes -= 1;
    Some(value)
}

/// Removes a node that has no value and fewer than two branches; the branch below it, if any, moves up.
#[inline(always)]
pub(crate) fn splice<V: Drop, A: Allocator + Drop>(link: &mut Link<V, A>, nodes: &mut usize)
    requires lawful { IsLawfulBelow link.old }
    requires counted { count link.old ≤ nodes.old }
    ensures spliced { IsSpliced link.old link.new }
    ensures counted { nodes.new + count link.old ≡ nodes.old + count link.new }
{
    if !is_needed(link) {
        move_up(link, nodes);
    }
}

/// Replaces a node by the branch below it, if any. Not inlined, so that the recursion has smaller stack frames.
#[inline(never)]
fn move_up<V: Drop, A: Allocator + Drop>(link: &mut Link<V, A>, nodes: &mut usize)
    requires lone { IsLone link.old }
    requires lawful { IsLawfulBelow link.old }
    requires counted { count link.old ≤ nodes.old }
    ensures spliced { IsSpliced link.old link.new }
    ensures counted { nodes.new + count link.old ≡ nodes.old + count link.new }
{
    let (left, right) = into_sides(mem::replace(link, Link::Empty));
    let rest = if left.is_empty() { right } else { left };
    *link = rest;
    *nodes -= 1;
}

/// Returns true if the link is empty, or its node has a value or two branches.
fn is_needed<V, A: Allocator>(link: &Link<V, A>) -> bool
    ensures needed { IsTrue result → IsNeeded link.now }
    ensures lone { result ≡ false → IsLone link.now }
{
    match link {
        Link::Empty | Link::Leaf(..) => true,
        Link::Fork(_, _, fork) => has_both(&fork.left, &fork.right),
        Link::Full(_, _, full) => full.value.is_some() || has_both(&full.left, &full.right),
    }
}

/// Returns true if both links hold a node.
fn has_both<V, A: Allocator>(left: &Link<V, A>, right: &Link<V, A>) -> bool
    ensures both { IsTrue result → IsFilled left.now × IsFilled right.now }
    ensures lacking { result ≡ false → IsVacant left.now ⊎ IsVacant right.now }
{
    !left.is_empty() && !right.is_empty()
}

/// Returns the two sides of a node that has no value and fewer than two branches.
fn into_sides<V: Drop, A: Allocator + Drop>(link: Link<V, A>) -> (Link<V, A>, Link<V, A>)
    requires lone { IsLone link }
    requires lawful { IsLawfulBelow link }
    ensures { AreSidesOf link result.0 result.1 }
{
    match link {
        Link::Fork(_, _, fork) => {
            let ForkNode {
                prefix: _,
                left,
                right,
            } = Box::into_inner(fork);
            (left, right)
        }
        Link::Full(_, _, full) => {
            let FullNode {
                prefix: _,
                value: _,
                left,
                right,
            } = Box::into_inner(full);
            (left, right)
        }
        Link::Empty | Link::Leaf(..) => unreachable!(),
    }
}
