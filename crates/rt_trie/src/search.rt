//! The look-ups. They descend from the root in a loop, and don't allocate. The look-ups of a prefix and of an address
//! are the same descent; a loop can't return a `&mut`, so the look-up for writing has its own (`descent`). All pairs in
//! a prefix are one branch.

ghost use Rattle.std.specs.Prelude.{◌≡◌, ℕ, ◌+◌, ◌<◌, ◌≤◌, false, Option, None, IfSome, IsTrue, length};
ghost use Rattle.std.specs.Option.{option_copied};
ghost use Rattle.rt_trie.specs.Map.{get, first, next_after, within, pair_copied, IsLongest, AreLongest, address_at, answer_at};
ghost use Rattle.rt_trie.specs.inside.Links.{pairs, count, or_else, last_cover, no_longer, pairs_below, IsNoLonger};
ghost use Rattle.rt_trie.specs.inside.Lawful.{root, IsLawfulBelow, IsLawfulTrie};
ghost use Rattle.rt_trie.specs.declared.search.TheConstants.{LANES};

use crate::nodes::{END, Link, NodeView, Position, offset, position_of, side};
use rt_cidr::{Addr, Prefix};
use std::alloc::Allocator;

/// Returns the value at a prefix, if it is stored. It looks up the longest match of the prefix's first address among
/// the prefixes that aren't longer.
pub(crate) fn get<V, A: Allocator>(root: &Link<V, A>, p: Prefix) -> Option<&V>
    requires { IsLawfulTrie root.now }
    ensures { option_copied result ≡ get (pairs root.now) p }
{
    match longest_to(root, Addr(p.base()), p.len()) {
        Some((found, value)) if found == p => Some(value),
        _ => None,
    }
}

/// Returns the pair of the longest prefix that covers the address.
pub(crate) fn longest<V, A: Allocator>(root: &Link<V, A>, address: Addr) -> Option<(Prefix, &V)>
    requires { IsLawfulTrie root.now }
    ensures { IsLongest (pairs root.now) address (pair_copied result) }
{
    longest_to(root, address, 32)
}

/// Returns the pair of the longest prefix that has at most `most` bits and covers the address.
#[inline(always)]
fn longest_to<V, A: Allocator>(root: &Link<V, A>, address: Addr, most: u8) -> Option<(Prefix, &V)>
    requires { IsLawfulTrie root.now }
    ensures { last_cover (no_longer most (pairs root.now)) address ≡ pair_copied result }
{
    let mut best = None;
    let mut link = root;
    while is_no_longer(link, most) {
        match step(link, address, &mut best) {
            None => return best,
            Some(below) => link = below,
        }
    }
    best
}

/// Returns true if the link's node, if it holds one, has at most `most` bits. For 32 bits, which no prefix exceeds, the
/// link isn't read.
#[inline(always)]
fn is_no_longer<V, A: Allocator>(link: &Link<V, A>, most: u8) -> bool
    requires { IsLawfulBelow link.now }
    ensures within { IsTrue result → IsNoLonger most link.now }
    ensures past { result ≡ false → IfSome (root link.now) (λ q. most < q.len) }
{
    if most >= 32 {
        return true;
    }
    match link {
        Link::Empty => true,
        Link::Leaf(len, _, _) | Link::Fork(len, _, _) | Link::Full(len, _, _) => *len <= most,
    }
}

/// Does one step of a look-up at a link, and returns the link at which it continues, if it does. If the node stores a
/// pair that covers the address, `best` becomes that pair; in all other cases it isn't written.
#[inline(always)]
pub(crate) fn step<'a, V, A: Allocator>(
    link: &'a Link<V, A>,
    address: Addr,
    best: &mut Option<(Prefix, &'a V)>,
) -> Option<&'a Link<V, A>>
    requires { IsLawfulBelow link.now }
    ensures lawful { IfSome result (λ next. IsLawfulBelow next.now) }
    ensures down { IfSome result (λ next. count next.now < count link.now) }
    ensures sought { (most : ℕ) → IsNoLonger most link.now
        → or_else (last_cover (no_longer most (pairs_below result)) address) (pair_copied best.new)
        ≡ or_else (last_cover (no_longer most (pairs link.now)) address) (pair_copied best.old) }
{
    match link {
        Link::Empty => None,
        Link::Leaf(len, base, leaf) => {
            if offset(*len, *base, address.0) < END {
                let leaf = leaf.as_ref();
                *best = Some((leaf.prefix, &leaf.value));
            }
            None
        }
        Link::Fork(len, base, fork) => {
            let offset = offset(*len, *base, address.0);
            if offset >= END {
                return None;
            }
            let fork = fork.as_ref();
            Some(side(offset, &fork.left, &fork.right))
        }
        Link::Full(len, base, full) => {
            let offset = offset(*len, *base, address.0);
            if offset >= END {
                return None;
            }
            let full = full.as_ref();
            if let Some(value) = &full.value {
                *best = Some((full.prefix, value));
            }
            Some(side(offset, &full.left, &full.right))
        }
    }
}

/// The number of look-ups that `Trie::longest_many` does in turn, so that their waits for memory overlap.
pub const LANES: usize = 8;

/// Replaces each answer by the pair of the longest prefix for the address with the same index.
pub(crate) fn longest_many<'a, V, A: Allocator>(
    root: &'a Link<V, A>,
    addresses: &[Addr],
    answers: &mut [Option<(Prefix, &'a V)>],
)
    requires lawful { IsLawfulTrie root.now }
    requires size { length answers.old ≡ length addresses.now }
    ensures { AreLongest (pairs root.now) addresses.now answers.new }
{
    let mut start = 0;
    while start < addresses.len() {
        let size = (addresses.len() - start).min(LANES);
        longest_in_lanes(root, addresses, answers, start, size);
        start += size;
    }
}

/// Computes the answers for `size` addresses from `start` on, one in each lane. The first `going` lanes of `order`
/// still proceed, one step each in turn; a lane that ends is replaced in `order` by the last of them.
fn longest_in_lanes<'a, V, A: Allocator>(
    root: &'a Link<V, A>,
    addresses: &[Addr],
    answers: &mut [Option<(Prefix, &'a V)>],
    start: usize,
    size: usize,
)
    requires lawful { IsLawfulTrie root.now }
    requires lanes { size ≤ LANES }
    requires within { start + size ≤ length addresses.now }
    requires size { length answers.old ≡ length addresses.now }
    ensures each { (j : ℕ) → j < size
        → IsLongest (pairs root.now) (address_at addresses.now (start + j)) (answer_at answers.new (start + j)) }
    ensures rest { (k : ℕ) → k < start → answer_at answers.new k ≡ answer_at answers.old k }
{
    let mut lanes = [root; LANES];
    let mut order = [0; LANES];
    for k in 0..size {
        order[k] = k;
        answers[start + k] = None;
    }
    let mut going = size;
    let mut k = 0;
    while going > 0 {
        let lane = order[k];
        match step(
            lanes[lane],
            addresses[start + lane],
            &mut answers[start + lane],
        ) {
            Some(below) => {
                lanes[lane] = below;
                k += 1;
            }
            None => {
                going -= 1;
                order[k] = order[going];
            }
        }
        k = turn(k, going);
    }
}

/// Returns the index whose turn is next: k, or 0 if there is no lane at k.
#[inline(always)]
fn turn(k: usize, going: usize) -> usize
    ensures { 0 < going → result < going }
{
    if k < going { k } else { 0 }
}

/// Returns the branch with exactly the pairs whose prefix is p or in p, if there are any.
pub(crate) fn branch_within<V, A: Allocator>(root: &Link<V, A>, p: Prefix) -> Option<&Link<V, A>>
    requires { IsLawfulTrie root.now }
    ensures pairs { within (pairs root.now) p ≡ pairs_below result }
    ensures lawful { IfSome result (λ branch. IsLawfulTrie branch.now) }
{
    let mut link = root;
    loop {
        match link.view() {
            NodeView::Vacant => return None,
            NodeView::Single(prefix, _) => {
                return if p.contains(&prefix) {
                    Some(link)
                } else {
                    None
                };
            }
            NodeView::Branch(prefix, _, left, right) => {
                match position_of(prefix.len(), prefix.base(), &p) {
                    Position::Here | Position::Above => return Some(link),
                    Position::Left => link = left,
                    Position::Right => link = right,
                    Position::Apart => return None,
                }
            }
        }
    }
}

/// Returns the lowest prefix stored below the link, by base and then by length.
pub(crate) fn first<V, A: Allocator>(root: &Link<V, A>) -> Option<Prefix>
    requires { IsLawfulTrie root.now }
    ensures { result ≡ first (pairs root.now) }
{
    let mut link = root;
    loop {
        match link.view() {
            NodeView::Vacant => return None,
            NodeView::Single(prefix, _) => return Some(prefix),
            NodeView::Branch(prefix, value, left, _) => {
                if value.is_some() {
                    return Some(prefix);
                }
                link = left;
            }
        }
    }
}

/// Returns the lowest prefix stored below the link that comes after p, by base and then by length.
pub(crate) fn after<V, A: Allocator>(link: &Link<V, A>, p: Prefix) -> Option<Prefix>
    requires { IsLawfulTrie link.now }
    ensures { result ≡ next_after (pairs link.now) p }
{
    match link.view() {
        NodeView::Vacant => None,
        NodeView::Single(stored, _) => { if p < stored { Some(stored) } else { None } }
        NodeView::Branch(prefix, _, left, right) => {
            match position_of(prefix.len(), prefix.base(), &p) {
                Position::Here | Position::Left => match after(left, p) {
                    None => first(right),
                    found => found,
                },
                Position::Right => after(right, p),
                Position::Above | Position::Apart => if p < prefix { first(link) } else { None },
            }
        }
    }
}
