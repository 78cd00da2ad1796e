//! Iterating over the pairs whose prefix covers an address, or contains a prefix.

ghost use Rattle.std.specs.Prelude.{◌≡◌, ◌<◌, ◌≤◌};
ghost use Rattle.rt_trie.specs.Halves.{middle};
ghost use Rattle.rt_trie.specs.inside.Lawful.{IsLawfulTrie};
ghost use Rattle.rt_trie.specs.Map.{Pairs};
ghost use Rattle.rt_trie.specs.inside.Links.{pairs, covers_to, covering_to, covering_below, IsLawfulOn};

use crate::nodes::{Link, NodeView, middle};
use rt_cidr::{Addr, Prefix};
use std::alloc::Allocator;
use std::fmt;
use std::marker::Model;

/// An iterator over the pairs of a trie whose prefix covers an address, or contains a prefix, the shortest first.
/// Descends once. Doesn't allocate.
#[derive(Drop)]
pub struct Covering<'a, V, A: Allocator> {
    // The link below which the remaining pairs are.
    below: Option<&'a Link<V, A>>,
    address: Addr,
    /// The maximum length of a prefix.
    most: u8,
}

impl<'a, V, A: Allocator> Model for Covering<'a, V, A> {
    ghost Value = { Pairs V };

    ghost view = { λ c. covering_below c.below c.most c.address };

    ghost invariant = { λ c. IsLawfulOn c.below };
}

impl<'a, V, A: Allocator> Covering<'a, V, A> {
    /// Returns an iterator over the pairs whose prefix has at most `most` bits and covers the address.
    pub(crate) fn new(root: &'a Link<V, A>, address: Addr, most: u8) -> Covering<'a, V, A>
        requires { IsLawfulTrie root.now }
        ensures { result ≡ covering_to most (pairs root.now) address }
    {
        Covering {
            below: Some(root),
            address,
            most,
        }
    }
}

/// Shows the address, but no nodes.
impl<'a, V, A: Allocator> fmt::Debug for Covering<'a, V, A> {
    fn fmt<W: fmt::Write>(&self, f: &mut fmt::Formatter<W>) -> fmt::Result {
        f.debug_struct("Covering")
            .field("address", &self.address)
            .finish_non_exhaustive()
    }
}

impl<'a, V, A: Allocator> Iterator for Covering<'a, V, A> {
    ghost use Rattle.std.specs.Iterator.{YieldsFirstBy, item_count};

    type Item = (Prefix, &'a V);

    ghost next_gives = { YieldsFirstBy (λ x. (x.0, x.1.now)) (λ s. s) };

    ghost remaining = { item_count (λ s. s) };

    fn next(&mut self) -> Option<(Prefix, &'a V)> {
        while let Some(link) = self.below {
            match link.view() {
                NodeView::Branch(prefix, value, left, right)
                    if covers_to(&prefix, self.address, self.most) => {
                    self.below = Some(half(&prefix, self.address, left, right));
                    if let Some(value) = value {
                        return Some((prefix, value));
                    }
                }
                NodeView::Single(prefix, value) if covers_to(&prefix, self.address, self.most) => {
                    self.below = None;
                    return Some((prefix, value));
                }
                _ => self.below = None,
            }
        }
        None
    }
}

/// Returns true if the prefix has at most `most` bits and covers the address.
fn covers_to(prefix: &Prefix, address: Addr, most: u8) -> bool
    ensures { result ≡ covers_to most prefix.now address }
{
    prefix.len() <= most && prefix.covers(address)
}

/// Returns the side of the prefix's node that the address is on.
fn half<'a, V, A: Allocator>(
    prefix: &Prefix,
    address: Addr,
    left: &'a Link<V, A>,
    right: &'a Link<V, A>,
) -> &'a Link<V, A>
    ensures lower { address.0 < middle prefix.now → result.now ≡ left.now }
    ensures upper { middle prefix.now ≤ address.0 → result.now ≡ right.now }
{
    if u64::from(address.0) < middle(prefix.len(), prefix.base()) {
        left
    } else {
        right
    }
}
