//! Iterating over all pairs, in order.

ghost use Rattle.std.specs.Prelude.{◌≡◌, ℕ, ◌+◌, ◌<◌, Some, length};
ghost use Rattle.rt_trie.specs.Map.{Pairs, within};
ghost use Rattle.rt_trie.specs.FromPrefix.{from_prefix};
ghost use Rattle.rt_trie.specs.inside.Lawful.{IsLawfulTrie};
ghost use Rattle.rt_trie.specs.inside.Links.{pairs};
ghost use Rattle.rt_trie.specs.inside.References.{link_at};
ghost use Rattle.rt_trie.specs.inside.WalkStack.{stack_pairs, IsWalkStack, IsStepTo};

use crate::nodes::{Link, NodeView, PLACES, Position, position_of};
use crate::search::branch_within;
use rt_cidr::Prefix;
use std::alloc::Allocator;
use std::fmt;
use std::marker::Model;

/// An iterator over the pairs of a trie, by base and then by length. A whole walk visits each node once. Doesn't
/// allocate.
#[derive(Drop)]
pub struct Walk<'a, V, A: Allocator> {
    // The links whose pairs remain, the next one last. A node at index k has a length of at least k.
    stack: [&'a Link<V, A>; PLACES],
    len: usize,
}

impl<'a, V, A: Allocator> Model for Walk<'a, V, A> {
    ghost Value = { Pairs V };

    ghost view = { λ w. stack_pairs w.stack w.len };

    ghost invariant = { λ w. IsWalkStack w.stack w.len };
}

impl<'a, V, A: Allocator> Walk<'a, V, A> {
    pub(crate) fn new(root: &'a Link<V, A>) -> Walk<'a, V, A>
        requires { IsLawfulTrie root.now }
        ensures { result ≡ pairs root.now }
    {
        Walk {
            stack: [root; PLACES],
            len: 1,
        }
    }

    /// Returns an iterator over the pairs whose prefix is p or in p.
    pub(crate) fn within(root: &'a Link<V, A>, p: Prefix) -> Walk<'a, V, A>
        requires { IsLawfulTrie root.now }
        ensures { result ≡ within (pairs root.now) p }
    {
        match branch_within(root, p) {
            Some(branch) => Walk::new(branch),
            None => Walk {
                stack: [root; PLACES],
                len: 0,
            },
        }
    }

    /// Returns an iterator over the pairs of p and of the prefixes that come after it. Descends once, and pushes the
    /// links after its path on the stack.
    pub(crate) fn from_prefix(root: &'a Link<V, A>, p: Prefix) -> Walk<'a, V, A>
        requires { IsLawfulTrie root.now }
        ensures { result ≡ from_prefix (pairs root.now) p }
    {
        let mut stack = [root; PLACES];
        let mut len = 0;
        let mut link = root;
        loop {
            match step_to(link, p) {
                StepTo::Whole => {
                    put(&mut stack[..], len, link);
                    return Walk {
                        stack,
                        len: len + 1,
                    };
                }
                StepTo::Nothing => return Walk { stack, len },
                StepTo::Lower(left, right) => {
                    put(&mut stack[..], len, right);
                    len += 1;
                    link = left;
                }
                StepTo::Upper(right) => link = right,
            }
        }
    }
}

/// The part of a link that has the pairs from a prefix on.
enum StepTo<'a, V, A: Allocator> {
    /// All of the link.
    Whole,
    /// Nothing.
    Nothing,
    /// The left side from the prefix on, and all of the right side.
    Lower(&'a Link<V, A>, &'a Link<V, A>),
    /// The right side from the prefix on.
    Upper(&'a Link<V, A>),
}

/// Returns the part of the link that has the pairs from p on.
fn step_to<V, A: Allocator>(link: &Link<V, A>, p: Prefix) -> StepTo<'_, V, A>
    requires { IsLawfulTrie link.now }
    ensures { IsStepTo link.now p result }
{
    match link.view() {
        NodeView::Vacant => StepTo::Nothing,
        NodeView::Single(prefix, _) => {
            if prefix < p {
                StepTo::Nothing
            } else {
                StepTo::Whole
            }
        }
        NodeView::Branch(prefix, _, left, right) => {
            match position_of(prefix.len(), prefix.base(), &p) {
                Position::Left => StepTo::Lower(left, right),
                Position::Right => StepTo::Upper(right),
                Position::Here | Position::Above | Position::Apart => {
                    if prefix < p {
                        StepTo::Nothing
                    } else {
                        StepTo::Whole
                    }
                }
            }
        }
    }
}

/// Shows the number of links on the stack, but not the links.
impl<'a, V, A: Allocator> fmt::Debug for Walk<'a, V, A> {
    fn fmt<W: fmt::Write>(&self, f: &mut fmt::Formatter<W>) -> fmt::Result {
        f.debug_struct("Walk")
            .field("len", &self.len)
            .finish_non_exhaustive()
    }
}

impl<'a, V, A: Allocator> Iterator for Walk<'a, V, A> {
    ghost use Rattle.std.specs.Iterator.{YieldsFirstBy, item_count};

    type Item = (Prefix, &'a V);

    ghost next_gives = { YieldsFirstBy (λ x. (x.0, x.1.now)) (λ s. s) };

    ghost remaining = { item_count (λ s. s) };

    fn next(&mut self) -> Option<(Prefix, &'a V)> {
        while self.len > 0 {
            self.len -= 1;
            let at = self.len;
            match link_at(&self.stack[..], at).view() {
                NodeView::Vacant => {}
                NodeView::Single(prefix, value) => return Some((prefix, value)),
                NodeView::Branch(prefix, value, left, right) => {
                    put_sides(&mut self.stack[..], at, right, left);
                    self.len = at + 2;
                    if let Some(value) = value {
                        return Some((prefix, value));
                    }
                }
            }
        }
        None
    }
}

/// Returns the link at an index.
fn link_at<'a, V, A: Allocator>(stack: &[&'a Link<V, A>], k: usize) -> &'a Link<V, A>
    requires { k < length stack.now }
    ensures { link_at stack.now k ≡ Some result.now }
{
    stack[k]
}

/// Stores a link at an index.
fn put<'a, V, A: Allocator>(stack: &mut [&'a Link<V, A>], k: usize, link: &'a Link<V, A>)
    requires { k < length stack.old }
    ensures here { link_at stack.new k ≡ Some link.now }
    ensures below { (j : ℕ) → j < k → link_at stack.new j ≡ link_at stack.old j }
    ensures size { length stack.new ≡ length stack.old }
{
    stack[k] = link;
}

/// Stores two links, at an index and after it.
fn put_sides<'a, V, A: Allocator>(
    stack: &mut [&'a Link<V, A>],
    k: usize,
    right: &'a Link<V, A>,
    left: &'a Link<V, A>,
)
    requires { k + 1 < length stack.old }
    ensures right { link_at stack.new k ≡ Some right.now }
    ensures left { link_at stack.new (k + 1) ≡ Some left.now }
    ensures below { (j : ℕ) → j < k → link_at stack.new j ≡ link_at stack.old j }
    ensures size { length stack.new ≡ length stack.old }
{
    stack[k] = right;
    stack[k + 1] = left;
}
