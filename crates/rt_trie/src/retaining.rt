//! Visiting all values in place, and removing those that a caller rejects, which doesn't allocate.

ghost use Rattle.std.specs.Prelude.{◌≡◌, Bool, ◌+◌, ◌≤◌, false, length};
ghost use Rattle.rt_cidr.specs.declared.prefixes.Prefix.{Prefix};
ghost use Rattle.rt_trie.specs.inside.Links.{own_pair, pairs, count, IsLeafOf};
ghost use Rattle.rt_trie.specs.inside.Lawful.{IsLawfulTrie};
ghost use Rattle.rt_trie.specs.Retained.{IsRetained};
ghost use Rattle.rt_trie.specs.inside.Retained.{IsRetainedLink};

use crate::nodes::Link;
use crate::removal::splice;
use rt_cidr::Prefix;
use std::alloc::Allocator;

/// Is shown the pairs of a map, one by one, and decides which of them stay. It may change each value, and itself.
pub trait RetainFilter<V> {
    /// True if it wants to be shown no more pairs.
    ghost done: { Self → Bool };

    /// Relates the filter and the value before a call for this pair, the filter and the value after it, and whether the
    /// pair stays.
    ghost judges: { Self → Prefix → V → Self → V → Bool → Type 0 };

    /// Returns true if it wants to be shown no more pairs: those it wasn't shown stay unchanged.
    fn is_done(&self) -> bool
        ensures { result ≡ done self.now };

    /// Returns true if the pair stays, with the value as it is after the call.
    fn keeps(&mut self, prefix: Prefix, value: &mut V) -> bool
        requires { done self.old ≡ false }
        ensures { judges self.old prefix value.old self.new value.new result };
}

/// Shows the filter the pairs below the link.
pub(crate) fn retain<V: Drop, A: Allocator + Drop, S: RetainFilter<V>>(
    link: &mut Link<V, A>,
    nodes: &mut usize,
    len: &mut usize,
    filter: &mut S,
)
    requires lawful { IsLawfulTrie link.old }
    requires nodes { count link.old ≤ nodes.old }
    requires len { length (pairs link.old) ≤ len.old }
    ensures retained { IsRetainedLink S.done S.judges filter.old filter.new link.old link.new }
    ensures nodes { nodes.new + count link.old ≡ nodes.old + count link.new }
    ensures len { len.new + length (pairs link.old) ≡ len.old + length (pairs link.new) }
{
    if filter.is_done() {
        return;
    }
    match link {
        Link::Empty => return,
        Link::Leaf(..) => {
            retain_leaf(link, nodes, len, filter);
            return;
        }
        Link::Fork(_, _, fork) => {
            let fork = fork.as_mut();
            retain(&mut fork.left, nodes, len, filter);
            retain(&mut fork.right, nodes, len, filter);
        }
        Link::Full(_, _, full) => {
            let full = full.as_mut();
            retain_own(full.prefix, &mut full.value, len, filter);
            retain(&mut full.left, nodes, len, filter);
            retain(&mut full.right, nodes, len, filter);
        }
    }
    splice(link, nodes);
}

/// Shows the filter a leaf's pair.
fn retain_leaf<V: Drop, A: Allocator + Drop, S: RetainFilter<V>>(
    link: &mut Link<V, A>,
    nodes: &mut usize,
    len: &mut usize,
    filter: &mut S,
)
    requires leaf { (q : Prefix) × IsLeafOf q link.old }
    requires lawful { IsLawfulTrie link.old }
    requires wanted { S.done filter.old ≡ false }
    requires nodes { 1 ≤ nodes.old }
    requires len { 1 ≤ len.old }
    ensures retained { IsRetainedLink S.done S.judges filter.old filter.new link.old link.new }
    ensures nodes { nodes.new + count link.old ≡ nodes.old + count link.new }
    ensures len { len.new + length (pairs link.old) ≡ len.old + length (pairs link.new) }
{
    let Link::Leaf(_, _, leaf) = link else {
        unreachable!()
    };
    if !filter.keeps(leaf.prefix, &mut leaf.value) {
        *link = Link::Empty;
        *nodes -= 1;
        *len -= 1;
    }
}

/// Shows the filter a node's own pair, if it has a value.
fn retain_own<V: Drop, S: RetainFilter<V>>(
    prefix: Prefix,
    value: &mut Option<V>,
    len: &mut usize,
    filter: &mut S,
)
    requires wanted { S.done filter.old ≡ false }
    requires len { length (own_pair prefix value.old) ≤ len.old }
    ensures retained { IsRetained S.done S.judges filter.old filter.new (own_pair prefix value.old) (own_pair prefix value.new) }
    ensures len { len.new + length (own_pair prefix value.old) ≡ len.old + length (own_pair prefix value.new) }
{
    if let Some(held) = value {
        if !filter.keeps(prefix, held) {
            *value = None;
            *len -= 1;
        }
    }
}
