//! The map that callers use.

ghost use Rattle.std.specs.Prelude.{◌≡◌, ◌↔◌, IsTrue, ◌+◌, ◌-◌, ◌*◌, ◌≤◌, [], length, IsSome, IsOk, IfOk, IfErr, OnOk};
ghost use Rattle.std.specs.Borrow.{sem};
ghost use Rattle.std.specs.Option.{option_copied, option_copied_mut};
ghost use Rattle.rt_trie.specs.Map.{get, put, erase, first, next_after, covering, within, containing, pair_copied, IsOrdered, IsLongest, AreLongest};
ghost use Rattle.rt_trie.specs.FromPrefix.{from_prefix};
ghost use Rattle.rt_trie.specs.Nodes.{CountsNodes};
ghost use Rattle.rt_trie.specs.Lawful.{IsLawful};
ghost use Rattle.rt_trie.specs.Retained.{IsRetained};

use crate::covering::Covering;
use crate::descent::{Descent, WayDown};
use crate::insertion::NewValue;
use crate::matches::LongestMatchCursor;
use crate::nodes::Link;
use crate::retaining::{self, RetainFilter};
use crate::walks::Walk;
use crate::{insertion, removal, search};
use rt_cidr::{Addr, Prefix};
use std::alloc::Allocator;
use std::fmt;
use std::marker::Model;

/// A finite map from IPv4 prefixes to values, in any allocator that is `Copy`, which the map keeps.
///
/// There is a node only for a stored prefix or for a branch point, so a map of m prefixes has at most 2m - 1 nodes. A
/// look-up, an insertion and a removal read at most 33 of them, however many prefixes there are.
#[derive(Drop)]
pub struct Trie<V, A: Allocator> {
    root: Link<V, A>,
    len: usize,
    nodes: usize,
    alloc: A,
}

impl<V, A: Allocator> Model for Trie<V, A> {
    ghost use Rattle.rt_trie.specs.TrieContents.{TrieContents};

    ghost Value = { TrieContents V };

    ghost use Rattle.std.specs.Coded.{codes};
    ghost use Rattle.rt_trie.specs.inside.TreeCode.{tree_code};

    ghost coded = { Prim.hlevel (codes, tree_code) };

    ghost use Rattle.rt_trie.specs.inside.Trie.{contents_of, IsSoundTrie};

    ghost view = { contents_of };

    ghost invariant = { IsSoundTrie };
}

/// Shows the number of stored prefixes and of nodes, but no prefixes or nodes.
impl<V, A: Allocator> fmt::Debug for Trie<V, A> {
    fn fmt<W: fmt::Write>(&self, f: &mut fmt::Formatter<W>) -> fmt::Result {
        f.debug_struct("Trie")
            .field("len", &self.len)
            .field("nodes", &self.nodes)
            .finish_non_exhaustive()
    }
}

impl<V, A: Allocator + Copy> Trie<V, A> {
    ghost use Rattle.rt_trie.specs.TrieLends.{lends_value};

    /// Returns the empty map. Doesn't allocate.
    pub fn new(alloc: A) -> Trie<V, A>
        ensures pairs { result.pairs ≡ [] }
        ensures nodes { result.nodes ≡ 0 }
    {
        Trie {
            root: Link::Empty,
            len: 0,
            nodes: 0,
            alloc,
        }
    }

    /// Returns the number of stored prefixes.
    pub fn len(&self) -> usize
        ensures len { result ≡ length self.now.pairs }
        // The pairs are ordered by base and then by length, so no prefix is stored twice.
        ensures ordered { IsOrdered self.now.pairs }
    {
        self.len
    }

    /// Returns true if no prefix is stored.
    pub fn is_empty(&self) -> bool
        ensures { IsTrue result ↔ (self.now.pairs ≡ []) }
    {
        self.len() == 0
    }

    /// Returns the number of nodes: one for each stored prefix, and one for each other prefix at which two stored ones
    /// diverge. It is 0 for the empty map, and at most 2m - 1 for m prefixes.
    pub fn nodes(&self) -> usize
        ensures nodes { result ≡ self.now.nodes }
        ensures counted { CountsNodes self.now.pairs result }
        ensures bound { result ≤ 2 * length self.now.pairs - 1 }
        // They are the nodes of a lawful trie, and only the stored prefixes have values.
        ensures lawful { IsLawful self.now }
    {
        self.nodes
    }

    /// Returns the value at the prefix, if it is stored.
    pub fn get(&self, p: Prefix) -> Option<&V>
        ensures { option_copied result ≡ get self.now.pairs p }
    {
        search::get(&self.root, p)
    }

    /// Returns the value at the prefix for writing, if it is stored. The last value written is then stored at the
    /// prefix; the rest of the map is unchanged.
    pub fn get_mut(&mut self, p: Prefix) -> Option<&mut V>
        ensures* writes_back { sem 𝓛 (lends_value V.row A.row A.Allocator self.entry p result) }
        ensures value { option_copied_mut result ≡ get self.old.pairs p }
    {
        WayDown::find(&mut self.root, p)
    }

    /// Returns the longest stored prefix that covers the address, with its value (RFC 1812, section 5.2.4.3, Longest
    /// Match).
    pub fn longest(&self, a: Addr) -> Option<(Prefix, &V)>
        ensures { IsLongest self.now.pairs a (pair_copied result) }
    {
        search::longest(&self.root, a)
    }

    /// Replaces each answer by `longest` of the address with the same index. Eight look-ups proceed in turn, so that
    /// their waits for memory overlap, which is faster if the nodes aren't all in the cache. Doesn't allocate.
    pub fn longest_many<'a>(&'a self, addresses: &[Addr], answers: &mut [Option<(Prefix, &'a V)>])
        requires { length answers.old ≡ length addresses.now }
        ensures { AreLongest self.now.pairs addresses.now answers.new }
    {
        search::longest_many(&self.root, addresses, answers);
    }

    /// Returns a cursor for `longest` of one address after another, each with how far the answer holds. For rising
    /// addresses a look-up continues from the path of the previous one instead of from the root. Doesn't allocate.
    pub fn matches(&self) -> LongestMatchCursor<'_, V, A>
        ensures { result ≡ self.now.pairs }
    {
        LongestMatchCursor::new(&self.root)
    }

    /// Returns the pairs whose prefix covers the address (RFC 1812, section 5.2.4.3, Basic Match), the shortest first:
    /// the last one is `longest`. Descends once. Doesn't allocate.
    pub fn covering(&self, a: Addr) -> Covering<'_, V, A>
        ensures { result ≡ covering self.now.pairs a }
    {
        Covering::new(&self.root, a, 32)
    }

    /// Returns the pairs of the prefix and of the shorter ones that contain it, the shortest first; p need not be
    /// stored. Descends once. Doesn't allocate.
    pub fn containing(&self, p: Prefix) -> Covering<'_, V, A>
        ensures { result ≡ containing self.now.pairs p }
    {
        Covering::new(&self.root, Addr(p.base()), p.len())
    }

    /// Returns the pairs of the prefix and of the longer ones in it, each once, by base and then by length; p need not
    /// be stored. Descends once, and then visits each node of that branch once. Doesn't allocate.
    pub fn within(&self, p: Prefix) -> Walk<'_, V, A>
        ensures pairs { result ≡ within self.now.pairs p }
        ensures ordered { IsOrdered result }
    {
        Walk::within(&self.root, p)
    }

    /// Returns all pairs, each once, by base and then by length. Doesn't allocate.
    pub fn walk(&self) -> Walk<'_, V, A>
        ensures pairs { result ≡ self.now.pairs }
        ensures ordered { IsOrdered result }
    {
        Walk::new(&self.root)
    }

    /// Returns the pairs of the prefix and of those that come after it, each once, by base and then by length; p need
    /// not be stored. Descends once, and then visits each node after that path once. Doesn't allocate.
    pub fn walk_from(&self, p: Prefix) -> Walk<'_, V, A>
        ensures pairs { result ≡ from_prefix self.now.pairs p }
        ensures ordered { IsOrdered result }
    {
        Walk::from_prefix(&self.root, p)
    }

    /// Returns the lowest stored prefix, by base and then by length.
    pub fn first(&self) -> Option<Prefix>
        ensures { result ≡ first self.now.pairs }
    {
        search::first(&self.root)
    }

    /// Returns the lowest stored prefix that comes after p, by base and then by length; p need not be stored.
    pub fn after(&self, p: Prefix) -> Option<Prefix>
        ensures { result ≡ next_after self.now.pairs p }
    {
        search::after(&self.root, p)
    }
}

/// Calls that drop nodes or values.
impl<V: Drop, A: Allocator + Copy> Trie<V, A> {
    /// Inserts the value at the prefix, and returns the value that was stored there. If memory runs out, returns the
    /// given value as an `Err`, and the map and its nodes are unchanged. Doesn't allocate if the prefix is already
    /// stored.
    pub fn insert(&mut self, p: Prefix, v: V) -> Result<Option<V>, V>
        ensures put { OnOk result (self.new.pairs ≡ put self.old.pairs p v) }
        ensures had { IfOk result (λ had. had ≡ get self.old.pairs p) }
        ensures refused { IfErr result (λ back. (back ≡ v) × (self.new ≡ self.old)) }
        ensures stored_succeeds { IsSome (get self.old.pairs p) → IsOk result }
    {
        let mut given = NewValue {
            value: Some(v),
            alloc: self.alloc,
            nodes: self.nodes,
        };
        if insertion::insert(&mut self.root, p, &mut given) {
            self.nodes = given.nodes;
            if given.value.is_none() {
                self.len += 1;
            }
            return Ok(given.value);
        }
        let Some(back) = given.value else {
            unreachable!()
        };
        Err(back)
    }

    /// Removes the prefix with its value, and returns the value. Doesn't allocate.
    pub fn remove(&mut self, p: Prefix) -> Option<V>
        ensures erased { self.new.pairs ≡ erase self.old.pairs p }
        ensures had { result ≡ get self.old.pairs p }
    {
        let gone = removal::remove(&mut self.root, &mut self.nodes, p);
        if gone.is_some() {
            self.len -= 1;
        }
        gone
    }

    /// Shows the filter the pairs, each once, by base and then by length, until it is done, and removes those that it
    /// rejects. The others stay, each with the value that the filter gave it. Visits each node at most once. Doesn't
    /// allocate.
    pub fn retain<S: RetainFilter<V>>(&mut self, filter: &mut S)
        ensures retained { IsRetained S.done S.judges filter.old filter.new self.old.pairs self.new.pairs }
        ensures ordered { IsOrdered self.new.pairs }
    {
        retaining::retain(&mut self.root, &mut self.nodes, &mut self.len, filter);
    }
}
