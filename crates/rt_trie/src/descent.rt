//! Lending the value at a prefix. A `&mut` that was found by descending in a loop can't be returned. So each step down
//! is a type of its own, and a descent has as many steps as a trie can have levels.

ghost use Rattle.std.specs.Prelude.{◌≡◌, ℕ, suc};
ghost use Rattle.std.specs.Borrow.{sem};
ghost use Rattle.std.specs.Option.{option_copied_mut};
ghost use Rattle.rt_trie.specs.inside.Descent.{found};
ghost use Rattle.rt_trie.specs.inside.Lends.{lends_found};

use crate::nodes::{Link, is_key_of, middle};
use rt_cidr::Prefix;
use std::alloc::Allocator;
use std::marker::PhantomData;

/// A descent of `depth` steps.
pub(crate) trait Descent {
    ghost depth: { ℕ };

    /// Returns the value at p, if a node within `depth` levels stores it.
    fn find<V, A: Allocator>(link: &mut Link<V, A>, p: Prefix) -> Option<&mut V>
        ensures* writes_back { sem 𝓛 (lends_found V.row A.row A.Allocator depth link.entry p result) }
        ensures value { option_copied_mut result ≡ found depth link.old p };
}

/// A descent of no steps.
pub(crate) struct Stop;

/// A descent of one step more than `L`.
pub(crate) struct Deeper<L>(PhantomData<L>);

impl Descent for Stop {
    ghost depth = { 0 };

    fn find<V, A: Allocator>(_link: &mut Link<V, A>, _p: Prefix) -> Option<&mut V> {
        None
    }
}

impl<L: Descent> Descent for Deeper<L> {
    ghost depth = { suc L.depth };

    fn find<V, A: Allocator>(link: &mut Link<V, A>, p: Prefix) -> Option<&mut V> {
        match *link {
            Link::Empty => None,
            Link::Leaf(len, base, ref mut leaf) => {
                if is_key_of(len, base, &p) {
                    Some(&mut leaf.value)
                } else {
                    None
                }
            }
            Link::Fork(len, base, ref mut fork) => {
                if p.len() <= len {
                    None
                } else if (p.base() as u64) < middle(len, base) {
                    L::find(&mut fork.left, p)
                } else {
                    L::find(&mut fork.right, p)
                }
            }
            Link::Full(len, base, ref mut full) => {
                if p.len() <= len {
                    if is_key_of(len, base, &p) {
                        full.value.as_mut()
                    } else {
                        None
                    }
                } else if (p.base() as u64) < middle(len, base) {
                    L::find(&mut full.left, p)
                } else {
                    L::find(&mut full.right, p)
                }
            }
        }
    }
}

type Eleven<L> = Deeper<
    Deeper<Deeper<Deeper<Deeper<Deeper<Deeper<Deeper<Deeper<Deeper<Deeper<L>>>>>>>>>>,
>;

/// A descent of 33 steps: one for each length that a prefix can have.
pub(crate) type WayDown = Eleven<Eleven<Eleven<Stop>>>;
