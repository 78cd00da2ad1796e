//! Theorems about the map in the contracts, and about the halves of a prefix. Each function does nothing: its contract
//! is the theorem.

ghost use Rattle.rt_trie.specs.Laws.{PutIsSeen, EraseIsSeen, PutKeepsOrder, EraseKeepsOrder, PairsAreFound, MapHasOneList};
ghost use Rattle.rt_trie.specs.Laws.{FirstIsLeast, NoneIsFirst, AfterIsNext, NoneIsAfter, ChildByNextBit};

/// An insertion and a removal only change the value at their own prefix, and keep the pairs in order.
pub fn changes<V>()
    ensures put { PutIsSeen V }
    ensures erase { EraseIsSeen V }
    ensures put_in_order { PutKeepsOrder V }
    ensures erase_in_order { EraseKeepsOrder V }
{}

/// A pair is in the list of a map if and only if its value is stored at its prefix. Each map has only one list.
pub fn one_list<V>()
    ensures found { PairsAreFound V }
    ensures one { MapHasOneList V }
{}

/// The first prefix is the lowest stored one. The next one after p is the stored prefix after p with no other in
/// between.
pub fn least<V>()
    ensures first { FirstIsLeast V }
    ensures none_first { NoneIsFirst V }
    ensures after { AfterIsNext V }
    ensures none_after { NoneIsAfter V }
{}

/// A longer prefix is in the lower or upper half of a prefix's addresses if and only if it is contained in the prefix
/// and has the bit 0 or 1, respectively, after the prefix's length. A node's children are such prefixes.
pub fn halves()
    ensures { ChildByNextBit }
{}
