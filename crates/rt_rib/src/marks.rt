//! Marks that say where a feed may have routes, so that a purge of few routes needn't visit the whole map. They are only
//! a hint: no clause mentions them, and whoever uses them checks what they lead to and removes the rest in another way.
use crate::limits::MAX_FEEDS;
use crate::map::OfferMap;
use crate::offers::Offer;
use crate::refused::Refused;
use rt_cidr::Prefix;
use std::alloc::Allocator;

/// A mark has a bit for each feed.
const _: () = prove!(MAX_FEEDS <= 64);

/// The number of blocks, each of 65,536 addresses.
const BLOCKS: u32 = 1 << 16;

/// The least number of prefixes with which marks are made. Below it a walk over the map takes less than a millisecond.
const LEAST_PREFIXES: usize = 1 << 14;

/// The number of prefixes below which marks are freed.
const FEWEST_PREFIXES: usize = 1 << 12;

/// For each block of addresses, the feeds that may have a route to a prefix with its base there.
#[derive(Drop)]
pub(crate) struct FeedMarks<A: Allocator> {
    /// Bit `feed - 1` of each block's number is the feed's. There are none while the table is small.
    blocks: Vec<u64, A>,
}

/// Returns the feed's bit.
fn bit_of(feed: u32) -> u64 {
    1u64 << (feed.wrapping_sub(1) & 63)
}

/// Returns the block of the prefix's base.
fn block_of(prefix: Prefix) -> u32 {
    prefix.base() >> 16
}

/// Returns the first prefix, in the map's order, with this base.
fn shortest_at(base: u32) -> Option<Prefix> {
    let len = 32u32.saturating_sub(base.trailing_zeros());
    Prefix::new(base, len as u8).ok()
}

/// Returns the next prefix in the map's order.
fn successor(prefix: Prefix) -> Option<Prefix> {
    if prefix.len() < 32 {
        return Prefix::new(prefix.base(), prefix.len() + 1).ok();
    }
    shortest_at(prefix.base().checked_add(1)?)
}

/// Returns the first prefix from `from` on to which the feed has a route, unless its base is above `last`.
fn first_between<A: Allocator + Copy>(
    map: &OfferMap<A>,
    feed: u32,
    from: Prefix,
    last: u32,
) -> Option<Prefix> {
    for (prefix, offers) in map.trie.walk_from(from) {
        if prefix.base() > last {
            return None;
        }
        if offers.has(feed) {
            return Some(prefix);
        }
    }
    None
}

/// Returns the first prefix of the block from `from` on to which the feed has a route.
fn first_in_block<A: Allocator + Copy>(
    map: &OfferMap<A>,
    feed: u32,
    from: Prefix,
    block: u32,
) -> Option<Prefix> {
    let base = block << 16;
    let last = base | 0xffff;
    if block_of(from) == block {
        return first_between(map, feed, from, last);
    }
    first_between(map, feed, shortest_at(base)?, last)
}

impl<A: Allocator + Copy> FeedMarks<A> {
    /// Returns no marks. Doesn't allocate.
    pub(crate) fn new(alloc: A) -> FeedMarks<A> {
        FeedMarks {
            blocks: Vec::new(alloc),
        }
    }

    /// Returns the number of bytes that are allocated for the marks.
    pub(crate) fn bytes(&self) -> usize {
        self.blocks.capacity().saturating_mul(8)
    }

    /// Marks that the feed may have a route to the prefix, if there are marks.
    pub(crate) fn mark(&mut self, feed: u32, prefix: Prefix) {
        if let Some(feeds) = self.blocks.get_mut(block_of(prefix) as usize) {
            *feeds |= bit_of(feed);
        }
    }

    /// Marks the feeds of the offers for the prefix.
    fn mark_offers(&mut self, prefix: Prefix, offers: &[Offer]) {
        for offer in offers {
            self.mark(offer.feed, prefix);
        }
    }

    /// Makes the marks of all routes when the map has become large. If memory runs out for that, there are none until it
    /// is twice as large.
    pub(crate) fn make_if_large(&mut self, alloc: A, map: &OfferMap<A>) {
        let len = map.len();
        if !self.blocks.is_empty() || len < LEAST_PREFIXES || len & len.wrapping_sub(1) != 0 {
            return;
        }
        if let Ok(marks) = FeedMarks::of_all(alloc, map) {
            *self = marks;
        }
    }

    /// Frees the marks if the map has become small.
    pub(crate) fn free_if_small(&mut self, alloc: A, map: &OfferMap<A>) {
        if map.len() < FEWEST_PREFIXES && !self.blocks.is_empty() {
            self.blocks = Vec::new(alloc);
        }
    }

    /// Returns the marks of all routes.
    fn of_all(alloc: A, map: &OfferMap<A>) -> Result<FeedMarks<A>, Refused> {
        let mut blocks = Vec::with_capacity(alloc, BLOCKS as usize)?;
        blocks.resize(BLOCKS as usize, 0u64)?;
        let mut marks = FeedMarks { blocks };
        for (prefix, offers) in map.trie.walk() {
            marks.mark_offers(prefix, offers.as_slice());
        }
        Ok(marks)
    }

    /// Removes the feed's marks. It must have no route.
    pub(crate) fn clear(&mut self, feed: u32) {
        let others = !bit_of(feed);
        for feeds in &mut self.blocks {
            *feeds &= others;
        }
    }

    /// Returns true if the feed may have a route in the block.
    fn is_marked(&self, feed: u32, block: u32) -> bool {
        match self.blocks.get(block as usize) {
            Some(feeds) => *feeds & bit_of(feed) != 0,
            None => false,
        }
    }

    /// Returns the first prefix from `from` on to which the feed has a route. Visits only the feed's blocks; without marks,
    /// all prefixes up to that one.
    pub(crate) fn next(&self, map: &OfferMap<A>, feed: u32, from: Prefix) -> Option<Prefix> {
        if self.blocks.is_empty() {
            return first_between(map, feed, from, u32::MAX);
        }
        for block in block_of(from)..BLOCKS {
            if self.is_marked(feed, block) {
                let found = first_in_block(map, feed, from, block);
                if found.is_some() {
                    return found;
                }
            }
        }
        None
    }

    /// Returns the first prefixes to which the feed has a route, `most` of them if there are as many.
    pub(crate) fn prefixes<B: Allocator + Copy>(
        &self,
        map: &OfferMap<A>,
        alloc: B,
        feed: u32,
        most: usize,
    ) -> Result<Vec<Prefix, B>, Refused> {
        let mut prefixes = Vec::with_capacity(alloc, most)?;
        let mut from = shortest_at(0);
        for _ in 0..most {
            let Some(start) = from else {
                return Ok(prefixes);
            };
            let Some(prefix) = self.next(map, feed, start) else {
                return Ok(prefixes);
            };
            prefixes.push(prefix)?;
            from = successor(prefix);
        }
        Ok(prefixes)
    }
}
