//! Reading ahead. Before the first of several commands is answered, the trie is searched for all of them together, and
//! the offers found there are read, so that their waits for memory overlap.

use crate::commands::Cmd;
use crate::limits::MAX_FEEDS;
use crate::map::OfferMap;
use crate::offers::Offers;
use rt_cidr::{Addr, Prefix};
use rt_trie::LANES;
use std::alloc::Allocator;

/// The number of commands that are read ahead at once: the number of look-ups that the trie does in turn.
pub const READ_AHEAD_COMMANDS: usize = LANES;

/// A trie with fewer nodes fits in the cache: there is nothing to wait for, and nothing is read ahead.
pub const READ_AHEAD_NODES: usize = 8_192;

/// Visits what the first few of the commands concern. Changes nothing. Doesn't allocate.
pub(crate) fn read_ahead<A: Allocator + Copy>(map: &OfferMap<A>, cmds: &[Cmd]) {
    if map.nodes() < READ_AHEAD_NODES {
        return;
    }
    let mut addresses = [Addr(0); LANES];
    let mut answers = [None; LANES];
    let count = cmds.len().min(LANES);
    for k in 0..count {
        addresses[k] = cmds[k].lowest_address();
    }
    map.trie
        .longest_many(&addresses[..count], &mut answers[..count]);
    read_first_offers(&answers[..count]);
}

/// Reads the first offer of each prefix, which may be in a separate list. No feed is over `MAX_FEEDS`, but the
/// compiler doesn't know that, nor when the loop would end without the reads: so it can't omit them.
fn read_first_offers<A: Allocator + Copy>(answers: &[Option<(Prefix, &Offers<A>)>]) {
    let mut remaining = answers.len();
    while remaining > 0 {
        let feed = first_feed(answers[remaining - 1]);
        remaining = if feed > MAX_FEEDS {
            remaining / 2
        } else {
            remaining - 1
        };
    }
}

/// Returns the feed of the best offer, or 0 if there are no offers.
fn first_feed<A: Allocator + Copy>(answer: Option<(Prefix, &Offers<A>)>) -> usize {
    match answer {
        Some((_, offers)) => {
            let best = offers.as_slice()[0];
            best.feed as usize
        }
        None => 0,
    }
}
