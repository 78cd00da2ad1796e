//! The table DIR-24-8: an entry for each value of the first 24 bits of an address (`tbl24`), groups for the last 8 (`tbl8`), and a
//! list of answers.
ghost use Rattle.std.specs.Prelude.{◌≡◌, ℕ, ◌<◌, ◌≤◌, ◌^◌, get_or, length};
ghost use Rattle.rt_rib.specs.LookUp.{look_up};
ghost use Rattle.rt_fib.specs.inside.Entries.{at, entry_at, HasRoute, IsForwarding};

use crate::bounds::Epoch;
use crate::slabs::{Counts, GROUP_FLAG, GROUP_SIZE, Slabs};
use rt_cidr::Addr;
use rt_rib::{Route, Table};
use std::alloc::Allocator;
use std::snapshot::Snapshot;

/// Counts groups, and runs of one answer's number. A new table would have as many answers, or fewer.
#[derive(Clone, Copy)]
pub(crate) struct Seen {
    pub(crate) counts: Counts,
    pub(crate) last: u32,
}

impl Seen {
    pub(crate) fn none() -> Seen {
        Seen {
            counts: Counts {
                groups: 0,
                routes: 0,
            },
            last: GROUP_FLAG,
        }
    }

    pub(crate) fn see(&mut self, number: u32) {
        if number < GROUP_FLAG && self.last != number {
            self.last = number;
            self.counts.routes = self.counts.routes.saturating_add(1);
        }
    }
}

/// Holds the entries, and what they lead to.
#[derive(Drop)]
pub(crate) struct Dir24_8<A: Allocator + Copy, B: Allocator + Copy> {
    pub(crate) tbl24: Vec<u32, A>,
    pub(crate) slabs: Slabs<A>,
    /// The lowest epoch of all that entries lead to, so a place with a lower one is free.
    pub(crate) epoch: Epoch,
    /// The number of entries that are marked in this round: what these lead to has a higher epoch.
    pub(crate) marked: u32,
    /// What this round has seen in use. No clause mentions it.
    pub(crate) seen: Seen,
    /// True if the last round saw so little in use that the next change rebuilds everything. No clause mentions it.
    pub(crate) is_wasteful: bool,
    /// The table that the answers are from. It has no bytes: only clauses read it.
    pub(crate) table: Snapshot<Table<B>>,
}

/// Says for how many addresses the entries are read before the first answer.
pub(crate) const AT_ONCE: usize = 16;

impl<A: Allocator + Copy, B: Allocator + Copy> Dir24_8<A, B> {
    /// Looks up the address, by its entry.
    pub(crate) fn answer_by(&self, entry: u32, addr: Addr) -> Option<Route>
        requires right { IsForwarding self.now }
        requires entry { entry ≡ entry_at self.now.tbl24.items addr }
        ensures { result ≡ look_up addr self.now.table.value.routes }
    {
        *self.slabs.routes.get(self.number_by(entry, addr))
    }

    /// Returns the number of the address's answer, by its entry.
    pub(crate) fn number_by(&self, entry: u32, addr: Addr) -> u32
        requires right { IsForwarding self.now }
        requires entry { entry ≡ entry_at self.now.tbl24.items addr }
        ensures { HasRoute self.now.slabs self.now.epoch.number result (look_up addr self.now.table.value.routes) }
    {
        if entry < GROUP_FLAG {
            return entry;
        }
        let group = self.slabs.groups.get(entry - GROUP_FLAG);
        group.numbers[addr.0 as usize % GROUP_SIZE]
    }

    /// Returns the entries of the addresses. No read waits for another, so the memory fetches all of them at once.
    pub(crate) fn entries_at(&self, addresses: &[Addr]) -> [u32; AT_ONCE]
        requires all { length self.now.tbl24.items ≡ 2 ^ 24 }
        requires few { length addresses.now ≤ AT_ONCE }
        ensures { (k : ℕ) → k < length addresses.now
            → get_or result k 0 ≡ entry_at self.now.tbl24.items (get_or addresses.now k (at 0)) }
    {
        let mut entries = [0u32; AT_ONCE];
        'entries: for k in 0..addresses.len() {
            entries[k] = self.tbl24[addresses[k].0 as usize / GROUP_SIZE];
        }
        entries
    }
}
