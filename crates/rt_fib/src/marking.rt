//! Marking, a few entries after each change: what they lead to is in use. Once all entries were marked a round is over, and what no
//! entry led to is free.
ghost use Rattle.std.specs.Prelude.{◌≡◌, ◌<◌, ◌^◌};
ghost use Rattle.rt_fib.specs.inside.Entries.{KeepsBoth, IsForwarding, LeadsOn};

use crate::bounds::{ENTRIES, Epoch};
use crate::dir24_8::{Dir24_8, Seen};
use crate::slabs::{Counts, GROUP_FLAG, GROUP_SIZE, PACE, Slabs, TBL24_BYTES};
use std::alloc::Allocator;

/// Says in how many rounds each number is once compared with the last one. The comparison waits for memory.
const COMPARE_EVERY: u32 = 4;

impl<A: Allocator + Copy> Slabs<A> {
    /// Marks the number of an answer, and returns it. If it is compared, and the last number is of the same answer, marks and returns
    /// that one instead: so neighbours share an answer, as in a new table.
    fn mark_number(&mut self, epoch: Epoch, last: u32, entry: u32) -> u32
        requires { entry < 2 ^ 31 }
        ensures keeps { KeepsBoth epoch.number self.old self.new }
        ensures leads { LeadsOn self.old self.new epoch.number entry result }
    {
        if entry == last || entry % COMPARE_EVERY != epoch.number % COMPARE_EVERY {
            self.routes.mark_used(epoch, entry);
            return entry;
        }
        if entry as usize >= self.routes.len() {
            return entry;
        }
        let answer = *self.routes.get(entry);
        if self.routes.reuse_if_same(epoch, last, &answer) {
            return last;
        }
        self.routes.mark_used(epoch, entry);
        entry
    }

    /// Marks what the entry leads to, so that it is in use in the next epoch too. Returns the entry, or another that leads to the same.
    fn mark_entry(&mut self, seen: &mut Seen, epoch: Epoch, last: u32, entry: u32) -> u32
        ensures keeps { KeepsBoth epoch.number self.old self.new }
        ensures leads { LeadsOn self.old self.new epoch.number entry result }
    {
        if entry < GROUP_FLAG {
            return self.mark_number(epoch, last, entry);
        }
        let place = entry - GROUP_FLAG;
        if place as usize >= self.groups.len() {
            return entry;
        }
        let numbers = self.groups.get(place).numbers;
        self.groups.mark_used(epoch, place);
        seen.counts.groups = seen.counts.groups.saturating_add(1);
        'numbers: for k in 0..GROUP_SIZE {
            seen.see(numbers[k]);
            self.routes.mark_used(epoch, numbers[k]);
        }
        entry
    }
}

impl<A: Allocator + Copy, B: Allocator + Copy> Dir24_8<A, B> {
    /// Returns the entry before the next one to mark, or a number that is no answer's.
    fn last_marked(&self) -> u32 {
        let i = self.marked as usize;
        if i == 0 || i > self.tbl24.len() {
            return GROUP_FLAG;
        }
        self.tbl24[i - 1]
    }

    /// Returns true if so many groups and answers were not seen in use that the table may take over twice the memory of a new one.
    fn has_waste(&self) -> bool {
        let needed = self.seen.counts.bytes();
        let taken = self.slabs.counts().bytes();
        let most = needed.saturating_mul(2).saturating_add(TBL24_BYTES);
        taken.saturating_add(taken / 4) > most
    }

    /// Marks some entries, and more for each group that fell out of use and each answer that was put. An entry with a group counts as
    /// 256. After the last entry, a new round begins.
    pub(crate) fn mark(&mut self, groups: usize, routes: usize)
        requires { IsForwarding self.old }
        ensures right { IsForwarding self.new }
        ensures table { self.new.table.value ≡ self.old.table.value }
    {
        let routes = routes.max(1);
        let epoch = self.epoch;
        let mut left = Counts { groups, routes }.bytes().saturating_mul(PACE);
        let mut last = self.last_marked();
        'mark: while left > 0 && self.marked < ENTRIES {
            let i = self.marked as usize;
            let entry = self.tbl24[i];
            last = self.slabs.mark_entry(&mut self.seen, epoch, last, entry);
            self.tbl24[i] = last;
            self.seen.see(last);
            left = left.saturating_sub(if last < GROUP_FLAG { 1 } else { GROUP_SIZE });
            self.marked += 1;
        }
        if self.marked == ENTRIES && epoch.number < u32::MAX - 1 {
            self.slabs.trim();
            self.is_wasteful = self.has_waste();
            self.seen = Seen::none();
            self.epoch = Epoch {
                number: epoch.number + 1,
            };
            self.marked = 0;
        }
    }
}
