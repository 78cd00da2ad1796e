//! Following one command. Within its prefix the answers of longer prefixes stay, and all other addresses get one answer. So each entry
//! and each number of a group is changed in place, by the answer that it leads to, and the table is asked once.
ghost use Rattle.std.specs.Prelude.{◌≡◌, ◌+◌, ◌<◌, ◌≤◌, ◌^◌, IfOk, IfSome, IsTrue, OnOk, OnErr};
ghost use Rattle.rt_rib.specs.Table.{IsTable};
ghost use Rattle.rt_fib.specs.Laws.{PreservesOtherRoutes};
ghost use Rattle.rt_fib.specs.inside.Slab.{IsNumberOf};
ghost use Rattle.rt_fib.specs.inside.Entries.{AreBack, KeepsBoth, IsForwarding};
ghost use Rattle.rt_fib.specs.inside.Changes.{AreEntriesOf, is_longer, AnswerAlike, AreNumbersAfter, HasNumber, IsChange, IsLast, IsNumberAfter, KeepsOthers, LeadsAfter};

use crate::bounds::{ENTRIES, Epoch, Span};
use crate::dir24_8::Dir24_8;
use crate::slab::Same;
use crate::slabs::{GROUP_FLAG, GROUP_SIZE, Group, Slabs};
use crate::spans::is_whole;
use rt_cidr::laws::{nested, ranges};
use rt_cidr::{Addr, Prefix};
use rt_rib::laws::look_up_finds_best;
use rt_rib::{Refused, Route, Table};
use std::alloc::Allocator;
use std::snapshot::Snapshot;

/// Holds the length of a prefix, and the new answer to those of its addresses that no longer prefix covers, with its number.
#[derive(Clone, Copy)]
pub(crate) struct Change {
    pub(crate) len: u8,
    pub(crate) answer: Option<Route>,
    pub(crate) number: u32,
}

/// Holds the entry that was changed last, and what it became.
#[derive(Clone, Copy)]
pub(crate) struct Last {
    pub(crate) entry: u32,
    pub(crate) after: u32,
}

/// Holds an address whose answer is no route to a prefix longer than the changed one, its new answer, and whether this is the old one.
#[derive(Clone, Copy)]
pub(crate) struct UncoveredAnswer {
    pub(crate) addr: Addr,
    pub(crate) answer: Option<Route>,
    pub(crate) is_same: bool,
}

/// Returns true if the answer is a route to a prefix longer than this.
fn is_longer(answer: Option<Route>, len: u8) -> bool
    ensures { result ≡ is_longer len answer }
{
    match answer {
        Some(route) => route.prefix.len() > len,
        None => false,
    }
}

impl<A: Allocator + Copy> Slabs<A> {
    /// Returns true if the number is of an answer that is no route to a prefix longer than this.
    fn is_uncovered(&self, len: u8, number: u32) -> bool {
        (number as usize) < self.routes.len() && !is_longer(*self.routes.get(number), len)
    }

    /// Returns which of the entry's addresses has an answer that is no route to a prefix longer than this.
    fn uncovered_index(&self, len: u8, entry: u32) -> Option<u32>
        ensures { IfSome result (λ k. k < 256) }
    {
        if entry < GROUP_FLAG {
            return self.is_uncovered(len, entry).then_some(0);
        }
        let place = entry - GROUP_FLAG;
        if place as usize >= self.groups.len() {
            return None;
        }
        let group = self.groups.get(place);
        'numbers: for k in 0..GROUP_SIZE as u32 {
            if self.is_uncovered(len, group.numbers[k as usize]) {
                return Some(k);
            }
        }
        None
    }

    /// Returns the number of the answer, which the address gets and others from the first on. If memory runs out, all that was free
    /// is free again.
    pub(crate) fn number_for(
        &mut self,
        entries: &[u32],
        epoch: Epoch,
        first: Addr,
        own: &UncoveredAnswer,
    ) -> Result<u32, Refused>
        ensures keeps { OnOk result (KeepsBoth epoch.number self.old self.new) }
        ensures number { IfOk result (λ number. IsNumberOf self.new.routes.places (epoch.number + 1) number own.now.answer) }
        ensures back { OnErr result (AreBack epoch.number self.old self.new) }
    {
        let counts = self.begin(entries, first);
        let previous = self.previous_number(entries, own.addr);
        match self.number_of(epoch, previous, own.answer) {
            Ok(number) => Ok(number),
            Err(refused) => {
                self.roll_back(counts);
                Err(refused)
            }
        }
    }

    /// Returns what becomes of the number of an answer.
    fn number_after(&self, epoch: Epoch, change: &Change, number: u32) -> u32
        requires { HasNumber self.now epoch.number change.now }
        ensures { IsNumberAfter self.now epoch.number change.now number result }
    {
        if number as usize >= self.routes.len() {
            return number;
        }
        if is_longer(*self.routes.get(number), change.len) {
            return number;
        }
        change.number
    }

    /// Returns what becomes of the numbers of a group.
    fn numbers_after(
        &self,
        epoch: Epoch,
        change: &Change,
        numbers: &[u32; GROUP_SIZE],
    ) -> [u32; GROUP_SIZE]
        requires { HasNumber self.now epoch.number change.now }
        ensures { AreNumbersAfter self.now epoch.number change.now numbers.now result 256 }
    {
        let mut after = [0u32; GROUP_SIZE];
        'numbers: for k in 0..GROUP_SIZE {
            after[k] = self.number_after(epoch, change, numbers[k]);
        }
        after
    }

    /// Changes the group of the i-th entry in place.
    fn change_group(&mut self, epoch: Epoch, change: &Change, i: u32, entry: u32)
        requires number { HasNumber self.old epoch.number change.now }
        requires long { 2 ^ 31 ≤ entry }
        ensures others { KeepsOthers i self.old self.new }
        ensures leads { LeadsAfter self.old self.new epoch.number change.now i entry entry }
    {
        let place = entry - GROUP_FLAG;
        if place as usize >= self.groups.len() {
            return;
        }
        let group = *self.groups.get(place);
        if group.owner != i {
            return;
        }
        let numbers = self.numbers_after(epoch, change, &group.numbers);
        self.groups.replace(place, Group { numbers, owner: i });
    }

    /// Returns what becomes of the i-th entry, and changes its group in place.
    fn entry_after(&mut self, epoch: Epoch, change: &Change, last: Last, i: u32, entry: u32) -> Last
        requires number { HasNumber self.old epoch.number change.now }
        requires last { IsLast self.old epoch.number change.now last }
        ensures others { KeepsOthers i self.old self.new }
        ensures last { IsLast self.new epoch.number change.now result }
        ensures leads { LeadsAfter self.old self.new epoch.number change.now i entry result.after }
    {
        if entry >= GROUP_FLAG {
            self.change_group(epoch, change, i, entry);
            return Last {
                entry: GROUP_FLAG,
                after: entry,
            };
        }
        if entry == last.entry {
            return last;
        }
        let after = self.number_after(epoch, change, entry);
        Last { entry, after }
    }
}

impl<A: Allocator + Copy, B: Allocator + Copy> Dir24_8<A, B> {
    /// Returns an address of the span whose answer is no route to a prefix longer than this, if there is one. No clause says so: the
    /// caller looks it up.
    fn uncovered_address(&self, len: u8, span: Span) -> Option<Addr> {
        'entries: for i in span.first..span.end {
            if i >= ENTRIES || i as usize >= self.tbl24.len() {
                return None;
            }
            if let Some(k) = self.slabs.uncovered_index(len, self.tbl24[i as usize]) {
                return Some(Addr(i * GROUP_SIZE as u32 + k));
            }
        }
        None
    }

    /// Returns the answer that all addresses of the prefix get which no longer prefix covers, if only routes to this prefix changed.
    /// Returns `None` if there is no such address, if the span has other addresses too, or if the table is to be rebuilt.
    pub(crate) fn uncovered_answer(
        &self,
        table: &Table<B>,
        prefix: &Prefix,
        span: Span,
    ) -> Option<UncoveredAnswer>
        requires right { IsForwarding self.now }
        requires span { AreEntriesOf prefix.now span }
        requires once { IsTable self.now.table.value.routes }
        requires others { PreservesOtherRoutes prefix.now self.now.table.value.routes table.now.routes }
        ensures change { IfSome result (λ own. IsChange prefix.now.len own.answer span self.now.table.value.routes table.now.routes) }
        ensures same { IfSome result (λ own. IsTrue own.is_same → AnswerAlike self.now.table.value.routes table.now.routes) }
    {
        if self.is_wasteful || !is_whole(prefix, span) {
            return None;
        }
        let addr = self.uncovered_address(prefix.len(), span)?;
        let before = self.answer_by(self.tbl24[addr.0 as usize / GROUP_SIZE], addr);
        if !prefix.covers(addr) || is_longer(before, prefix.len()) {
            return None;
        }
        look_up_finds_best();
        nested();
        ranges();
        table.holds();
        let answer = table.look_up(addr);
        let is_same = before.is_same(&answer);
        Some(UncoveredAnswer {
            addr,
            answer,
            is_same,
        })
    }

    /// Changes the span's entries in place: then they lead to the table's answers.
    pub(crate) fn change_entries(&mut self, table: &Table<B>, change: &Change, span: Span)
        requires right { IsForwarding self.old }
        requires number { HasNumber self.old.slabs self.old.epoch.number change.now }
        requires change { IsChange change.now.len change.now.answer span self.old.table.value.routes table.now.routes }
        ensures right { IsForwarding self.new }
        ensures table { self.new.table.value ≡ table.now }
    {
        let mut last = Last {
            entry: GROUP_FLAG,
            after: GROUP_FLAG,
        };
        'entries: for i in span.first..span.end {
            let entry = self.tbl24[i as usize];
            last = self.slabs.entry_after(self.epoch, change, last, i, entry);
            self.tbl24[i as usize] = last.after;
        }
        self.table = Snapshot::of(table);
    }
}
