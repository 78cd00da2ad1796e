//! The forwarding table, as its callers see it.
ghost use Rattle.std.specs.Prelude.{◌≡◌, ◌≢◌, ◌≤◌, ◌^◌, true, IfOk, IfSome, OnOk, OnErr, length, map, take};
ghost use Rattle.rt_rib.specs.declared.commands.Cmd.TheVariants.{Purge};
ghost use Rattle.rt_rib.specs.Book.{table_state, IsFeed, Serves};
ghost use Rattle.rt_rib.specs.LookUp.{look_up};
ghost use Rattle.rt_rib.specs.Table.{IsTable};
ghost use Rattle.rt_fib.specs.Hops.{next_hop};
ghost use Rattle.rt_fib.specs.Laws.{KeepsOtherRoutes, PreservesOtherRoutes};
ghost use Rattle.rt_fib.specs.Views.{ViewShows};
ghost use Rattle.rt_fib.specs.inside.Changes.{PreservesLookupsOutside};

use crate::bounds::{ENTRIES, Epoch, Span};
use crate::dir24_8::{AT_ONCE, Dir24_8, Seen};
use crate::filling::{groups_gone, put_entries};
use crate::following::Change;
use crate::purging::{prefixes_to_withdraw, purge_rest, withdraw_each};
use crate::slabs::{Counts, GROUP_SIZE, Slabs};
use crate::spans::span_of;
use crate::views::{ViewSizes, hop_numbers, show_blocks, show_entries};
use rt_cidr::{Addr, Prefix};
use rt_rib::laws::look_up_finds_best;
use rt_rib::{ChunkLookup, Cmd, Hop, Refused, Reply, Route, Table, look_up_in_chunks};
use std::alloc::Allocator;
use std::fmt;
use std::marker::Model;
use std::snapshot::Snapshot;

/// Holds what a routing table answers each address, in memory of the allocator. Contracts see the routes of that table. Its memory is
/// its own: many threads may look up while the table changes. It takes 64 MiB, about 1 KiB for each 256 addresses of one entry that
/// have more than one answer, and 36 bytes for each answer.
#[derive(Drop)]
pub struct Fib<A: Allocator + Copy, B: Allocator + Copy = A> {
    dir: Dir24_8<A, B>,
}

impl<A: Allocator + Copy, B: Allocator + Copy> Model for Fib<A, B> {
    ghost use Rattle.std.specs.Prelude.{List};
    ghost use Rattle.rt_rib.specs.declared.routes.Route.{Route};
    ghost use Rattle.rt_fib.specs.inside.Entries.{IsForwarding};

    ghost Value = { List Route };

    ghost view = { λ f. f.dir.table.value.routes };

    ghost invariant = { λ f. IsForwarding f.dir };
}

/// Shows how many groups and answers there are, and none of them.
impl<A: Allocator + Copy, B: Allocator + Copy> fmt::Debug for Fib<A, B> {
    fn fmt<W: fmt::Write>(&self, f: &mut fmt::Formatter<W>) -> fmt::Result {
        f.debug_struct("Fib")
            .field("groups", &self.dir.slabs.groups.len())
            .field("answers", &self.dir.slabs.routes.len())
            .finish_non_exhaustive()
    }
}

impl<A: Allocator + Copy, B: Allocator + Copy> Fib<A, B> {
    /// Makes a forwarding table with the answers of the table, in memory of the allocator. M1: `Refused` if the allocator has no memory
    /// for it.
    pub fn new(alloc: A, table: &Table<B>) -> Result<Fib<A, B>, Refused>
        ensures { IfOk result (λ fib. fib ≡ table.now.routes) }
    {
        let all = Span {
            first: 0,
            end: ENTRIES,
        };
        let epoch = Epoch { number: 0 };
        let mut slabs = Slabs::empty(alloc);
        let tbl24 = slabs.fresh_entries(alloc, table, &[], epoch, all)?;
        slabs.reserve_waste();
        let dir = Dir24_8 {
            tbl24,
            slabs,
            epoch,
            marked: 0,
            seen: Seen::none(),
            is_wasteful: false,
            table: Snapshot::of(table),
        };
        Ok(Fib { dir })
    }

    /// Copies it into memory of the allocator, while the table is the one that it answers by. The copy is one to publish, while this
    /// one goes on following the table. It reads and writes the number of bytes that it takes, and doesn't read the table. M1:
    /// `Refused` if the allocator has no memory for it.
    pub fn copy(&self, alloc: A, table: &Table<B>) -> Result<Fib<A, B>, Refused>
        requires { self.now ≡ table.now.routes }
        ensures { IfOk result (λ copy. copy ≡ self.now) }
    {
        let tbl24 = Vec::from_slice(alloc, &self.dir.tbl24)?;
        let slabs = self.dir.slabs.copy(alloc)?;
        let dir = Dir24_8 {
            tbl24,
            slabs,
            table: Snapshot::of(table),
            ..self.dir
        };
        Ok(Fib { dir })
    }

    /// Looks up the address: returns the best route of the longest prefix that covers it, or `None` if no prefix
    /// covers it. It reads the address's entry, in some places a group's number, and the answer.
    pub fn look_up(&self, addr: Addr) -> Option<Route>
        ensures { result ≡ look_up addr self.now }
    {
        let entry = self.dir.tbl24[addr.0 as usize / GROUP_SIZE];
        self.dir.answer_by(entry, addr)
    }

    /// Looks up each address, in order. The answers replace what their list had, which is as long as the list of addresses.
    pub fn look_up_each(&self, addresses: &[Addr], answers: &mut [Option<Route>])
        requires { length answers.old ≡ length addresses.now }
        ensures { answers.new ≡ map (λ addr. look_up addr self.now) addresses.now }
    {
        look_up_in_chunks(self, addresses, answers);
    }

    /// Looks up the address's next hop: that of the route that `look_up` returns, or `None` if no prefix covers the address. It reads 4
    /// bytes in place of the answer, and the answer too only for the routers 0.0.0.0 to 0.0.0.2.
    pub fn look_up_hop(&self, addr: Addr) -> Option<Hop>
        ensures { result ≡ next_hop (look_up addr self.now) }
    {
        let entry = self.dir.tbl24[addr.0 as usize / GROUP_SIZE];
        let number = self.dir.number_by(entry, addr);
        self.dir.slabs.hop(number)
    }

    /// Follows the last command that the table has answered. After an `add`, a `replace` or a `withdraw` it renews the answers of the
    /// prefix's addresses, after a purge it is rebuilt, and after a look-up or a dump nothing changes. The law
    /// `commands_preserve_other_routes` says that each command of a table may be followed. For a prefix of one route it reads and
    /// writes few places, for a prefix of length 8 about 65,536 entries.
    /// Each change also marks some of the entries and what they lead to. What no address leads to any more is used again once all
    /// entries were marked. If a round of marking saw so little in use that it may take over twice the memory of a new one, the
    /// next change rebuilds it: so a table that shrank gives memory back. M1: `Refused` if memory ran out. Then it answers as
    /// before, has no more groups and answers than before, and all that was free is free again: so trying again takes no more than the
    /// first time.
    pub fn follow(&mut self, table: &Table<B>, cmd: &Cmd) -> Result<(), Refused>
        requires once { IsTable self.old }
        requires others { KeepsOtherRoutes cmd.now self.old table.now.routes }
        ensures ok { OnOk result (self.new ≡ table.now.routes) }
        ensures err { OnErr result (self.new ≡ self.old) }
    {
        match cmd {
            Cmd::Add { prefix, .. } => self.renew(table, *prefix),
            Cmd::Replace { prefix, .. } => self.renew(table, *prefix),
            Cmd::Withdraw { prefix } => self.renew(table, *prefix),
            Cmd::Lookup { .. } => Ok(()),
            Cmd::Dump => Ok(()),
            Cmd::Purge => self.rebuild(table),
        }
    }

    /// Renews the answers of the prefix's addresses if only routes to this prefix changed. It queries the table once for the prefix's
    /// answer, and changes only entries of addresses that no longer prefix covers. If there is no such address, or an entry
    /// has other addresses too, it fills the entries anew.
    fn renew(&mut self, table: &Table<B>, prefix: Prefix) -> Result<(), Refused>
        requires once { IsTable self.old }
        requires others { PreservesOtherRoutes prefix self.old table.now.routes }
        ensures ok { OnOk result (self.new ≡ table.now.routes) }
        ensures err { OnErr result (self.new ≡ self.old) }
    {
        look_up_finds_best();
        table.holds();
        let span = span_of(&prefix);
        let Some(own) = self.dir.uncovered_answer(table, &prefix, span) else {
            return self.refill(table, prefix);
        };
        if own.is_same {
            self.dir.table = Snapshot::of(table);
            return Ok(());
        }
        let first = Addr(prefix.base());
        let number = self
            .dir
            .slabs
            .number_for(&self.dir.tbl24, self.dir.epoch, first, &own)?;
        let change = Change {
            len: prefix.len(),
            answer: own.answer,
            number,
        };
        self.dir.change_entries(table, &change, span);
        self.dir.mark(0, 1);
        Ok(())
    }

    /// Fills the entries of the prefix's addresses anew. The table must answer all other addresses as this one does. Groups and answers
    /// are made before an entry changes. If memory runs out, no entry changed.
    fn refill(&mut self, table: &Table<B>, prefix: Prefix) -> Result<(), Refused>
        requires { PreservesLookupsOutside prefix self.old table.now.routes }
        ensures ok { OnOk result (self.new ≡ table.now.routes) }
        ensures err { OnErr result (self.new ≡ self.old) }
    {
        if self.dir.is_wasteful {
            return self.rebuild(table);
        }
        let span = span_of(&prefix);
        let alloc = *self.dir.tbl24.allocator();
        let first = span.first as usize;
        let count = self.dir.slabs.routes.len();
        let fresh = self
            .dir
            .slabs
            .fresh_entries(alloc, table, &self.dir.tbl24, self.dir.epoch, span)?;
        let groups = groups_gone(&self.dir.tbl24, &fresh, first);
        let routes = self.dir.slabs.routes.filled_since(count);
        put_entries(self.dir.tbl24.as_mut_slice(), fresh.as_slice(), first);
        self.dir.table = Snapshot::of(table);
        self.dir.mark(groups, routes);
        Ok(())
    }

    /// Replaces itself by a new one.
    fn rebuild(&mut self, table: &Table<B>) -> Result<(), Refused>
        ensures ok { OnOk result (self.new ≡ table.now.routes) }
        ensures err { OnErr result (self.new ≡ self.old) }
    {
        *self = Fib::new(self.allocator(), table)?;
        Ok(())
    }

    /// Returns the allocator of its memory.
    pub(crate) fn allocator(&self) -> A {
        *self.dir.tbl24.allocator()
    }

    /// Purges the feed's routes from the table whose answers it gives, and follows. Returns the reply of the purge, and the forwarding
    /// table. If the feed has no routes, this changes nothing. If it has few, they are withdrawn one by one, and the answers to each
    /// prefix's addresses renewed. If it has many, or they cover many addresses, the forwarding table is rebuilt. If memory runs out, the
    /// purge is executed all the same, and the forwarding table is dropped: the result is `None`.
    pub fn purge(self, table: &mut Table<B>, feed: u32) -> (Reply, Option<Fib<A, B>>)
        requires feed { IsFeed feed }
        requires same { self ≡ table.old.routes }
        ensures served { Serves (table_state table.old) (table_state table.new) feed Purge result.0 }
        ensures followed { IfSome result.1 (λ fib. fib ≡ table.new.routes) }
    {
        let count = table.count(feed);
        let alloc = self.allocator();
        let prefixes = prefixes_to_withdraw(alloc, table, feed, count).unwrap_or(Vec::new(alloc));
        let fib = withdraw_each(self, table, feed, &prefixes).ok();
        (Reply::Purged(count), purge_rest(fib, table, feed))
    }

    /// Returns the sizes of the arrays that [`write_view`](Fib::write_view) fills: room for at least two routers, of which it
    /// may use fewer.
    pub fn view_sizes(&self) -> ViewSizes
        ensures { 2 ≤ result.routers }
    {
        let Counts { groups, routes } = self.dir.slabs.counts();
        ViewSizes {
            blocks: groups.saturating_mul(GROUP_SIZE),
            routers: routes.saturating_add(2),
        }
    }

    /// Writes the next hops of all answers into the caller's arrays, as numbers: 0 for no route, 1 for discarding, and a higher one for
    /// the router at this index. Writes to `used` how many routers there are. Returns false, and writes nothing, if there aren't 2 ^ 24
    /// entries, or an array is too short. M1: `Refused` if memory for 4 bytes for each answer and router ran out.
    pub fn write_view(
        &self,
        entries: &mut [u32],
        blocks: &mut [u32],
        routers: &mut [u32],
        used: &mut usize,
    ) -> Result<bool, Refused>
        ensures shown { IfOk result (λ shown. shown ≡ true → ViewShows entries.new blocks.new (take used.new routers.new) self.now) }
        ensures within { IfOk result (λ shown. shown ≡ true → used.new ≤ length routers.new) }
        ensures entries { IfOk result (λ shown. shown ≢ true → entries.new ≡ entries.old) }
        ensures blocks { IfOk result (λ shown. shown ≢ true → blocks.new ≡ blocks.old) }
        ensures routers { IfOk result (λ shown. shown ≢ true → routers.new ≡ routers.old) }
        ensures used { IfOk result (λ shown. shown ≢ true → used.new ≡ used.old) }
        ensures err { OnErr result ((entries.new ≡ entries.old) × (blocks.new ≡ blocks.old)) }
        ensures err_routers { OnErr result ((routers.new ≡ routers.old) × (used.new ≡ used.old)) }
    {
        let slabs = &self.dir.slabs;
        let mut list = Vec::new(self.allocator());
        list.resize(2, 0u32)?;
        let numbers = hop_numbers(self.allocator(), slabs.routes.values(), &mut list)?;
        if entries.len() != ENTRIES as usize || routers.len() < list.len() {
            return Ok(false);
        }
        if blocks.len() / GROUP_SIZE < slabs.groups.len() {
            return Ok(false);
        }
        show_entries(&self.dir.tbl24, &numbers, entries);
        show_blocks(slabs.groups.values(), &numbers, blocks);
        put_entries(routers, &list, 0);
        *used = list.len();
        Ok(true)
    }

    /// Returns how many bytes it takes: its entries take 64 MiB of them.
    pub fn memory(&self) -> usize
        ensures { 2 ^ 26 ≤ result }
    {
        let entries = self.dir.tbl24.capacity().saturating_mul(4);
        entries.saturating_add(self.dir.slabs.bytes())
    }
}

/// Each address is answered by its entry. The entries of a chunk are read before the first answer.
impl<A: Allocator + Copy, B: Allocator + Copy> ChunkLookup<Addr, Option<Route>> for Fib<A, B> {
    ghost use Rattle.rt_rib.specs.LookUp.{look_up};
    ghost use Rattle.rt_fib.specs.declared.dir24_8.TheConstants.{AT_ONCE};

    ghost chunk_size = { λ _. AT_ONCE };

    ghost answer = { λ fib addr _. look_up addr fib };

    fn chunk_size(&self) -> usize {
        AT_ONCE
    }

    fn look_up_chunk(&self, addresses: &[Addr], answers: &mut [Option<Route>]) {
        let entries = self.dir.entries_at(addresses);
        'answers: for k in 0..addresses.len() {
            answers[k] = self.dir.answer_by(entries[k], addresses[k]);
        }
    }
}
