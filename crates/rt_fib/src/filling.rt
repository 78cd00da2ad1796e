//! Filling the table entry by entry, each from the piece of the routing table that its addresses lie in. A piece is a range of
//! addresses with one answer, as far as the routing table's lookup cursor returns it.
ghost use Rattle.std.specs.Prelude.{◌≡◌, ℕ, ◌≤◌, ◌<◌, ◌+◌, ◌*◌, ◌-◌, ◌^◌, IfOk, OnOk, OnErr, length};
ghost use Rattle.rt_fib.specs.inside.Entries.{AreBack, FillsBoth, KeepsBoth, AreFrom, IsEntry, AreNumbers, GoesOn, IsFrom};
ghost use Rattle.rt_fib.specs.inside.Changes.{ArePut};

use crate::bounds::{Epoch, Span};
use crate::slabs::{GROUP_FLAG, GROUP_SIZE, Group, Slabs};
use rt_cidr::Addr;
use rt_rib::{LookupCursor, Refused, Table};
use std::alloc::Allocator;

/// Holds the number of an answer, and the end of the addresses that are known to have this answer.
#[derive(Clone, Copy)]
pub(crate) struct Piece {
    pub(crate) number: u32,
    pub(crate) end: u64,
}

/// Holds an entry that is repeated up to the end.
#[derive(Clone, Copy)]
pub(crate) struct Run {
    pub(crate) entry: u32,
    pub(crate) end: u32,
}

/// Holds where the filling of entries has come to in the routing table, and the entries as they were.
#[derive(Drop)]
pub(crate) struct Filling<'a, B: Allocator + Copy> {
    pub(crate) table: LookupCursor<'a, B>,
    pub(crate) previous: &'a [u32],
    pub(crate) epoch: Epoch,
    pub(crate) piece: Piece,
}

impl<'a, B: Allocator + Copy> Filling<'a, B> {
    /// Goes on to the table's piece at the address, unless this piece reaches it.
    fn go_on_to<A: Allocator + Copy>(
        &mut self,
        slabs: &mut Slabs<A>,
        addr: Addr,
    ) -> Result<(), Refused>
        requires { IsFrom self.old slabs.old addr.0 }
        ensures goes { GoesOn self.old self.new slabs.old slabs.new }
        ensures reaches { OnOk result (addr.0 < self.new.piece.end) }
        ensures piece { OnOk result (IsFrom self.new slabs.new addr.0) }
    {
        if u64::from(addr.0) < self.piece.end {
            return Ok(());
        }
        let (answer, last) = self.table.lookup_range(addr);
        let previous = slabs.previous_number(self.previous, addr);
        let number = slabs.number_of(self.epoch, previous, answer)?;
        let end = u64::from(last.0) + 1;
        self.piece = Piece { number, end };
        Ok(())
    }

    /// Returns the numbers of the table's answers to the 256 addresses from this one on.
    #[tactic(auto, using(crate::proofs::Leading::piece_later))]
    fn numbers_from<A: Allocator + Copy>(
        &mut self,
        slabs: &mut Slabs<A>,
        first: u32,
    ) -> Result<[u32; GROUP_SIZE], Refused>
        requires fits { first + 256 ≤ 2 ^ 32 }
        requires piece { IsFrom self.old slabs.old first }
        ensures goes { GoesOn self.old self.new slabs.old slabs.new }
        ensures numbers { IfOk result (λ numbers. AreNumbers self.old.table numbers slabs.new (self.old.epoch.number + 1) first 256) }
        ensures piece { OnOk result (IsFrom self.new slabs.new (first + 256)) }
    {
        let mut numbers = [0u32; GROUP_SIZE];
        'numbers: for k in 0..GROUP_SIZE as u32 {
            self.go_on_to(slabs, Addr(first + k))?;
            numbers[k as usize] = self.piece.number;
        }
        Ok(numbers)
    }

    /// Returns the entry of the addresses that begin with these 24 bits, and how far it is repeated: as far as the piece reaches, and
    /// not beyond the end.
    fn run<A: Allocator + Copy>(
        &mut self,
        slabs: &mut Slabs<A>,
        i: u32,
        end: u32,
    ) -> Result<Run, Refused>
        requires before { i < end }
        requires fits { end ≤ 2 ^ 24 }
        requires piece { IsFrom self.old slabs.old (i * 256) }
        ensures goes { GoesOn self.old self.new slabs.old slabs.new }
        ensures onward { IfOk result (λ run. i < run.end) }
        ensures within { IfOk result (λ run. run.end ≤ end) }
        ensures entry { IfOk result (λ run. (j : ℕ) → i ≤ j → j < run.end
            → IsEntry self.old.table slabs.new (self.old.epoch.number + 1) j run.entry) }
        ensures piece { IfOk result (λ run. IsFrom self.new slabs.new (run.end * 256)) }
    {
        let first = i * GROUP_SIZE as u32;
        self.go_on_to(slabs, Addr(first))?;
        if u64::from(first) + GROUP_SIZE as u64 <= self.piece.end {
            return Ok(Run {
                entry: self.piece.number,
                end: u64::from(end).min(self.piece.end / GROUP_SIZE as u64) as u32,
            });
        }
        let numbers = self.numbers_from(slabs, first)?;
        let previous = group_named(self.previous, i);
        let group = Group { numbers, owner: i };
        let place = slabs.place_of_group(self.epoch, previous, group)?;
        Ok(Run {
            entry: GROUP_FLAG + place,
            end: i + 1,
        })
    }

    /// Returns the span's entries, and puts the groups and answers that they lead to into the slabs.
    #[tactic(auto, using(crate::proofs::Leading::goes_same))]
    fn entries<A: Allocator + Copy>(
        &mut self,
        slabs: &mut Slabs<A>,
        alloc: A,
        span: Span,
    ) -> Result<Vec<u32, A>, Refused>
        requires { IsFrom self.old slabs.old (span.first * 256) }
        ensures goes { GoesOn self.old self.new slabs.old slabs.new }
        ensures entries { IfOk result (λ fresh.
            AreFrom span.first fresh.items slabs.new (self.old.epoch.number + 1) self.old.table (span.end - span.first)) }
    {
        let mut entries = Vec::with_capacity(alloc, (span.end - span.first) as usize)?;
        let mut i = span.first;
        'entries: while i < span.end {
            let run = self.run(slabs, i, span.end)?;
            entries.resize((run.end - span.first) as usize, run.entry)?;
            i = run.end;
        }
        Ok(entries)
    }
}

/// Returns the group that the entry names, or a number without a group.
fn group_named(entries: &[u32], i: u32) -> u32 {
    let i = i as usize;
    if i >= entries.len() || entries[i] < GROUP_FLAG {
        return GROUP_FLAG;
    }
    entries[i] - GROUP_FLAG
}

impl<A: Allocator + Copy> Slabs<A> {
    /// Returns the span's entries by the table, and puts the groups and answers that they lead to into the slabs. If memory runs out,
    /// they are removed: all places that were free are free again.
    pub(crate) fn fresh_entries<B: Allocator + Copy>(
        &mut self,
        alloc: A,
        table: &Table<B>,
        previous: &[u32],
        epoch: Epoch,
        span: Span,
    ) -> Result<Vec<u32, A>, Refused>
        ensures keeps { OnOk result (KeepsBoth epoch.number self.old self.new) }
        ensures entries { IfOk result (λ fresh.
            AreFrom span.first fresh.items self.new (epoch.number + 1) table.now.routes (span.end - span.first)) }
        ensures back { OnErr result (AreBack epoch.number self.old self.new) }
    {
        let counts = self.begin(previous, Addr(span.first * GROUP_SIZE as u32));
        let mut filling = Filling {
            table: table.lookup_cursor(),
            previous,
            epoch,
            piece: Piece { number: 0, end: 0 },
        };
        match filling.entries(self, alloc, span) {
            Ok(fresh) => Ok(fresh),
            Err(refused) => {
                self.roll_back(counts);
                Err(refused)
            }
        }
    }
}

/// Replaces the entries from the first on by the fresh ones.
pub(crate) fn put_entries(entries: &mut [u32], fresh: &[u32], first: usize)
    requires { first + length fresh.now ≤ length entries.old }
    ensures { ArePut entries.old entries.new fresh.now first (length fresh.now) }
{
    'put: for k in 0..fresh.len() {
        entries[first + k] = fresh[k];
    }
}

/// Counts the entries that named a group and are replaced by another entry.
pub(crate) fn groups_gone(entries: &[u32], fresh: &[u32], first: usize) -> usize
    requires { first + length fresh.now ≤ length entries.now }
{
    let mut gone = 0usize;
    for k in 0..fresh.len() {
        if entries[first + k] >= GROUP_FLAG && fresh[k] != entries[first + k] {
            gone = gone.saturating_add(1);
        }
    }
    gone
}
