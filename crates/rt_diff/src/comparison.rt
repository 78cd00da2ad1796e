//! Ranges of addresses that have different answers in two tables.
ghost use Rattle.std.specs.Prelude.{◌≡◌, ◌+◌, ◌↔◌, IsTrue, IfOk};
ghost use Rattle.rt_diff.specs.Answers.{own_numbers};
ghost use Rattle.rt_diff.specs.Differences.{IsFirstDifference};
ghost use Rattle.rt_diff.specs.inside.Parts.{GoesOnIn, IsFirstWithin};

use crate::pieces::{first_unlike, last_of};
use crate::renumbered::RenumberedLookups;
use crate::table_answers::{CompareBy, TableAnswer, is_same};
use rt_cidr::Addr;
use rt_rib::Table;
use rt_tables::{TableUnion, UnionCursor};
use std::alloc::{AllocError, Allocator};
use std::fmt;
use std::marker::Model;

/// A range of addresses that have different answers in two tables.
#[derive(Clone, Copy, PartialEq, Eq, Debug)]
pub struct Difference {
    /// The first address.
    pub first: Addr,
    /// The last address, which isn't lower than the first.
    pub last: Addr,
    /// The old table's answer for each of them.
    pub old: TableAnswer,
    /// The new table's answer for each of them, which differs.
    pub new: TableAnswer,
}

impl Difference {
    /// Returns true if the next range begins right after this one, with the same two answers: then both are parts of one range.
    pub(crate) fn goes_on_in(&self, next: &Difference) -> bool
        ensures { IsTrue result ↔ GoesOnIn self.now next.now }
    {
        u64::from(self.last.0) + 1 == u64::from(next.first.0)
            && is_same(&self.old, &next.old)
            && is_same(&self.new, &next.new)
    }
}

/// A comparison of two tables. It keeps the path of the last look-up in each of them, so visiting them in rising order
/// takes less time than with a new comparison for each range. Contracts see how answers are compared, and for both
/// tables the routes and the numbers of the feeds.
#[derive(Drop)]
pub struct Comparison<'a, A: Allocator + Copy> {
    by: CompareBy,
    old_table: RenumberedLookups<'a, A>,
    new_table: RenumberedLookups<'a, A>,
}

impl<'a, A: Allocator + Copy> Model for Comparison<'a, A> {
    ghost use Rattle.rt_diff.specs.Differences.{Compared};

    ghost Value = { Compared };

    ghost view = { λ c. record { by = c.by; old_table = c.old_table; new_table = c.new_table } };
}

/// Shows how answers are compared, but neither table.
impl<'a, A: Allocator + Copy> fmt::Debug for Comparison<'a, A> {
    fn fmt<W: fmt::Write>(&self, f: &mut fmt::Formatter<W>) -> fmt::Result {
        f.debug_struct("Comparison")
            .field("by", &self.by)
            .finish_non_exhaustive()
    }
}

impl<'a, A: Allocator + Copy> Comparison<'a, A> {
    /// Returns a comparison of the answers of two tables. Doesn't allocate.
    pub fn new(old: &'a Table<A>, new: &'a Table<A>, by: CompareBy) -> Comparison<'a, A>
        ensures { result ≡ record { by = by; old_table = own_numbers old.now.routes; new_table = own_numbers new.now.routes } }
    {
        Comparison {
            by,
            old_table: RenumberedLookups::new(UnionCursor::of_table(old)),
            new_table: RenumberedLookups::new(UnionCursor::of_table(new)),
        }
    }

    /// Returns a comparison of the answers of two unions of tables. Allocates with the given allocator, unless each is of just one
    /// table. Its error: memory ran out.
    pub fn of_unions(
        alloc: A,
        old: &'a TableUnion<A>,
        new: &'a TableUnion<A>,
        by: CompareBy,
    ) -> Result<Comparison<'a, A>, AllocError>
        ensures { IfOk result (λ tables. tables ≡ record { by = by; old_table = own_numbers old.now; new_table = own_numbers new.now }) }
    {
        Ok(Comparison {
            by,
            old_table: RenumberedLookups::new(old.lookup_cursor(alloc)?),
            new_table: RenumberedLookups::new(new.lookup_cursor(alloc)?),
        })
    }

    /// From now on, renumbers the feeds of the new table: feed k gets the k-th number, or keeps its own if the list is
    /// shorter. So a feed that gets the number of a feed of the old table is that feed's partner: their routes are the
    /// same if everything else in them is. The best route is still the one by the feeds' own numbers.
    pub fn renumber_new_feeds(&mut self, numbers: &'a [u32])
        ensures by { self.new.by ≡ self.old.by }
        ensures old_table { self.new.old_table ≡ self.old.old_table }
        ensures new_table { self.new.new_table ≡ record { routes = self.old.new_table.routes; numbers = numbers.now } }
    {
        self.new_table.renumber(numbers);
    }

    /// Returns the first range at or after the address that has different answers in the two tables, as long as both
    /// answers last. Returns `None` if every address from this one on has the same answer in both. Takes time in
    /// proportion to the tables' boundaries from the address to the end of the range. Doesn't allocate.
    pub fn first_difference(&mut self, from: Addr) -> Option<Difference>
        ensures kept { self.new ≡ self.old }
        ensures first { IsFirstDifference self.old.by self.old.old_table self.old.new_table from result }
    {
        self.first_within(from, Addr(u32::MAX))
    }

    /// Returns the first range after the address, as `first_difference` does from the next address on, or `None` if the
    /// address is the last of all.
    pub fn difference_after(&mut self, last: Addr) -> Option<Difference>
        ensures kept { self.new ≡ self.old }
        ensures first { IsFirstDifference self.old.by self.old.old_table self.old.new_table (record { 0 = last.0 + 1 }) result }
    {
        let from = last.0.checked_add(1)?;
        self.first_difference(Addr(from))
    }

    /// Returns the first range at or after the address, cut after the last address, which no look-up passes. Returns `None`
    /// if every address from the one to the other has the same answer in both tables.
    pub(crate) fn first_within(&mut self, from: Addr, last: Addr) -> Option<Difference>
        ensures kept { self.new ≡ self.old }
        ensures first { IsFirstWithin self.old from.0 (last.0 + 1) result }
    {
        if last.0 < from.0 {
            return None;
        }
        let (old, new) = (&mut self.old_table, &mut self.new_table);
        let pieces = first_unlike(old, new, self.by, from, last)?;
        let end = last_of(old, new, self.by, &pieces, last);
        Some(Difference {
            first: pieces.from,
            last: end,
            old: pieces.old.answer,
            new: pieces.new.answer,
        })
    }

    /// Returns the first range after the address, cut after the last address, as `first_within` does from the next address on.
    pub(crate) fn next_within(&mut self, after: Addr, last: Addr) -> Option<Difference>
        ensures kept { self.new ≡ self.old }
        ensures first { IsFirstWithin self.old (after.0 + 1) (last.0 + 1) result }
    {
        let from = after.0.checked_add(1)?;
        self.first_within(Addr(from), last)
    }
}
