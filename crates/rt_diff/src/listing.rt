//! The list of all ranges of addresses that have different answers in two tables, found by several threads: each lists the ranges
//! of some blocks of addresses, and the lists of the blocks are joined.
ghost use Rattle.std.specs.Prelude.{◌≡◌, ◌+◌, IfOk, OnOk, length, vec_len};
ghost use Rattle.rt_diff.specs.Answers.{own_numbers};
ghost use Rattle.rt_diff.specs.Differences.{AreDifferences};
ghost use Rattle.rt_diff.specs.inside.Parts.{AreJoined, AreOfPart, ListsBlock, ListEach};

use crate::comparison::{Comparison, Difference};
use crate::table_answers::CompareBy;
use rt_cidr::Addr;
use rt_tables::TableUnion;
use std::alloc::{AllocError, Allocator, Global};
use std::marker::Model;
use std::thread::{self, Threads};

/// The number of blocks of addresses, all of the same size. There are more of them than processors, since real tables have most of
/// their prefixes in some of the blocks.
const BLOCKS: usize = 64;

/// The number of addresses of a block.
const BLOCK_SIZE: u32 = 1 << 26;

/// The list of a block's ranges, unless memory ran out.
type BlockList = Result<Vec<Difference>, AllocError>;

/// Two tables, each the union of one or more, and how their answers are compared. Contracts see what they see of a [`Comparison`].
#[derive(Drop)]
pub struct ComparedTables<'a, A: Allocator + Copy> {
    by: CompareBy,
    old: &'a TableUnion<A>,
    new: &'a TableUnion<A>,
    numbers: &'a [u32],
}

impl<'a, A: Allocator + Copy> Model for ComparedTables<'a, A> {
    ghost use Rattle.rt_diff.specs.Answers.{own_numbers};
    ghost use Rattle.rt_diff.specs.Differences.{Compared};

    ghost Value = { Compared };

    ghost view = { λ c. record {
      by = c.by;
      old_table = own_numbers c.old.now;
      new_table = record { routes = c.new.now; numbers = c.numbers.now };
    } };
}

impl<'a, A: Allocator + Copy> ComparedTables<'a, A> {
    /// Returns these tables, to be compared in this way. The feeds of the new table get these numbers
    /// ([`Comparison::renumber_new_feeds`]).
    pub fn new(
        old: &'a TableUnion<A>,
        new: &'a TableUnion<A>,
        by: CompareBy,
        numbers: &'a [u32],
    ) -> ComparedTables<'a, A>
        ensures { result ≡ record {
          by = by;
          old_table = own_numbers old.now;
          new_table = record { routes = new.now; numbers = numbers.now };
        } }
    {
        ComparedTables {
            by,
            old,
            new,
            numbers,
        }
    }

    /// Returns a comparison of the tables. Allocates with the given allocator, unless each is the union of just one. Its error:
    /// memory ran out.
    pub fn comparison(&self, alloc: A) -> Result<Comparison<'a, A>, AllocError>
        ensures { IfOk result (λ tables. tables ≡ self.now) }
    {
        let mut tables = Comparison::of_unions(alloc, self.old, self.new, self.by)?;
        tables.renumber_new_feeds(self.numbers);
        Ok(tables)
    }
}

impl ComparedTables<'_, Global> {
    /// Returns all ranges that have different answers, in ascending order. Several threads find them at the same time, if
    /// `threads` is more than one and threads can be created. Its error: memory ran out.
    pub fn differences<R: Threads + Sync>(
        &self,
        rt: &R,
        alloc: Global,
        threads: usize,
    ) -> Result<Vec<Difference>, AllocError>
        ensures { IfOk result (λ list. AreDifferences self.now.by self.now.old_table self.now.new_table list.items) }
    {
        if threads < 2 {
            return list_in_turn(alloc, self, Addr(0), Addr(u32::MAX));
        }
        let lists = list_blocks(rt, alloc, self)?;
        joined(alloc, self, lists.as_slice())
    }
}

/// Returns the lists of all blocks, each found on a thread of its own if one can be created. Its error: memory ran out for
/// the list of lists.
fn list_blocks<R: Threads + Sync>(
    rt: &R,
    alloc: Global,
    tables: &ComparedTables<'_, Global>,
) -> Result<Vec<BlockList>, AllocError>
    ensures count { IfOk result (λ lists. vec_len lists ≡ 64) }
    ensures each { IfOk result (λ lists. ListEach tables.now lists.items) }
{
    thread::map_indices(
        rt,
        alloc,
        BLOCKS,
        &|block: usize| -> BlockList
            ensures { ListsBlock tables.entry.now block result }
        { list_block(alloc, tables, block) },
    )
}

/// Returns the lists as one. Its error: memory ran out, here or for one of the lists.
fn joined(
    alloc: Global,
    tables: &ComparedTables<'_, Global>,
    lists: &[BlockList],
) -> Result<Vec<Difference>, AllocError>
    requires count { length lists.now ≡ 64 }
    requires each { ListEach tables.now lists.now }
    ensures { IfOk result (λ list. AreDifferences tables.now.by tables.now.old_table tables.now.new_table list.items) }
{
    let mut all = Vec::new(alloc);
    for block in 0..lists.len() {
        let Ok(list) = &lists[block] else {
            return Err(AllocError);
        };
        join(&mut all, list.as_slice())?;
    }
    Ok(all)
}

/// Appends the ranges of the next part. If the last range of the list goes on in the first of them, the two become one.
fn join(list: &mut Vec<Difference>, more: &[Difference]) -> Result<(), AllocError>
    ensures { OnOk result (AreJoined list.old.items more.now list.new.items) }
{
    let Some((first, rest)) = more.split_first() else {
        return Ok(());
    };
    let Some(previous) = list.pop() else {
        return list.extend_from_slice(more);
    };
    if !previous.goes_on_in(first) {
        list.push(previous)?;
        return list.extend_from_slice(more);
    }
    list.push(Difference {
        last: first.last,
        ..previous
    })?;
    list.extend_from_slice(rest)
}

/// Returns the ranges of the block, cut at its ends.
fn list_block(alloc: Global, tables: &ComparedTables<'_, Global>, block: usize) -> BlockList
    ensures { ListsBlock tables.now block result }
{
    if block >= BLOCKS {
        return Ok(Vec::new(alloc));
    }
    let first = block as u32 * BLOCK_SIZE;
    list_in_turn(alloc, tables, Addr(first), Addr(first + (BLOCK_SIZE - 1)))
}

/// Returns the ranges of the addresses from the first to the last, cut there.
fn list_in_turn(
    alloc: Global,
    tables: &ComparedTables<'_, Global>,
    first: Addr,
    last: Addr,
) -> Result<Vec<Difference>, AllocError>
    ensures { IfOk result (λ list. AreOfPart tables.now first.0 (last.0 + 1) list.items) }
{
    let mut comparison = tables.comparison(alloc)?;
    let mut list = Vec::new(alloc);
    let mut next = comparison.first_within(first, last);
    while let Some(difference) = next {
        list.push(difference)?;
        next = comparison.next_within(difference.last, last);
    }
    Ok(list)
}
