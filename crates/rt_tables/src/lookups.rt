//! Look-ups in several tables: the best of their answers, and all of their matches.
ghost use Rattle.std.specs.Prelude.{◌≡◌, ℕ, ◌<◌, None, length, map, IfOk};
ghost use Rattle.rt_rib.specs.LookUp.{look_up, look_up_all};
ghost use Rattle.rt_tables.specs.Unions.{union_of};
ghost use Rattle.rt_tables.specs.inside.Answers.{better_of, route_at};
ghost use Rattle.rt_tables.specs.inside.Tables.{AreTables};

use crate::merge::{ListOrder, merge};
use rt_cidr::Addr;
use rt_rib::{ChunkLookup, Refused, Route, Table, look_up_in_chunks};
use std::alloc::Allocator;

/// The number of addresses that a table is asked for at a time.
const CHUNK: usize = 256;

/// Returns the better of the answers of two tables to one address.
pub(crate) fn better_of(first: Option<Route>, second: Option<Route>) -> Option<Route>
    ensures { result ≡ better_of first second }
{
    match (first, second) {
        (Some(a), Some(b)) => { if b.beats(&a).is_some() { second } else { first } }
        (None, _) => second,
        _ => first,
    }
}

/// Replaces each answer by the best of the tables' answers to the address with the same index.
pub(crate) fn best_of_each<A: Allocator + Copy>(
    tables: &[Table<A>],
    addresses: &[Addr],
    answers: &mut [Option<Route>],
)
    requires tables { AreTables (map (λ t. t.routes) tables.now) }
    requires size { length answers.old ≡ length addresses.now }
    ensures { answers.new ≡ map (λ addr. look_up addr (union_of (map (λ t. t.routes) tables.now))) addresses.now }
{
    forget_each(answers);
    for table in tables {
        look_up_in_chunks(&Improvement { table }, addresses, answers);
    }
}

/// Replaces each answer by none.
fn forget_each(answers: &mut [Option<Route>])
    ensures { (k : ℕ) → k < length answers.old → route_at answers.new k ≡ None }
{
    for k in 0..answers.len() {
        answers[k] = None;
    }
}

/// Look-ups in a table that replace an earlier answer only by a better one.
#[derive(Drop)]
struct Improvement<'t, A: Allocator + Copy> {
    table: &'t Table<A>,
}

impl<A: Allocator + Copy> ChunkLookup<Addr, Option<Route>> for Improvement<'_, A> {
    ghost use Rattle.rt_rib.specs.LookUp.{look_up};
    ghost use Rattle.rt_tables.specs.declared.lookups.TheConstants.{CHUNK};
    ghost use Rattle.rt_tables.specs.inside.Answers.{better_of};

    ghost chunk_size = { λ _. CHUNK };

    ghost answer = { λ better addr earlier. better_of earlier (look_up addr better.table.now.routes) };

    fn chunk_size(&self) -> usize {
        CHUNK
    }

    fn look_up_chunk(&self, addresses: &[Addr], answers: &mut [Option<Route>]) {
        let mut found = [None; CHUNK];
        self.table
            .look_up_each(addresses, &mut found[..addresses.len()]);
        for k in 0..addresses.len() {
            answers[k] = better_of(answers[k], found[k]);
        }
    }
}

/// Returns the routes of all tables whose prefix covers the address, the best first.
pub(crate) fn matches_in<A: Allocator + Copy>(
    tables: &[Table<A>],
    alloc: A,
    addr: Addr,
) -> Result<Vec<Route, A>, Refused>
    requires { AreTables (map (λ t. t.routes) tables.now) }
    ensures { IfOk result (λ routes. routes.items ≡ look_up_all addr (union_of (map (λ t. t.routes) tables.now))) }
{
    match tables {
        [] => Ok(Vec::new(alloc)),
        [table] => table.look_up_all(alloc, addr),
        _ => {
            let (some, others) = tables.split_at(tables.len() / 2);
            let first = matches_in(some, alloc, addr)?;
            let second = matches_in(others, alloc, addr)?;
            merge(ListOrder::Matches, alloc, first, second)
        }
    }
}
