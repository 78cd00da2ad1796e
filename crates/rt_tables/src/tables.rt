//! Several tables of different feeds, as one.
ghost use Rattle.std.specs.Prelude.{◌≡◌, ◌≤◌, ◌↔◌, IsTrue, [], length, map, sum_by, IfOk, IfSome};
ghost use Rattle.std.specs.List.{All, flat_map};
ghost use Rattle.rt_rib.specs.declared.limits.TheConstants.{MAX_FEEDS};
ghost use Rattle.rt_rib.specs.Table.{IsTable};
ghost use Rattle.rt_rib.specs.LookUp.{look_up, look_up_all};
ghost use Rattle.rt_rib.specs.Selection.{selected};
ghost use Rattle.rt_tables.specs.Unions.{union_of, AreOfDifferentFeeds};

use crate::cursor::UnionCursor;
use crate::lookups::{best_of_each, matches_in};
use crate::pieces::{merge_in_pieces, only_piece};
use crate::selection::{select_from, select_halves};
use rt_cidr::Addr;
use rt_rib::{Refused, Route, Selection, Table, keep_feeds, keep_hop};
use std::alloc::{AllocError, Allocator, Global};
use std::fmt;
use std::marker::Model;
use std::thread::Threads;

/// Several tables of different feeds. Contracts see the table of all their routes, in dump order.
#[derive(Drop)]
pub struct TableUnion<A: Allocator + Copy> {
    tables: Vec<Table<A>, A>,
}

impl<A: Allocator + Copy> Model for TableUnion<A> {
    ghost use Rattle.std.specs.Prelude.{List, map, ◌≤◌, length};
    ghost use Rattle.rt_rib.specs.declared.routes.Route.{Route};
    ghost use Rattle.rt_rib.specs.declared.limits.TheConstants.{MAX_FEEDS};
    ghost use Rattle.rt_tables.specs.Unions.{union_of};
    ghost use Rattle.rt_tables.specs.inside.Tables.{AreTables};

    ghost Value = { List Route };

    ghost view = { λ u. union_of (map (λ t. t.routes) u.tables.items) };

    ghost invariant = { λ u. (length u.tables.items ≤ MAX_FEEDS) × AreTables (map (λ t. t.routes) u.tables.items) };
}

/// Shows the number of tables, but no routes.
impl<A: Allocator + Copy> fmt::Debug for TableUnion<A> {
    fn fmt<W: fmt::Write>(&self, f: &mut fmt::Formatter<W>) -> fmt::Result {
        f.debug_struct("TableUnion")
            .field("tables", &self.tables.len())
            .finish_non_exhaustive()
    }
}

impl<A: Allocator + Copy> TableUnion<A> {
    /// Returns these tables as one: at most one table for each feed, and no feed with routes in two of them.
    pub fn new(tables: Vec<Table<A>, A>) -> TableUnion<A>
        requires few { length tables.items ≤ MAX_FEEDS }
        requires apart { AreOfDifferentFeeds (map (λ t. t.routes) tables.items) }
        ensures { result ≡ union_of (map (λ t. t.routes) tables.items) }
    {
        know_tables(&tables);
        TableUnion { tables }
    }

    /// Returns the only table, if there is just one. A query of one table is faster than one of a union.
    pub fn single(&self) -> Option<&Table<A>>
        ensures { IfSome result (λ table. table.now.routes ≡ self.now) }
    {
        match self.tables.as_slice() {
            [table] => Some(table),
            _ => None,
        }
    }

    /// Returns the number of routes.
    pub fn len(&self) -> usize
        ensures { result ≡ length self.now }
    {
        total(&self.tables)
    }

    /// Returns true if there is no route.
    pub fn is_empty(&self) -> bool
        ensures { IsTrue result ↔ (self.now ≡ []) }
    {
        self.len() == 0
    }

    /// Replaces each answer by the look-up of the address with the same index. The two lists must be equally long. Each
    /// table answers 256 addresses at a time. Doesn't allocate.
    pub fn look_up_each(&self, addresses: &[Addr], answers: &mut [Option<Route>])
        requires { length answers.old ≡ length addresses.now }
        ensures { answers.new ≡ map (λ addr. look_up addr self.now) addresses.now }
    {
        best_of_each(&self.tables, addresses, answers);
    }

    /// Returns every route whose prefix covers the address, by decreasing length, then by preference, then by feed, so
    /// that the first is the answer to a look-up. Allocates the list with the given allocator. Error M1 (`Refused`) if
    /// memory runs out.
    pub fn look_up_all(&self, alloc: A, addr: Addr) -> Result<Vec<Route, A>, Refused>
        ensures { IfOk result (λ routes. routes.items ≡ look_up_all addr self.now) }
    {
        matches_in(&self.tables, alloc, addr)
    }

    /// Returns a cursor for look-ups of successive addresses, each with how far its answer holds. Allocates with the given
    /// allocator, unless there is just one table. Its error: memory ran out.
    pub fn lookup_cursor(&self, alloc: A) -> Result<UnionCursor<'_, A>, AllocError>
        ensures { IfOk result (λ cursor. cursor ≡ self.now) }
    {
        match self.single() {
            Some(table) => Ok(UnionCursor::of_table(table)),
            None => UnionCursor::of_tables(alloc, &self.tables),
        }
    }
}

impl TableUnion<Global> {
    /// Returns the selected routes, in dump order. `only_best` first restricts the union to the best route of each
    /// prefix; then the routes are selected whose prefix is in the part, and which are of the feeds and have the next
    /// hop. Each table selects its routes, on its own thread if one can be created; the lists are merged two at a time,
    /// long ones in pieces, on as many threads. Error M1 (`Refused`) if memory runs out.
    pub fn select<R: Threads + Sync>(
        &self,
        rt: &R,
        alloc: Global,
        asked: &Selection<'_>,
    ) -> Result<Vec<Route>, Refused>
        ensures { IfOk result (λ routes. routes.items ≡ selected asked.now self.now) }
    {
        if !asked.only_best {
            return select_from(rt, &self.tables, alloc, asked);
        }
        let best = Selection {
            feeds: &[],
            hop: None,
            ..*asked
        };
        let mut routes = select_from(rt, &self.tables, alloc, &best)?;
        keep_feeds(&mut routes, asked.feeds);
        keep_hop(&mut routes, asked.hop);
        Ok(routes)
    }

    /// Returns the same routes in pieces: lists that follow one another in dump order. Unless only the best are asked for, this
    /// saves `select`'s last copy of most of the routes. Error M1 (`Refused`) if memory runs out.
    pub fn select_in_pieces<R: Threads + Sync>(
        &self,
        rt: &R,
        alloc: Global,
        asked: &Selection<'_>,
    ) -> Result<Vec<Vec<Route>>, Refused>
        ensures { IfOk result (λ pieces. flat_map (λ piece. piece.items) pieces.items ≡ selected asked.now self.now) }
    {
        let count = self.tables.len();
        if asked.only_best || count < 2 {
            return only_piece(alloc, self.select(rt, alloc, asked)?);
        }
        let (first, second) = select_halves(rt, &self.tables, alloc, asked)?;
        merge_in_pieces(rt, alloc, &first, &second, count)
    }
}

/// Makes known to a proof that each is a table. Does nothing.
fn know_tables<A: Allocator + Copy>(tables: &[Table<A>])
    ensures { All IsTable (map (λ t. t.routes) tables.now) }
{
    for table in tables {
        table.holds();
    }
}

/// Returns the number of routes of all tables.
fn total<A: Allocator + Copy>(tables: &[Table<A>]) -> usize
    requires { length tables.now ≤ MAX_FEEDS }
    ensures { result ≡ sum_by (λ t. length t.routes) tables.now }
{
    let mut routes = 0;
    for table in tables {
        routes += table.len() as usize;
    }
    routes
}
