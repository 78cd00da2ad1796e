//! Look-ups of rising addresses in several tables, one after another.
ghost use Rattle.std.specs.Prelude.{◌≡◌, ◌≤◌, IfOk, map, vec_len};
ghost use Rattle.rt_cidr.specs.declared.address.Addr.{Addr};
ghost use Rattle.rt_rib.specs.LookUp.{look_up};
ghost use Rattle.rt_tables.specs.Unions.{union_of};
ghost use Rattle.rt_tables.specs.inside.Tables.{AreTables};

use crate::lookups::better_of;
use rt_cidr::Addr;
use rt_rib::{LookupCursor, Route, Table};
use std::alloc::{AllocError, Allocator};
use std::fmt;
use std::marker::Model;

/// A cursor for look-ups of successive addresses in a table or in a union of tables. Contracts see the routes.
#[derive(Drop)]
pub struct UnionCursor<'a, A: Allocator + Copy> {
    cursors: Cursors<'a, A>,
}

/// The cursor of the only table, or those of several tables.
#[derive(Drop)]
enum Cursors<'a, A: Allocator + Copy> {
    One(LookupCursor<'a, A>),
    Several(Vec<KeptAnswer<'a, A>, A>),
}

impl<'a, A: Allocator + Copy> Model for UnionCursor<'a, A> {
    ghost use Rattle.std.specs.Prelude.{List};
    ghost use Rattle.rt_rib.specs.declared.routes.Route.{Route};
    ghost use Rattle.rt_tables.specs.inside.Cursors.{routes_in, AreCursors};

    ghost Value = { List Route };

    ghost view = { λ c. routes_in c.cursors };

    ghost invariant = { λ c. AreCursors c.cursors };
}

/// Shows no routes.
impl<'a, A: Allocator + Copy> fmt::Debug for UnionCursor<'a, A> {
    fn fmt<W: fmt::Write>(&self, f: &mut fmt::Formatter<W>) -> fmt::Result {
        f.debug_struct("UnionCursor").finish_non_exhaustive()
    }
}

impl<'a, A: Allocator + Copy> UnionCursor<'a, A> {
    /// Returns a cursor of this table. Doesn't allocate.
    pub fn of_table(table: &'a Table<A>) -> UnionCursor<'a, A>
        ensures { result ≡ table.now.routes }
    {
        UnionCursor {
            cursors: Cursors::One(table.lookup_cursor()),
        }
    }

    /// Returns a cursor of the union of these tables. Its error: memory ran out.
    pub(crate) fn of_tables(
        alloc: A,
        tables: &'a [Table<A>],
    ) -> Result<UnionCursor<'a, A>, AllocError>
        requires { AreTables (map (λ t. t.routes) tables.now) }
        ensures { IfOk result (λ cursor. cursor ≡ union_of (map (λ t. t.routes) tables.now)) }
    {
        Ok(UnionCursor {
            cursors: Cursors::Several(cursors_of(alloc, tables)?),
        })
    }

    /// Returns the answer to a look-up of the address and a last address: every address from the given one to the last
    /// one has this same answer. Asks only those tables again whose last answer doesn't hold for the address; in each,
    /// the look-up takes as long as that of a [`LookupCursor`], for which rising addresses take the least time. Doesn't
    /// allocate.
    pub fn lookup_range(&mut self, addr: Addr) -> (Option<Route>, Addr)
        ensures kept { self.new ≡ self.old }
        ensures onward { addr.0 ≤ result.1.0 }
        ensures same { (b : Addr) → addr.0 ≤ b.0 → b.0 ≤ result.1.0 → look_up b self.old ≡ result.0 }
    {
        match &mut self.cursors {
            Cursors::One(cursor) => cursor.lookup_range(addr),
            Cursors::Several(cursors) => best_range(cursors, addr),
        }
    }
}

/// Returns a cursor of each table. Its error: memory ran out.
fn cursors_of<'a, A: Allocator + Copy>(
    alloc: A,
    tables: &'a [Table<A>],
) -> Result<Vec<KeptAnswer<'a, A>, A>, AllocError>
    ensures { IfOk result (λ cursors. cursors.items ≡ map (λ t. t.routes) tables.now) }
{
    let mut cursors = Vec::with_capacity(alloc, tables.len())?;
    for table in tables {
        cursors.push_reserved(KeptAnswer::new(table.lookup_cursor()));
    }
    Ok(cursors)
}

/// Returns the best of the tables' answers to the address, and the last address up to which each table gives its answer.
fn best_range<A: Allocator + Copy>(
    cursors: &mut [KeptAnswer<'_, A>],
    addr: Addr,
) -> (Option<Route>, Addr)
    requires { AreTables cursors.old }
    ensures kept { cursors.new ≡ cursors.old }
    ensures onward { addr.0 ≤ result.1.0 }
    ensures same { (b : Addr) → addr.0 ≤ b.0 → b.0 ≤ result.1.0 → look_up b (union_of cursors.old) ≡ result.0 }
{
    let mut best = None;
    let mut last = Addr(u32::MAX);
    for k in 0..cursors.len() {
        let (found, end) = cursors[k].lookup_range(addr);
        best = better_of(best, found);
        last = Addr(last.0.min(end.0));
    }
    (best, last)
}

/// The cursor of a table, with its last answer: that of every address from `first` to `last`. Contracts see the table's
/// routes.
#[derive(Drop)]
struct KeptAnswer<'a, A: Allocator + Copy> {
    cursor: LookupCursor<'a, A>,
    answer: Option<Route>,
    first: Addr,
    last: Addr,
}

impl<'a, A: Allocator + Copy> Model for KeptAnswer<'a, A> {
    ghost use Rattle.std.specs.Prelude.{List};
    ghost use Rattle.rt_rib.specs.declared.routes.Route.{Route};
    ghost use Rattle.rt_tables.specs.inside.Answers.{HoldsFromTo};

    ghost Value = { List Route };

    ghost view = { λ k. k.cursor };

    ghost invariant = { λ k. HoldsFromTo k.cursor k.first k.last k.answer };
}

impl<'a, A: Allocator + Copy> KeptAnswer<'a, A> {
    /// Returns the cursor, with an answer that holds for no address yet.
    fn new(cursor: LookupCursor<'a, A>) -> KeptAnswer<'a, A>
        ensures { result ≡ cursor.entry }
    {
        KeptAnswer {
            cursor,
            answer: None,
            first: Addr(1),
            last: Addr(0),
        }
    }

    /// Does the same as `LookupCursor::lookup_range`: asks the table only if the last answer doesn't hold for the address.
    fn lookup_range(&mut self, addr: Addr) -> (Option<Route>, Addr)
        ensures kept { self.new ≡ self.old }
        ensures onward { addr.0 ≤ result.1.0 }
        ensures same { (b : Addr) → addr.0 ≤ b.0 → b.0 ≤ result.1.0 → look_up b self.old ≡ result.0 }
    {
        if addr.0 < self.first.0 || self.last.0 < addr.0 {
            let (answer, last) = self.cursor.lookup_range(addr);
            self.answer = answer;
            self.first = addr;
            self.last = last;
        }
        (self.answer, self.last)
    }
}
