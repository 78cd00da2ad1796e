//! Callers that need clauses which no page has, and which no wrong body can break: each says what holds of any value.
ghost use Rattle.std.specs.Prelude.{◌≡◌, ◌≤◌, ◌-◌, ◌*◌, [], length};
ghost use Rattle.std.specs.List.{All};
ghost use Rattle.rt_trie.specs.Map.{IsOrdered};
ghost use Rattle.rt_rib.specs.Book.{IsFeed, HoldsTable, HoldsRoutes, table_of};
ghost use Rattle.rt_rib.specs.Sequential.{IsLawfulJournal};
ghost use Rattle.rt_rib.specs.Table.{IsTable};

use rt_rib::{Book, LookupCursor, Refused, Table};
use rt_trie::{Trie, Walk};
use std::alloc::Allocator;

/// Returns a map without pairs. Needs `rt_trie::Trie::new.pairs`.
pub fn empty_map<V, A: Allocator + Copy>(alloc: A) -> Trie<V, A>
    ensures { result.pairs ≡ [] }
{
    Trie::new(alloc)
}

/// Returns the number of pairs of a map, which are ordered. Needs `rt_trie::Trie::len.ordered`.
pub fn size_of_ordered<V, A: Allocator + Copy>(map: &Trie<V, A>) -> usize
    ensures { IsOrdered map.now.pairs }
{
    map.len()
}

/// Returns the pairs of a map, which are ordered. Needs `rt_trie::Trie::walk.ordered`.
pub fn ordered_pairs<V, A: Allocator + Copy>(map: &Trie<V, A>) -> Walk<'_, V, A>
    ensures { IsOrdered result }
{
    map.walk()
}

/// Returns the number of nodes for a table's routes. Needs `rt_rib::Table::nodes.bound`.
pub fn nodes_of<A: Allocator + Copy>(table: &Table<A>) -> usize
    ensures { result ≤ 2 * length table.now.routes - 1 }
{
    table.nodes()
}

/// Makes known that a table's trie holds its routes. Needs `rt_rib::Table::holds`.
pub fn held_routes<A: Allocator + Copy>(table: &Table<A>)
    ensures { HoldsRoutes table.now.trie table.now.routes }
{
    table.holds();
}

/// Returns the number of a table's routes, which are a table. Needs `rt_rib::Table::routes.table`.
pub fn count_of_routes<A: Allocator + Copy>(alloc: A, table: &Table<A>) -> Result<usize, Refused>
    ensures { IsTable table.now.routes }
{
    match table.routes(alloc) {
        Ok(routes) => Ok(routes.len()),
        Err(refused) => Err(refused),
    }
}

/// Returns a cursor over a table's routes. Needs `rt_rib::Table::lookup_cursor`.
pub fn cursor_of<A: Allocator + Copy>(table: &Table<A>) -> LookupCursor<'_, A>
    ensures { result ≡ table.now.routes }
{
    table.lookup_cursor()
}

/// Makes known that a book's trie holds its routes. Needs `rt_rib::Book::holds`.
pub fn held_table<A: Allocator + Copy>(book: &Book<A>)
    ensures { HoldsTable book.now }
{
    book.holds();
}

/// Returns a book's table. Needs `rt_rib::Book::table.limit`, `rt_rib::Book::table.routes` and
/// `rt_rib::Book::table.trie`.
pub fn table_in<A: Allocator + Copy>(book: &Book<A>) -> &Table<A>
    ensures limit { result.now.limit ≡ book.now.limit }
    ensures routes { result.now.routes ≡ table_of book.now }
    ensures trie { result.now.trie ≡ book.now.trie }
{
    book.table()
}

/// Returns the number of a book's entries, which are a lawful journal of feeds. Needs `rt_rib::Book::journal.lawful` and
/// `rt_rib::Book::journal.feeds`.
pub fn entries_in<A: Allocator + Copy>(book: &Book<A>) -> usize
    ensures lawful { IsLawfulJournal book.now.limit book.now.journal }
    ensures feeds { All (λ e. IsFeed e.feed) book.now.journal }
{
    book.journal().len()
}
