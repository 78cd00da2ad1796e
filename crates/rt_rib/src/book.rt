//! The book: a table with the journal of everything it answered, and nothing but what keeps the two consistent.
ghost use Rattle.std.specs.Prelude.{◌≡◌, ◌<◌, [], length, IfOk, OnOk, OnErr, IsSome, option_to_list};
ghost use Rattle.std.specs.List.{All};
ghost use Rattle.rt_rib.specs.Book.{IsLimit, IsFeed};
ghost use Rattle.rt_rib.specs.Sequential.{changed_prefix};
ghost use Rattle.rt_rib.specs.Changes.{AreBestChanges};

use crate::changes::BestChange;
use crate::commands::{Cmd, Entry, Reply};
use crate::refused::Refused;
use crate::routes::Route;
use crate::table::Table;
use std::alloc::Allocator;
use std::fmt;
use std::marker::Model;

/// A routing table with the journal of every command that it answered. Contracts see a book as its limit, its journal,
/// the trie that holds its routes, and the number of entries that the journal still has room for.
///
/// The journal is lawful: each reply is the sequential table's, in the set of routes that the entries before it leave,
/// and each entry is of a feed from 1 to [`MAX_FEEDS`](crate::MAX_FEEDS). The trie is lawful too, and holds the set that
/// the whole journal leaves.
#[derive(Drop)]
pub struct Book<A: Allocator + Copy> {
    table: Table<A>,
    journal: Vec<Entry, A>,
}

impl<A: Allocator + Copy> Model for Book<A> {
    ghost use Rattle.std.specs.Prelude.{◌-◌, vec_len, vec_capacity};
    ghost use Rattle.std.specs.Coded.{codes};
    ghost use Rattle.rt_trie.specs.inside.TreeCode.{tree_code};
    ghost use Rattle.rt_rib.specs.Book.{BookContents};

    ghost Value = { BookContents };

    ghost coded = { Prim.hlevel (codes, tree_code) };

    ghost use Rattle.rt_rib.specs.Book.{table_state};
    ghost use Rattle.rt_rib.specs.inside.TableState.{IsJournalOf};

    ghost view = { λ b. record {
      limit = b.table.limit;
      journal = b.journal.items;
      trie = b.table.trie;
      room = vec_capacity b.journal - vec_len b.journal;
    } };

    ghost invariant = { λ b. IsJournalOf (table_state b.table) b.journal.items };
}

/// Shows the number of journal entries and of trie nodes, but no entries or nodes.
impl<A: Allocator + Copy> fmt::Debug for Book<A> {
    fn fmt<W: fmt::Write>(&self, f: &mut fmt::Formatter<W>) -> fmt::Result {
        f.debug_struct("Book")
            .field("entries", &self.journal.len())
            .field("nodes", &self.table.nodes())
            .finish_non_exhaustive()
    }
}

impl<A: Allocator + Copy> Book<A> {
    ghost use Rattle.rt_rib.specs.Sequential.{IsLawfulJournal};
    ghost use Rattle.rt_rib.specs.Table.{IsTable};
    ghost use Rattle.rt_rib.specs.Book.{table_of, Applies, Refuses, Reserves, HoldsTable};

    /// Returns an empty book in which each feed may have up to `limit` routes. Doesn't allocate, so its journal has no
    /// room yet.
    pub fn new(alloc: A, limit: u32) -> Book<A>
        requires { IsLimit limit }
        ensures limit { result.limit ≡ limit }
        ensures journal { result.journal ≡ [] }
        ensures room { result.room ≡ 0 }
        ensures holds { HoldsTable result }
    {
        let table = Table::new(alloc, limit);
        table.holds();
        Book {
            table,
            journal: Vec::new(alloc),
        }
    }

    /// Reserves room for `entries` entries in the journal. That many commands then allocate nothing for their entries:
    /// only a route that is inserted may still need memory. Error M1 (`Refused`) if memory runs out; the book is then
    /// unchanged.
    pub fn reserve(&mut self, entries: usize) -> Result<(), Refused>
        ensures ok { OnOk result (Reserves self.old self.new entries) }
        ensures err { OnErr result ((self.new ≡ self.old) × (self.old.room < entries)) }
        ensures holds { HoldsTable self.new }
    {
        self.table.holds();
        self.journal.try_reserve(entries)?;
        Ok(())
    }

    /// Executes a command of the feed, and appends command and reply as one entry to the journal. Allocates for the
    /// entry if the journal has no room, and may allocate for a route that is inserted. Error M1 (`Refused`) if memory
    /// runs out; routes and journal are then unchanged.
    pub fn apply(&mut self, feed: u32, cmd: Cmd) -> Result<Reply, Refused>
        requires { IsFeed feed }
        ensures ok { IfOk result (λ reply. Applies self.old self.new feed cmd reply) }
        ensures err { OnErr result (Refuses self.old self.new feed cmd) }
        ensures holds { HoldsTable self.new }
    {
        self.table.holds();
        self.journal.try_reserve(1)?;
        let reply = self.table.apply(feed, cmd)?;
        self.table.holds();
        self.journal.push_reserved(Entry { feed, cmd, reply });
        Ok(reply)
    }

    /// Executes an `Add`, a `Replace` or a `Withdraw` as [`Book::apply`] does, and returns also what it changes, as
    /// [`Table::apply_changed`] does.
    pub fn apply_changed(
        &mut self,
        feed: u32,
        cmd: Cmd,
    ) -> Result<(Reply, Option<BestChange>), Refused>
        requires feed { IsFeed feed }
        requires prefix { IsSome (changed_prefix cmd) }
        ensures ok { IfOk result (λ done. Applies self.old self.new feed cmd done.0) }
        ensures changes { IfOk result (λ done. AreBestChanges (table_of self.old) (table_of self.new) (option_to_list done.1)) }
        ensures err { OnErr result (Refuses self.old self.new feed cmd) }
        ensures holds { HoldsTable self.new }
    {
        self.table.holds();
        self.journal.try_reserve(1)?;
        let (reply, change) = self.table.apply_changed(feed, cmd)?;
        self.table.holds();
        self.journal.push_reserved(Entry { feed, cmd, reply });
        Ok((reply, change))
    }

    /// Makes known to a proof that the trie is lawful and holds exactly the routes that the journal leaves, none of
    /// them twice. Does nothing.
    pub fn holds(&self)
        ensures { HoldsTable self.now }
    {
        self.table.holds();
    }

    /// Returns the book's table, which can be queried like any other.
    pub fn table(&self) -> &Table<A>
        ensures limit { result.now.limit ≡ self.now.limit }
        ensures routes { result.now.routes ≡ table_of self.now }
        ensures trie { result.now.trie ≡ self.now.trie }
    {
        &self.table
    }

    /// Returns the routes in dump order: by base, then length, then preference, then feed. Allocates the list with the
    /// given allocator, unless there is no route. Error M1 (`Refused`) if memory runs out.
    pub fn routes(&self, alloc: A) -> Result<Vec<Route, A>, Refused>
        ensures routes { IfOk result (λ routes. routes.items ≡ table_of self.now) }
        ensures wanted { OnErr result (0 < length (table_of self.now)) }
        ensures table { IsTable (table_of self.now) }
        ensures lawful { IsLawfulJournal self.now.limit self.now.journal }
    {
        self.table.routes(alloc)
    }

    /// Returns every answered command with its reply, in the order in which they were answered.
    pub fn journal(&self) -> &[Entry]
        ensures entries { result.now ≡ self.now.journal }
        ensures lawful { IsLawfulJournal self.now.limit self.now.journal }
        ensures feeds { All (λ e. IsFeed e.feed) self.now.journal }
    {
        self.journal.as_slice()
    }
}
