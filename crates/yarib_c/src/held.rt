//! The contents of a handle.
ghost use Rattle.std.specs.Prelude.{◌≡◌, ◌↔◌, IsTrue, ◌<◌, ◌≤◌, MatchOption, MatchResult, OnOk, IsSome, option_to_list};
ghost use Rattle.rt_rib.specs.Book.{IsLimit, IsFeed};
ghost use Rattle.rt_rib.specs.Sequential.{changed_prefix};
ghost use Rattle.rt_rib.specs.Changes.{AreBestChanges};
ghost use Rattle.yarib_c.specs.Kinds.{routes_in, HasFib, IsForwarding, IsFollowed, IsNew, IsSame, HasRoom, Applied, NotApplied};
ghost use Rattle.yarib_c.specs.Sizes.{TakesBytes};
ghost use Rattle.yarib_c.specs.inside.Tables.{IsTableOf};

use crate::plain::PlainTable;
use crate::sizes::{entry_bytes, table_bytes};
use rt_fib::Fib;
use rt_rib::{BestChange, Book, Cmd, Refused, Reply, Table};
use std::alloc::Global;
use std::sync::Arc;

/// Holds the contents of a handle.
#[derive(Drop)]
pub enum Held {
    /// A table that keeps no journal and, if a call has requested one, a forwarding table that follows it.
    Plain(PlainTable),
    /// A table that keeps a journal of all that it answered.
    Journaled(Book<Global>),
    /// A forwarding table with the answers that a table gave when this was made. It doesn't change, and several handles may hold it.
    Forwarding(Arc<Fib<Global>>),
}

impl Held {
    /// Returns an empty table with this limit of routes for each feed: without a journal for 0, with one for 1.
    pub(crate) fn new(alloc: Global, limit: u32, journal: u32) -> Option<Held>
        requires { IsLimit limit }
        ensures { MatchOption result (1 < journal) (λ held. (journal ≤ 1) × IsNew limit journal held) }
    {
        match journal {
            0 => Some(Held::plain(alloc, limit)),
            1 => Some(Held::journaled(alloc, limit)),
            _ => None,
        }
    }

    fn plain(alloc: Global, limit: u32) -> Held
        requires { IsLimit limit }
        ensures { IsNew limit 0 result }
    {
        Held::Plain(PlainTable::new(alloc, limit))
    }

    fn journaled(alloc: Global, limit: u32) -> Held
        requires { IsLimit limit }
        ensures { IsNew limit 1 result }
    {
        Held::Journaled(Book::new(alloc, limit))
    }

    /// Returns its table, if it holds one that changes.
    pub(crate) fn table(&self) -> Option<&Table<Global>>
        ensures { MatchOption result (IsForwarding self.now) (λ table. IsTableOf self.now table.now) }
    {
        match self {
            Held::Plain(plain) => Some(plain.table()),
            Held::Journaled(book) => Some(book.table()),
            Held::Forwarding(_) => None,
        }
    }

    /// Returns the forwarding table that answers its look-ups, if there is one.
    pub(crate) fn forwarding(&self) -> Option<&Fib<Global>>
        ensures { MatchOption result (¬ HasFib self.now) (λ fib. HasFib self.now × (fib.now ≡ routes_in self.now)) }
    {
        match self {
            Held::Plain(plain) => plain.beside(),
            Held::Journaled(_) => None,
            Held::Forwarding(fib) => Some(fib),
        }
    }

    /// Returns true if it is a table with a forwarding table that follows its commands.
    pub(crate) fn is_followed(&self) -> bool
        ensures { IsTrue result ↔ IsFollowed self.now }
    {
        match self {
            Held::Plain(plain) => plain.is_followed(),
            Held::Journaled(_) | Held::Forwarding(_) => false,
        }
    }

    /// Answers a command of the feed, if it holds a table that changes.
    pub(crate) fn answer(&mut self, feed: u32, cmd: Cmd) -> Option<Result<Reply, Refused>>
        requires { IsFeed feed }
        ensures changes { IsSome result → ¬ IsForwarding self.old }
        ensures answered { MatchOption result (IsForwarding self.old × (self.new ≡ self.old)) (λ answered. MatchResult answered
            (λ reply. Applied self.old self.new feed cmd reply) (λ _. NotApplied self.old self.new feed cmd)) }
    {
        match self {
            Held::Plain(plain) => Some(plain.apply(feed, cmd)),
            Held::Journaled(book) => Some(book.apply(feed, cmd)),
            Held::Forwarding(_) => None,
        }
    }

    /// Answers an add, a replacement or a withdrawal of the feed, if it holds a table that changes. Returns the reply, and the change
    /// of the best route to the command's prefix, if it is another one.
    pub(crate) fn answer_changed(
        &mut self,
        feed: u32,
        cmd: Cmd,
    ) -> Option<Result<(Reply, Option<BestChange>), Refused>>
        requires feed { IsFeed feed }
        requires prefix { IsSome (changed_prefix cmd) }
        ensures changes { IsSome result → ¬ IsForwarding self.old }
        ensures answered { MatchOption result (IsForwarding self.old × (self.new ≡ self.old)) (λ answered. MatchResult answered
            (λ done. Applied self.old self.new feed cmd done.0
            × AreBestChanges (routes_in self.old) (routes_in self.new) (option_to_list done.1))
            (λ _. NotApplied self.old self.new feed cmd)) }
    {
        match self {
            Held::Plain(plain) => Some(plain.apply_changed(feed, cmd)),
            Held::Journaled(book) => Some(book.apply_changed(feed, cmd)),
            Held::Forwarding(_) => None,
        }
    }

    /// Makes room for this number of entries in the journal, if it keeps one. M1: `Refused` if memory ran out.
    pub(crate) fn reserve(&mut self, entries: usize) -> Result<(), Refused>
        ensures ok { OnOk result (HasRoom entries self.old self.new) }
        ensures same { IsSame self.old self.new }
    {
        match self {
            Held::Journaled(book) => book.reserve(entries),
            Held::Plain(_) | Held::Forwarding(_) => Ok(()),
        }
    }

    /// Returns about how many bytes it takes.
    pub(crate) fn bytes(&self) -> usize
        ensures { TakesBytes self.now result }
    {
        match self {
            Held::Plain(plain) => plain.bytes(),
            Held::Journaled(book) => {
                table_bytes(book.table()).saturating_add(entry_bytes(book.journal().len()))
            }
            Held::Forwarding(fib) => fib.memory(),
        }
    }
}
