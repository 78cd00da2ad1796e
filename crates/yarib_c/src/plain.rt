//! A table that keeps no journal and, if a call has requested one, a forwarding table that follows it.
ghost use Rattle.std.specs.Prelude.{◌≡◌, ◌↔◌, ◌⊎◌, ◌+◌, ◌≤◌, ◌^◌, IsTrue, true, false, [], length, map, IfOk, MatchOption, OnOk, OnErr, IsSome, option_to_list};
ghost use Rattle.rt_rib.specs.declared.commands.Cmd.TheVariants.{Purge};
ghost use Rattle.rt_rib.specs.declared.commands.Reply.TheVariants.{Added};
ghost use Rattle.rt_rib.specs.Sequential.{reply_of, changed_prefix};
ghost use Rattle.rt_rib.specs.Changes.{AreBestChanges};
ghost use Rattle.rt_rib.specs.LookUp.{look_up};
ghost use Rattle.rt_rib.specs.Book.{IsLimit, IsFeed, table_state, Serves};
ghost use Rattle.yarib_c.specs.Sizes.{trie_bytes};
ghost use Rattle.yarib_c.specs.Kinds.{SaysChange};
ghost use Rattle.yarib_c.specs.inside.AttachedFib.{FibHasRoutes, FibMayFollow};

use crate::sizes::table_bytes;
use rt_cidr::Addr;
use rt_fib::Fib;
use rt_fib::laws::commands_preserve_other_routes;
use rt_rib::{BestChange, Cmd, Refused, Reply, Route, Table};
use std::alloc::Global;
use std::marker::Model;

/// A table that keeps no journal. Its forwarding table, if it has one, answers as the table does: it follows each command.
#[derive(Drop)]
pub struct PlainTable {
    table: Table<Global>,
    beside: Option<Fib<Global>>,
}

impl Model for PlainTable {
    ghost use Rattle.std.specs.Coded.{codes};
    ghost use Rattle.std.specs.Prelude.{is_some};
    ghost use Rattle.rt_trie.specs.inside.TreeCode.{tree_code};
    ghost use Rattle.yarib_c.specs.Plain.{PlainContents};
    ghost use Rattle.yarib_c.specs.inside.AttachedFib.{FibHasRoutes};

    ghost Value = { PlainContents };

    ghost coded = { Prim.hlevel (codes, tree_code) };

    ghost view = { λ p. record { table = p.table; is_followed = is_some p.beside } };

    ghost invariant = { λ p. FibHasRoutes p.beside p.table.routes };
}

impl PlainTable {
    /// Returns an empty table without a forwarding table. `limit` is the maximum number of routes of each feed.
    pub(crate) fn new(alloc: Global, limit: u32) -> PlainTable
        requires { IsLimit limit }
        ensures { table_state result.table ≡ record { limit = limit; routes = [] } }
    {
        PlainTable {
            table: Table::new(alloc, limit),
            beside: None,
        }
    }

    /// Returns the table.
    pub(crate) fn table(&self) -> &Table<Global>
        ensures { result.now ≡ self.now.table }
    {
        &self.table
    }

    /// Makes a forwarding table that follows the table, if there isn't one yet. M1: `Refused` if memory ran out.
    pub(crate) fn follow(&mut self, alloc: Global) -> Result<(), Refused>
        ensures ok { OnOk result (self.new.is_followed ≡ true) }
        ensures kept { self.old.is_followed ≡ true → self.new.is_followed ≡ true }
        ensures table { self.new.table ≡ self.old.table }
    {
        if self.beside.is_none() {
            self.beside = Some(Fib::new(alloc, &self.table)?);
        }
        Ok(())
    }

    /// Answers a command of the feed. The forwarding table, if there is one, follows the command. If memory runs out for that, the
    /// forwarding table is dropped, and look-ups are by the table.
    pub(crate) fn apply(&mut self, feed: u32, cmd: Cmd) -> Result<Reply, Refused>
        requires { IsFeed feed }
        ensures ok { IfOk result (λ reply. Serves (table_state self.old.table) (table_state self.new.table) feed cmd reply) }
        ensures err { OnErr result (self.new ≡ self.old) }
        ensures wanted { OnErr result (reply_of self.old.table.limit self.old.table.routes feed cmd ≡ Added) }
        ensures followed { IfOk result (λ reply. self.old.is_followed ≡ true → SaysChange reply ⊎ (self.new.is_followed ≡ true)) }
    {
        match cmd {
            Cmd::Purge => Ok(self.purge(feed)),
            _ => self.change(feed, cmd),
        }
    }

    /// Executes any command of the feed, after which a purge rebuilds the forwarding table.
    fn change(&mut self, feed: u32, cmd: Cmd) -> Result<Reply, Refused>
        requires { IsFeed feed }
        ensures ok { IfOk result (λ reply. Serves (table_state self.old.table) (table_state self.new.table) feed cmd reply) }
        ensures err { OnErr result (self.new ≡ self.old) }
        ensures wanted { OnErr result (reply_of self.old.table.limit self.old.table.routes feed cmd ≡ Added) }
        ensures followed { IfOk result (λ reply. self.old.is_followed ≡ true → SaysChange reply ⊎ (self.new.is_followed ≡ true)) }
    {
        self.table.holds();
        let reply = self.table.apply(feed, cmd)?;
        if !is_change(&reply) {
            return Ok(reply);
        }
        commands_preserve_other_routes();
        follow(&mut self.beside, &self.table, &cmd);
        Ok(reply)
    }

    /// Answers an add, a replacement or a withdrawal of the feed as `apply` does. Returns the reply, and the change of the best route
    /// to the command's prefix, if it is another one.
    pub(crate) fn apply_changed(
        &mut self,
        feed: u32,
        cmd: Cmd,
    ) -> Result<(Reply, Option<BestChange>), Refused>
        requires feed { IsFeed feed }
        requires prefix { IsSome (changed_prefix cmd) }
        ensures ok { IfOk result (λ done. Serves (table_state self.old.table) (table_state self.new.table) feed cmd done.0) }
        ensures changes { IfOk result (λ done. AreBestChanges self.old.table.routes self.new.table.routes (option_to_list done.1)) }
        ensures err { OnErr result (self.new ≡ self.old) }
        ensures wanted { OnErr result (reply_of self.old.table.limit self.old.table.routes feed cmd ≡ Added) }
        ensures followed { IfOk result (λ done. self.old.is_followed ≡ true → SaysChange done.0 ⊎ (self.new.is_followed ≡ true)) }
    {
        self.table.holds();
        let (reply, change) = self.table.apply_changed(feed, cmd)?;
        if !is_change(&reply) {
            return Ok((reply, change));
        }
        commands_preserve_other_routes();
        follow(&mut self.beside, &self.table, &cmd);
        Ok((reply, change))
    }

    /// Executes a purge of the feed.
    fn purge(&mut self, feed: u32) -> Reply
        requires { IsFeed feed }
        ensures { Serves (table_state self.old.table) (table_state self.new.table) feed Purge result }
    {
        let (reply, beside) = purged(self.beside.take(), &mut self.table, feed);
        self.beside = beside;
        reply
    }

    /// Writes for each address, in order, the best route of the longest prefix that covers it, as `Table::look_up_each` does.
    pub(crate) fn look_up_each(&self, addresses: &[Addr], answers: &mut [Option<Route>])
        requires { length answers.old ≡ length addresses.now }
        ensures { answers.new ≡ map (λ addr. look_up addr self.now.table.routes) addresses.now }
    {
        match &self.beside {
            None => self.table.look_up_each(addresses, answers),
            Some(fib) => fib.look_up_each(addresses, answers),
        }
    }

    /// Returns the forwarding table that follows it, if there is one.
    pub(crate) fn beside(&self) -> Option<&Fib<Global>>
        ensures { MatchOption result (self.now.is_followed ≡ false)
            (λ fib. (self.now.is_followed ≡ true) × (fib.now ≡ self.now.table.routes)) }
    {
        self.beside.as_ref()
    }

    /// Returns true if a forwarding table follows it.
    pub(crate) fn is_followed(&self) -> bool
        ensures { result ≡ self.now.is_followed }
    {
        self.beside.is_some()
    }

    /// Returns about how many bytes it takes.
    pub(crate) fn bytes(&self) -> usize
        ensures table { trie_bytes self.now.table.trie ≤ result }
        ensures followed { self.now.is_followed ≡ true → trie_bytes self.now.table.trie + 2 ^ 26 ≤ result }
    {
        let table = table_bytes(&self.table);
        match &self.beside {
            None => table,
            Some(fib) => table.saturating_add(fib.memory()),
        }
    }
}

/// Returns true if the reply says that routes were inserted, changed or removed, or that a feed was purged.
fn is_change(reply: &Reply) -> bool
    ensures { IsTrue result ↔ SaysChange reply.now }
{
    match reply {
        Reply::Added | Reply::Replaced | Reply::Withdrawn | Reply::Purged(_) => true,
        Reply::Exists | Reply::Full | Reply::Missing => false,
        Reply::Found(_) | Reply::NoRoute | Reply::Dumped(_) => false,
    }
}

/// Makes the forwarding table, if there is one, follow the command that the table has answered. Drops it if memory ran out.
fn follow(beside: &mut Option<Fib<Global>>, table: &Table<Global>, cmd: &Cmd)
    requires { FibMayFollow cmd.now beside.old table.now.routes }
    ensures { FibHasRoutes beside.new table.now.routes }
{
    let Some(fib) = beside else {
        return;
    };
    if fib.follow(table, cmd).is_err() {
        *beside = None;
    }
}

/// Executes a purge of the feed. Returns the reply, and the forwarding table that follows it, if there was one and memory sufficed.
fn purged(
    beside: Option<Fib<Global>>,
    table: &mut Table<Global>,
    feed: u32,
) -> (Reply, Option<Fib<Global>>)
    requires feed { IsFeed feed }
    requires beside { FibHasRoutes beside table.old.routes }
    ensures served { Serves (table_state table.old) (table_state table.new) feed Purge result.0 }
    ensures beside { FibHasRoutes result.1 table.new.routes }
{
    match beside {
        None => (table.purge(feed), None),
        Some(fib) => fib.purge(table, feed),
    }
}
