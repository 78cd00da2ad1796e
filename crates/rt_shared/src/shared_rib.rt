//! The shared table, and each feed's right to change it.
ghost use Rattle.std.specs.Prelude.{◌≡◌, ℕ, ◌+◌, ◌^◌, ◌<◌, ◌≤◌, [], ◌∷◌, ◌++◌, length, IfOk, OnErr, IsOk, OnOk, All, vec_len, vec_capacity};
ghost use Rattle.rt_rib.specs.declared.limits.TheConstants.{MAX_FEEDS};
ghost use Rattle.rt_rib.specs.Book.{IsLimit};
ghost use Rattle.ya_core.specs.ArbitrationTree.{HasShape};
ghost use Rattle.rt_rib.specs.Sequential.{table_of_journal, IsLawfulJournal};
ghost use Rattle.rt_shared.specs.JournalVisits.{Since, CommitsBatch, MakesVisitWith};
ghost use Rattle.rt_shared.specs.SharedTable.{ArePassesOf, NeedsMemory, Settles, feed_of};
ghost use Rattle.rt_shared.specs.inside.PassModel.{shared_id, of_feed};

use crate::lent::Lent;
use crate::outcome::Outcome;
use rt_rib::{Book, Cmd, Refused, Reply, Route};
use std::alloc::Global;
use std::fmt;
use std::marker::Model;
use std::sync::Wait;
use ya_lock::{Pass, TreeLock};

/// The tree with the most levels has a place for each feed.
const _: () = prove!(rt_rib::MAX_FEEDS == ya_core::MAX_PLACES);

/// The right of one feed to change one shared table. Contracts see its table, its feed, the journal as the pass has last
/// seen it, and the number of entries for which that journal had room.
#[derive(Drop)]
pub struct FeedPass {
    /// `None` only during a call.
    pub(crate) pass: Option<Pass<Lent>>,
    pub(crate) feed: u32,
}

impl Model for FeedPass {
    ghost use Rattle.rt_shared.specs.SharedTable.{HeldPass};

    ghost Value = { HeldPass };

    ghost use Rattle.rt_shared.specs.inside.PassModel.{held_pass, HoldsLockPass};

    ghost view = { λ p. held_pass p.feed p.pass };

    ghost invariant = { λ p. HoldsLockPass p.feed p.pass };
}

impl FeedPass {
    /// Returns the number of its feed, from 1 on.
    pub fn feed(&self) -> u32
        ensures { result ≡ self.now.feed }
    {
        self.feed
    }

    /// Returns the pass of the feed of this place.
    pub(crate) fn of(idle: Pass<Lent>) -> FeedPass
        requires { idle.place < idle.seen.feeds }
        ensures { result ≡ of_feed idle }
    {
        let feed = idle.place() as u32 + 1;
        FeedPass {
            pass: Some(idle),
            feed,
        }
    }

    /// Returns its pass of the lock.
    pub(crate) fn into_idle(self) -> Pass<Lent>
        ensures table { shared_id result ≡ self.table }
        ensures feed { feed_of result.place ≡ self.feed }
        ensures seen { result.seen.book.journal ≡ self.seen }
    {
        self.pass.unwrap()
    }
}

impl fmt::Debug for FeedPass {
    fn fmt<F: fmt::Write>(&self, f: &mut fmt::Formatter<F>) -> fmt::Result {
        f.debug_struct("FeedPass")
            .field("feed", &self.feed)
            .finish_non_exhaustive()
    }
}

/// A routing table with its journal, which 2 to the power of L feeds change, each by its own pass. L is 1 to
/// `ya_core::MAX_LEVELS`. A thread that uses it holds a reference to it and a pass. Contracts see its identity, the
/// maximum number of routes of a feed, and the number of feeds.
#[derive(Drop)]
pub struct SharedRib<const L: u32> {
    lock: TreeLock<Lent, L>,
    limit: u32,
}

impl<const L: u32> Model for SharedRib<L> {
    ghost use Rattle.std.specs.Prelude.{◌^◌};
    ghost use Rattle.rt_shared.specs.SharedTable.{SharedId};

    ghost Value = { SharedId };

    ghost view = { λ t. record { lock = t.lock; limit = t.limit; feeds = 2 ^ L } };
}

impl<const L: u32> SharedRib<L> {
    /// Returns a table without routes, in which each feed may have up to `limit` routes, and the pass of each feed in
    /// order. M1: `Refused` if memory runs out.
    pub fn new(alloc: Global, limit: u32) -> Result<(SharedRib<L>, Vec<FeedPass>), Refused>
        requires levels { HasShape L }
        requires limit { IsLimit limit }
        ensures table { IfOk result (λ made. (made.0.limit ≡ limit) × (made.0.feeds ≡ 2 ^ L)) }
        ensures passes { IfOk result (λ made. ArePassesOf made.0 made.1.items) }
        ensures seen { IfOk result (λ made. All (λ p. p.seen ≡ []) made.1.items) }
    {
        let feeds = Self::feeds();
        let mut feed_passes = Vec::with_capacity(alloc, feeds as usize)?;
        let lent = Lent::new(alloc, limit, feeds)?;
        let Ok((lock, passes)) = TreeLock::new(alloc, lent) else {
            return Err(Refused);
        };
        for pass in passes {
            feed_passes.push_reserved(FeedPass::of(pass));
        }
        Ok((SharedRib { lock, limit }, feed_passes))
    }

    /// Returns the number of feeds.
    fn feeds() -> u32
        requires { HasShape L }
        ensures value { result ≡ 2 ^ L }
        ensures most { result ≤ MAX_FEEDS }
    {
        1 << L
    }

    /// Answers a command of the pass's feed as the sequential table does at the journal's end. The pass has then seen
    /// that journal, with its own entry last. M1: `Refused` if memory runs out, for the entry if the journal has no room,
    /// or for a route that is inserted; the pass has then seen the journal that it found. May wait.
    pub fn apply<R: Wait>(&self, rt: &R, pass: &mut FeedPass, cmd: Cmd) -> Result<Reply, Refused>
        requires { pass.old.table ≡ self.now }
        ensures table { pass.new.table ≡ pass.old.table }
        ensures feed { pass.new.feed ≡ pass.old.feed }
        ensures ok { IfOk result (λ reply. CommitsBatch self.now.limit pass.old.feed pass.old.seen (cmd ∷ []) (Outcome.Did reply ∷ []) pass.new.seen) }
        ensures err { OnErr result (CommitsBatch self.now.limit pass.old.feed pass.old.seen (cmd ∷ []) (Outcome.Refused ∷ []) pass.new.seen) }
        ensures wanted { OnErr result (NeedsMemory self.now.limit pass.new cmd) }
    {
        let mut guard = self.lock.enter(rt, pass.pass.take().unwrap());
        let answer = guard.get_mut().apply(pass.feed, cmd);
        pass.pass = Some(self.lock.leave(guard));
        answer
    }

    /// Answers commands of the pass's feed in order, in one piece of the journal, and appends an outcome of each to
    /// `out`. A command for which memory runs out (M1) leaves no entry, and the rest go on. An empty list of commands
    /// enters nothing. M2: `Refused` if `out` has no room for the outcomes and can't grow; then nothing was entered.
    /// May wait.
    pub fn apply_batch<R: Wait>(
        &self,
        rt: &R,
        pass: &mut FeedPass,
        cmds: &[Cmd],
        out: &mut Vec<Outcome>,
    ) -> Result<(), Refused>
        requires { pass.old.table ≡ self.now }
        ensures table { pass.new.table ≡ pass.old.table }
        ensures feed { pass.new.feed ≡ pass.old.feed }
        ensures ok { OnOk result (MakesVisitWith self.now.limit pass.old.feed pass.old.seen cmds.now out.old.items out.new.items pass.new.seen) }
        ensures err { OnErr result ((pass.new ≡ pass.old) × (out.new.items ≡ out.old.items)) }
        ensures full { OnErr result (vec_capacity out.old < vec_len out.old + length cmds.now) }
        ensures empty { cmds.now ≡ [] → (pass.new ≡ pass.old) × IsOk result }
    {
        let feed = pass.feed;
        if cmds.is_empty() {
            return Ok(());
        }
        out.try_reserve(cmds.len())?;
        let mut guard = self.lock.enter(rt, pass.pass.take().unwrap());
        guard.get_mut().serve_all(feed, cmds, out);
        pass.pass = Some(self.lock.leave(guard));
        Ok(())
    }

    /// Returns the routes of the table in dump order: those left by the journal that the pass has then seen. They are
    /// copied while no feed can enter. M1: `Refused` if memory runs out, for which there must be a route; the pass has seen
    /// that journal all the same. May wait.
    pub fn routes<R: Wait>(
        &self,
        rt: &R,
        alloc: Global,
        pass: &mut FeedPass,
    ) -> Result<Vec<Route>, Refused>
        requires { pass.old.table ≡ self.now }
        ensures table { pass.new.table ≡ pass.old.table }
        ensures feed { pass.new.feed ≡ pass.old.feed }
        ensures seen { Since pass.old.feed pass.old.seen pass.new.seen }
        ensures lawful { IsLawfulJournal self.now.limit pass.new.seen }
        ensures ok { IfOk result (λ routes. routes.items ≡ table_of_journal self.now.limit pass.new.seen) }
        ensures wanted { OnErr result (0 < length (table_of_journal self.now.limit pass.new.seen)) }
    {
        let guard = self.lock.enter(rt, pass.pass.take().unwrap());
        let routes = guard.get().book.get().routes(alloc);
        pass.pass = Some(self.lock.leave(guard));
        routes
    }

    /// Ends the table, and returns its book. The journal that each pass has seen is a prefix of the book's journal,
    /// with no entry of the pass's feed after it. Doesn't allocate. May wait.
    pub fn settle<R: Wait>(self, rt: &R, passes: Vec<FeedPass>) -> Book<Global>
        requires { ArePassesOf self passes.items }
        ensures limit { result.limit ≡ self.entry.limit }
        ensures settled { Settles self.entry passes.items result.journal }
    {
        let mut passes = passes;
        let Some(last) = passes.pop() else {
            unreachable!()
        };
        let SharedRib { lock, limit: _ } = self;
        let mut guard = lock.enter(rt, last.into_idle());
        while let Some(pass) = passes.pop() {
            guard = lock.confirm(guard, pass.into_idle());
        }
        let Lent { book, feeds: _ } = lock.close(guard);
        book.into_book()
    }
}

impl<const L: u32> fmt::Debug for SharedRib<L> {
    fn fmt<F: fmt::Write>(&self, f: &mut fmt::Formatter<F>) -> fmt::Result {
        f.debug_struct("SharedRib")
            .field("limit", &self.limit)
            .finish_non_exhaustive()
    }
}
