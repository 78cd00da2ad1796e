//! The value that the lock lends to one feed at a time, and a feed's changes to it.
ghost use Rattle.std.specs.Prelude.{◌≡◌, ◌≤◌, All};
ghost use Rattle.rt_rib.specs.declared.limits.TheConstants.{MAX_FEEDS};
ghost use Rattle.rt_rib.specs.Sequential.{IsLawfulJournal};
ghost use Rattle.rt_rib.specs.Book.{HoldsTable};
ghost use Rattle.rt_rib.specs.inside.OneProof.{HoldsTable-prop};

use crate::boxed_book::BoxedBook;
use crate::outcome::Outcome;
use rt_rib::laws::lawful_by_entry;
use rt_rib::{Book, Cmd, READ_AHEAD_COMMANDS, Refused, Reply};
use std::alloc::Global;
use std::fmt;
use ya_lock::Kept;

/// The book that all feeds change. Its journal is lawful, each entry is of a feed of the table, and its trie is lawful
/// and holds exactly the routes that the journal leaves.
#[derive(Drop)]
pub struct Lent {
    pub(crate) book: BoxedBook,
    pub(crate) feeds: u32,
    ghost lawful: { IsLawfulJournal book.limit book.journal },
    ghost holds: { HoldsTable book } by { HoldsTable-prop book },
    ghost of_feeds: { All (λ e. (1 ≤ e.feed) × (e.feed ≤ feeds)) book.journal },
    ghost few: { feeds ≤ MAX_FEEDS },
}

impl Kept for Lent {
    ghost use Rattle.rt_shared.specs.SharedTable.{GrowsByOthers, GrowsByFeed};
    ghost use Rattle.rt_shared.specs.inside.LentLaws.{others_add_nothing, feed_adds_nothing, grows_by_others};

    ghost since = { λ place a b. GrowsByOthers place a b };

    ghost done = { λ place a b. GrowsByFeed place a b };

    ghost since_same = { λ place a. others_add_nothing place a };

    ghost done_same = { λ place a. feed_adds_nothing place a };

    ghost since_done = { λ place other a b c ne s d. grows_by_others place other a b c ne s d };
}

impl Lent {
    ghost use Rattle.std.specs.Prelude.{ℕ, ◌+◌, ◌<◌, IfOk, OnErr, [], ◌∷◌, ◌++◌, vec_len, vec_capacity, length};
    ghost use Rattle.rt_rib.specs.Book.{Applies, Refuses, IsLimit};
    ghost use Rattle.rt_shared.specs.JournalVisits.{answered};
    ghost use Rattle.rt_shared.specs.inside.ServedBatch.{AreServed};
    ghost use Rattle.rt_shared.specs.SharedTable.{HasSameBounds};

    /// Returns an empty book for `feeds` feeds. M1: `Refused` if memory runs out.
    pub(crate) fn new(alloc: Global, limit: u32, feeds: u32) -> Result<Lent, Refused>
        requires { IsLimit limit × (feeds ≤ MAX_FEEDS) }
        ensures limit { IfOk result (λ lent. lent.book.limit ≡ limit) }
        ensures journal { IfOk result (λ lent. lent.book.journal ≡ []) }
        ensures feeds { IfOk result (λ lent. lent.feeds ≡ feeds) }
    {
        lawful_by_entry();
        let book = BoxedBook::new(alloc, Book::new(alloc, limit))?;
        Ok(Lent { book, feeds })
    }

    /// Answers a command of the feed, as the book does.
    pub(crate) fn apply(&mut self, feed: u32, cmd: Cmd) -> Result<Reply, Refused>
        requires { (1 ≤ feed) × (feed ≤ self.old.feeds) }
        ensures feeds { self.new.feeds ≡ self.old.feeds }
        ensures ok { IfOk result (λ reply. Applies self.old.book self.new.book feed cmd reply) }
        ensures err { OnErr result (Refuses self.old.book self.new.book feed cmd) }
    {
        lawful_by_entry();
        self.book.apply(feed, cmd)
    }

    /// Answers a command like `apply`, and returns an outcome instead of a result.
    fn serve(&mut self, feed: u32, cmd: Cmd) -> Outcome
        requires { (1 ≤ feed) × (feed ≤ self.old.feeds) }
        ensures same { HasSameBounds self.old self.new }
        ensures entry { self.new.book.journal ≡ self.old.book.journal ++ answered feed (cmd ∷ []) (result ∷ []) }
    {
        match self.apply(feed, cmd) {
            Ok(reply) => Outcome::Did(reply),
            Err(Refused) => Outcome::Refused,
        }
    }

    /// Answers commands of the feed in order, and appends an outcome of each. A command for which memory runs out
    /// changes nothing, and the rest go on.
    pub(crate) fn serve_all(&mut self, feed: u32, cmds: &[Cmd], out: &mut Vec<Outcome>)
        requires feed { (1 ≤ feed) × (feed ≤ self.old.feeds) }
        requires room { vec_len out.old + length cmds.now ≤ vec_capacity out.old }
        ensures same { HasSameBounds self.old self.new }
        ensures served { AreServed feed cmds.now self.old.book.journal out.old.items self.new.book.journal out.new.items }
    {
        for (index, cmd) in cmds.iter().enumerate() {
            if index % READ_AHEAD_COMMANDS == 0 {
                self.book.get().table().read_ahead(&cmds[index..]);
            }
            let outcome = self.serve(feed, *cmd);
            out.push_reserved(outcome);
        }
    }
}

impl fmt::Debug for Lent {
    fn fmt<F: fmt::Write>(&self, f: &mut fmt::Formatter<F>) -> fmt::Result {
        f.debug_struct("Lent")
            .field("feeds", &self.feeds)
            .finish_non_exhaustive()
    }
}
