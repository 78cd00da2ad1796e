//! The lent book in its own allocation: a feed takes a pointer to it out of the lock and puts the pointer back, without
//! a copy of the book.
ghost use Rattle.std.specs.Prelude.{◌≡◌, IfOk, OnErr};
ghost use Rattle.rt_rib.specs.Book.{IsFeed, Applies, Refuses, HoldsTable};

use rt_rib::{Book, Cmd, Refused, Reply};
use std::alloc::Global;
use std::boxed::Box;
use std::marker::Model;

/// A book in a box. Contracts see the book.
#[derive(Drop)]
pub struct BoxedBook {
    inner: Box<Book<Global>, Global>,
}

impl Model for BoxedBook {
    ghost use Rattle.std.specs.Coded.{codes};
    ghost use Rattle.rt_trie.specs.inside.TreeCode.{tree_code};
    ghost use Rattle.rt_rib.specs.Book.{BookContents};

    ghost Value = { BookContents };

    ghost coded = { Prim.hlevel (codes, tree_code) };

    ghost view = { λ b. b.inner.value };
}

impl BoxedBook {
    /// Returns the book in a box. M1: `Refused` if memory runs out.
    pub(crate) fn new(alloc: Global, book: Book<Global>) -> Result<BoxedBook, Refused>
        ensures { IfOk result (λ boxed. boxed ≡ book) }
    {
        let Ok(inner) = Box::new(alloc, book) else {
            return Err(Refused);
        };
        Ok(BoxedBook { inner })
    }

    /// Returns the book.
    pub(crate) fn get(&self) -> &Book<Global>
        ensures { result.now ≡ self.now }
    {
        &*self.inner
    }

    /// Answers a command of the feed, as the book does.
    pub(crate) fn apply(&mut self, feed: u32, cmd: Cmd) -> Result<Reply, Refused>
        requires { IsFeed feed }
        ensures ok { IfOk result (λ reply. Applies self.old self.new feed cmd reply) }
        ensures err { OnErr result (Refuses self.old self.new feed cmd) }
        ensures holds { HoldsTable self.new }
    {
        self.inner.apply(feed, cmd)
    }

    /// Returns the book, out of its box.
    pub(crate) fn into_book(self) -> Book<Global>
        ensures { result ≡ self }
    {
        Box::into_inner(self.inner)
    }
}
