//! `rt_rib`: a book answers commands as the sequential table does, and keeps a journal of them.
ghost use Rattle.std.specs.Prelude.{[], IfOk};
ghost use Rattle.walkthrough.specs.Book.{AnswersBoth};

use rt_rib::laws::table_by_entry;
use rt_rib::{Book, Cmd, Refused, Reply};
use std::alloc::Global;

/// The maximum number of routes of a feed here.
const LIMIT: u32 = 10;

/// Returns the replies of an empty book to a command of feed 1, and then to one of feed 2. Fails if memory runs out.
pub fn two_feeds(alloc: Global, first: Cmd, second: Cmd) -> Result<(Reply, Reply), Refused>
    ensures { IfOk result (λ replies. AnswersBoth LIMIT first second replies.0 replies.1) }
{
    let mut book = Book::new(alloc, LIMIT);
    let reply = book.apply(1, first)?;
    // Makes known what one entry leaves.
    table_by_entry();
    Ok((reply, book.apply(2, second)?))
}
