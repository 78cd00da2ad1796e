//! `rt_feed`: runs a feed's text through a custom gate, here to a book that no other feed shares.
ghost use Rattle.std.specs.Prelude.{◌≡◌, [], ◌∷◌, ◌++◌, IfOk, All};
ghost use Rattle.std.proofs.Common.{sym, ◌∙◌, append-nil};
ghost use Rattle.rt_shared.specs.JournalVisits.{reply_to};
ghost use Rattle.rt_feed.specs.Visits.{concatenated};
ghost use Rattle.walkthrough.specs.Gate.{IsRunOf};
ghost use Rattle.walkthrough.specs.inside.JournalTold.{told};

use rt_feed::{Gate, Outcome, Report, run_feed};
use rt_rib::{Book, Cmd, Refused, Reply};
use std::alloc::Global;
use std::sync::Wait;

/// The maximum number of routes of the feed here.
const LIMIT: u32 = 10;

/// Executes the commands of feed 1 on its own book. It holds the visits whose commands and replies are in its journal.
#[derive(Drop)]
pub struct OwnBook {
    /// The book.
    pub book: Book<Global>,
    ghost by_feed_1: { All (λ e. e.feed ≡ 1) book.journal },
}

impl OwnBook {
    /// Executes a command, and returns its outcome.
    fn serve(&mut self, cmd: Cmd) -> Outcome
        ensures { told self.new.book.journal ≡ told self.old.book.journal ++ reply_to cmd result }
    {
        match self.book.apply(1, cmd) {
            Ok(reply) => Outcome::Did(reply),
            Err(Refused) => Outcome::Refused,
        }
    }
}

impl Gate for OwnBook {
    ghost Name = { Unit {0} };

    ghost name = { λ _. tt };

    ghost holds = { λ gate visits. told gate.book.journal ≡ concatenated visits };

    ghost holds_some = { λ gate. (told gate.book.journal ∷ [], sym (append-nil (told gate.book.journal))) };

    ghost holds_one = { λ _ _ _ a b. sym a ∙ b };

    fn apply<R: Wait>(&mut self, _rt: &R, cmd: Cmd) -> Result<Reply, Refused> {
        self.book.apply(1, cmd)
    }

    fn apply_batch<R: Wait>(
        &mut self,
        _rt: &R,
        cmds: &[Cmd],
        out: &mut Vec<Outcome>,
    ) -> Result<(), Refused> {
        out.try_reserve(cmds.len())?;
        for cmd in cmds {
            let outcome = self.serve(*cmd);
            out.push_reserved(outcome);
        }
        Ok(())
    }
}

/// Runs the text. Returns its report, and the book, whose journal has the commands that were answered.
pub fn run_alone<R: Wait>(
    rt: &R,
    alloc: Global,
    text: &[u8],
) -> Result<(Report, Book<Global>), Refused>
    ensures { IfOk result (λ run. IsRunOf text.now run.0 run.1.journal) }
{
    let mut gate = OwnBook {
        book: Book::new(alloc, LIMIT),
    };
    let report = run_feed(rt, alloc, text, 1, &mut gate)?;
    Ok((report, gate.book))
}
