//! Reports as text. Each line is built in a short text, and goes to the writer at once.
ghost use Rattle.std.specs.Prelude.{◌≡◌, ◌++◌};
ghost use Rattle.rt_cidr.specs.Output.{WritesText};
ghost use Rattle.rt_cidr.specs.ShortText.{FitsInShortText};
ghost use Rattle.rt_feed.specs.Printed.{reply_text, fault_text, answer_text, line_text, report_text};

use crate::parse::LineFault;
use crate::report::{Answer, Line, Report};
use rt_cidr::{ShortText, put};
use rt_print::prepend_route;
use rt_rib::Reply;
use std::io::{self, Write};

/// Writes the report of the feed of this number: for each line `FEED:LINE `, its answer and LF. Errors are the
/// writer's, as `put` returns them; a prefix of the report but not all of it was then written, so a report without
/// lines never fails. Doesn't allocate. Makes one `write` for each line, more if the writer accepts only a part, and no
/// other call; wrap a writer with expensive calls in an `OutputBuffer`.
#[tactic(auto, using(crate::proofs::Printing::line_fits))]
pub fn write_report<W: Write>(w: &mut W, feed: u32, report: &Report) -> io::Result<()>
    ensures { WritesText (W.contents w.old) (W.contents w.new) (report_text feed report.now) result }
{
    let mut text = ShortText::new();
    for line in report.lines() {
        text.clear();
        prepend_line(&mut text, feed, line);
        put(w, text.as_bytes())?;
    }
    Ok(())
}

// Each function below prepends its text.

/// Prepends one line of a report, with its LF.
#[tactic(auto, using(rt_cidr::proofs::Promised::prepending), unfolding(crate::specs::Printed::line_text))]
fn prepend_line(text: &mut ShortText, feed: u32, line: &Line)
    requires room { FitsInShortText (line_text feed line.now) text.old }
    ensures { text.new ≡ line_text feed line.now ++ text.old }
{
    text.prepend(b"\n");
    prepend_answer(text, &line.answer);
    text.prepend(b" ");
    text.prepend_decimal(line.number as u64);
    text.prepend(b":");
    text.prepend_decimal(u64::from(feed));
}

/// Prepends the answer to a line.
#[tactic(auto, using(rt_cidr::proofs::Promised::prepending), unfolding(crate::specs::Printed::answer_text, crate::specs::Printed::reply_text))]
fn prepend_answer(text: &mut ShortText, answer: &Answer)
    requires room { FitsInShortText (answer_text answer.now) text.old }
    ensures { text.new ≡ answer_text answer.now ++ text.old }
{
    match answer {
        Answer::Did(Reply::Added) => text.prepend(b"added"),
        Answer::Did(Reply::Exists) => text.prepend(b"exists"),
        Answer::Did(Reply::Full) => text.prepend(b"full"),
        Answer::Did(Reply::Replaced) => text.prepend(b"replaced"),
        Answer::Did(Reply::Withdrawn) => text.prepend(b"withdrawn"),
        Answer::Did(Reply::Missing) => text.prepend(b"missing"),
        Answer::Did(Reply::Found(route)) => {
            prepend_route(text, route);
            text.prepend(b"route ");
        }
        Answer::Did(Reply::NoRoute) => text.prepend(b"no route"),
        Answer::Did(Reply::Dumped(count)) => {
            text.prepend_decimal(u64::from(*count));
            text.prepend(b"dumped ");
        }
        Answer::Did(Reply::Purged(count)) => {
            text.prepend_decimal(u64::from(*count));
            text.prepend(b"purged ");
        }
        Answer::Refused => text.prepend(b"refused"),
        Answer::Fault(fault) => text.prepend(fault_word(*fault)),
    }
}

/// Returns the fault's word, with its number.
#[tactic(auto, unfolding(crate::specs::Printed::fault_text))]
fn fault_word(fault: LineFault) -> &'static [u8; 8]
    ensures { result.now ≡ fault_text fault }
{
    match fault {
        LineFault::Command => b"fault E1",
        LineFault::FieldCount => b"fault E2",
        LineFault::Text => b"fault E3",
        LineFault::PrefixLength => b"fault E4",
        LineFault::PrefixBits => b"fault E5",
        LineFault::Preference => b"fault E6",
        LineFault::Hop => b"fault E7",
        LineFault::LineLength => b"fault E8",
    }
}
