//! Tallies of rejected input, for callers that don't read the reports of a run.
ghost use Rattle.std.specs.Prelude.{◌≡◌, ℕ, List, [], ◌∷◌, ◌++◌, ◌<◌};
ghost use Rattle.rt_feed.specs.declared.report.Line.{Line};
ghost use Rattle.rt_run.specs.RunText.{status_where};
ghost use Rattle.rt_run.specs.TableText.{tallies_status};

use crate::status::Status;
use rt_feed::{Answer, FaultyLines};
use rt_rib::Reply;

/// The lines of a text whose commands were rejected for one reason.
#[derive(Clone, Copy, PartialEq, Eq, Debug)]
pub struct RejectedLines {
    /// Their number.
    pub count: usize,
    /// The number of the first of them, from 1.
    pub first: Option<usize>,
}

impl RejectedLines {
    ghost use Rattle.rt_run.specs.TableText.{rejected_lines};

    /// Returns the rejected lines of a text without any.
    fn none() -> RejectedLines
        ensures { result ≡ rejected_lines [] }
    {
        RejectedLines {
            count: 0,
            first: None,
        }
    }

    /// Adds the line of this number, which comes after the others.
    fn put(&mut self, number: usize)
        requires { self.old.count < number }
        ensures { (lines : List ℕ) → self.old ≡ rejected_lines lines → self.new ≡ rejected_lines (lines ++ number ∷ []) }
    {
        self.count += 1;
        if self.first.is_none() {
            self.first = Some(number);
        }
    }
}

/// The rejected input of a feed's text, by kind.
#[derive(Clone, Copy, Debug)]
pub struct RejectedInput {
    /// Its faulty lines.
    pub faulty: FaultyLines,
    /// The `add`s over the limit.
    pub full: RejectedLines,
    /// The `add`s to a prefix to which the feed already had a route.
    pub existing: RejectedLines,
    /// The `replace`s and `withdraw`s to a prefix to which the feed had no route.
    pub missing: RejectedLines,
    /// The number of commands that ran out of memory.
    pub refused: usize,
}

impl RejectedInput {
    ghost use Rattle.rt_feed.specs.Lines.{numbered};
    ghost use Rattle.rt_run.specs.TableText.{tally_of, faulty_tally};
    ghost use Rattle.rt_run.specs.inside.Runs.{IsBelow};

    /// Returns the tally of a text whose only rejected input are these faulty lines.
    pub(crate) fn of(faulty: FaultyLines) -> RejectedInput
        ensures { result ≡ faulty_tally faulty }
    {
        RejectedInput {
            faulty,
            full: RejectedLines::none(),
            existing: RejectedLines::none(),
            missing: RejectedLines::none(),
            refused: 0,
        }
    }

    /// Counts the answer that a report would have for the line of this number, if it would have one.
    pub(crate) fn count(&mut self, number: usize, said: Option<Answer>)
        requires { IsBelow number self.old }
        ensures { (report : List Line) → self.old ≡ tally_of report → self.new ≡ tally_of (report ++ numbered number said) }
    {
        match said {
            Some(Answer::Fault(fault)) => self.faulty.put(number, fault),
            Some(Answer::Did(Reply::Full)) => self.full.put(number),
            Some(Answer::Did(Reply::Exists)) => self.existing.put(number),
            Some(Answer::Did(Reply::Missing)) => self.missing.put(number),
            Some(Answer::Refused) => self.refused += 1,
            Some(Answer::Did(_)) | None => {}
        }
    }
}

/// The result of a query or of a comparison.
#[derive(Debug, Drop)]
pub struct RunSummary {
    /// The exit status: 5 if some command ran out of memory, else 2 if some line was faulty or some `add` was over the limit,
    /// else 1 if two tables were compared and differ for some address, else 0.
    pub status: u8,
    /// The rejected input of each text: of a query's feeds, in order, and last of its text of addresses if it looks addresses
    /// up; or of the old feeds of a comparison and then of the new ones.
    pub tallies: Vec<RejectedInput>,
}

/// Returns the exit status of a run with these tallies: 5 if some command ran out of memory, else 2 if some line was faulty
/// or some `add` was over the limit, else 0.
pub(crate) fn tallies_status(tallies: &[RejectedInput]) -> u8
    ensures { result ≡ tallies_status tallies.now }
{
    let refused = tallies.iter().any(|tally| tally.refused > 0);
    let rejected = tallies
        .iter()
        .any(|tally| tally.faulty.count > 0 || tally.full.count > 0);
    status_where(refused, rejected)
}

/// Returns the status: `refused` means that some command ran out of memory, `left_out` that other input was rejected.
pub(crate) fn status_where(refused: bool, left_out: bool) -> u8
    ensures { result ≡ status_where refused left_out }
{
    if refused {
        Status::Refused as u8
    } else if left_out {
        Status::Rejected as u8
    } else {
        Status::Done as u8
    }
}
