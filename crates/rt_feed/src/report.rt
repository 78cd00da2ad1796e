//! The answers to a feed's text, line by line.
ghost use Rattle.std.specs.Prelude.{◌≡◌, ◌<◌, ◌≤◌, [], ◌∷◌, ◌++◌, All, length, take, drop, OnOk, OnErr};

use crate::parse::LineFault;
use rt_rib::Reply;
use rt_shared::Outcome;
use std::alloc::{AllocError, Global};
use std::marker::Model;

/// The answer to a line of a feed's text.
#[derive(Clone, Copy, PartialEq, Eq, Debug)]
pub enum Answer {
    /// The command had this reply.
    Did(Reply),
    /// The command was refused because memory ran out; it had no effect.
    Refused,
    /// The line is not a command.
    Fault(LineFault),
}

impl Answer {
    ghost use Rattle.rt_feed.specs.Reports.{is_refusal, is_fault};

    /// Returns true if a command was refused because memory ran out.
    pub fn is_refusal(&self) -> bool
        ensures { result ≡ is_refusal self.now }
    {
        matches!(self, Answer::Refused)
    }

    /// Returns true if a line was faulty.
    pub fn is_fault(&self) -> bool
        ensures { result ≡ is_fault self.now }
    {
        matches!(self, Answer::Fault(_))
    }
}

/// One line of a report: the answer to one line of the feed's text.
#[derive(Clone, Copy, PartialEq, Eq, Debug)]
pub struct Line {
    /// The number of the text's line, from 1.
    pub number: usize,
    /// The answer to it.
    pub answer: Answer,
}

/// The answers to a feed's text, by rising line number. A line that is skipped has none.
#[derive(Debug, Drop)]
pub struct Report {
    lines: Vec<Line>,
}

impl Model for Report {
    ghost use Rattle.std.specs.Prelude.{List};
    ghost use Rattle.rt_feed.specs.declared.report.Line.{Line};

    ghost Value = { List Line };

    ghost use Rattle.rt_feed.specs.Reports.{NumbersRise};

    ghost view = { λ report. report.lines.items };

    ghost invariant = { λ report. NumbersRise report.lines.items };
}

impl Report {
    ghost use Rattle.rt_feed.specs.Reports.{NumbersRise, has_refusal, has_fault};
    ghost use Rattle.rt_feed.specs.inside.FeedRuns.{filled};

    /// Returns a report without lines.
    pub fn new(alloc: Global) -> Report
        ensures { result ≡ [] }
    {
        Report {
            lines: Vec::new(alloc),
        }
    }

    /// Returns the lines, by rising number.
    pub fn lines(&self) -> &[Line]
        ensures lines { result.now ≡ self.now }
        ensures rising { NumbersRise self.now }
    {
        &self.lines
    }

    /// Returns true if some command was refused because memory ran out.
    pub fn has_refusal(&self) -> bool
        ensures { result ≡ has_refusal self.now }
    {
        self.lines.iter().any(|line| line.answer.is_refusal())
    }

    /// Returns true if some line was faulty.
    pub fn has_fault(&self) -> bool
        ensures { result ≡ has_fault self.now }
    {
        self.lines.iter().any(|line| line.answer.is_fault())
    }

    /// Gives these outcomes, in order, to the lines from this index on that aren't faults.
    pub(crate) fn fill(&mut self, first: usize, outcomes: &[Outcome])
        requires { first ≤ length self.old }
        ensures { self.new ≡ take first self.old ++ filled (drop first self.old) outcomes.now }
    {
        let lines = &mut self.lines;
        let mut rest = outcomes;
        for index in first..lines.len() {
            let [outcome, behind @ ..] = rest else {
                return;
            };
            if !lines[index].answer.is_fault() {
                lines[index].answer = match *outcome {
                    Outcome::Did(reply) => Answer::Did(reply),
                    Outcome::Refused => Answer::Refused,
                };
                rest = behind;
            }
        }
    }

    /// Appends a line, whose number is above all others. Fails only if memory runs out; the report is then unchanged.
    pub fn push(&mut self, line: Line) -> Result<(), AllocError>
        requires { All (λ earlier. earlier.number < line.number) self.old }
        ensures ok { OnOk result (self.new ≡ self.old ++ line ∷ []) }
        ensures err { OnErr result (self.new ≡ self.old) }
    {
        self.lines.push(line)?;
        Ok(())
    }
}
