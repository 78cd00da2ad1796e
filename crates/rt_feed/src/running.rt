//! A run of a feed's text: its lines are read in order, and its commands executed on a gate in batches.
ghost use Rattle.std.specs.Prelude.{◌≡◌, ◌<◌, ◌≤◌, [], length, All, IsOk, IfOk, OnOk, OnErr};
ghost use Rattle.rt_feed.specs.inside.FeedRuns.{AnswersWaiting, Gathers};
ghost use Rattle.rt_feed.specs.FeedRuns.{IsTold, RunsFeed, RunsPrefixOf};

use crate::gates::Gate;
use crate::lines::next_line;
use crate::parse::parse_line;
use crate::report::{Answer, Line, Report};
use crate::versions::{Version, text_body};
use rt_rib::{Cmd, Refused};
use rt_shared::Outcome;
use std::alloc::{AllocError, Global};
use std::sync::Wait;

/// Executes each command of the text on the gate in order, in batches of `batch`, and returns the report. With a batch
/// of 1 commands are executed one by one; else the gathered commands are executed when there are that many, or the text
/// ends. Lines that are skipped or faulty don't count in a batch. A command for which memory runs out is reported as
/// refused, and so is each command of a batch that is refused (M2). M3: `Refused` if the report or the batch can't
/// grow. Then the gate has executed the commands of a prefix of the text, and some line that is not skipped remains.
pub fn run_feed<R: Wait, G: Gate>(
    rt: &R,
    alloc: Global,
    text: &[u8],
    batch: usize,
    gate: &mut G,
) -> Result<Report, Refused>
    requires { 1 ≤ batch }
    ensures name { G.name gate.new ≡ G.name gate.old }
    ensures ok { IfOk result (λ report. RunsFeed G.holds batch text.now gate.old gate.new report) }
    ensures err { OnErr result (RunsPrefixOf G.holds batch text.now gate.old gate.new) }

    // An empty text is never refused.
    ensures nothing { text.now ≡ [] → IsOk result }
{
    let (version, lines) = text_body(text);
    let mut run = FeedRun {
        version,
        report: Report::new(alloc),
        first: 0,
        gathered: Vec::new(alloc),
        outcomes: Vec::new(alloc),
    };
    let mut rest = lines;
    let mut number = version.first_line() - 1;
    while let Some((line, next)) = next_line(rest) {
        number += 1;
        run.gather(number, line)?;
        if run.gathered.len() == batch {
            run.ask(rt, batch, gate);
        }
        rest = next;
    }
    run.ask(rt, batch, gate);
    Ok(run.report)
}

/// The progress of a feed's text. Commands that are gathered and not yet executed are in the report as refused, so that
/// their answers need no room later.
#[derive(Drop)]
struct FeedRun {
    /// The version of its lines.
    version: Version,
    report: Report,
    /// The index in the report of the first line that was read since the gate was last called.
    first: usize,
    /// The commands that wait.
    gathered: Vec<Cmd>,
    /// Room for the outcomes of a batch.
    outcomes: Vec<Outcome>,
}

impl FeedRun {
    /// Reads the line of this number. A fault is put into the report; a command waits, and is in the report as refused.
    fn gather(&mut self, number: usize, line: &[u8]) -> Result<(), AllocError>
        requires { All (λ earlier. earlier.number < number) self.old.report }
        ensures ok { OnOk result (Gathers number line.now self.old self.new) }
        ensures err { OnErr result (IsTold self.old.version line.now) }
    {
        match parse_line(line, self.version) {
            Err(fault) => {
                let answer = Answer::Fault(fault);
                self.report.push(Line { number, answer })
            }
            Ok(asked) => match asked {
                None => Ok(()),
                Some(cmd) => {
                    self.gathered.push(cmd)?;
                    let answer = Answer::Refused;
                    self.report.push(Line { number, answer })
                }
            },
        }
    }

    /// Executes the commands that wait, if there are any, and puts their outcomes into the report. A batch of 1 is
    /// executed as one command.
    fn ask<R: Wait, G: Gate>(&mut self, rt: &R, batch: usize, gate: &mut G)
        requires { self.old.first ≤ length self.old.report }
        ensures name { G.name gate.new ≡ G.name gate.old }
        ensures waiting { AnswersWaiting G.holds gate.old gate.new self.old.gathered.items self.old.first self.old.report self.new.report }
        ensures version { self.new.version ≡ self.old.version }
        ensures emptied { self.new.gathered.items ≡ [] }
        ensures none_waits { self.new.first ≡ length self.new.report }
    {
        let cmds = self.gathered.as_slice();
        if batch == 1 && cmds.len() == 1 {
            if let Ok(reply) = gate.apply(rt, cmds[0]) {
                self.report.fill(self.first, &[Outcome::Did(reply)]);
            }
        } else if !cmds.is_empty() {
            self.outcomes.clear();
            if let Ok(()) = gate.apply_batch(rt, cmds, &mut self.outcomes) {
                self.report.fill(self.first, self.outcomes.as_slice());
            }
        }
        self.gathered.clear();
        self.first = self.report.lines().len();
    }
}
