//! Runs for callers that print neither journal nor reports: all texts, or some of them, are executed one after another, on
//! the caller's thread. Only the table and a tally of each text are stored.
ghost use Rattle.std.specs.Prelude.{◌≡◌, IfOk};
ghost use Rattle.rt_rib.specs.Book.{IsFeed, table_state};
ghost use Rattle.rt_run.specs.TableText.{IsGivenBack};
ghost use Rattle.rt_run.specs.inside.Runs.{ExecutesText, ExecutesLine, LeavesInAnyBatches};

use crate::ahead::{CommandOrder, read_ahead};
use crate::input::RunInput;
use crate::tallies::RejectedInput;
use rt_feed::{Answer, FaultyLines, Version, next_line, parse_line, text_body};
use rt_rib::{Refused, Table};
use std::alloc::{AllocError, Global};

/// Executes the texts one after another over one table, the k-th for feed k; there may be none. This is one of the runs that
/// threads could have made. Returns the table that all texts leave, and the tally of each. Gives back the memory of each text
/// once it is executed, unless it has a faulty line. Callers leak the table: freeing it node by node would take a tenth of a run,
/// and the system takes its pages back at once. Its error: memory ran out outside of a command.
pub(crate) fn execute_texts(
    alloc: Global,
    input: &mut RunInput,
) -> Result<(Table<Global>, Vec<RejectedInput>), AllocError>
    ensures ran { IfOk result (λ run. LeavesInAnyBatches input.old run.0.routes run.1.items) }
    ensures given_back { IfOk result (λ run. IsGivenBack input.old run.1.items input.new) }
{
    let mut table = Table::new(alloc, input.limit);
    let mut tallies = Vec::with_capacity(alloc, input.count())?;
    for index in 0..input.count() {
        let feed = index as u32 + 1;
        let tally = execute_text(&mut table, feed, input.text(index));
        tallies.push_reserved(tally);
        if tally.faulty.count == 0 {
            input.give_back(alloc, index);
        }
    }
    Ok((table, tallies))
}

/// Executes the commands of the feed's text in order, and returns the tally of rejected input.
fn execute_text(table: &mut Table<Global>, feed: u32, text: &[u8]) -> RejectedInput
    requires { IsFeed feed }
    ensures { ExecutesText feed text.now (table_state table.old) (table_state table.new) result }
{
    let (version, lines) = text_body(text);
    let mut tally = RejectedInput::of(FaultyLines::none());
    let mut order = CommandOrder::new();
    let mut rest = lines;
    let mut number = version.first_line() - 1;
    while let Some((line, next)) = next_line(rest) {
        read_ahead(table, number, rest, version, &order);
        number += 1;
        let said = execute_line(table, feed, line, version, &mut order);
        tally.count(number, said);
        rest = next;
    }
    tally
}

/// Executes the line's command, and returns the answer that a report would have for the line, if it would have one. Adds
/// the command to the order.
fn execute_line(
    table: &mut Table<Global>,
    feed: u32,
    line: &[u8],
    version: Version,
    order: &mut CommandOrder,
) -> Option<Answer>
    requires { IsFeed feed }
    ensures { ExecutesLine version feed line.now (table_state table.old) (table_state table.new) result }
{
    match parse_line(line, version) {
        Err(fault) => Some(Answer::Fault(fault)),
        Ok(asked) => match asked {
            None => None,
            Some(cmd) => {
                order.add(cmd);
                match table.apply(feed, cmd) {
                    Ok(reply) => Some(Answer::Did(reply)),
                    Err(Refused) => Some(Answer::Refused),
                }
            }
        },
    }
}
