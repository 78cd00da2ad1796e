//! Queries: a question to the finished table of a run, and the output of the answer.
ghost use Rattle.std.specs.Prelude.{◌≡◌, ◌↔◌, ◌≤◌, ◌++◌, ℕ, [], List, IfOk};
ghost use Rattle.rt_feed.specs.Addresses.{AddressRow};
ghost use Rattle.rt_print.specs.Styles.{found_header, all_found_header};
ghost use Rattle.rt_run.specs.RunText.{WritesOrFails, in_batches};
ghost use Rattle.rt_run.specs.TableText.{question_text, AsksAbout, IsAnswer, IsGivenBack};
ghost use Rattle.rt_run.specs.declared.tallies.RejectedInput.{RejectedInput};
ghost use Rattle.rt_run.specs.inside.Outputs.{found_text, all_found_text, matches_found, matches_in, with_invalid, Writes, AddsTally};

use crate::faults::AppFault;
use crate::forwarding::fib_for;
use crate::input::RunInput;
use crate::output::{write_route_pieces, write_rows_through, write_through};
use crate::parallel::run_on_threads;
use crate::question::Question;
use crate::rendering::Workers;
use crate::rows::LookupTables;
use crate::tallies::{RejectedInput, RunSummary, tallies_status};
use rt_cidr::Addr;
use rt_feed::laws::one_address_text;
use rt_feed::{AddressText, RunFault};
use rt_print::{OutputRoom, Style, write_counts, write_routes_and_total};
use rt_rib::{Refused, Route};
use rt_tables::TableUnion;
use std::alloc::{AllocError, Global};
use std::io::Write;
use std::mem;
use std::thread::Threads;

/// Executes the texts on up to `threads` threads, or on fewer if no more can be created. Then writes the answer to `w` in the
/// given style, and nothing else:
///
/// - for `Question::Best` and each address in order a line, `ADDR route` with the route or `ADDR no route`, or a JSON object
///   (`write_lookup`);
/// - for `Question::All` also a line, `ADDR also` with the route and its reason, for each further route
///   (`write_all_matches`). All routes are stored before the first is written;
/// - for both, if invalid lines are kept, for each invalid line of the text of addresses a line in its place: `LINE invalid` with
///   the line's number, or a JSON object (`write_invalid_line`);
/// - for `Question::Routes` the selected routes, without the table's first line;
/// - for `Question::RoutesAndTotal` the same and a last line with their number (`write_routes_and_total`);
/// - for `Question::Counts` their numbers (`write_counts`).
///
/// For `Best`, `All` and `Routes` the header is written first, which only CSV has (`Style::found_header`,
/// `Style::all_found_header`, `Style::rows_header`).
///
/// Hence, if no command ran out of memory, the bytes are a function of only the texts, the limit and the question
/// (`laws::query_output`). Returns the summary if everything was written. Its errors are those of `run_texts`; F3 also if
/// there is no memory for the selected routes or the tallies. Gives back the memory of each text once it is
/// executed, unless it has a faulty line; after an error some texts may be empty. Leaks the tables, as `run_texts` does.
pub fn show<R: Threads + Sync, W: Write>(
    rt: &R,
    alloc: Global,
    threads: usize,
    input: &mut RunInput,
    style: &Style,
    question: &Question<'_>,
    w: &mut W,
) -> Result<RunSummary, AppFault>
    ensures text { (batch : ℕ) → 1 ≤ batch → WritesOrFails (IsAnswer (in_batches batch input.old) style.now question.now) (W.contents w.old) (W.contents w.new) result }
    ensures given_back { IfOk result (λ given. IsGivenBack input.old given.tallies.items input.new) }
    ensures no_text { (result ≡ Err (AppFault.Run RunFault.NoText)) ↔ (input.old.texts ≡ []) }
{
    let (tables, tallies) = run_on_threads(rt, alloc, input, threads)?;
    let tallies = with_addresses(tallies, question)?;
    let status = tallies_status(tallies.as_slice());
    let given = RunSummary { status, tallies };
    let workers = Workers { rt, alloc, threads };
    let told = write_answer(&workers, &tables, style, question, given, w);
    mem::forget(tables);
    told
}

/// Returns the tallies, and last that of the question's text of addresses, if it has addresses. Its error: memory ran out.
fn with_addresses(
    tallies: Vec<RejectedInput>,
    question: &Question<'_>,
) -> Result<Vec<RejectedInput>, AllocError>
    ensures { IfOk result (λ all. AddsTally question.now tallies.items all.items) }
{
    match question {
        Question::Best(addresses) | Question::All(addresses) => {
            let mut tallies = tallies;
            tallies.try_reserve(1)?;
            tallies.push_reserved(RejectedInput::of(addresses.parts().faulty));
            Ok(tallies)
        }
        Question::Routes(_) | Question::RoutesAndTotal(_) | Question::Counts(_) => Ok(tallies),
    }
}

/// Writes the answer to the question from the tables, in few large writes, and returns `given`.
fn write_answer<R: Threads + Sync, W: Write>(
    workers: &Workers<'_, R>,
    tables: &TableUnion<Global>,
    style: &Style,
    question: &Question<'_>,
    given: RunSummary,
    w: &mut W,
) -> Result<RunSummary, AppFault>
    ensures { (rows : List AddressRow) (others : List RejectedInput) → AsksAbout question.now rows others
        → Writes (question_text style.now question.now rows tables.now) given (W.contents w.old) (W.contents w.new) result }
{
    let (rt, alloc) = (workers.rt, workers.alloc);
    let room = OutputRoom::new(alloc)?;
    one_address_text();
    match question {
        Question::Best(addresses) => {
            write_best(workers, w, room, style, tables, addresses.parts(), given)
        }
        Question::All(addresses) => {
            write_all(workers, w, room, style, tables, addresses.parts(), given)
        }
        Question::Routes(selection) => {
            let pieces = tables.select_in_pieces(rt, alloc, selection)?;
            write_route_pieces(workers, w, room, style, pieces.as_slice(), given)
        }
        Question::RoutesAndTotal(selection) => {
            let routes = tables.select(rt, alloc, selection)?;
            write_through(w, room, false, given, |out| {
                write_routes_and_total(out, style, routes.as_slice())
            })
        }
        Question::Counts(selection) => {
            let routes = tables.select(rt, alloc, selection)?;
            write_through(w, room, false, given, |out| {
                write_counts(out, style, routes.as_slice())
            })
        }
    }
}

/// Writes the result of looking up each address in the tables after the header, with the invalid lines in their places, as
/// `write_rows_through` does.
fn write_best<R: Threads + Sync, W: Write>(
    workers: &Workers<'_, R>,
    w: &mut W,
    room: OutputRoom,
    style: &Style,
    tables: &TableUnion<Global>,
    read: &AddressText,
    given: RunSummary,
) -> Result<RunSummary, AppFault>
    requires new { room ≡ [] }
    ensures { Writes (found_header style.now.syntax
        ++ with_invalid style.now.syntax (λ list. found_text style.now list tables.now) 0 read.now.addresses.items read.now.invalid.items)
        given (W.contents w.old) (W.contents w.new) result }
{
    let (addresses, invalid) = (read.addresses.as_slice(), read.invalid.as_slice());
    let fib = fib_for(workers.alloc, tables, addresses.len());
    let rows = LookupTables {
        style,
        tables,
        fib: &fib,
    };
    let header = style.found_header();
    write_rows_through(
        workers, w, room, header, style, &rows, addresses, invalid, given,
    )
}

/// Writes all routes that cover each address after the header, with the invalid lines in their places, as
/// `write_rows_through` does. Stores all routes before it writes the first.
fn write_all<R: Threads + Sync, W: Write>(
    workers: &Workers<'_, R>,
    w: &mut W,
    room: OutputRoom,
    style: &Style,
    tables: &TableUnion<Global>,
    read: &AddressText,
    given: RunSummary,
) -> Result<RunSummary, AppFault>
    requires new { room ≡ [] }
    ensures { Writes (all_found_header style.now.syntax
        ++ with_invalid style.now.syntax (λ list. all_found_text style.now list tables.now) 0 read.now.addresses.items read.now.invalid.items)
        given (W.contents w.old) (W.contents w.new) result }
{
    let (addresses, invalid) = (read.addresses.as_slice(), read.invalid.as_slice());
    let all = matches_of(workers.alloc, tables, addresses)?;
    let header = style.all_found_header();
    write_rows_through(
        workers,
        w,
        room,
        header,
        style,
        style,
        all.as_slice(),
        invalid,
        given,
    )
}

/// Returns each address, in order, and all routes of the tables that cover it, the best first.
fn matches_of(
    alloc: Global,
    tables: &TableUnion<Global>,
    addresses: &[Addr],
) -> Result<Vec<(Addr, Vec<Route>)>, Refused>
    ensures { IfOk result (λ all. matches_found all.items ≡ matches_in tables.now addresses.now) }
{
    let mut all = Vec::with_capacity(alloc, addresses.len())?;
    for addr in addresses {
        let routes = tables.look_up_all(alloc, *addr)?;
        all.push_reserved((*addr, routes));
    }
    Ok(all)
}
