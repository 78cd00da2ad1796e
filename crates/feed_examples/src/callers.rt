//! Callers that need clauses which no page and no mutant has.
ghost use Rattle.std.specs.Prelude.{◌≡◌, ◌≤◌, ◌<◌, ◌↔◌, ◌^◌, Any, IfOk, [], length, map, sum_by, vec_len};
ghost use Rattle.rt_cidr.specs.Output.{WritesText};
ghost use Rattle.rt_rib.specs.Book.{IsLimit};
ghost use Rattle.rt_rib.specs.declared.limits.TheConstants.{MAX_FEEDS};
ghost use Rattle.rt_print.specs.ChangeCounts.{change_counts_as};
ghost use Rattle.rt_print.specs.Counts.{counts_as};
ghost use Rattle.rt_print.specs.Labels.{has_names};
ghost use Rattle.rt_print.specs.Styles.{invalid_as, rows_as, style_of};
ghost use Rattle.ya_core.specs.ArbitrationTree.{HasShape};

use rt_feed::TableGate;
use rt_print::{
    ChangeCount, DiffOptions, Format, OutputRoom, Style, write_change_counts, write_counts,
    write_invalid_line, write_routes,
};
use rt_rib::{Route, Table};
use rt_run::{AppFault, RunInput, replay_text};
use rt_shared::{FeedPass, SharedRib};
use rt_tables::UnionCursor;
use std::alloc::{AllocError, Allocator, Global};
use std::io::{self, Write};
use ya_core::ReplayFault;

/// Returns the gate of a pass to its table. Needs `rt_feed::TableGate::new`.
pub fn gate_of<'a, const L: u32>(table: &'a SharedRib<L>, pass: FeedPass) -> TableGate<'a, L>
    requires { pass.table ≡ table.now }
    ensures { result ≡ pass }
{
    TableGate::new(table, pass)
}

/// Returns a cursor over the routes of one table. Needs `rt_tables::UnionCursor::of_table`.
pub fn cursor_of<'a, A: Allocator + Copy>(table: &'a Table<A>) -> UnionCursor<'a, A>
    ensures { result ≡ table.now.routes }
{
    UnionCursor::of_table(table)
}

/// Returns the number of the texts of a run, which are few. Needs `rt_run::RunInput::count.few`.
pub fn count_of_texts(input: &RunInput) -> usize
    ensures { result ≤ MAX_FEEDS }
{
    input.count()
}

/// Prints the steps of a schedule. Needs `rt_run::replays::replay_text.place`: a place outside the tree, and nothing else,
/// has the error P1.
pub fn replayed<W: Write>(
    alloc: Global,
    levels: u32,
    picks: &[u32],
    w: &mut W,
) -> Result<u8, AppFault>
    ensures { (result ≡ Err (AppFault.Replay ReplayFault.Place))
        ↔ (HasShape levels × Any (λ pick. 2 ^ levels ≤ pick) picks.now) }
{
    replay_text(alloc, levels, picks, w)
}

/// Returns the input of a run. Needs `rt_run::RunInput::new`.
pub fn input_of(texts: Vec<Vec<u8>>, limit: u32) -> RunInput
    requires limited { IsLimit limit }
    requires few { vec_len texts ≤ MAX_FEEDS }
    ensures { result ≡ record { texts = map (λ text. text.items) texts.items; limit = limit } }
{
    RunInput::new(texts, limit)
}

/// Returns the texts of a run. Needs `rt_run::RunInput::texts`.
pub fn texts_of(input: &RunInput) -> &[Vec<u8>]
    ensures { map (λ text. text.items) result.now ≡ input.now.texts }
{
    input.texts()
}

/// Returns true if output of this format has names. Needs `rt_print::Format::has_names`.
pub fn is_named(format: Format) -> bool
    ensures { result ≡ has_names format }
{
    format.has_names()
}

/// Returns room for output, in which nothing is. Needs `rt_print::OutputRoom::new`.
pub fn empty_room(alloc: Global) -> Result<OutputRoom, AllocError>
    ensures { IfOk result (λ room. room ≡ []) }
{
    OutputRoom::new(alloc)
}

/// Returns the style of a format for these files. Needs `rt_print::Style::new`.
pub fn style_for(alloc: Global, format: Format, paths: &[&str]) -> Result<Style, AllocError>
    requires few { length paths.now ≤ MAX_FEEDS }
    ensures { IfOk result (λ style. style ≡ style_of format [] (map (λ path. path.now) paths.now)) }
{
    Style::new(alloc, format, paths)
}

/// Prints that a line is invalid. Needs `rt_print::lookups::write_invalid_line`.
pub fn print_invalid<W: Write>(w: &mut W, style: &Style, number: usize) -> io::Result<()>
    ensures { WritesText (W.contents w.old) (W.contents w.new) (invalid_as style.now.syntax number) result }
{
    write_invalid_line(w, style, number)
}

/// Prints routes. Needs `rt_print::routes::write_routes`.
pub fn print_routes<W: Write>(w: &mut W, style: &Style, routes: &[Route]) -> io::Result<()>
    ensures { WritesText (W.contents w.old) (W.contents w.new) (rows_as style.now routes.now) result }
{
    write_routes(w, style, routes)
}

/// Prints numbers of routes. Needs `rt_print::counts::write_counts`.
pub fn print_counts<W: Write>(w: &mut W, style: &Style, routes: &[Route]) -> io::Result<()>
    ensures { WritesText (W.contents w.old) (W.contents w.new) (counts_as style.now routes.now) result }
{
    write_counts(w, style, routes)
}

/// Prints numbers of differences. Needs `rt_print::change_counts::write_change_counts`.
pub fn print_change_counts<W: Write>(
    w: &mut W,
    options: &DiffOptions,
    counts: &[ChangeCount],
) -> io::Result<()>
    requires ranges { sum_by (λ (c : ChangeCount). c.ranges) counts.now < 2 ^ 64 }
    requires addresses { sum_by (λ (c : ChangeCount). c.addresses) counts.now < 2 ^ 64 }
    ensures { WritesText (W.contents w.old) (W.contents w.new) (change_counts_as options.now counts.now) result }
{
    write_change_counts(w, options, counts)
}
