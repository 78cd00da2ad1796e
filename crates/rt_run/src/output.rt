//! Output: the parts of a run's text, the answers to questions, and the differences between two tables. Each part goes to
//! any writer; `write_through` writes an output through one buffer.
ghost use Rattle.std.specs.Prelude.{◌≡◌, ◌==◌, ◌&&◌, ◌++◌, [], ◌^◌, ◌<◌, ◌≤◌, ℕ, List, Option, length, IfErr};
ghost use Rattle.std.specs.Fn.{FnOnceReturnsAtMut};
ghost use Rattle.std.specs.List.{flat_map, sum_by};
ghost use Rattle.rt_cidr.specs.Output.{WritesText};
ghost use Rattle.rt_print.specs.Buffer.{buffered};
ghost use Rattle.rt_rib.specs.declared.limits.TheConstants.{MAX_FEEDS};
ghost use Rattle.rt_print.specs.declared.change_counts.ChangeCount.{ChangeCount};
ghost use Rattle.rt_print.specs.ChangeCounts.{change_counts_as};
ghost use Rattle.rt_print.specs.DifferenceText.{differences_as, differences_header};
ghost use Rattle.rt_print.specs.Routes.{table_text};
ghost use Rattle.rt_print.specs.Styles.{rows_as, rows_header};
ghost use Rattle.rt_run.specs.RunText.{reports_text};
ghost use Rattle.rt_run.specs.inside.Outputs.{with_invalid, Writes};

use crate::faults::AppFault;
use crate::rendering::{Rows, Workers, write_on_threads};
use rt_cidr::put;
use rt_diff::Difference;
use rt_feed::{InvalidLine, Report, write_report};
use rt_print::{
    ChangeCount, DiffOptions, OutputBuffer, OutputRoom, Style, write_change_counts,
    write_difference, write_invalid_line, write_table,
};
use rt_rib::Route;
use std::io::{self, Write};
use std::thread::Threads;

/// Writes an output through a new buffer over the writer, by one call of `print`, and returns `given` if everything was
/// written. The room is the buffer's. An empty output never fails. Doesn't allocate.
pub(crate) fn write_through<
    W: Write,
    X: Drop,
    F: FnOnce(&mut OutputBuffer<'_, W>) -> io::Result<()>,
>(w: &mut W, room: OutputRoom, is_empty: bool, given: X, print: F) -> Result<X, AppFault>
    requires new { room ≡ [] }
    requires called { F.IsAlwaysCallable print }
    ensures text { (text : List ℕ) → is_empty ≡ (length text == 0) → ((old : _) (written : _) (new : _) → FnOnceReturnsAtMut F.FnOnce print old written new
        → WritesText (buffered old.writer.ghost_name (W.contents old.began.value) (W.contents old.writer.now) old.held)
        (buffered new.writer.ghost_name (W.contents new.began.value) (W.contents new.writer.now) new.held) text written)
        → Writes text given (W.contents w.old) (W.contents w.new) result }
    ensures fault { IfErr result (λ fault. fault ≡ AppFault.Write) }
{
    let mut out = OutputBuffer::new(w, room);
    let written = print(&mut out);
    let told = finish(&mut out, written, is_empty, given);
    let _ = out.into_writer();
    told
}

/// Ends the output that was written to a new buffer, with this result: sends the rest of it to the writer below, unless the
/// output failed or is empty.
fn finish<W: Write, X: Drop>(
    buffer: &mut OutputBuffer<'_, W>,
    written: io::Result<()>,
    is_empty: bool,
    given: X,
) -> Result<X, AppFault>
    ensures text { (name : ℕ) (began after : Option (List ℕ)) (text : List ℕ) → is_empty ≡ (length text == 0)
        → WritesText (buffered name began began [])
        (buffered buffer.old.writer.ghost_name (W.contents buffer.old.began.value) (W.contents buffer.old.writer.now) buffer.old.held) text written
        → (name ≡ buffer.new.writer.ghost_name → after ≡ W.contents buffer.new.writer.now) → Writes text given began after result }
    ensures fault { IfErr result (λ fault. fault ≡ AppFault.Write) }
{
    if let Err(_) = written {
        return Err(AppFault::Write);
    }
    if is_empty {
        return Ok(given);
    }
    match buffer.flush() {
        Ok(()) => Ok(given),
        Err(_) => Err(AppFault::Write),
    }
}

/// Writes the reports, the k-th for feed k, and then the table.
pub(crate) fn write_run<W: Write>(
    w: &mut W,
    reports: &[Report],
    routes: &[Route],
) -> Result<(), io::Error>
    requires few { length reports.now ≤ MAX_FEEDS }
    ensures { WritesText (W.contents w.old) (W.contents w.new) (reports_text 1 reports.now ++ table_text routes.now) result }
{
    for (index, report) in reports.iter().enumerate() {
        write_report(w, index as u32 + 1, report)?;
    }
    write_table(w, routes)
}

/// Writes the header, the rows of the items, and the invalid lines in their places, through a new buffer over the writer, as
/// `write_through` does. Each item has a row.
pub(crate) fn write_rows_through<R: Threads + Sync, W: Write, I: Sync, P: Rows<I> + Sync, X: Drop>(
    workers: &Workers<'_, R>,
    w: &mut W,
    room: OutputRoom,
    header: &[u8],
    style: &Style,
    rows: &P,
    items: &[I],
    invalid: &[InvalidLine],
    given: X,
) -> Result<X, AppFault>
    requires new { room ≡ [] }
    requires empty { (length items.now == 0) ≡ (length (flat_map (P.row_of rows.now) items.now) == 0) }
    ensures { Writes (header.now ++ with_invalid style.now.syntax (flat_map (P.row_of rows.now)) 0 items.now invalid.now) given (W.contents w.old) (W.contents w.new) result }
{
    let is_empty = is_output_empty(header, have_no_rows(items, invalid));
    let mut out = OutputBuffer::new(w, room);
    let written = write_with_invalid(workers, &mut out, header, style, rows, items, invalid);
    let told = finish(&mut out, written, is_empty, given);
    let _ = out.into_writer();
    told
}

/// Returns true if an output with this header is empty; `no_rows` is true if nothing follows the header.
fn is_output_empty(header: &[u8], no_rows: bool) -> bool
    ensures { result ≡ ((length header.now == 0) && no_rows) }
{
    header.is_empty() && no_rows
}

/// Returns true if there is neither an item nor an invalid line.
fn have_no_rows<I>(items: &[I], invalid: &[InvalidLine]) -> bool
    ensures { result ≡ ((length items.now == 0) && (length invalid.now == 0)) }
{
    items.is_empty() && invalid.is_empty()
}

/// Writes the header, the rows of the items, and the invalid lines in their places.
fn write_with_invalid<R: Threads + Sync, W: Write, X: Sync, P: Rows<X> + Sync>(
    workers: &Workers<'_, R>,
    w: &mut W,
    header: &[u8],
    style: &Style,
    rows: &P,
    items: &[X],
    invalid: &[InvalidLine],
) -> Result<(), io::Error>
    ensures { WritesText (W.contents w.old) (W.contents w.new)
        (header.now ++ with_invalid style.now.syntax (flat_map (P.row_of rows.now)) 0 items.now invalid.now) result }
{
    put(w, header)?;
    let (mut rest, mut lines, mut done) = (items, invalid, 0);
    while let Some((line, later)) = lines.split_first() {
        let (piece, behind) = rest.split_at(line.before.saturating_sub(done).min(rest.len()));
        write_on_threads(workers, w, rows, piece)?;
        write_invalid_line(w, style, line.number)?;
        rest = behind;
        lines = later;
        done = line.before;
    }
    write_on_threads(workers, w, rows, rest)
}

/// Writes the header of routes and the rows of the pieces, one after another, through a new buffer over the writer, as
/// `write_through` does.
pub(crate) fn write_route_pieces<R: Threads + Sync, W: Write, X: Drop>(
    workers: &Workers<'_, R>,
    w: &mut W,
    room: OutputRoom,
    style: &Style,
    pieces: &[Vec<Route>],
    given: X,
) -> Result<X, AppFault>
    requires new { room ≡ [] }
    ensures { Writes (rows_header style.now.syntax ++ rows_as style.now (flat_map (λ piece. piece.items) pieces.now)) given (W.contents w.old) (W.contents w.new) result }
{
    let is_empty = is_output_empty(style.rows_header(), are_all_empty(pieces));
    let mut out = OutputBuffer::new(w, room);
    let written = write_headed_pieces(workers, &mut out, style, pieces);
    let told = finish(&mut out, written, is_empty, given);
    let _ = out.into_writer();
    told
}

/// Returns true if no piece has a route.
fn are_all_empty(pieces: &[Vec<Route>]) -> bool
    ensures { result ≡ (length (flat_map (λ piece. piece.items) pieces.now) == 0) }
{
    for piece in pieces {
        if !piece.is_empty() {
            return false;
        }
    }
    true
}

/// Writes the header of routes, and then the rows of the pieces.
fn write_headed_pieces<R: Threads + Sync, W: Write>(
    workers: &Workers<'_, R>,
    w: &mut W,
    style: &Style,
    pieces: &[Vec<Route>],
) -> Result<(), io::Error>
    ensures { WritesText (W.contents w.old) (W.contents w.new) (rows_header style.now.syntax ++ rows_as style.now (flat_map (λ piece. piece.items) pieces.now)) result }
{
    put(w, style.rows_header())?;
    write_pieces(workers, w, style, pieces)
}

/// Writes the rows of the pieces, one after another.
fn write_pieces<R: Threads + Sync, W: Write>(
    workers: &Workers<'_, R>,
    w: &mut W,
    style: &Style,
    pieces: &[Vec<Route>],
) -> Result<(), io::Error>
    ensures { WritesText (W.contents w.old) (W.contents w.new) (rows_as style.now (flat_map (λ piece. piece.items) pieces.now)) result }
{
    for piece in pieces {
        write_on_threads(workers, w, style, piece.as_slice())?;
    }
    Ok(())
}

/// Each range has its line, or the lines of its prefixes.
impl Rows<Difference> for DiffOptions {
    ghost use Rattle.rt_print.specs.DifferenceText.{difference_as};

    ghost row_of = { λ options d. difference_as options d };

    fn write_rows<W: Write>(&self, w: &mut W, items: &[Difference]) -> io::Result<()> {
        write_ranges(w, self, items)
    }
}

/// Writes the line of each range, or the lines of its prefixes.
fn write_ranges<W: Write>(
    w: &mut W,
    options: &DiffOptions,
    list: &[Difference],
) -> Result<(), io::Error>
    ensures { WritesText (W.contents w.old) (W.contents w.new) (differences_as options.now list.now) result }
{
    for difference in list {
        write_difference(w, options, difference)?;
    }
    Ok(())
}

/// Writes the header and these ranges, which are all of two tables, through a new buffer over the writer, as `write_through`
/// does.
pub(crate) fn write_differences<R: Threads + Sync, W: Write, X: Drop>(
    workers: &Workers<'_, R>,
    w: &mut W,
    room: OutputRoom,
    options: &DiffOptions,
    list: &[Difference],
    given: X,
) -> Result<X, AppFault>
    requires new { room ≡ [] }
    requires empty { (length list.now == 0) ≡ (length (differences_as options.now list.now) == 0) }
    ensures { Writes (differences_header options.now ++ differences_as options.now list.now) given (W.contents w.old) (W.contents w.new) result }
{
    let is_empty = is_output_empty(options.header(), list.is_empty());
    let mut out = OutputBuffer::new(w, room);
    let written = write_headed_ranges(workers, &mut out, options, list);
    let told = finish(&mut out, written, is_empty, given);
    let _ = out.into_writer();
    told
}

/// Writes the header, and then the line of each range, or the lines of its prefixes.
fn write_headed_ranges<R: Threads + Sync, W: Write>(
    workers: &Workers<'_, R>,
    w: &mut W,
    options: &DiffOptions,
    list: &[Difference],
) -> Result<(), io::Error>
    ensures { WritesText (W.contents w.old) (W.contents w.new) (differences_header options.now ++ differences_as options.now list.now) result }
{
    put(w, options.header())?;
    write_on_threads(workers, w, options, list)
}

/// Writes the numbers of differences, by these counts, through a new buffer over the writer, as `write_through` does.
pub(crate) fn write_numbers<W: Write, X: Drop>(
    w: &mut W,
    room: OutputRoom,
    options: &DiffOptions,
    counts: &[ChangeCount],
    given: X,
) -> Result<X, AppFault>
    requires new { room ≡ [] }
    requires ranges { sum_by (λ (c : ChangeCount). c.ranges) counts.now < 2 ^ 64 }
    requires addresses { sum_by (λ (c : ChangeCount). c.addresses) counts.now < 2 ^ 64 }
    ensures { Writes (change_counts_as options.now counts.now) given (W.contents w.old) (W.contents w.new) result }
{
    write_through(w, room, false, given, |out| {
        write_change_counts(out, options, counts)
    })
}
