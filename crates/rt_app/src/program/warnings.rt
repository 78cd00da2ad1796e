//! Reports of a file's rejected input on standard error, one line per kind, and of a last line without its line end. Errors of
//! standard error itself are ignored.

ghost use Rattle.std.specs.Prelude.{◌≡◌, ◌-◌, ◌==◌, true, length};
ghost use Rattle.std.specs.List.{slice_get};
ghost use Rattle.std.specs.Option.{option_map_or};

use super::hints::{FileKind, explain};
use rt_feed::FaultyLines;
use rt_run::{RejectedInput, RejectedLines};
use std::alloc::{AllocError, Global};
use std::io::Write;

/// A file of the command line, and the text that was read from it.
#[derive(Clone, Copy)]
struct InputFile<'a> {
    name: &'a str,
    text: &'a [u8],
}

/// Feed files of the command line: their names, what is left of the texts that were read from them, and whether each text ended
/// with a line end. The text of a file with a faulty line is whole.
#[derive(Clone, Copy)]
pub(super) struct FeedTexts<'a> {
    pub(super) names: &'a [&'a str],
    pub(super) texts: &'a [Vec<u8>],
    pub(super) ends: &'a [bool],
}

/// Reports the rejected input of both sides of a comparison. The tallies of the new files follow those of the old ones.
pub(super) fn report_sides<E: Write>(
    err: &mut E,
    old: FeedTexts<'_>,
    new: FeedTexts<'_>,
    tallies: &[RejectedInput],
) {
    let (old_tallies, new_tallies) = tallies.split_at(old.names.len().min(tallies.len()));
    report_each(err, old, old_tallies);
    report_each(err, new, new_tallies);
}

/// Reports the rejected input of a query: of the file with further addresses, if there is one, whose tally follows those of the
/// feed files, and of the feed files.
pub(super) fn report_query<E: Write>(
    err: &mut E,
    files: FeedTexts<'_>,
    more: Option<&str>,
    text: &[u8],
    tallies: &[RejectedInput],
) {
    let (feeds, others) = tallies.split_at(files.names.len().min(tallies.len()));
    if let (Some(name), Some(addresses)) = (more, others.first()) {
        report_rejected(
            err,
            InputFile { name, text },
            FileKind::Addresses,
            addresses,
        );
    }
    report_each(err, files, feeds);
}

/// Reports the rejected input of each feed file, and whether it ends within a line.
fn report_each<E: Write>(err: &mut E, files: FeedTexts<'_>, tallies: &[RejectedInput]) {
    let inputs = files.names.iter().zip(files.texts.iter());
    let told = tallies.iter().zip(files.ends.iter());
    for ((name, text), (tally, ends)) in inputs.zip(told) {
        let file = InputFile {
            name,
            text: text.as_slice(),
        };
        report_rejected(err, file, FileKind::Feed, tally);
        if !*ends {
            report_line_end(err, name);
        }
    }
}

/// Returns for each text whether it has a line end after its last line. Its error: memory ran out.
pub(super) fn ends_of_line(alloc: Global, texts: &[Vec<u8>]) -> Result<Vec<bool>, AllocError> {
    let mut ends = Vec::new(alloc);
    for text in texts {
        ends.push(has_line_end(text.as_slice()))?;
    }
    Ok(ends)
}

/// Returns true if the last byte of the text, if there is one, is LF.
fn has_line_end(text: &[u8]) -> bool
    ensures { result ≡ option_map_or (λ byte. byte == 10) (slice_get text.now (length text.now - 1)) true }
{
    text.last().is_none_or(|byte| *byte == b'\n')
}

/// Reports a feed file whose last line has no line end: it may have been cut off within this line, which is then another
/// command than the one that was written.
fn report_line_end<E: Write>(err: &mut E, name: &str) {
    let _ = writeln!(
        err,
        "yarib: {name}: the last line has no line end: check that the file is complete"
    );
}

/// Reports the rejected input of a file by kind: the number of its faulty lines, of its commands without effect by reason,
/// each with the first of them, and the number of commands that ran out of memory.
fn report_rejected<E: Write>(
    err: &mut E,
    file: InputFile<'_>,
    kind: FileKind,
    tally: &RejectedInput,
) {
    let name = file.name;
    report_faulty(err, file, kind, tally.faulty);
    report_lines(err, name, "adds over the limit", tally.full);
    report_lines(err, name, "duplicate adds", tally.existing);
    report_lines(
        err,
        name,
        "replaces and withdraws without a route",
        tally.missing,
    );
    if tally.refused > 0 {
        let count = tally.refused;
        let _ = writeln!(
            err,
            "yarib: {name}: commands failed, out of memory: {count}"
        );
    }
}

/// Reports the number of faulty lines of a file, and the fault of the first, if there is one.
fn report_faulty<E: Write>(err: &mut E, file: InputFile<'_>, kind: FileKind, lines: FaultyLines) {
    if let Some((number, fault)) = lines.first {
        let InputFile { name, text } = file;
        let count = lines.count;
        let fault = explain(fault, kind, text, number);
        let _ = writeln!(
            err,
            "yarib: {name}: faulty lines: {count}, the first is line {number}: {fault}"
        );
    }
}

/// Reports the number of lines whose commands were rejected for one reason, and the first of them, if there is one.
fn report_lines<E: Write>(err: &mut E, name: &str, reason: &str, lines: RejectedLines) {
    if let Some(first) = lines.first {
        let count = lines.count;
        let _ = writeln!(
            err,
            "yarib: {name}: {reason}: {count}, the first is line {first}"
        );
    }
}
