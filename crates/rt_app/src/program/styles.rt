//! The style of printed routes: with feeds' numbers, with their names, as JSON, or as CSV.

use super::ProgramError;
use super::feed_choice::NamedFeeds;
use command_line::{ComparedBy, DiffRequest, DifferenceOutput, OutputFormat};
use rt_diff::CompareBy;
use rt_print::{DiffOptions, DiffOutput, Format, Style};
use std::alloc::Global;

/// Returns the format of printed routes that the command line asks for.
fn format_of(format: OutputFormat) -> Format {
    match format {
        OutputFormat::Numbers => Format::Numbers,
        OutputFormat::Names => Format::Names,
        OutputFormat::Json => Format::Json,
        OutputFormat::JsonWithNames => Format::JsonWithNames,
        OutputFormat::Csv => Format::Csv,
        OutputFormat::CsvWithNames => Format::CsvWithNames,
    }
}

/// Returns the style for the feeds of these files, in the format of the command line. Stops if, with `--names`, a file has
/// no valid feed name or two files have the same.
pub(super) fn style_of<'w>(
    alloc: Global,
    format: OutputFormat,
    feeds: &NamedFeeds<'w>,
) -> Result<Style, ProgramError<'w>> {
    if format.has_names() {
        feeds.check_names()?;
    }
    Ok(Style::new(alloc, format_of(format), feeds.names)?)
}

/// Returns what `diff` compares, and how it prints.
pub(super) fn diff_options<'w>(
    alloc: Global,
    request: &DiffRequest<'w>,
    old: &NamedFeeds<'w>,
    new: &NamedFeeds<'w>,
) -> Result<DiffOptions, ProgramError<'w>> {
    let by = match request.by {
        ComparedBy::Hop => CompareBy::Hop,
        ComparedBy::Route => CompareBy::Route,
    };
    let output = match request.output {
        DifferenceOutput::Prefixes => DiffOutput::Prefixes,
        DifferenceOutput::Ranges | DifferenceOutput::Counts => DiffOutput::Ranges,
    };
    let format = format_of(request.format);
    Ok(DiffOptions::new(alloc, by, output, format, old.names, new.names)?)
}

/// Returns the feeds of the old files and of the new ones. Stops as `style_of` does, on either side; also if there are too
/// many files on a side.
pub(super) fn sides_of<'w>(
    alloc: Global,
    request: &DiffRequest<'w>,
) -> Result<(NamedFeeds<'w>, NamedFeeds<'w>), ProgramError<'w>> {
    let old = NamedFeeds::of(alloc, request.run.files)?;
    let new = NamedFeeds::of(alloc, request.new_files)?;
    if request.format.has_names() {
        old.check_names()?;
        new.check_names()?;
    }
    Ok((old, new))
}
