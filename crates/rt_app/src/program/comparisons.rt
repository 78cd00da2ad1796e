//! `diff`: the addresses for which the tables of two sets of feed files differ, and reports of rejected input.

use super::feed_choice::NamedFeeds;
use super::reading::{FeedSide, TextsAhead};
use super::styles::{diff_options, sides_of};
use super::threads::threads_to_compare;
use super::warnings::{FeedTexts, ends_of_line, report_sides};
use super::{FileReader, Program, ProgramError};
use command_line::{DiffRequest, DifferenceOutput};
use rt_print::DiffOptions;
use rt_run::{RunInput, count_diff_texts, diff_texts};
use std::alloc::Global;
use std::io::Write;
use std::sync::Wait;
use std::thread::Threads;

impl<R: FileReader + Threads + Wait + Sync + AllocGlobal, O: Write, E: Write> Program<'_, R, O, E> {
    /// Writes the ranges of addresses for which the tables of the old and the new files differ, or their numbers. Reports
    /// rejected input, and returns the exit status.
    pub(super) fn compare<'w>(
        &mut self,
        request: &DiffRequest<'w>,
    ) -> Result<u8, ProgramError<'w>> {
        let sides = Sides::of(self.alloc, request)?;
        let mut ahead = self.read_both(&sides);
        let old_input = self.input_of(request, &sides.old, &mut ahead)?;
        let new_input = self.input_of(request, &sides.new, &mut ahead)?;
        self.show_differences(request, &sides, old_input, new_input)
    }

    /// Reads feed files of both sides on several threads, as `read_ahead` of `reading` says.
    fn read_both(&self, sides: &Sides<'_>) -> TextsAhead {
        self.read_ahead(&[side_of(&sides.old), side_of(&sides.new)])
    }

    /// Returns the texts of the next side, and reads those that weren't read ahead.
    fn input_of<'w>(
        &mut self,
        request: &DiffRequest<'_>,
        feeds: &NamedFeeds<'w>,
        ahead: &mut TextsAhead,
    ) -> Result<RunInput, ProgramError<'w>> {
        let texts = self.texts_of(
            feeds,
            feeds.only.as_slice(),
            feeds.without.as_slice(),
            ahead,
        )?;
        Ok(RunInput::new(texts, request.run.limit))
    }

    /// Executes the texts of both sides and writes their differences, as `compare` says.
    fn show_differences<'w>(
        &mut self,
        request: &DiffRequest<'_>,
        sides: &Sides<'_>,
        old_input: RunInput,
        new_input: RunInput,
    ) -> Result<u8, ProgramError<'w>> {
        let (mut old_input, mut new_input) = (old_input, new_input);
        let old_ends = ends_of_line(self.alloc, old_input.texts())?;
        let new_ends = ends_of_line(self.alloc, new_input.texts())?;
        let threads = threads_to_compare(self.rt, old_input.texts(), new_input.texts());
        let (rt, alloc, options) = (self.rt, self.alloc, &sides.options);
        let (old, new) = (&mut old_input, &mut new_input);
        let mut out = self.screen.beside(old.count() + new.count(), self.out);
        let compared = match request.output {
            DifferenceOutput::Counts => {
                count_diff_texts(rt, alloc, threads, old, new, options, &mut out)
            }
            DifferenceOutput::Ranges | DifferenceOutput::Prefixes => {
                diff_texts(rt, alloc, threads, old, new, options, &mut out)
            }
        };
        let summary = compared?;
        let old = FeedTexts {
            names: request.run.files,
            texts: old_input.texts(),
            ends: old_ends.as_slice(),
        };
        let new = FeedTexts {
            names: request.new_files,
            texts: new_input.texts(),
            ends: new_ends.as_slice(),
        };
        report_sides(&mut self.screen, old, new, summary.tallies.as_slice());
        Ok(summary.status)
    }
}

/// Returns the names of the feed files, and which feeds are left out.
fn side_of<'s, 'w>(feeds: &'s NamedFeeds<'w>) -> FeedSide<'s, 'w> {
    FeedSide {
        names: feeds.names,
        only: feeds.only.as_slice(),
        without: feeds.without.as_slice(),
    }
}

/// The feeds of both sides of a comparison, and what is compared and printed.
#[derive(Drop)]
struct Sides<'w> {
    old: NamedFeeds<'w>,
    new: NamedFeeds<'w>,
    options: DiffOptions,
}

impl<'w> Sides<'w> {
    /// Returns what the command line asks to compare. Stops as `sides_of` does, and then as `NamedFeeds::choose` does for the
    /// old feeds and for the new ones.
    fn of(alloc: Global, request: &DiffRequest<'w>) -> Result<Sides<'w>, ProgramError<'w>> {
        let (mut old, mut new) = sides_of(alloc, request)?;
        old.choose(alloc, &request.old_feeds)?;
        new.choose(alloc, &request.new_feeds)?;
        let options = diff_options(alloc, request, &old, &new)?;
        Ok(Sides { old, new, options })
    }
}
