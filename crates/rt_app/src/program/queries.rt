//! `lookup` and `table`: queries of the final table of feed files, and reports of rejected input.

use super::feed_choice::NamedFeeds;
use super::prefixes::prefix_of;
use super::styles::style_of;
use super::threads::threads_for;
use super::warnings::{FeedTexts, ends_of_line, report_query};
use super::{ArgumentFault, FileReader, Program, ProgramError};
use command_line::{LookupRequest, OutputFormat, PrefixFilterArg, TableOutput, TableRequest};
use rt_cidr::Addr;
use rt_print::Style;
use rt_rib::{PrefixFilter, Selection};
use rt_run::{Addresses, Question, RunInput, show};
use std::alloc::Global;
use std::io::Write;
use std::sync::Wait;
use std::thread::Threads;

impl<R: FileReader + Threads + Wait + Sync + AllocGlobal, O: Write, E: Write> Program<'_, R, O, E> {
    /// Writes, for each address of the command line and then for each address of the file, all routes that cover it, or only
    /// the best one. Reports rejected input, and returns the exit status.
    pub(super) fn show_answers<'w>(
        &mut self,
        request: &LookupRequest<'w>,
    ) -> Result<u8, ProgramError<'w>> {
        let named = named_addresses(self.alloc, request)?;
        let mut query = Query::of(self.alloc, request.run.files, request.format)?;
        query.feeds.choose(self.alloc, &request.feeds)?;
        self.look_up(request, named.as_slice(), &query)
    }

    /// Reads the files and looks up the addresses, as `show_answers` says.
    fn look_up<'w>(
        &mut self,
        request: &LookupRequest<'w>,
        named: &[Addr],
        query: &Query<'w>,
    ) -> Result<u8, ProgramError<'w>> {
        let feeds = &query.feeds;
        let texts = self.read_feeds(feeds, feeds.only.as_slice(), feeds.without.as_slice())?;
        let text = self.read_more(request.more)?;
        let keep_invalid = request.keep_invalid;
        let addresses = Addresses::read(self.alloc, named, text.as_slice(), keep_invalid)?;
        let question = if request.all {
            Question::All(&addresses)
        } else {
            Question::Best(&addresses)
        };
        let input = RunInput::new(texts, request.run.limit);
        self.show(input, query, &question, request.more, text.as_slice())
    }

    /// Returns the contents of the file with further addresses, or an empty text if there is none.
    fn read_more<'w>(&self, name: Option<&'w str>) -> Result<Vec<u8>, ProgramError<'w>> {
        match name {
            Some(name) => self.read_file(name),
            None => Ok(Vec::new(self.alloc)),
        }
    }

    /// Writes the selected routes, their number, or both. Reports rejected input, and returns the exit status.
    pub(super) fn show_routes<'w>(
        &mut self,
        request: &TableRequest<'w>,
    ) -> Result<u8, ProgramError<'w>> {
        let part = filter_of(request.part)?;
        let mut query = Query::of(self.alloc, request.run.files, request.format)?;
        query.feeds.choose(self.alloc, &request.feeds)?;
        self.list(request, part, &query)
    }

    /// Reads the files and writes the selected routes, as `show_routes` says.
    fn list<'w>(
        &mut self,
        request: &TableRequest<'w>,
        part: PrefixFilter,
        query: &Query<'w>,
    ) -> Result<u8, ProgramError<'w>> {
        // Feeds that aren't listed are executed too: which of the listed routes are best may depend on them.
        let feeds = &query.feeds;
        let texts = self.read_feeds(feeds, feeds.only.as_slice(), feeds.without.as_slice())?;
        let selection = Selection {
            part,
            only_best: request.only_best,
            feeds: feeds.listed.as_slice(),
            hop: None,
        };
        let question = question_of(request.output, selection);
        let input = RunInput::new(texts, request.run.limit);
        self.show(input, query, &question, None, &[])
    }

    /// Writes the answer to the question. Reports rejected input of the file with further addresses, if there is one, and of
    /// the feeds' files, and returns the exit status.
    fn show<'w>(
        &mut self,
        input: RunInput,
        query: &Query<'w>,
        question: &Question<'_>,
        more: Option<&str>,
        text: &[u8],
    ) -> Result<u8, ProgramError<'w>> {
        let mut input = input;
        let threads = threads_for(self.rt, input.texts(), text.len());
        let ends = ends_of_line(self.alloc, input.texts())?;
        let mut out = self.screen.beside(input.count(), self.out);
        let given = show(
            self.rt,
            self.alloc,
            threads,
            &mut input,
            &query.style,
            question,
            &mut out,
        )?;
        let files = FeedTexts {
            names: query.feeds.names,
            texts: input.texts(),
            ends: ends.as_slice(),
        };
        report_query(
            &mut self.screen,
            files,
            more,
            text,
            given.tallies.as_slice(),
        );
        Ok(given.status)
    }
}

/// The feeds of a query, and the style of its output.
#[derive(Drop)]
struct Query<'w> {
    feeds: NamedFeeds<'w>,
    style: Style,
}

impl<'w> Query<'w> {
    /// Returns the feeds of these files, and the style in this format. Stops if there are more files than a run accepts, and
    /// then as `style_of` does.
    fn of(
        alloc: Global,
        files: &'w [&'w str],
        format: OutputFormat,
    ) -> Result<Query<'w>, ProgramError<'w>> {
        let feeds = NamedFeeds::of(alloc, files)?;
        let style = style_of(alloc, format, &feeds)?;
        Ok(Query { feeds, style })
    }
}

/// Returns the question of this output for the selected routes.
fn question_of(output: TableOutput, selection: Selection<'_>) -> Question<'_> {
    match output {
        TableOutput::Routes => Question::Routes(selection),
        TableOutput::RoutesAndTotal => Question::RoutesAndTotal(selection),
        TableOutput::Counts => Question::Counts(selection),
    }
}

/// Returns the part of the prefixes that the command line selects. Stops if an argument isn't a prefix.
fn filter_of(part: PrefixFilterArg<'_>) -> Result<PrefixFilter, ProgramError<'_>> {
    match part {
        PrefixFilterArg::All => Ok(PrefixFilter::All),
        PrefixFilterArg::Within(word) => prefix_of(word).map(PrefixFilter::Within),
        PrefixFilterArg::Covering(word) => prefix_of(word).map(PrefixFilter::Covering),
        PrefixFilterArg::Exact(word) => prefix_of(word).map(PrefixFilter::Exact),
    }
}

/// Returns the addresses of the command line. Stops if no address was given, or if an argument isn't an address.
fn named_addresses<'a>(
    alloc: Global,
    request: &LookupRequest<'a>,
) -> Result<Vec<Addr>, ProgramError<'a>> {
    if request.addresses.is_empty() && request.more.is_none() {
        return Err(ProgramError::NoAddresses);
    }
    let mut named = Vec::new(alloc);
    for word in request.addresses {
        let Ok(address) = Addr::parse(word.as_bytes()) else {
            return Err(ProgramError::Argument(ArgumentFault::Address, word));
        };
        named.push(address)?;
    }
    Ok(named)
}
