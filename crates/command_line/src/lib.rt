//! The command line: its arguments are parsed into a request.
//!
//! [`Arguments::parse`] returns the arguments, or the text of a help or of an error. Their [`Request`] borrows from them.
//! Its type says that limit and batch are at least 1, and that the limit is at most [`MAX_ROUTES_PER_FEED`]. Everything
//! else is only tested.
//!
//! ```
//! let arguments = Arguments::parse(alloc, words)?;
//! match arguments.request()? {
//!     Request::Run(request) => run(request.files, request.limit),
//!     ..
//! }
//! ```
#![tactic(auto)]

mod after_help;
mod commands;
mod limits;

ghost use Rattle.std.specs.Prelude.{◌≤◌};
ghost use Rattle.command_line.specs.declared.limits.TheConstants.{MAX_ROUTES_PER_FEED};

use clap::ArgMatches;
use clap::error::ErrorKind;
use commands::program;
pub use limits::{MAX_BATCH, MAX_FEED_FILES, MAX_ROUTES_PER_FEED};
use std::alloc::{AllocError, Global};
use thiserror::Error;

/// How `clap` begins its advice to pass an unknown option as a file's name. Nobody means that.
const ADVICE: &str = "\n  tip: to pass '";

/// The value of `--by` for next hops, the default.
const HOP: &str = "hop";

/// The value of `--by` for whole routes.
const ROUTE: &str = "route";

/// The arguments of the program, parsed.
#[derive(Drop)]
pub struct Arguments<'a> {
    matches: ArgMatches<'a>,
}

/// The command that the arguments name, with its options and files: one variant for each command.
#[derive(Clone, Copy)]
pub enum Request<'a> {
    /// Run feed files.
    Run(RunRequest<'a>),
    /// Look up addresses in the final table of feed files.
    Lookup(LookupRequest<'a>),
    /// List the routes of the final table of feed files.
    Table(TableRequest<'a>),
    /// List the addresses for which the tables of two sets of feed files differ.
    Diff(DiffRequest<'a>),
    /// Print the steps of one schedule of the lock.
    Replay(ReplayRequest<'a>),
}

/// The feed files to run, with limit and batch.
#[derive(Clone, Copy)]
pub struct RunRequest<'a> {
    /// Maximum number of routes per feed, 1 to [`MAX_ROUTES_PER_FEED`].
    pub limit: u32,
    /// Maximum number of commands of a feed that are executed together, 1 to [`MAX_BATCH`].
    pub batch: u32,
    /// The names of the feed files, one or more.
    pub files: &'a [&'a str],
    pub ghost some_routes: { 1 ≤ limit },
    pub ghost few_routes: { limit ≤ MAX_ROUTES_PER_FEED },
    pub ghost batched: { 1 ≤ batch },
}

/// The feeds that options select and leave out, of a run or of a side of `diff`. Each is identified by its number or its name,
/// not yet resolved.
#[derive(Clone, Copy)]
pub struct FeedArgs<'a> {
    /// The feeds whose routes `table` lists; if there are none, the routes of every feed are listed.
    pub listed: &'a [&'a str],
    /// The feeds that are executed; if there are none here and in `earlier_only`, every feed is.
    pub only: &'a [&'a str],
    /// The other feeds that are executed, by the earlier spelling of the same option.
    pub earlier_only: &'a [&'a str],
    /// The feeds that are left out.
    pub without: &'a [&'a str],
}

/// The addresses to look up, and the feed files.
#[derive(Clone, Copy)]
pub struct LookupRequest<'a> {
    /// The feed files.
    pub run: RunRequest<'a>,
    /// The feeds that are executed.
    pub feeds: FeedArgs<'a>,
    /// The arguments of `--address`, not yet parsed.
    pub addresses: &'a [&'a str],
    /// The name of the file with further addresses.
    pub more: Option<&'a str>,
    /// Print a line for each invalid line of this file.
    pub keep_invalid: bool,
    /// Print every route that covers an address.
    pub all: bool,
    /// How the output is printed.
    pub format: OutputFormat,
}

/// The routes to list, and the feed files.
#[derive(Clone, Copy)]
pub struct TableRequest<'a> {
    /// The feed files.
    pub run: RunRequest<'a>,
    /// The feeds that are executed, and those whose routes are listed.
    pub feeds: FeedArgs<'a>,
    /// List only the best route of each prefix.
    pub only_best: bool,
    /// The prefixes whose routes are listed.
    pub part: PrefixFilterArg<'a>,
    /// What is printed of these routes.
    pub output: TableOutput,
    /// How the output is printed.
    pub format: OutputFormat,
}

/// How the output of `lookup`, `table` and `diff` is printed, and what identifies a feed in it.
#[derive(Clone, Copy)]
pub enum OutputFormat {
    /// Plain lines, each feed by its number.
    Numbers,
    /// Plain lines, each feed by its name.
    Names,
    /// JSON objects, each feed by its number and its file.
    Json,
    /// JSON objects, each feed by its number, its name and its file.
    JsonWithNames,
    /// Comma-separated values, each feed by its number, its name and its file.
    Csv,
    /// The same. The feeds' names are checked, and identify feeds as in `JsonWithNames`.
    CsvWithNames,
}

/// What `table` prints of the routes that it lists.
#[derive(Clone, Copy)]
pub enum TableOutput {
    /// The routes.
    Routes,
    /// The routes, and their number on a last line.
    RoutesAndTotal,
    /// The number of routes: in all, of each feed and of each length.
    Counts,
}

/// A filter on prefixes, with its argument not yet parsed.
#[derive(Clone, Copy)]
pub enum PrefixFilterArg<'a> {
    /// The whole table.
    All,
    /// This prefix and the longer ones inside it.
    Within(&'a str),
    /// This prefix and the shorter ones that contain it.
    Covering(&'a str),
    /// Only this prefix.
    Exact(&'a str),
}

/// The two sets of feed files to compare.
#[derive(Clone, Copy)]
pub struct DiffRequest<'a> {
    /// The old feed files, and the limit and the batch of both runs.
    pub run: RunRequest<'a>,
    /// The old feeds that are executed.
    pub old_feeds: FeedArgs<'a>,
    /// The names of the new feed files.
    pub new_files: &'a [&'a str],
    /// The new feeds that are executed.
    pub new_feeds: FeedArgs<'a>,
    /// The part of an answer that is compared.
    pub by: ComparedBy,
    /// What is printed of the differences.
    pub output: DifferenceOutput,
    /// How the output is printed. If it has names, feeds with the same name on both sides count as the same feed.
    pub format: OutputFormat,
}

/// What `diff` prints of the differences.
#[derive(Clone, Copy)]
pub enum DifferenceOutput {
    /// Each range.
    Ranges,
    /// The prefixes of each range.
    Prefixes,
    /// The number of ranges and addresses: in all, of each kind of change and of each pair of next hops.
    Counts,
}

/// The part of an answer that `diff` compares.
#[derive(Clone, Copy)]
pub enum ComparedBy {
    /// The next hop.
    Hop,
    /// The whole route.
    Route,
}

/// The schedule to replay.
#[derive(Clone, Copy)]
pub struct ReplayRequest<'a> {
    /// The number of levels of the tree.
    pub levels: u32,
    /// The places that take the steps, not yet parsed.
    picks: &'a [&'a str],
}

/// The reason why there are no arguments.
#[derive(Drop)]
pub enum Refusal {
    /// Help or the version was requested: its text.
    Shown(String),
    /// The command line is invalid: the error's text.
    Usage(String),
    /// Out of memory.
    Memory,
}

/// The reason why arguments are no request.
#[derive(Clone, Copy, Debug, Error)]
pub enum RequestFault {
    /// More than one of `--within`, `--covering` and `--exact` was given.
    #[error("only one of --within, --covering and --exact may be given")]
    ConflictingFilters,
    /// Both `--count` and `--total` were given.
    #[error("only one of --count and --total may be given")]
    CountAndTotal,
    /// Both `--prefixes` and `--count` were given.
    #[error("only one of --prefixes and --count may be given")]
    PrefixesAndCount,
    /// Both `--csv` and `--json` were given.
    #[error("only one of --csv and --json may be given")]
    CsvAndJson,
    /// Both `--csv` and `--keep-invalid` were given.
    #[error("only one of --csv and --keep-invalid may be given")]
    CsvAndKeepInvalid,
    /// Both `--csv` and `--count` were given.
    #[error("only one of --csv and --count may be given")]
    CsvAndCount,
    /// Both `--csv` and `--total` were given.
    #[error("only one of --csv and --total may be given")]
    CsvAndTotal,
    /// `clap` accepted arguments that this crate doesn't expect. This would be a bug of this crate; no such arguments are
    /// known.
    #[error("cannot parse the command line: see yarib --help")]
    Unknown,
}

impl<'a> Arguments<'a> {
    /// Parses a command line, whose first word is the program's name.
    pub fn parse(alloc: Global, words: &'a [String]) -> Result<Arguments<'a>, Refusal> {
        match program(alloc) {
            Ok(program) => match program.try_get_matches_from(words) {
                Ok(matches) => Ok(Arguments { matches }),
                Err(error) => Err(refusal_of(alloc, &error)),
            },
            Err(_) => Err(Refusal::Memory),
        }
    }

    /// Returns what the arguments ask for.
    pub fn request(&self) -> Result<Request<'_>, RequestFault> {
        match self.matches.subcommand() {
            Some(("run", matches)) => run_request(matches).map(Request::Run),
            Some(("lookup", matches)) => lookup_request(matches),
            Some(("table", matches)) => table_request(matches),
            Some(("diff", matches)) => diff_request(matches),
            Some(("replay", matches)) => replay_request(matches),
            Some(_) | None => Err(RequestFault::Unknown),
        }
    }
}

fn refusal_of(alloc: Global, error: &clap::Error) -> Refusal {
    if let ErrorKind::OutOfMemory = error.kind() {
        return Refusal::Memory;
    }
    match error.to_string(alloc) {
        Ok(text) if error.use_stderr() => match without_advice(alloc, text.as_str()) {
            Ok(text) => Refusal::Usage(text),
            Err(_) => Refusal::Memory,
        },
        Ok(text) => Refusal::Shown(text),
        Err(_) => Refusal::Memory,
    }
}

/// Returns the text of an error without the line of advice, if it has one; other hints remain.
fn without_advice(alloc: Global, text: &str) -> Result<String, AllocError> {
    let Some((before, advice)) = text.split_once(ADVICE) else {
        return String::from_str(alloc, text);
    };
    let Some((_, behind)) = advice.split_once("\n") else {
        return String::from_str(alloc, text);
    };
    // If no other hint follows or precedes the advice, only one of the empty lines around it remains.
    let front = if behind.starts_with("\n") {
        before.strip_suffix("\n").unwrap_or(before)
    } else {
        before
    };
    let mut rest = String::from_str(alloc, front)?;
    rest.push_str("\n")?;
    rest.push_str(behind)?;
    Ok(rest)
}

fn lookup_request<'a>(matches: &'a ArgMatches<'_>) -> Result<Request<'a>, RequestFault> {
    let format = format_of(matches)?;
    let keep_invalid = matches.get_flag("keep-invalid");
    if format.is_csv() && keep_invalid {
        return Err(RequestFault::CsvAndKeepInvalid);
    }
    Ok(Request::Lookup(LookupRequest {
        run: run_request(matches)?,
        feeds: FeedArgs {
            listed: &[],
            only: texts_of(matches, "only"),
            earlier_only: texts_of(matches, "feed"),
            without: texts_of(matches, "without"),
        },
        addresses: texts_of(matches, "address"),
        more: matches.get_str("addresses"),
        keep_invalid,
        all: matches.get_flag("all"),
        format,
    }))
}

fn table_request<'a>(matches: &'a ArgMatches<'_>) -> Result<Request<'a>, RequestFault> {
    let part = part_of(matches)?;
    let output = output_of(matches)?;
    let format = format_of(matches)?;
    match output {
        TableOutput::Counts if format.is_csv() => return Err(RequestFault::CsvAndCount),
        TableOutput::RoutesAndTotal if format.is_csv() => return Err(RequestFault::CsvAndTotal),
        _ => (),
    }
    Ok(Request::Table(TableRequest {
        run: run_request(matches)?,
        feeds: FeedArgs {
            listed: texts_of(matches, "feed"),
            only: texts_of(matches, "only"),
            earlier_only: &[],
            without: texts_of(matches, "without"),
        },
        only_best: matches.get_flag("best"),
        part,
        output,
        format,
    }))
}

fn part_of<'a>(matches: &'a ArgMatches<'_>) -> Result<PrefixFilterArg<'a>, RequestFault> {
    let within = matches.get_str("within");
    let covering = matches.get_str("covering");
    match (within, covering, matches.get_str("exact")) {
        (None, None, None) => Ok(PrefixFilterArg::All),
        (Some(prefix), None, None) => Ok(PrefixFilterArg::Within(prefix)),
        (None, Some(prefix), None) => Ok(PrefixFilterArg::Covering(prefix)),
        (None, None, Some(prefix)) => Ok(PrefixFilterArg::Exact(prefix)),
        _ => Err(RequestFault::ConflictingFilters),
    }
}

fn output_of(matches: &ArgMatches<'_>) -> Result<TableOutput, RequestFault> {
    match (matches.get_flag("count"), matches.get_flag("total")) {
        (false, false) => Ok(TableOutput::Routes),
        (false, true) => Ok(TableOutput::RoutesAndTotal),
        (true, false) => Ok(TableOutput::Counts),
        (true, true) => Err(RequestFault::CountAndTotal),
    }
}

fn diff_request<'a>(matches: &'a ArgMatches<'_>) -> Result<Request<'a>, RequestFault> {
    let by = compared_by(matches)?;
    let output = difference_output(matches)?;
    let format = format_of(matches)?;
    match output {
        DifferenceOutput::Counts if format.is_csv() => return Err(RequestFault::CsvAndCount),
        _ => (),
    }
    Ok(Request::Diff(DiffRequest {
        run: run_request(matches)?,
        old_feeds: FeedArgs {
            listed: &[],
            only: texts_of(matches, "old-only"),
            earlier_only: texts_of(matches, "old-feed"),
            without: texts_of(matches, "old-without"),
        },
        new_files: texts_of(matches, "new"),
        new_feeds: FeedArgs {
            listed: &[],
            only: texts_of(matches, "new-only"),
            earlier_only: texts_of(matches, "new-feed"),
            without: texts_of(matches, "new-without"),
        },
        by,
        output,
        format,
    }))
}

/// Returns what is printed of the differences.
fn difference_output(matches: &ArgMatches<'_>) -> Result<DifferenceOutput, RequestFault> {
    match (matches.get_flag("prefixes"), matches.get_flag("count")) {
        (false, false) => Ok(DifferenceOutput::Ranges),
        (true, false) => Ok(DifferenceOutput::Prefixes),
        (false, true) => Ok(DifferenceOutput::Counts),
        (true, true) => Err(RequestFault::PrefixesAndCount),
    }
}

fn compared_by(matches: &ArgMatches<'_>) -> Result<ComparedBy, RequestFault> {
    match matches.get_str("by") {
        Some(HOP) => Ok(ComparedBy::Hop),
        Some(ROUTE) => Ok(ComparedBy::Route),
        Some(_) | None => Err(RequestFault::Unknown),
    }
}

/// Returns how the output is printed.
fn format_of(matches: &ArgMatches<'_>) -> Result<OutputFormat, RequestFault> {
    let names = matches.get_flag("names");
    match (matches.get_flag("json"), matches.get_flag("csv")) {
        (false, false) if names => Ok(OutputFormat::Names),
        (false, false) => Ok(OutputFormat::Numbers),
        (true, false) if names => Ok(OutputFormat::JsonWithNames),
        (true, false) => Ok(OutputFormat::Json),
        (false, true) if names => Ok(OutputFormat::CsvWithNames),
        (false, true) => Ok(OutputFormat::Csv),
        (true, true) => Err(RequestFault::CsvAndJson),
    }
}

impl OutputFormat {
    /// Returns true for comma-separated values.
    fn is_csv(self) -> bool {
        matches!(self, OutputFormat::Csv | OutputFormat::CsvWithNames)
    }

    /// Returns true if feeds are identified by their names.
    pub fn has_names(self) -> bool {
        matches!(
            self,
            OutputFormat::Names | OutputFormat::JsonWithNames | OutputFormat::CsvWithNames
        )
    }
}

/// Returns the values of the argument, in order.
fn texts_of<'a>(matches: &'a ArgMatches<'_>, name: &str) -> &'a [&'a str] {
    matches.get_strs(name).unwrap_or(&[])
}

/// Returns the feed files, the limit and the batch, whose bounds `clap` has checked.
fn run_request<'a>(matches: &'a ArgMatches<'_>) -> Result<RunRequest<'a>, RequestFault> {
    let limit = number_of(matches, "limit")?;
    let batch = number_of(matches, "batch")?;
    if limit < 1 || limit > MAX_ROUTES_PER_FEED || batch < 1 {
        return Err(RequestFault::Unknown);
    }
    let files = texts_of(matches, "files");
    Ok(RunRequest {
        limit,
        batch,
        files,
    })
}

/// Returns the number that was given for the option, or its default.
fn number_of(matches: &ArgMatches<'_>, name: &str) -> Result<u32, RequestFault> {
    matches.get_one::<u32>(name).ok_or(RequestFault::Unknown)
}

fn replay_request<'a>(matches: &'a ArgMatches<'_>) -> Result<Request<'a>, RequestFault> {
    let levels = number_of(matches, "levels")?;
    let picks = texts_of(matches, "picks");
    Ok(Request::Replay(ReplayRequest { levels, picks }))
}

impl ReplayRequest<'_> {
    /// Returns the place that takes each step, in order; `None` for a text that isn't a number, which `clap` has checked.
    /// Fails only if memory runs out.
    pub fn picks(&self, alloc: Global) -> Result<Option<Vec<u32>>, AllocError> {
        let mut picks = Vec::new(alloc);
        for text in self.picks {
            let Ok(pick) = text.parse() else {
                return Ok(None);
            };
            picks.push(pick)?;
        }
        Ok(Some(picks))
    }
}
