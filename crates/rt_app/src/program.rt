//! The program over its arguments: reads the files and runs them.

mod comparisons;
mod feed_choice;
mod hints;
mod prefixes;
mod program_error;
mod queries;
mod reading;
mod styles;
mod threads;
mod warnings;

ghost use Rattle.std.specs.Prelude.{◌≡◌, ◌≤◌, true, [], length, map, vec_len, IfOk};
ghost use Rattle.rt_rib.specs.declared.limits.TheConstants.{MAX_FEEDS};
ghost use Rattle.rt_run.specs.ChosenFeeds.{is_left_out, AreWithout};

use command_line::{Arguments, Refusal, ReplayRequest, Request, RequestFault, RunRequest};
use feed_choice::NamedFeeds;
pub(crate) use program_error::ProgramError;
use program_error::{ArgumentFault, NO_MEMORY};
pub(crate) use reading::FileReader;
use reading::{FeedSide, TextsAhead, read_ahead};
use rt_cidr::put;
use rt_run::{AppFault, MAX_FEED_FILES, Status, is_left_out, replay_text, run_texts};
use std::alloc::Global;
use std::io::Write;
use std::sync::Wait;
use std::thread::Threads;
use terminal_line::{ProgressLine, Screen, Stage};

// The command line's maximum numbers of files and of routes per feed are a table's.
const _: () = prove!(command_line::MAX_FEED_FILES == MAX_FEED_FILES);

const _: () = prove!(command_line::MAX_ROUTES_PER_FEED == rt_rib::MAX_ROUTES_PER_FEED);

/// Runs the program with its arguments, of which the first is its name. Writes results to `out` and messages to `err`, and
/// returns the exit status. Errors of `err` itself are ignored.
pub fn run_words<R: FileReader + Threads + Wait + Sync + AllocGlobal, O: Write, E: Write>(
    rt: &R,
    alloc: Global,
    words: &[String],
    out: &mut O,
    err: &mut E,
) -> u8 {
    Program::new(rt, alloc, &ProgressLine::new(false), out, err).run(words)
}

/// The program's environment: the system, its memory, and both outputs.
#[derive(Drop)]
pub(crate) struct Program<'a, R, O, E> {
    rt: &'a R,
    alloc: Global,
    out: &'a mut O,
    screen: Screen<'a, R, E>,
}

impl<'a, R, O, E> Program<'a, R, O, E> {
    /// Returns the program with these outputs. Another thread may write the progress line on `err` (`ProgressLine::keep`).
    pub(crate) fn new(
        rt: &'a R,
        alloc: Global,
        line: &'a ProgressLine,
        out: &'a mut O,
        err: &'a mut E,
    ) -> Program<'a, R, O, E> {
        let screen = Screen::new(rt, line, err);
        Program {
            rt,
            alloc,
            out,
            screen,
        }
    }
}

impl<R: FileReader + Threads + Wait + Sync + AllocGlobal, O: Write, E: Write> Program<'_, R, O, E> {
    /// Parses the arguments, does what they ask for, and returns the exit status, as `run_words` does.
    pub(crate) fn run(&mut self, words: &[String]) -> u8 {
        let status = match Arguments::parse(self.alloc, words) {
            Ok(arguments) => self.carry_out(&arguments),
            Err(refusal) => self.refuse(&refusal),
        };
        self.screen.end();
        status
    }

    /// Does what the arguments ask for, and returns the exit status.
    fn carry_out(&mut self, arguments: &Arguments<'_>) -> u8 {
        match self.answer(arguments) {
            Ok(status) => status,
            Err(error) => error.end(&mut self.screen),
        }
    }

    /// Does what the arguments ask for. Returns the exit status, or the reason why the program stops early.
    fn answer<'w>(&mut self, arguments: &'w Arguments<'_>) -> Result<u8, ProgramError<'w>> {
        match arguments.request()? {
            Request::Run(request) => self.run_files(&request),
            Request::Lookup(request) => self.show_answers(&request),
            Request::Table(request) => self.show_routes(&request),
            Request::Diff(request) => self.compare(&request),
            Request::Replay(request) => self.show_replay(&request),
        }
    }

    /// Writes the replies to the commands of the files and the table, and returns the exit status.
    fn run_files<'w>(&mut self, request: &RunRequest<'w>) -> Result<u8, ProgramError<'w>> {
        let feeds = NamedFeeds::of(self.alloc, request.files)?;
        let texts = self.read_feeds(&feeds, &[], &[])?;
        let (texts, batch) = (texts.as_slice(), request.batch as usize);
        let mut out = self.screen.beside(texts.len(), self.out);
        Ok(run_texts(self.rt, self.alloc, texts, request.limit, batch, &mut out)?)
    }

    /// Returns the texts of the feed files, and an empty text for each feed that is left out, whose file isn't read: feeds that
    /// are one of `without`, or, if `only` has feeds, none of these.
    fn read_feeds<'w>(
        &mut self,
        files: &NamedFeeds<'w>,
        only: &[u32],
        without: &[u32],
    ) -> Result<Vec<Vec<u8>>, ProgramError<'w>>
        ensures few { IfOk result (λ texts. vec_len texts ≤ MAX_FEEDS) }
        ensures left_out { IfOk result (λ texts. AreWithout (is_left_out only.now without.now) (map (λ text. text.items) texts.items) (map (λ text. text.items) texts.items)) }
    {
        let mut ahead = self.read_ahead(&[FeedSide {
            names: files.names,
            only,
            without,
        }]);
        self.texts_of(files, only, without, &mut ahead)
    }

    /// Reads feed files of these sides on several threads, as `read_ahead` of `reading` says.
    fn read_ahead(&self, sides: &[FeedSide<'_, '_>]) -> TextsAhead {
        read_ahead(self.rt, self.alloc, self.screen.line(), sides)
    }
}

impl<R: FileReader + Wait + AllocGlobal, O: Write, E: Write> Program<'_, R, O, E> {
    /// Writes the text that there is in place of arguments, and returns the exit status.
    fn refuse(&mut self, refusal: &Refusal) -> u8 {
        match refusal {
            Refusal::Shown(text) => match put(self.out, text.as_bytes()) {
                Ok(()) => Status::Done as u8,
                Err(_) => ProgramError::Fault(AppFault::Write).end(&mut self.screen),
            },
            Refusal::Usage(text) => {
                let _ = put(&mut self.screen, text.as_bytes());
                Status::Usage as u8
            }
            Refusal::Memory => NO_MEMORY.end(&mut self.screen),
        }
    }

    /// Returns the texts of the next side's feed files, as `read_feeds` says: reads the files that weren't read ahead, one after
    /// another.
    fn texts_of<'w>(
        &mut self,
        files: &NamedFeeds<'w>,
        only: &[u32],
        without: &[u32],
        ahead: &mut TextsAhead,
    ) -> Result<Vec<Vec<u8>>, ProgramError<'w>>
        ensures few { IfOk result (λ texts. vec_len texts ≤ MAX_FEEDS) }
        ensures left_out { IfOk result (λ texts. AreWithout (is_left_out only.now without.now) (map (λ text. text.items) texts.items) (map (λ text. text.items) texts.items)) }
    {
        let mut texts = Vec::new(self.alloc);
        for (index, name) in files.names.iter().enumerate() {
            let read = ahead.take_next();
            if read.is_none() {
                self.screen.set(Stage::Reading(index, files.names.len()));
            }
            let text = self.text_of(name, index as u32 + 1, only, without, read)?;
            texts.push(text)?;
        }
        Ok(texts)
    }

    /// Returns the text of the feed of this number, from the file of this name unless it was read before, or an empty text if
    /// the feed is left out.
    fn text_of<'w>(
        &self,
        name: &'w str,
        feed: u32,
        only: &[u32],
        without: &[u32],
        read: Option<Vec<u8>>,
    ) -> Result<Vec<u8>, ProgramError<'w>>
        ensures { IfOk result (λ text. is_left_out only.now without.now feed ≡ true → text.items ≡ []) }
    {
        if is_left_out(only, without, feed) {
            return Ok(Vec::new(self.alloc));
        }
        match read {
            Some(text) => Ok(text),
            None => self.read_file(name),
        }
    }

    fn read_file<'w>(&self, name: &'w str) -> Result<Vec<u8>, ProgramError<'w>> {
        match self.rt.contents(name, 0) {
            Ok(text) => Ok(text),
            Err(fault) => Err(ProgramError::of_system(&fault, ProgramError::Unreadable(name))),
        }
    }

    /// Writes the steps of the schedule, and returns the exit status.
    fn show_replay<'w>(&mut self, request: &ReplayRequest<'w>) -> Result<u8, ProgramError<'w>> {
        match request.picks(self.alloc)? {
            Some(picks) => Ok(replay_text(self.alloc, request.levels, picks.as_slice(), self.out)?),
            None => Err(RequestFault::Unknown.into()),
        }
    }
}
