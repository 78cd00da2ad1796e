//! The feed files of the command line, and the feeds that it names by their numbers or by the names of their files.

ghost use Rattle.std.specs.Prelude.{◌≤◌, length};
ghost use Rattle.rt_rib.specs.declared.limits.TheConstants.{MAX_FEEDS};

use super::{ArgumentFault, ProgramError};
use command_line::FeedArgs;
use rt_print::{NameFault, check_names, feed_name};
use rt_run::MAX_FEED_FILES;
use std::alloc::Global;

/// The feed files of a run or of a side of a comparison, as many as a run accepts, and the numbers of the feeds that the
/// command line names.
#[derive(Drop)]
pub(super) struct NamedFeeds<'w> {
    /// The names of the files.
    pub(super) names: &'w [&'w str],
    /// The feeds whose routes are listed; if there are none, the routes of every feed are.
    pub(super) listed: Vec<u32>,
    /// The feeds that are executed; if there are none, every feed is.
    pub(super) only: Vec<u32>,
    /// The feeds that are left out.
    pub(super) without: Vec<u32>,
    ghost few: { length names.now ≤ MAX_FEEDS },
}

impl<'w> NamedFeeds<'w> {
    /// Returns the feeds of these files, of which the command line names none. Stops if there are more files than a run
    /// accepts.
    pub(super) fn of(
        alloc: Global,
        names: &'w [&'w str],
    ) -> Result<NamedFeeds<'w>, ProgramError<'w>> {
        if names.len() > MAX_FEED_FILES {
            return Err(ProgramError::TooMany);
        }
        Ok(NamedFeeds {
            names,
            listed: Vec::new(alloc),
            only: Vec::new(alloc),
            without: Vec::new(alloc),
        })
    }

    /// Selects and leaves out the feeds that the arguments identify. Stops if an argument identifies no feed, or several, or if a
    /// selected feed is also left out.
    pub(super) fn choose(
        &mut self,
        alloc: Global,
        args: &FeedArgs<'w>,
    ) -> Result<(), ProgramError<'w>> {
        self.listed = self.numbers_of(alloc, &[args.listed])?;
        self.only = self.numbers_of(alloc, &[args.only, args.earlier_only])?;
        self.without = self.numbers_of(alloc, &[args.without])?;
        let (listed, only) = (self.listed.as_slice(), self.only.as_slice());
        let without = self.without.as_slice();
        check_selected(args.without, without, only)?;
        check_selected(args.without, without, listed)?;
        check_executed(args.listed, listed, only)
    }

    /// Stops if a file has no valid feed name, or the same feed name as an earlier file. A name isn't valid either if it would
    /// change what a terminal shows around it.
    pub(super) fn check_names(&self) -> Result<(), ProgramError<'w>> {
        let files = self.names;
        for file in files {
            if has_hidden_control(file_name(file)) {
                return Err(ProgramError::Argument(ArgumentFault::FeedName, file));
            }
        }
        match check_names(files) {
            Ok(()) => Ok(()),
            Err(NameFault::Invalid(file)) => Err(ProgramError::Argument(
                ArgumentFault::FeedName,
                files[file],
            )),
            Err(NameFault::Duplicate(earlier, file)) => Err(ProgramError::DuplicateFeedName(
                files[earlier],
                files[file],
            )),
        }
    }

    /// Returns the number of the feed that each argument of these lists identifies, in order.
    fn numbers_of(
        &self,
        alloc: Global,
        lists: &[&[&'w str]],
    ) -> Result<Vec<u32>, ProgramError<'w>> {
        let mut numbers = Vec::new(alloc);
        for words in lists {
            for word in *words {
                numbers.push(self.number_of(word)?)?;
            }
        }
        Ok(numbers)
    }

    /// Returns the number of the feed that the argument identifies: the one feed that has this number or this name.
    fn number_of(&self, word: &'w str) -> Result<u32, ProgramError<'w>> {
        let mut found = None;
        for (index, file) in self.names.iter().enumerate() {
            let feed = index as u32 + 1;
            if is_identified(word, feed, file) {
                if found.is_some() {
                    return Err(ProgramError::Argument(ArgumentFault::SeveralFeeds, word));
                }
                found = Some(feed);
            }
        }
        found.ok_or(ProgramError::Argument(ArgumentFault::NoFeed, word))
    }
}

/// Returns the part of the path after its last slash.
fn file_name(path: &str) -> &str {
    match path.rsplit_once("/") {
        Some((_, name)) => name,
        None => path,
    }
}

/// Returns true if the name has a control character of C1, or a character that sets the direction of the text around it
/// (Unicode's Bidi_Control).
fn has_hidden_control(name: &str) -> bool {
    name.chars().any(|character| {
        matches!(
            character,
            '\u{80}'..='\u{9f}'
                | '\u{61c}'
                | '\u{200e}'..='\u{200f}'
                | '\u{202a}'..='\u{202e}'
                | '\u{2066}'..='\u{2069}'
        )
    })
}

/// Returns true if the argument is the number of this feed, or the name that the feed has by its file.
fn is_identified(word: &str, feed: u32, file: &str) -> bool {
    let is_name = feed_name(file.as_bytes()) == word.as_bytes();
    is_name || word.parse() == Ok(feed)
}

/// Stops if a feed that is left out is also selected. The words are the arguments that identify the feeds that are left out.
fn check_selected<'w>(
    words: &[&'w str],
    without: &[u32],
    only: &[u32],
) -> Result<(), ProgramError<'w>> {
    for (word, number) in words.iter().zip(without.iter()) {
        if only.contains(number) {
            return Err(ProgramError::Argument(ArgumentFault::SelectedAndLeftOut, word));
        }
    }
    Ok(())
}

/// Stops if only other feeds than a listed one are executed. The words are the arguments that identify the listed feeds.
fn check_executed<'w>(
    words: &[&'w str],
    listed: &[u32],
    only: &[u32],
) -> Result<(), ProgramError<'w>> {
    for (word, number) in words.iter().zip(listed.iter()) {
        if !only.is_empty() && !only.contains(number) {
            return Err(ProgramError::Argument(ArgumentFault::SelectedAndLeftOut, word));
        }
    }
    Ok(())
}
