//! The reasons why the program stops early, each with its message and its exit status. `rt_run` returns the statuses of
//! completed work.

use command_line::RequestFault;
use rt_cidr::Prefix;
use rt_feed::RunFault;
use rt_run::{AppFault, MAX_FEED_FILES, Status};
use std::alloc::{AllocError, AllocFailed};
use std::fmt;
use std::io::{self, ErrorKind, Write};
use thiserror::Error;
use ya_core::ReplayFault;

/// The reason why the program stops early. It is `Copy`, because the prover goes through a value that is dropped at each
/// early exit.
#[derive(Clone, Copy, Error)]
pub(crate) enum ProgramError<'a> {
    #[error("arguments are not UTF-8")]
    NotUtf8,
    /// The arguments are no request.
    #[error(transparent)]
    Request(#[from] RequestFault),
    /// There are more files than a run accepts, or than one side of `diff` accepts. No file was read.
    #[error("more than {maximum} files", maximum = MAX_FEED_FILES)]
    TooMany,
    #[error("no address given: use --address or --addresses")]
    NoAddresses,
    /// This argument isn't what it has to be.
    #[error("{0}: {1}")]
    Argument(ArgumentFault, &'a str),
    /// An argument isn't a prefix because of its host bits; the prefix was probably meant.
    #[error("not a prefix: {0}: host bits are set; did you mean {1}?")]
    HostBits(&'a str, Prefix),
    /// With `--names`: the two files have the same feed name.
    #[error("two feeds with the same name (rename a file, or leave out --names): {0}, {1}")]
    DuplicateFeedName(&'a str, &'a str),
    /// A file could not be opened or read.
    #[error("cannot read {0}")]
    Unreadable(&'a str),
    /// The work failed, or its output could not be written.
    #[error(transparent)]
    Fault(#[from] AppFault),
}

/// The reason why an argument isn't accepted.
#[derive(Clone, Copy, Debug, Error)]
pub(crate) enum ArgumentFault {
    #[error("not an address")]
    Address,
    #[error("not a prefix")]
    Prefix,
    #[error("no feed has this number or name")]
    NoFeed,
    #[error("more than one feed has this number or name")]
    SeveralFeeds,
    /// An option selects the feed, and another one leaves it out.
    #[error("the same feed is selected and left out")]
    SelectedAndLeftOut,
    /// With `--names`: the file's name isn't a valid feed name.
    #[error("no valid feed name (rename the file, or leave out --names)")]
    FeedName,
}

/// Shows the message.
impl fmt::Debug for ProgramError<'_> {
    fn fmt<W: fmt::Write>(&self, f: &mut fmt::Formatter<W>) -> fmt::Result {
        fmt::Display::fmt(self, f)
    }
}

/// Out of memory.
pub(crate) const NO_MEMORY: ProgramError<'static> = ProgramError::Fault(AppFault::Run(
    RunFault::Memory,
));

impl From<AllocError> for ProgramError<'_> {
    fn from(_error: AllocError) -> Self {
        NO_MEMORY
    }
}

impl<T: Drop> From<AllocFailed<T>> for ProgramError<'_> {
    fn from(_error: AllocFailed<T>) -> Self {
        NO_MEMORY
    }
}

impl<'a> ProgramError<'a> {
    /// Returns the reason: out of memory, or else this one.
    pub(crate) fn of_system(fault: &io::Error, otherwise: ProgramError<'a>) -> ProgramError<'a> {
        match fault.kind() {
            ErrorKind::OutOfMemory => NO_MEMORY,
            _ => otherwise,
        }
    }

    /// Writes the message to standard error, ignoring errors, and returns the exit status.
    pub(crate) fn end<E: Write>(&self, err: &mut E) -> u8 {
        let _ = writeln!(err, "yarib: {self}");
        self.status() as u8
    }

    /// Returns the exit status.
    fn status(&self) -> Status {
        match self {
            ProgramError::Unreadable(_) => Status::Unreadable,
            ProgramError::Fault(AppFault::Run(RunFault::Memory)) => Status::Refused,
            ProgramError::Fault(AppFault::Replay(ReplayFault::Memory)) => Status::Refused,
            ProgramError::Fault(AppFault::Write) => Status::Unwritten,
            _ => Status::Usage,
        }
    }
}
