//! The faults of a run of feeds.
use thiserror::Error;

/// The reason why a run of feeds has no result. Tested in this order.
#[derive(Clone, Copy, PartialEq, Eq, Debug, Error)]
pub enum RunFault {
    /// F1: the list of texts is empty. No command was executed.
    #[error("fault F1")]
    NoText,
    /// F2: the numbers of feeds and of texts differ. No command was executed.
    #[error("fault F2")]
    FeedCount,
    /// F3: memory ran out outside of a command.
    #[error("fault F3")]
    Memory,
}
