//! The exit statuses of a run and of the program.

/// An exit status, by its number (`as u8`). If several apply, the result is the highest.
#[derive(Clone, Copy, PartialEq, Eq, Debug)]
pub enum Status {
    /// Success: all input was accepted.
    Done = 0,
    /// The two tables give different answers for some address.
    Differ = 1,
    /// Some input was rejected: a faulty line or, for calls that write no report, an `add` over the limit.
    Rejected = 2,
    /// The command line is invalid.
    Usage = 3,
    /// A file could not be read.
    Unreadable = 4,
    /// Out of memory.
    Refused = 5,
    /// The output could not be written.
    Unwritten = 6,
}
