//! The outcome of a command that a feed gave to the shared table.
use rt_rib::Reply;

/// The outcome of a command.
#[derive(Clone, Copy, PartialEq, Eq, Debug)]
pub enum Outcome {
    /// It was answered, and the journal has it with this reply.
    Did(Reply),
    /// Memory ran out for its entry or its route. It left no entry, and no route changed.
    Refused,
}
