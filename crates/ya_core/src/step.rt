//! The record of one atomic step.
use crate::word::Word;

/// The effect of a step on its place's passage.
#[derive(Clone, Copy, PartialEq, Eq, Debug)]
pub enum Mark {
    /// Neither of the two.
    Plain,
    /// The step won the root: its place is inside.
    Inside,
    /// The step ended the passage: its place is idle.
    Out,
}

/// The report of one atomic step of a place by the machine.
#[derive(Clone, Copy, PartialEq, Eq, Debug)]
pub struct Step {
    /// The place that took the step.
    pub place: usize,
    /// The word that it loaded or stored.
    pub word: Word,
    /// True if it was a store.
    pub store: bool,
    /// The value that it loaded or stored.
    pub value: u64,
    /// The effect of the step on the passage.
    pub mark: Mark,
}
