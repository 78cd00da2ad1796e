//! The shared words by name, and the accesses of them.
/// A shared word of the arbitration tree. Each is a whole number, 0 at the start.
#[derive(Clone, Copy, PartialEq, Eq, Debug)]
pub enum Word {
    /// `C(level, node, side)`: the identifier of the process that competes on that side of the node, or nil.
    C(u32, usize, usize),
    /// `T(level, node)`: the identifier of the last process that announced itself at the node.
    T(u32, usize),
    /// `P(level, place)`: the spin word of that place at that level: 0, 1 or 2.
    P(u32, usize),
}

/// One load or one store of a shared word: an atomic step.
#[derive(Clone, Copy, PartialEq, Eq, Debug)]
pub enum Access {
    /// A load of the word.
    Load(Word),
    /// A store of the value in the word.
    Store(Word, u64),
}
