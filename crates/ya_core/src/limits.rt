//! The maximum numbers of levels and places of a tree.

/// The maximum number of levels of a tree.
pub const MAX_LEVELS: u32 = 6;

/// The maximum number of places of a tree.
pub const MAX_PLACES: usize = 1 << MAX_LEVELS;
