//! The statuses of calls, with the numbers of the header.

/// The call did what it is for.
pub const DONE: u32 = 0;

/// The handle holds nothing.
pub const NOTHING: u32 = 1;

/// A limit, a feed or a choice is out of its range.
pub const BAD_NUMBER: u32 = 2;

/// The numbers don't denote a command.
pub const BAD_COMMAND: u32 = 3;

/// Memory ran out (M1).
pub const NO_MEMORY: u32 = 4;

/// A list has no room for the result.
pub const BAD_SIZE: u32 = 5;

/// Nothing was found from here on.
pub const NONE_LEFT: u32 = 6;

/// A text is not of the form (E3).
pub const BAD_TEXT: u32 = 7;

/// The length of a prefix is over 32 (E4).
pub const BAD_LENGTH: u32 = 8;

/// A bit past the length of a prefix is set (E5).
pub const BAD_BITS: u32 = 9;

/// The contents of the handle don't support this call.
pub const WRONG_KIND: u32 = 10;
