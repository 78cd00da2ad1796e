//! The version of a feed's text, determined by its first line.
ghost use Rattle.std.specs.Prelude.{◌≡◌, ◌+◌, length};
ghost use Rattle.rt_feed.specs.Lines.{IsBody, IsVersion, heading};

use crate::lines::next_line;

/// The first line of a text of version 2.
const VERSION_TWO: &[u8] = b"version 2";

/// The version of a text, which determines the grammar of its lines.
#[derive(Clone, Copy, PartialEq, Eq, Debug)]
pub enum Version {
    /// The first line of the text is not `version 2`: all lines are read.
    One,
    /// The first line of the text is `version 2`: it is skipped, and the lines after it are read.
    Two,
}

impl Version {
    /// Returns the number of the first line that is read: 1, or 2 after the line `version 2`.
    pub fn first_line(&self) -> usize
        ensures { result ≡ 1 + length (heading self.now) }
    {
        match self {
            Version::One => 1,
            Version::Two => 2,
        }
    }
}

/// Returns the text's version: 2 if its first line is exactly `version 2`, else 1. Doesn't allocate.
pub fn text_version(text: &[u8]) -> Version
    ensures { IsVersion text.now result }
{
    text_body(text).0
}

/// Returns the text's version, and the lines of that version: in version 2 those after the first. Doesn't allocate.
pub fn text_body(text: &[u8]) -> (Version, &[u8])
    ensures { IsBody text.now result.0 result.1.now }
{
    if let Some((line, lines)) = next_line(text) {
        if line == VERSION_TWO {
            return (Version::Two, lines);
        }
    }
    (Version::One, text)
}
