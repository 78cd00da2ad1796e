//! Checks that feeds can be printed by their names: each needs a valid name of its own.
ghost use Rattle.std.specs.Prelude.{◌≡◌, ◌==◌, ◌||◌, nat_le, map};
ghost use Rattle.std.specs.List.{list_any};
ghost use Rattle.rt_print.specs.FeedNames.{ChecksNames};

use crate::labels::{feed_name, index_of_name};

/// The reason why feeds can't be printed by their names. Files are identified by the indices of their paths.
#[derive(Clone, Copy, PartialEq, Eq, Debug)]
pub enum NameFault {
    /// The file has no valid feed name.
    Invalid(usize),
    /// The two files have the same feed name; the first one is before the second one.
    Duplicate(usize, usize),
}

/// Checks that the feeds that are read from the files of these paths can be printed by their names: that each has a
/// valid name (not empty, no space, no control character), which no feed before it has. Otherwise returns the fault of
/// the first feed for which this isn't true. Doesn't allocate.
pub fn check_names(paths: &[&str]) -> Result<(), NameFault>
    ensures { ChecksNames (map (λ path. path.now) paths.now) result }
{
    for (index, path) in paths.iter().enumerate() {
        let name = feed_name(path.as_bytes());
        if name.is_empty() || has_space_or_control(name) {
            return Err(NameFault::Invalid(index));
        }
        if let Some(earlier) = index_of_name(&paths[..index], name) {
            return Err(NameFault::Duplicate(earlier, index));
        }
    }
    Ok(())
}

/// Returns true if a byte is a space or a control character.
fn has_space_or_control(bytes: &[u8]) -> bool
    ensures { result ≡ list_any (λ byte. nat_le byte 32 || byte == 127) bytes.now }
{
    bytes.iter().any(|byte| *byte <= b' ' || *byte == 127)
}
