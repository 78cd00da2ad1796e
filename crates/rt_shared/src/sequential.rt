//! The sequential table in the form of the core's law of the content.
ghost use Rattle.rt_shared.specs.Headline.{IsSequential};

use rt_rib::{Cmd, Reply};
use ya_core::laws::Accept;

/// Accepts a command with the reply that the sequential table gives it, if each feed may have LIMIT routes.
pub struct SequentialTable<const LIMIT: u32>;

impl<const LIMIT: u32> Accept for SequentialTable<LIMIT> {
    type Entry = (Cmd, Reply);

    ghost ok = { λ earlier x. IsSequential LIMIT earlier x };
}
