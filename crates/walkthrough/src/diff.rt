//! `rt_diff`: checks whether a change of the table sends packets another way.
ghost use Rattle.std.specs.Prelude.{◌↔◌, IsTrue};
ghost use Rattle.walkthrough.specs.Diff.{GoAlike};

use rt_cidr::Addr;
use rt_diff::{CompareBy, Comparison};
use rt_rib::Table;
use std::alloc::Global;

/// Returns true if packets to every address go the same way by both tables.
pub fn go_alike(old: &Table<Global>, new: &Table<Global>) -> bool
    ensures { IsTrue result ↔ GoAlike old.now.routes new.now.routes }
{
    Comparison::new(old, new, CompareBy::Hop)
        .first_difference(Addr(0))
        .is_none()
}
