//! The entries that a prefix's addresses have.
ghost use Rattle.std.specs.Prelude.{◌≡◌, ◌+◌, ◌*◌, IsTrue};
ghost use Rattle.rt_cidr.specs.Cidr.{size_of};
ghost use Rattle.rt_fib.specs.inside.Changes.{AreEntriesOf, IsWholly};

use crate::bounds::{ENTRIES, Span};
use crate::slabs::GROUP_SIZE;
use rt_cidr::Prefix;

/// Returns the entries of the prefix's addresses.
pub(crate) fn span_of(prefix: &Prefix) -> Span
    ensures { AreEntriesOf prefix.now result }
{
    let base = u64::from(prefix.base());
    let size = 1u64 << (32 - prefix.len());
    Span {
        first: (base / GROUP_SIZE as u64) as u32,
        end: (base + size)
            .div_ceil(GROUP_SIZE as u64)
            .min(ENTRIES as u64) as u32,
    }
}

/// Returns true if all addresses of the entries are the prefix's.
pub(crate) fn is_whole(prefix: &Prefix, span: Span) -> bool
    ensures { IsTrue result → IsWholly prefix.now span }
{
    let base = u64::from(prefix.base());
    let size = 1u64 << (32 - prefix.len());
    let group_size = GROUP_SIZE as u64;
    u64::from(span.first) * group_size == base && u64::from(span.end) * group_size == base + size
}
