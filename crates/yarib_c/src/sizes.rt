//! Approximate numbers of bytes that tables take.
ghost use Rattle.std.specs.Prelude.{◌≡◌, ◌≤◌};
ghost use Rattle.yarib_c.specs.Sizes.{bytes_of, trie_bytes};
ghost use Rattle.yarib_c.specs.declared.sizes.TheConstants.{PREFIX_BYTES, NODE_BYTES, ENTRY_BYTES};

use rt_rib::Table;
use std::alloc::Global;

/// The bytes that are counted for each prefix of a table, in addition to those for its node.
///
/// A leaf of the trie takes 32 bytes, a fork 40, and a full node, which is a prefix with longer ones below it, 72. If
/// nothing was removed, a trie of m prefixes with n nodes has n - m forks, and between (2 m - n - 1) / 2 and 2 m - n - 1
/// full nodes. With 3/4 (2 m - n) full nodes it takes 32 m + 40 (n - m) + 40 * 3/4 (2 m - n) bytes: 52 m + 10 n.
pub const PREFIX_BYTES: usize = 52;

/// The bytes that are counted for each node of a trie.
pub const NODE_BYTES: usize = 10;

/// The bytes of an entry of a journal.
pub const ENTRY_BYTES: usize = 56;

/// The maximum number that is counted.
pub const MAX_COUNTED: usize = 1 << 40;

/// Returns about how many bytes the table takes: its trie, the lists of prefixes with several routes, and the marks of feeds.
pub(crate) fn table_bytes(table: &Table<Global>) -> usize
    ensures { trie_bytes table.now.trie ≤ result }
{
    let trie = prefix_bytes(table.prefixes()) + node_bytes(table.nodes());
    trie.saturating_add(table.offer_bytes())
        .saturating_add(table.mark_bytes())
}

/// Returns the bytes that are counted for this number of prefixes.
fn prefix_bytes(count: usize) -> usize
    ensures { result ≡ bytes_of PREFIX_BYTES count }
{
    PREFIX_BYTES * count.min(MAX_COUNTED)
}

/// Returns the bytes that are counted for this number of nodes.
fn node_bytes(count: usize) -> usize
    ensures { result ≡ bytes_of NODE_BYTES count }
{
    NODE_BYTES * count.min(MAX_COUNTED)
}

/// Returns the bytes of this number of entries.
pub(crate) fn entry_bytes(count: usize) -> usize
    ensures { result ≡ bytes_of ENTRY_BYTES count }
{
    ENTRY_BYTES * count.min(MAX_COUNTED)
}
