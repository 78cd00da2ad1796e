//! `rt_trie`: a map from prefixes to values, with a look-up of the longest prefix that covers an address.
ghost use Rattle.std.specs.Prelude.{◌≡◌, IfOk};
ghost use Rattle.rt_trie.specs.Map.{IsLongest};
ghost use Rattle.walkthrough.specs.Trie.{map_of};

use rt_cidr::{Addr, Prefix};
use rt_trie::Trie;
use std::alloc::{AllocError, Global};

/// Returns the longest of the two prefixes that covers the address, with its value, if one does. Fails if memory runs
/// out.
pub fn port_of(
    alloc: Global,
    wide: (Prefix, u32),
    narrow: (Prefix, u32),
    address: Addr,
) -> Result<Option<(Prefix, u32)>, AllocError>
    ensures { IfOk result (λ found. IsLongest (map_of wide narrow) address found) }
{
    let ports = both(alloc, wide, narrow)?;
    match ports.longest(address) {
        Some((prefix, port)) => Ok(Some((prefix, *port))),
        None => Ok(None),
    }
}

/// Returns a map of two pairs.
#[tactic(auto, unfolding(crate::specs::Trie::map_of))]
fn both(
    alloc: Global,
    wide: (Prefix, u32),
    narrow: (Prefix, u32),
) -> Result<Trie<u32, Global>, AllocError>
    ensures { IfOk result (λ ports. ports.pairs ≡ map_of wide narrow) }
{
    let mut ports = Trie::new(alloc);
    // An insertion that fails returns its value.
    let Ok(_) = ports.insert(wide.0, wide.1) else {
        return Err(AllocError);
    };
    let Ok(_) = ports.insert(narrow.0, narrow.1) else {
        return Err(AllocError);
    };
    Ok(ports)
}
