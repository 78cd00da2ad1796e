//! `rt_cidr`: parses an address and a prefix, and checks whether the prefix covers the address.
ghost use Rattle.std.specs.Prelude.{IfOk};
ghost use Rattle.walkthrough.specs.Cover.{TextsCover};

use rt_cidr::{Addr, Prefix, TextFault};

/// Returns true if the prefix in the first text covers the address in the second. Fails if the first text isn't a
/// prefix, or else if the second isn't an address.
pub fn covers_address(block: &[u8], address: &[u8]) -> Result<bool, TextFault>
    ensures { IfOk result (λ covered. TextsCover block.now address.now covered) }
{
    let prefix = Prefix::parse(block)?;
    let addr = Addr::parse(address)?;
    Ok(prefix.covers(addr))
}
