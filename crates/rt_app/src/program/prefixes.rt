//! Prefixes on the command line.

use super::{ArgumentFault, ProgramError};
use rt_cidr::{Addr, Prefix, TextFault, decimal_u32};

/// Returns the prefix that the argument of an option is. An address without a length is the prefix of that address alone.
pub(super) fn prefix_of(word: &str) -> Result<Prefix, ProgramError<'_>> {
    let text = word.as_bytes();
    if let Ok(Addr(address)) = Addr::parse(text) {
        return masked(address, 32).ok_or(ProgramError::Argument(ArgumentFault::Prefix, word));
    }
    Prefix::parse(text).map_err(|fault| match (fault, without_host_bits(word)) {
        (TextFault::Bits, Some(meant)) => ProgramError::HostBits(word, meant),
        _ => ProgramError::Argument(ArgumentFault::Prefix, word),
    })
}

/// Returns the prefix of an address, a slash and a length, whatever bits of the address past the length are set.
fn without_host_bits(word: &str) -> Option<Prefix> {
    let (address, length) = word.split_once("/")?;
    let Addr(address) = Addr::parse(address.as_bytes()).ok()?;
    let length = decimal_u32(length.as_bytes())?;
    masked(address, u8::try_from(length).ok()?)
}

/// Returns the prefix of this length that covers the address.
fn masked(address: u32, length: u8) -> Option<Prefix> {
    let hosts = if length < 32 { u32::MAX >> length } else { 0 };
    Prefix::new(address & !hosts, length).ok()
}
