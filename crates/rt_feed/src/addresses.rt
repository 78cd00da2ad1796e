//! A text of addresses, one a line.
ghost use Rattle.std.specs.Prelude.{IfOk};
ghost use Rattle.rt_feed.specs.Addresses.{AnswersAddressLine, ReadsAddresses};

use crate::faulty::FaultyLines;
use crate::lines::next_line;
use crate::parse::{LINE_BYTES, LineFault, is_skipped, parse_address};
use rt_cidr::Addr;
use std::alloc::{AllocError, Global};

/// Addresses to look up: named ones, and after them those of a text.
#[derive(Debug, Drop)]
pub struct AddressText {
    /// The named addresses, and then the addresses of the text's lines, in order.
    pub addresses: Vec<Addr>,
    /// The lines that are neither addresses nor skipped.
    pub faulty: FaultyLines,
    /// These lines again, each with its place, if they are kept.
    pub invalid: Vec<InvalidLine>,
}

/// An invalid line of a text of addresses, with its place among the addresses.
#[derive(Clone, Copy, PartialEq, Eq, Debug)]
pub struct InvalidLine {
    /// Its number, from 1.
    pub number: usize,
    /// The number of addresses before it, the named ones included.
    pub before: usize,
}

/// Reads a text of addresses, one on each line that isn't skipped (`parse_address_line`), after the named addresses. The
/// last LF is optional, and all lines are numbered, from 1. A faulty line has no address, and the lines after it are read as
/// usual; the places of such lines are kept if `keep_invalid` is true. Fails only if memory runs out.
pub fn read_addresses(
    alloc: Global,
    named: &[Addr],
    text: &[u8],
    keep_invalid: bool,
) -> Result<AddressText, AllocError>
    ensures { IfOk result (λ read. ReadsAddresses named.now text.now keep_invalid read) }
{
    let mut read = AddressText {
        addresses: named.to_vec(alloc)?,
        faulty: FaultyLines::none(),
        invalid: Vec::new(alloc),
    };
    let mut rest = text;
    let mut number = 0;
    while let Some((line, behind)) = next_line(rest) {
        number += 1;
        rest = behind;
        match parse_address_line(line) {
            Err(fault) => {
                read.faulty.put(number, fault);
                if keep_invalid {
                    let before = read.addresses.len();
                    read.invalid.push(InvalidLine { number, before })?;
                }
            }
            Ok(said) => match said {
                None => {}
                Some(address) => read.addresses.push(address)?,
            },
        }
    }
    Ok(read)
}

/// Parses a line of a text of addresses, without its LF. Returns its address, or `None` if it is empty or a comment
/// (its first byte is `#`), as in a feed's text. Faults: `LineLength` (E8) for more than 128 bytes, also in a comment,
/// and else `Text` (E3) if the whole line isn't an address. A space or a carriage return is a byte like any other, and
/// is in no address. Doesn't allocate.
pub fn parse_address_line(line: &[u8]) -> Result<Option<Addr>, LineFault>
    ensures { AnswersAddressLine line.now result }
{
    if line.len() > LINE_BYTES {
        return Err(LineFault::LineLength);
    }
    if is_skipped(line) {
        return Ok(None);
    }
    let addr = parse_address(line)?;
    Ok(Some(addr))
}
