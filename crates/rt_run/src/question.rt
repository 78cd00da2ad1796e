//! Questions to the finished table, and the addresses that a question is about.
ghost use Rattle.std.specs.Prelude.{◌≡◌, IfOk};

use rt_cidr::Addr;
use rt_feed::{AddressText, read_addresses};
use rt_rib::Selection;
use std::alloc::{AllocError, Global};
use std::marker::Model;

/// The addresses to look up: the named ones, in order, and after them those of a text, one per line, as
/// `rt_feed::read_addresses` reads it; an empty text has none. If `keep_invalid` is true, each invalid line of the text is
/// answered in its place. Contracts see what the addresses were read from.
#[derive(Debug, Drop)]
pub struct Addresses<'a> {
    named: &'a [Addr],
    text: &'a [u8],
    keep_invalid: bool,
    read: AddressText,
}

impl<'a> Model for Addresses<'a> {
    ghost use Rattle.rt_feed.specs.Addresses.{ReadsAddresses};
    ghost use Rattle.rt_run.specs.Asked.{AddressContents};

    ghost Value = { AddressContents };

    ghost view = { λ a. record { named = a.named.now; text = a.text.now; keeps_invalid = a.keep_invalid } };

    ghost invariant = { λ a. ReadsAddresses a.named.now a.text.now a.keep_invalid a.read };
}

impl<'a> Addresses<'a> {
    ghost use Rattle.rt_feed.specs.Addresses.{ReadsAddresses};

    /// Reads the text of addresses. Fails only if memory runs out.
    pub fn read(
        alloc: Global,
        named: &'a [Addr],
        text: &'a [u8],
        keep_invalid: bool,
    ) -> Result<Addresses<'a>, AllocError>
        ensures { IfOk result (λ addresses. addresses ≡ record { named = named.now; text = text.now; keeps_invalid = keep_invalid }) }
    {
        let read = read_addresses(alloc, named, text, keep_invalid)?;
        Ok(Addresses {
            named,
            text,
            keep_invalid,
            read,
        })
    }

    /// Returns what was read.
    pub(crate) fn parts(&self) -> &AddressText
        ensures { ReadsAddresses self.now.named self.now.text self.now.keeps_invalid result.now }
    {
        &self.read
    }
}

/// A question to the finished table.
#[derive(Clone, Copy, Debug)]
pub enum Question<'a> {
    /// For each address, the best route of the longest prefix that covers it.
    Best(&'a Addresses<'a>),
    /// For each address, every route that covers it, the best first.
    All(&'a Addresses<'a>),
    /// The selected routes, in the table's order.
    Routes(Selection<'a>),
    /// The selected routes, in the table's order, and last their number.
    RoutesAndTotal(Selection<'a>),
    /// The number of the selected routes and of their prefixes, and the number for each feed and each prefix length.
    Counts(Selection<'a>),
}
