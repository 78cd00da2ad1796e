//! IPv4 prefixes: which addresses they cover, which prefixes they contain, parsing and printing.
ghost use Rattle.std.specs.Prelude.{◌≡◌, ◌++◌};
ghost use Rattle.rt_cidr.specs.Output.{WritesText};
ghost use Rattle.rt_cidr.specs.ShortText.{FitsInShortText};
ghost use Rattle.rt_cidr.specs.Text.{prefix_text};
ghost use Rattle.rt_cidr.specs.Cidr.{IsPrefix};
ghost use Rattle.rt_cidr.specs.inside.Front.{ReadsPair};

use crate::address::{Addr, after_mark, read_address};
use crate::decimals::read_decimal;
use crate::output::put;
use crate::short_text::ShortText;
use std::fmt;
use std::io::{self, Write};
use std::str::FromStr;
use thiserror::Error;

/// The reason why a text or a pair of numbers isn't an address or prefix.
#[derive(Clone, Copy, PartialEq, Eq, Debug, Error)]
pub enum TextFault {
    /// E3: the text doesn't have the required form.
    #[error("the text is not of the form")]
    Text,
    /// E4: the length is over 32.
    #[error("the length is over 32")]
    Length,
    /// E5: a bit of the address past the length is set.
    #[error("a bit past the length is set")]
    Bits,
}

/// The number of bits of an address, and so the maximum length of a prefix.
const MAX_LEN: u8 = 32;

/// An IPv4 prefix (RFC 4632, section 3.1): a base address and a length of at most 32 bits.
/// Every bit of the base past the length is zero.
#[derive(Clone, Copy, PartialEq, Eq, PartialOrd, Ord, Hash, Debug)]
pub struct Prefix {
    base: u32,
    len: u8,
    pub ghost is_prefix: { IsPrefix base len },
}

impl Prefix {
    ghost use Rattle.rt_cidr.specs.Prefix.{covers, contains};
    ghost use Rattle.rt_cidr.specs.Reading.{AnswersPair, ReadsPrefix};

    /// Returns the prefix with this base and length.
    ///
    /// Errors, in this order: E4 (`Length`) if the length is over 32. E5 (`Bits`) if a bit of the base past the length
    /// is set.
    pub fn new(base: u32, len: u8) -> Result<Prefix, TextFault>
        ensures { AnswersPair base len result }
    {
        if len > MAX_LEN {
            return Err(TextFault::Length);
        }
        if base as u64 % (1u64 << (MAX_LEN - len)) != 0 {
            return Err(TextFault::Bits);
        }
        Ok(Prefix { base, len })
    }

    /// Parses a prefix: an address, a slash and the length, a decimal without a leading zero.
    ///
    /// Errors, in this order: E3 (`Text`) if the text doesn't have this form. E4 (`Length`) if the length is over 32,
    /// however long it is. E5 (`Bits`) if a bit past the length is set.
    pub fn parse(text: &[u8]) -> Result<Prefix, TextFault>
        ensures { ReadsPrefix text.now result }
    {
        let Some((base, len)) = read_pair(text) else {
            return Err(TextFault::Text);
        };
        if len > u64::from(MAX_LEN) {
            return Err(TextFault::Length);
        }
        Prefix::new(base, len as u8)
    }

    /// Returns the first address that the prefix covers.
    pub fn base(&self) -> u32
        ensures { result ≡ self.now.base }
    {
        self.base
    }

    /// Returns the number of leading bits that the prefix fixes, 0 to 32.
    pub fn len(&self) -> u8
        ensures { result ≡ self.now.len }
    {
        self.len
    }

    /// Returns true if the prefix covers the address: both agree in the first `len` bits.
    pub fn covers(&self, address: Addr) -> bool
        ensures { result ≡ covers self.now address }
    {
        let past = MAX_LEN - self.len;
        address.0 as u64 >> past == self.base as u64 >> past
    }

    /// Returns true if this prefix covers every address that the other covers: the other isn't shorter, and its base is
    /// covered. A prefix contains itself.
    pub fn contains(&self, other: &Prefix) -> bool
        ensures { result ≡ contains self.now other.now }
    {
        other.len >= self.len && self.covers(Addr(other.base))
    }

    /// Prepends the prefix's text: its base, a slash and its length.
    #[tactic(auto, using(crate::proofs::ShortTexts::prepending), unfolding(crate::specs::Text::prefix_text))]
    pub fn prepend_to(&self, text: &mut ShortText)
        requires room { FitsInShortText (prefix_text self.now.base self.now.len) text.old }
        ensures { text.new ≡ prefix_text self.now.base self.now.len ++ text.old }
    {
        text.prepend_decimal(u64::from(self.len));
        text.prepend(b"/");
        Addr(self.base).prepend_to(text);
    }

    /// Writes the prefix's text: its base, a slash and its length. Fails if the writer does, as [`put`] describes; only
    /// an initial part of the text was then written.
    #[tactic(auto, using(crate::proofs::ShortTexts::lengths))]
    pub fn write_to<W: Write>(&self, w: &mut W) -> Result<(), io::Error>
        ensures { WritesText (W.contents w.old) (W.contents w.new) (prefix_text self.now.base self.now.len) result }
    {
        let mut text = ShortText::new();
        self.prepend_to(&mut text);
        put(w, text.as_bytes())
    }
}

impl fmt::Display for Prefix {
    ghost use Rattle.std.specs.Prelude.{Some};
    ghost use Rattle.rt_cidr.specs.Text.{prefix_text};

    ghost output = { λ prefix. Some (prefix_text prefix.base prefix.len) };

    #[tactic(auto, unfolding(crate::specs::Text::prefix_text))]
    fn fmt<W: fmt::Write>(&self, f: &mut fmt::Formatter<W>) -> fmt::Result {
        let (base, len) = (Addr(self.base), self.len);
        write!(f, "{base}/{len}")
    }
}

impl FromStr for Prefix {
    type Err = TextFault;

    ghost use Rattle.rt_cidr.specs.Reading.{ReadsPrefix};

    ghost from_str_gives = { ReadsPrefix };

    fn from_str(s: &str) -> Result<Prefix, TextFault> {
        Prefix::parse(s.as_bytes())
    }
}

/// Reads the whole text as an address, a slash and a length. A length above 2^32 is returned as 2^32.
fn read_pair(text: &[u8]) -> Option<(u32, u64)>
    ensures { ReadsPair text.now result }
{
    let (base, rest) = read_address(text)?;
    let (len, rest) = read_decimal(after_mark(rest, b'/')?)?;
    if !rest.is_empty() {
        return None;
    }
    Some((base, len))
}
