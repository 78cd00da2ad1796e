//! IPv4 addresses: parsing and printing.
ghost use Rattle.std.specs.Prelude.{◌≡◌, ◌++◌};
ghost use Rattle.rt_cidr.specs.Output.{WritesText};
ghost use Rattle.rt_cidr.specs.ShortText.{FitsInShortText};
ghost use Rattle.rt_cidr.specs.Text.{IsAddressText, IsOctetText, address_text};
ghost use Rattle.rt_cidr.specs.inside.Front.{ReadsFront, ReadsMark, IsHalfText};

use crate::decimals::read_decimal;
use crate::output::put;
use crate::prefixes::TextFault;
use crate::short_text::ShortText;
use std::fmt;
use std::io::{self, Write};
use std::str::FromStr;

/// An IPv4 address, its first octet the most significant.
#[derive(Clone, Copy, PartialEq, Eq, PartialOrd, Ord, Hash, Debug)]
pub struct Addr(pub u32);

impl Addr {
    ghost use Rattle.rt_cidr.specs.Reading.{ReadsAddress};

    /// Parses an address: four octets joined by dots, each a decimal of at most 255 without a leading zero. Any other
    /// text is error E3 (`Text`).
    pub fn parse(text: &[u8]) -> Result<Addr, TextFault>
        ensures { ReadsAddress text.now result }
    {
        let Some((address, rest)) = read_address(text) else {
            return Err(TextFault::Text);
        };
        if !rest.is_empty() {
            return Err(TextFault::Text);
        }
        Ok(Addr(address))
    }

    /// Prepends the address's text: its four octets joined by dots.
    #[tactic(auto, using(crate::proofs::ShortTexts::prepending), unfolding(crate::specs::Text::address_text))]
    pub fn prepend_to(&self, text: &mut ShortText)
        requires room { FitsInShortText (address_text self.now.0) text.old }
        ensures { text.new ≡ address_text self.now.0 ++ text.old }
    {
        text.prepend_decimal(u64::from(self.0 % 256));
        text.prepend(b".");
        text.prepend_decimal(u64::from((self.0 >> 8) % 256));
        text.prepend(b".");
        text.prepend_decimal(u64::from((self.0 >> 16) % 256));
        text.prepend(b".");
        text.prepend_decimal(u64::from((self.0 >> 24) % 256));
    }

    /// Writes the address's text: its four octets joined by dots. Fails if the writer does, as [`put`] describes; only
    /// an initial part of the text was then written.
    #[tactic(auto, using(crate::proofs::ShortTexts::lengths))]
    pub fn write_to<W: Write>(&self, w: &mut W) -> Result<(), io::Error>
        ensures { WritesText (W.contents w.old) (W.contents w.new) (address_text self.now.0) result }
    {
        let mut text = ShortText::new();
        self.prepend_to(&mut text);
        put(w, text.as_bytes())
    }
}

impl fmt::Display for Addr {
    ghost use Rattle.std.specs.Prelude.{Some};
    ghost use Rattle.rt_cidr.specs.Text.{address_text};

    ghost output = { λ address. Some (address_text address.0) };

    #[tactic(auto, unfolding(crate::specs::Text::address_text))]
    fn fmt<W: fmt::Write>(&self, f: &mut fmt::Formatter<W>) -> fmt::Result {
        let (first, second) = ((self.0 >> 24) % 256, (self.0 >> 16) % 256);
        let (third, fourth) = ((self.0 >> 8) % 256, self.0 % 256);
        write!(f, "{first}.{second}.{third}.{fourth}")
    }
}

impl FromStr for Addr {
    type Err = TextFault;

    ghost use Rattle.rt_cidr.specs.Reading.{ReadsAddress};

    ghost from_str_gives = { ReadsAddress };

    fn from_str(s: &str) -> Result<Addr, TextFault> {
        Addr::parse(s.as_bytes())
    }
}

/// Reads the address at the front of the text (two halves joined by a dot); returns it with the rest of the text.
pub(crate) fn read_address(text: &[u8]) -> Option<(u32, &[u8])>
    ensures { ReadsFront IsAddressText text.now result }
{
    let (high, rest) = read_half(text)?;
    let (low, rest) = read_half(after_mark(rest, b'.')?)?;
    Some((high << 16 | low, rest))
}

/// Reads two octets joined by a dot as a 16-bit number.
fn read_half(text: &[u8]) -> Option<(u32, &[u8])>
    ensures { ReadsFront IsHalfText text.now result }
{
    let (high, rest) = read_octet(text)?;
    let (low, rest) = read_octet(after_mark(rest, b'.')?)?;
    Some((high << 8 | low, rest))
}

fn read_octet(text: &[u8]) -> Option<(u32, &[u8])>
    ensures { ReadsFront IsOctetText text.now result }
{
    let (value, rest) = read_decimal(text)?;
    if value > 255 {
        return None;
    }
    Some((value as u32, rest))
}

/// Returns the rest of the text after the mark at its front.
pub(crate) fn after_mark(text: &[u8], mark: u8) -> Option<&[u8]>
    ensures { ReadsMark mark text.now result }
{
    match text {
        [first, rest @ ..] if *first == mark => Some(rest),
        _ => None,
    }
}
