//! A short text that is built from back to front; every printer of the product builds its lines with it.
ghost use Rattle.std.specs.Prelude.{◌≡◌, ◌++◌, [], ◌≤◌, drop, decimal};
ghost use Rattle.rt_cidr.specs.ShortText.{FitsInShortText};

use std::marker::Model;

/// The capacity of a short text in bytes: more than the longest line that is printed.
pub const SHORT_TEXT_BYTES: usize = 512;

/// A text of at most 512 bytes, built from back to front, since the last digit of a number is computed first. Contracts
/// see its bytes. No call allocates.
#[derive(Debug, Drop)]
pub struct ShortText {
    buf: [u8; SHORT_TEXT_BYTES],
    start: usize,
}

impl Model for ShortText {
    ghost use Rattle.std.specs.Prelude.{ℕ, ◌≤◌, List, drop};
    ghost use Rattle.rt_cidr.specs.declared.short_text.TheConstants.{SHORT_TEXT_BYTES};

    ghost Value = { List ℕ };

    ghost view = { λ text. drop text.start text.buf };

    ghost invariant = { λ text. text.start ≤ SHORT_TEXT_BYTES };
}

impl ShortText {
    /// Returns the empty text.
    pub fn new() -> ShortText
        ensures { result ≡ [] }
    {
        ShortText {
            buf: [0; SHORT_TEXT_BYTES],
            start: SHORT_TEXT_BYTES,
        }
    }

    /// Returns the text's bytes.
    pub fn as_bytes(&self) -> &[u8]
        ensures { result.now ≡ self.now }
    {
        &self.buf[self.start..]
    }

    /// Removes all bytes.
    pub fn clear(&mut self)
        ensures { self.new ≡ [] }
    {
        self.start = SHORT_TEXT_BYTES;
    }

    /// Prepends the bytes.
    pub fn prepend(&mut self, text: &[u8])
        requires room { FitsInShortText text.now self.old }
        ensures { self.new ≡ text.now ++ self.old }
    {
        let start = self.start - text.len();
        self.buf[start..self.start].copy_from_slice(text);
        self.start = start;
    }

    /// Prepends the number in decimal.
    pub fn prepend_decimal(&mut self, n: u64)
        requires room { FitsInShortText (decimal n) self.old }
        ensures { self.new ≡ decimal n ++ self.old }
    {
        self.start = itoa::write_digits(n, &mut self.buf, self.start);
    }
}
