//! Texts that are written in parts, one after another.
ghost use Rattle.std.specs.Prelude.{List, ℕ, ◌++◌, decimal};
ghost use Rattle.rt_cidr.specs.Output.{WritesText};
ghost use Rattle.rt_cidr.specs.Text.{address_text};

use rt_cidr::{Addr, ShortText, put};
use std::io::{self, Write};

/// A text: bytes, a number, an address, or two texts, one after the other.
pub(crate) trait Text {
    /// Its bytes.
    ghost text: { Self → List ℕ };

    /// Writes it. Errors and memory are as for `write_routes`.
    fn put_to<W: Write>(&self, w: &mut W) -> io::Result<()>
        ensures { WritesText (W.contents w.old) (W.contents w.new) (text self.now) result };
}

impl Text for &[u8] {
    ghost text = { λ bytes. bytes.now };

    fn put_to<W: Write>(&self, w: &mut W) -> io::Result<()> {
        put(w, self)
    }
}

impl Text for &str {
    ghost text = { λ bytes. bytes.now };

    fn put_to<W: Write>(&self, w: &mut W) -> io::Result<()> {
        put(w, self.as_bytes())
    }
}

/// The number in decimal.
impl Text for u64 {
    ghost text = { λ number. decimal number };

    #[tactic(auto, using(crate::proofs::LineParts::fits))]
    fn put_to<W: Write>(&self, w: &mut W) -> io::Result<()> {
        let mut digits = ShortText::new();
        digits.prepend_decimal(*self);
        put(w, digits.as_bytes())
    }
}

impl Text for Addr {
    ghost text = { λ address. address_text address.0 };

    fn put_to<W: Write>(&self, w: &mut W) -> io::Result<()> {
        self.write_to(w)
    }
}

impl<A: Text, B: Text> Text for (A, B) {
    ghost text = { λ pair. A.text pair.0 ++ B.text pair.1 };

    fn put_to<W: Write>(&self, w: &mut W) -> io::Result<()> {
        self.0.put_to(w)?;
        self.1.put_to(w)
    }
}
