//! The fields of comma-separated values (RFC 4180).
ghost use Rattle.std.specs.Prelude.{◌≡◌};
ghost use Rattle.std.specs.List.{flat_map, list_any};
ghost use Rattle.rt_cidr.specs.Output.{WritesText};
ghost use Rattle.rt_print.specs.Csv.{is_special, doubled, csv_field};

use crate::text::Text;
use rt_cidr::put;
use std::io::{self, Write};

/// The end of a line.
pub(crate) const LINE_END: &str = "\r\n";

/// A field: quoted if it has a special byte.
#[derive(Clone, Copy)]
pub(crate) struct CsvField<'a>(pub(crate) &'a [u8]);

impl Text for CsvField<'_> {
    ghost text = { λ field. csv_field field.0.now };

    #[tactic(auto, unfolding(crate::specs::Csv::csv_field))]
    fn put_to<W: Write>(&self, w: &mut W) -> io::Result<()> {
        if has_special(self.0) {
            ("\"", (Doubled(self.0), "\"")).put_to(w)
        } else {
            self.0.put_to(w)
        }
    }
}

/// Returns true if the field has a byte for which it is quoted.
fn has_special(field: &[u8]) -> bool
    ensures { result ≡ list_any is_special field.now }
{
    field
        .iter()
        .any(|byte| matches!(*byte, b'"' | b',' | b'\r' | b'\n'))
}

/// The bytes of a quoted field.
#[derive(Clone, Copy)]
struct Doubled<'a>(&'a [u8]);

impl Text for Doubled<'_> {
    ghost text = { λ bytes. flat_map doubled bytes.0.now };

    fn put_to<W: Write>(&self, w: &mut W) -> io::Result<()> {
        for byte in self.0 {
            put_doubled(w, *byte)?;
        }
        Ok(())
    }
}

/// Writes this byte of a quoted field.
fn put_doubled<W: Write>(w: &mut W, byte: u8) -> io::Result<()>
    ensures { WritesText (W.contents w.old) (W.contents w.new) (doubled byte) result }
{
    match byte {
        b'"' => put(w, &[byte, byte]),
        _ => put(w, &[byte]),
    }
}
