//! The rows of a query's answers: routes, the results of look-ups, and all routes that cover an address.
ghost use Rattle.std.specs.Prelude.{◌≡◌, ◌≤◌, length, IfSome};
ghost use Rattle.std.proofs.Props.{props};
ghost use Rattle.rt_cidr.specs.Output.{WritesText};
ghost use Rattle.rt_run.specs.inside.Outputs.{found_text, matches_text};

use crate::forwarding::look_up_by;
use crate::rendering::Rows;
use rt_cidr::Addr;
use rt_fib::Fib;
use rt_print::{Style, write_all_matches, write_lookup, write_routes};
use rt_rib::Route;
use rt_tables::TableUnion;
use std::alloc::Global;
use std::io::{self, Write};

/// The number of addresses that are looked up together.
const PIECE: usize = 256;

/// Each route has a line.
impl Rows<Route> for Style {
    ghost use Rattle.rt_print.specs.Styles.{label_of, row_as};

    ghost row_of = { λ style. row_as style.syntax (label_of style.labels) };

    fn write_rows<W: Write>(&self, w: &mut W, items: &[Route]) -> io::Result<()> {
        write_routes(w, self, items)
    }
}

/// Each address has the lines of all routes that cover it, the best first.
impl Rows<(Addr, Vec<Route>)> for Style {
    ghost use Rattle.rt_print.specs.Styles.{label_of, all_found_as};

    ghost row_of = { λ style one. all_found_as style.syntax (label_of style.labels) one.0 one.1.items };

    fn write_rows<W: Write>(&self, w: &mut W, items: &[(Addr, Vec<Route>)]) -> io::Result<()> {
        write_matches(w, self, items)
    }
}

/// The tables in which addresses are looked up, their forwarding table if there is one, and the style of the answers.
#[derive(Drop)]
pub(crate) struct LookupTables<'a> {
    pub(crate) style: &'a Style,
    pub(crate) tables: &'a TableUnion<Global>,
    pub(crate) fib: &'a Option<Fib<Global>>,
    ghost same: { IfSome fib.now (λ fib. fib ≡ tables.now) } by { Prim.hlevel props },
}

/// Each address has the result of looking it up.
impl Rows<Addr> for LookupTables<'_> {
    ghost use Rattle.rt_rib.specs.LookUp.{look_up};
    ghost use Rattle.rt_print.specs.Styles.{label_of, found_as};

    ghost row_of = { λ all addr. found_as all.style.now.syntax (label_of all.style.now.labels) addr (look_up addr all.tables.now) };

    fn write_rows<W: Write>(&self, w: &mut W, items: &[Addr]) -> io::Result<()> {
        write_answers(w, self.style, self.tables, self.fib, items)
    }
}

/// Writes the result of looking up each address in the tables, with their forwarding table if there is one.
fn write_answers<W: Write>(
    w: &mut W,
    style: &Style,
    tables: &TableUnion<Global>,
    fib: &Option<Fib<Global>>,
    addresses: &[Addr],
) -> Result<(), io::Error>
    requires { IfSome fib.now (λ fib. fib ≡ tables.now) }
    ensures { WritesText (W.contents w.old) (W.contents w.new) (found_text style.now addresses.now tables.now) result }
{
    let mut rest = addresses;
    while !rest.is_empty() {
        let (piece, behind) = rest.split_at(rest.len().min(PIECE));
        write_piece(w, style, tables, fib, piece)?;
        rest = behind;
    }
    Ok(())
}

/// Writes all routes that cover each address, the best first.
fn write_matches<W: Write>(
    w: &mut W,
    style: &Style,
    all: &[(Addr, Vec<Route>)],
) -> Result<(), io::Error>
    ensures { WritesText (W.contents w.old) (W.contents w.new) (matches_text style.now all.now) result }
{
    for one in all {
        write_all_matches(w, style, one.0, one.1.as_slice())?;
    }
    Ok(())
}

/// Writes the result of looking up each of at most [`PIECE`] addresses in the tables.
fn write_piece<W: Write>(
    w: &mut W,
    style: &Style,
    tables: &TableUnion<Global>,
    fib: &Option<Fib<Global>>,
    piece: &[Addr],
) -> Result<(), io::Error>
    requires fib { IfSome fib.now (λ fib. fib ≡ tables.now) }
    requires few { length piece.now ≤ 256 }
    ensures { WritesText (W.contents w.old) (W.contents w.new) (found_text style.now piece.now tables.now) result }
{
    let mut places = [None; PIECE];
    let found = &mut places[..piece.len()];
    look_up_by(tables, fib, piece, found);
    for (index, address) in piece.iter().enumerate() {
        write_lookup(w, style, *address, found[index])?;
    }
    Ok(())
}
