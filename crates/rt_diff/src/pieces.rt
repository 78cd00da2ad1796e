//! Visiting both tables interval by interval. A piece is an answer with the last address that is known to have it.
ghost use Rattle.std.specs.Prelude.{◌≡◌, ◌+◌, ◌^◌, ◌<◌, ◌≤◌, ◌↔◌, IsTrue};
ghost use Rattle.rt_diff.specs.inside.Pieces.{IsPieceFrom, IsPieceAt, ArePieces, reach, FindsUnlike, IsEnd};

use crate::renumbered::RenumberedLookups;
use crate::table_answers::{CompareBy, TableAnswer, answer_by, is_same};
use rt_cidr::Addr;
use std::alloc::Allocator;

/// A table's answer from some address on, up to a last address.
#[derive(Clone, Copy)]
pub(crate) struct Piece {
    pub(crate) answer: TableAnswer,
    pub(crate) last: Addr,
}

/// The answers of both tables from this address on.
#[derive(Clone, Copy)]
pub(crate) struct Pieces {
    pub(crate) from: Addr,
    pub(crate) old: Piece,
    pub(crate) new: Piece,
}

impl Pieces {
    /// Returns the last address that both pieces reach.
    fn reach(&self) -> Addr
        ensures { result.0 ≡ reach self.now }
    {
        Addr(self.old.last.0.min(self.new.last.0))
    }

    /// Returns true if both tables give the same answer.
    fn is_alike(&self) -> bool
        ensures { IsTrue result ↔ (self.now.old.answer ≡ self.now.new.answer) }
    {
        is_same(&self.old.answer, &self.new.answer)
    }

    /// Returns true if both answers are those of the other pieces.
    fn goes_on(&self, first: &Pieces) -> bool
        ensures { IsTrue result ↔ ((self.now.old.answer ≡ first.now.old.answer) × (self.now.new.answer ≡ first.now.new.answer)) }
    {
        is_same(&self.old.answer, &first.old.answer) && is_same(&self.new.answer, &first.new.answer)
    }
}

/// Returns the table's piece that begins at the address.
fn piece_at<A: Allocator + Copy>(
    table: &mut RenumberedLookups<'_, A>,
    by: CompareBy,
    addr: Addr,
) -> Piece
    ensures kept { table.new ≡ table.old }
    ensures piece { IsPieceAt by table.old addr result }
{
    let (found, last) = table.lookup_range(addr);
    Piece {
        answer: answer_by(by, found),
        last,
    }
}

/// Returns the table's piece at the address: the given one if it reaches the address.
fn piece_on<A: Allocator + Copy>(
    table: &mut RenumberedLookups<'_, A>,
    by: CompareBy,
    piece: Piece,
    addr: Addr,
) -> Piece
    requires { IsPieceFrom by table.old addr piece }
    ensures kept { table.new ≡ table.old }
    ensures piece { IsPieceAt by table.old addr result }
{
    if addr.0 <= piece.last.0 {
        return piece;
    }
    piece_at(table, by, addr)
}

/// Returns the pieces of both tables at the address.
fn pieces_at<A: Allocator + Copy>(
    old: &mut RenumberedLookups<'_, A>,
    new: &mut RenumberedLookups<'_, A>,
    by: CompareBy,
    from: Addr,
) -> Pieces
    ensures old { old.new ≡ old.old }
    ensures new { new.new ≡ new.old }
    ensures from { result.from ≡ from }
    ensures pieces { ArePieces by old.old new.old result }
{
    Pieces {
        from,
        old: piece_at(old, by, from),
        new: piece_at(new, by, from),
    }
}

/// Returns the pieces after the last address that both reach, which isn't the last of all. Looks up the answer only in
/// a table whose piece has ended.
fn pieces_behind<A: Allocator + Copy>(
    old: &mut RenumberedLookups<'_, A>,
    new: &mut RenumberedLookups<'_, A>,
    by: CompareBy,
    pieces: &Pieces,
) -> Pieces
    requires pieces { ArePieces by old.old new.old pieces.now }
    requires more { reach pieces.now + 1 < 2 ^ 32 }
    ensures old { old.new ≡ old.old }
    ensures new { new.new ≡ new.old }
    ensures from { result.from.0 ≡ reach pieces.now + 1 }
    ensures behind { ArePieces by old.old new.old result }
{
    let from = Addr(pieces.reach().0 + 1);
    Pieces {
        from,
        old: piece_on(old, by, pieces.old, from),
        new: piece_on(new, by, pieces.new, from),
    }
}

/// Returns the first pieces at or after the address whose answers differ, unless they begin after the last address.
pub(crate) fn first_unlike<A: Allocator + Copy>(
    old: &mut RenumberedLookups<'_, A>,
    new: &mut RenumberedLookups<'_, A>,
    by: CompareBy,
    from: Addr,
    last: Addr,
) -> Option<Pieces>
    requires { from.0 ≤ last.0 }
    ensures old { old.new ≡ old.old }
    ensures new { new.new ≡ new.old }
    ensures unlike { FindsUnlike by old.old new.old from last result }
{
    let mut pieces = pieces_at(old, new, by, from);
    while pieces.is_alike() {
        if last.0 <= pieces.reach().0 {
            return None;
        }
        pieces = pieces_behind(old, new, by, &pieces);
    }
    Some(pieces)
}

/// Returns the last address up to which both tables give the answers of these pieces, or the given last address if they give
/// them beyond it.
pub(crate) fn last_of<A: Allocator + Copy>(
    old: &mut RenumberedLookups<'_, A>,
    new: &mut RenumberedLookups<'_, A>,
    by: CompareBy,
    first: &Pieces,
    last: Addr,
) -> Addr
    requires pieces { ArePieces by old.old new.old first.now }
    requires within { first.now.from.0 ≤ last.0 }
    ensures old { old.new ≡ old.old }
    ensures new { new.new ≡ new.old }
    ensures end { IsEnd by old.old new.old first.now last result }
{
    let mut pieces = *first;
    while pieces.reach().0 < last.0 {
        let next = pieces_behind(old, new, by, &pieces);
        if !next.goes_on(first) {
            return pieces.reach();
        }
        pieces = next;
    }
    last
}
