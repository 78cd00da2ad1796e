//! The rows of a long list: several threads render a piece of it each, and the pieces are written in order.
ghost use Rattle.std.specs.Prelude.{◌≡◌, ◌≤◌, ◌*◌, IsTrue, length, vec_len, IfOk};
ghost use Rattle.std.specs.List.{flat_map};
ghost use Rattle.std.specs.Fork.{slice_chunk};
ghost use Rattle.rt_cidr.specs.Output.{WritesText};
ghost use Rattle.rt_run.specs.inside.Pieces.{IsPieceText, ArePieceTexts};
ghost use Rattle.rt_run.specs.declared.rendering.TheConstants.{PIECE_ITEMS};

use rt_cidr::put;
use std::alloc::{AllocError, Global};
use std::io::{self, Write};
use std::mem;
use std::thread::{self, Threads};

/// The number of items of a piece. Their rows have about a megabyte.
const PIECE_ITEMS: usize = 16_384;

/// The most pieces that a thread renders one after another, which takes some tens of milliseconds: a new thread may wait some
/// milliseconds for a processor, and all threads wait for the last.
const MOST_PIECES: usize = 8;

/// The number of bytes per row that are allocated before a piece is rendered.
const ROW_BYTES: usize = 64;

/// The threads that render rows, at most `threads` of them, and the allocator of their texts.
#[derive(Clone, Copy)]
pub(crate) struct Workers<'r, R> {
    pub(crate) rt: &'r R,
    pub(crate) alloc: Global,
    pub(crate) threads: usize,
}

/// The text of a piece, whose memory the text of a later piece uses again. It isn't whole if memory ran out.
#[derive(Drop)]
struct PieceText {
    bytes: Vec<u8>,
    is_whole: bool,
}

/// A way to write the items of a list: each has a row of its own, which doesn't depend on the others.
pub(crate) trait Rows<X> {
    ghost use Rattle.std.specs.Prelude.{ℕ, List};
    ghost use Rattle.std.specs.List.{flat_map};
    ghost use Rattle.rt_cidr.specs.Output.{WritesText};

    // The row of an item.
    ghost row_of: { Self → X → List ℕ };

    /// Writes the row of each item, in order. Doesn't allocate.
    fn write_rows<W: Write>(&self, w: &mut W, items: &[X]) -> io::Result<()>
        ensures { WritesText (W.contents w.old) (W.contents w.new) (flat_map (row_of self.now) items.now) result };
}

/// Writes the row of each item, in order. The workers render a group of pieces, which is written while they render the next
/// one. If memory runs out, a piece is rendered while it is written.
pub(crate) fn write_on_threads<R: Threads + Sync, W: Write, X: Sync, P: Rows<X> + Sync>(
    workers: &Workers<'_, R>,
    w: &mut W,
    rows: &P,
    items: &[X],
) -> io::Result<()>
    ensures { WritesText (W.contents w.old) (W.contents w.new) (flat_map (P.row_of rows.now) items.now) result }
{
    let pieces = items.len().div_ceil(PIECE_ITEMS);
    if workers.threads < 2 || pieces < 2 {
        return rows.write_rows(w, items);
    }
    let count = pieces.min(workers.threads.saturating_mul(MOST_PIECES));
    let (Ok(mut texts), Ok(mut next_texts)) = (
        empty_texts(workers.alloc, count),
        empty_texts(workers.alloc, count),
    ) else {
        return rows.write_rows(w, items);
    };
    let most = count.saturating_mul(PIECE_ITEMS);
    let (mut group, mut rest) = items.split_at(items.len().min(most));
    render_pieces(workers, rows, group, &mut texts);
    while !rest.is_empty() {
        let (next, behind) = rest.split_at(rest.len().min(most));
        write_and_render(workers, w, rows, group, &texts, next, &mut next_texts)?;
        mem::swap(&mut texts, &mut next_texts);
        group = next;
        rest = behind;
    }
    write_texts(w, rows, group, &texts)
}

/// Returns this number of texts, none of which is whole. They have no memory yet. Its error: memory ran out for the list.
fn empty_texts(alloc: Global, count: usize) -> Result<Vec<PieceText>, AllocError>
    ensures { IfOk result (λ texts. vec_len texts ≡ count) }
{
    let mut texts = Vec::with_capacity(alloc, count)?;
    for _ in 0..count {
        texts.push_reserved(PieceText {
            bytes: Vec::new(alloc),
            is_whole: false,
        });
    }
    Ok(texts)
}

/// Writes the rows of the items, whose texts these are, and meanwhile renders the next items on other threads, if they can be
/// created.
fn write_and_render<R: Threads + Sync, W: Write, X: Sync, P: Rows<X> + Sync>(
    workers: &Workers<'_, R>,
    w: &mut W,
    rows: &P,
    items: &[X],
    texts: &[PieceText],
    next: &[X],
    next_texts: &mut [PieceText],
) -> io::Result<()>
    requires texts { ArePieceTexts (P.row_of rows.now) items.now texts.now }
    requires room { length next.now ≤ length next_texts.old * PIECE_ITEMS }
    ensures written { WritesText (W.contents w.old) (W.contents w.new) (flat_map (P.row_of rows.now) items.now) result }
    ensures rendered { ArePieceTexts (P.row_of rows.now) next.now next_texts.new }
    ensures count { length next_texts.new ≡ length next_texts.old }
{
    let (_, written) = thread::join_mut(
        workers.rt,
        &mut ||
            requires { length next.now ≤ length next_texts.now * PIECE_ITEMS }
            ensures { ArePieceTexts (P.row_of rows.entry.now) next.entry.now next_texts.exit.now × (length next_texts.exit.now ≡ length next_texts.entry.now) }
        { render_pieces(workers, rows, next, next_texts) },
        &mut || -> io::Result<()>
            requires { ArePieceTexts (P.row_of rows.now) items.now texts.now }
            ensures { WritesText (W.contents w.entry.now) (W.contents w.exit.now) (flat_map (P.row_of rows.entry.now) items.entry.now) result }
        { write_texts(w, rows, items, texts) },
    );
    written
}

/// Replaces each text by that of the piece of the items with the same index, on up to as many threads as there are workers. There
/// must be enough texts for all pieces.
fn render_pieces<R: Threads + Sync, X: Sync, P: Rows<X> + Sync>(
    workers: &Workers<'_, R>,
    rows: &P,
    items: &[X],
    texts: &mut [PieceText],
)
    requires room { length items.now ≤ length texts.old * PIECE_ITEMS }
    ensures texts { ArePieceTexts (P.row_of rows.now) items.now texts.new }
    ensures count { length texts.new ≡ length texts.old }
{
    thread::for_each_mut(
        workers.rt,
        texts,
        workers.threads.max(1),
        &|index: usize, text: &mut PieceText|
            ensures { IsPieceText (P.row_of rows.entry.now) items.entry.now index text.exit.now }
        { render(rows, piece_at(items, index), text) },
    );
}

/// Returns the piece of the items with this index, or no items if there are fewer pieces.
fn piece_at<X>(items: &[X], index: usize) -> &[X]
    ensures { result.now ≡ slice_chunk items.now PIECE_ITEMS index }
{
    if index > items.len() / PIECE_ITEMS {
        return &[];
    }
    let (_, rest) = items.split_at(index * PIECE_ITEMS);
    let (piece, _) = rest.split_at(PIECE_ITEMS.min(rest.len()));
    piece
}

/// Replaces the text by the rows of the items. It isn't whole if memory ran out.
fn render<X, P: Rows<X>>(rows: &P, items: &[X], text: &mut PieceText)
    ensures { IsTrue text.new.is_whole → text.new.bytes.items ≡ flat_map (P.row_of rows.now) items.now }
{
    text.bytes.clear();
    text.is_whole = text
        .bytes
        .try_reserve(items.len().saturating_mul(ROW_BYTES))
        .is_ok()
        && rows.write_rows(&mut text.bytes, items).is_ok();
}

/// Writes the pieces of the items in order: their texts, and the rows of a piece whose text isn't whole.
fn write_texts<W: Write, X, P: Rows<X>>(
    w: &mut W,
    rows: &P,
    items: &[X],
    texts: &[PieceText],
) -> io::Result<()>
    requires { ArePieceTexts (P.row_of rows.now) items.now texts.now }
    ensures { WritesText (W.contents w.old) (W.contents w.new) (flat_map (P.row_of rows.now) items.now) result }
{
    for index in 0..texts.len() {
        write_piece(w, rows, piece_at(items, index), &texts[index])?;
    }
    Ok(())
}

/// Writes the rows of the items: the text, if it is whole.
fn write_piece<W: Write, X, P: Rows<X>>(
    w: &mut W,
    rows: &P,
    items: &[X],
    text: &PieceText,
) -> io::Result<()>
    requires { IsTrue text.now.is_whole → text.now.bytes.items ≡ flat_map (P.row_of rows.now) items.now }
    ensures { WritesText (W.contents w.old) (W.contents w.new) (flat_map (P.row_of rows.now) items.now) result }
{
    if text.is_whole {
        put(w, text.bytes.as_slice())
    } else {
        rows.write_rows(w, items)
    }
}
