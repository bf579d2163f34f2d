//! The pieces of a queue: single lines, and runs of lines of a batch.
ghost use Rattle.std.specs.Prelude.{◌≡◌, ◌+◌, ◌-◌, ◌<◌, ◌≤◌, ◌++◌, IfOk, length, take, drop, min};
ghost use Rattle.std.specs.Arc.{arc_value};
ghost use Rattle.link_queue.specs.Lines.{AreShort, IsWithinFirst, queued, text_bytes};
ghost use Rattle.link_queue.specs.Pieces.{ArePieces, IsPiece, lines_in, lines_of};

use crate::batch::Batch;
use crate::writing::{from_place, put, put_rest};
use aprs_base::{Line, Memory};
use circular_buffer::HeapCircularBuffer;
use std::sync::Arc;

/// A line, or the lines of a batch from one place to before another.
#[derive(Drop)]
pub(crate) enum Piece {
    Line(Arc<Line>),
    Run {
        from: u16,
        to: u16,
        batch: Arc<Batch>,
    },
}

// A queue has room for as many pieces as its limit, so they are small.
const _: () = prove!(size_of::<Piece>() == 16);

/// A piece of which some bytes are taken.
#[derive(Drop)]
struct Left {
    piece: Piece,
    offset: usize,
}

/// The lines of a batch from the place `from` to before the place `to`.
pub(crate) fn run(batch: &Arc<Batch>, from: usize, to: usize) -> Result<Piece, Memory>
    requires { (from < to) × (to ≤ length (arc_value batch.now)) }
    ensures is { IfOk result IsPiece }
    ensures lines { IfOk result (λ piece. lines_of piece ≡ take (to - from) (drop from (arc_value batch.now))) }
{
    Ok(Piece::Run {
        from: batch.place(from),
        to: batch.place(to),
        batch: batch.clone()?,
    })
}

/// How many lines it has.
pub(crate) fn count(piece: &Piece) -> usize
    requires { IsPiece piece.now }
    ensures { result ≡ length (lines_of piece.now) }
{
    match piece {
        Piece::Line(_) => 1,
        Piece::Run { from, to, .. } => usize::from(*to - *from),
    }
}

/// How many bytes it has, each line with its CR and LF.
pub(crate) fn size(piece: &Piece) -> usize
    requires { IsPiece piece.now }
    ensures size { result ≡ length (text_bytes (lines_of piece.now)) }
    ensures short { AreShort (lines_of piece.now) }
{
    match piece {
        Piece::Line(line) => line.bytes().len() + 2,
        Piece::Run { from, to, batch } => batch.size(usize::from(*from), usize::from(*to)),
    }
}

/// What isn't among its first `taken` bytes: the lines from the first that isn't wholly taken on.
fn without(piece: Piece, taken: usize) -> Left
    requires is { IsPiece piece }
    requires part { taken < length (text_bytes (lines_of piece)) }
    ensures is { IsPiece result.piece }
    ensures left { queued (lines_of piece) taken ≡ record { lines = lines_of result.piece; offset = result.offset } }
{
    match piece {
        Piece::Line(line) => Left {
            piece: Piece::Line(line),
            offset: taken,
        },
        Piece::Run { from, to, batch } => {
            let spot = batch.first_left(usize::from(from), usize::from(to), taken);
            Left {
                piece: Piece::Run {
                    from: spot.place as u16,
                    to,
                    batch,
                },
                offset: spot.offset,
            }
        }
    }
}

/// Takes off the lines that are wholly among the first `taken` bytes, and says how many bytes of the next one are.
pub(crate) fn take_off(
    ring: &mut HeapCircularBuffer<Piece>,
    lines: &mut usize,
    taken: usize,
) -> usize
    requires are { ArePieces ring.old.items }
    requires counted { lines.old ≡ length (lines_in ring.old.items) }
    requires within { length ring.old.items ≤ ring.old.capacity }
    ensures are { ArePieces ring.new.items }
    ensures counted { lines.new ≡ length (lines_in ring.new.items) }
    ensures left { queued (lines_in ring.old.items) taken ≡ record { lines = lines_in ring.new.items; offset = result } }
    ensures capacity { ring.new.capacity ≡ ring.old.capacity }
{
    let mut left = taken;
    while let Some(piece) = ring.pop_front() {
        *lines -= count(&piece);
        let size = size(&piece);
        if left < size {
            let rest = without(piece, left);
            *lines += count(&rest.piece);
            ring.push_front(rest.piece);
            return rest.offset;
        }
        left -= size;
    }
    left
}

/// Writes a piece from `at` on without its first `skip` bytes, as much as fits, and says where it ends.
fn put_piece(out: &mut [u8], at: usize, piece: &Piece, skip: usize) -> usize
    requires room { at ≤ length out.old }
    requires is { IsPiece piece.now }
    requires part { skip < length (text_bytes (lines_of piece.now)) }
    ensures end { result ≡ at + min (length out.old - at) (length (text_bytes (lines_of piece.now)) - skip) }
    ensures within { result ≤ length out.new }
    ensures bytes { take result out.new ≡ take at out.old ++ take (length out.old - at) (drop skip (text_bytes (lines_of piece.now))) }
    ensures rest { drop result out.new ≡ drop result out.old }
{
    match piece {
        Piece::Line(line) => put_rest(out, at, line.bytes(), skip),
        Piece::Run { from, to, batch } => {
            let text = batch.text(usize::from(*from), usize::from(*to));
            put(out, at, from_place(text, skip))
        }
    }
}

/// Pieces one after another, without the first `skip` bytes.
pub(crate) fn put_pieces(out: &mut [u8], at: usize, pieces: &[Piece], skip: usize) -> usize
    requires room { at ≤ length out.old }
    requires are { ArePieces pieces.now }
    requires part { IsWithinFirst (lines_in pieces.now) skip }
    ensures end { result ≡ at + min (length out.old - at) (length (drop skip (text_bytes (lines_in pieces.now)))) }
    ensures within { result ≤ length out.new }
    ensures bytes { take result out.new ≡ take at out.old ++ take (length out.old - at) (drop skip (text_bytes (lines_in pieces.now))) }
    ensures rest { drop result out.new ≡ drop result out.old }
{
    let mut at = at;
    let mut skip = skip;
    for piece in pieces {
        if at == out.len() {
            return at;
        }
        at = put_piece(out, at, piece, skip);
        skip = 0;
    }
    at
}
