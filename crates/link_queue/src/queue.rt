//! A queue of lines: what is pushed is taken in order, byte by byte.
ghost use Rattle.std.specs.Prelude.{◌≡◌, ◌==◌, ◌+◌, ◌-◌, ◌≤◌, IfOk, IfSome, IsErr, OnOk, OnErr, ◌↔◌, length, take, drop, min};
ghost use Rattle.std.specs.Arc.{arc_value};
ghost use Rattle.link_queue.specs.Pieces.{IsPiece, lines_of};
ghost use Rattle.link_queue.specs.Queues.{empty_queue, pending_bytes, with_line, with_lines, without_bytes};

use crate::batch::Batch;
use crate::pieces::{Piece, count, put_pieces, run, size, take_off};
use crate::writing::from_place;
use aprs_base::{Line, Memory};
use circular_buffer::HeapCircularBuffer;
use std::alloc::Global;
use std::marker::Model;
use std::sync::Arc;

/// The queue has as many lines as its limit.
#[derive(Clone, Copy, PartialEq, Eq, Debug)]
pub struct Overfull;

/// The lines that a link has still to take, in order, each shared with other queues. Of the first a part may be taken:
/// some of its bytes and, after them, of its CR and LF. There are never more lines than the limit.
#[derive(Drop)]
pub struct Queue {
    ring: HeapCircularBuffer<Piece>,
    count: usize,
    offset: usize,
    pending: usize,
}

impl Model for Queue {
    ghost use Rattle.link_queue.specs.Pieces.{IsKept, lines_in};
    ghost use Rattle.link_queue.specs.Queues.{QueueSeen};

    ghost Value = { QueueSeen };

    ghost view = { λ q. record { lines = lines_in q.ring.items; offset = q.offset; limit = q.ring.capacity } };

    ghost invariant = { λ q. IsKept q.ring.items q.count q.offset q.pending q.ring.capacity };
}

impl Queue {
    /// A queue that holds 1 to 1,000 lines, with none in it.
    pub fn with_limit(alloc: Global, n: usize) -> Result<Queue, Memory>
        requires { (1 ≤ n) × (n ≤ 1000) }
        ensures { IfOk result (λ q. q ≡ empty_queue n) }
    {
        Ok(Queue {
            ring: HeapCircularBuffer::with_capacity(alloc, n)?,
            count: 0,
            offset: 0,
            pending: 0,
        })
    }

    /// Adds a line at the end. `Overfull` exactly where there are as many lines as the limit; nothing changes then.
    pub fn push(&mut self, line: Arc<Line>) -> Result<(), Overfull>
        ensures overfull { IsErr result ↔ (length self.old.lines ≡ self.old.limit) }
        ensures ok { OnOk result (self.new ≡ with_line (arc_value line) self.old) }
        ensures err { OnErr result (self.new ≡ self.old) }
        ensures within { length self.new.lines ≤ self.new.limit }
    {
        if self.room() == 0 {
            return Err(Overfull);
        }
        self.add(Piece::Line(line));
        Ok(())
    }

    /// Adds the lines of a batch from the place `from` to before the place `to`, as many of the first as there is room for,
    /// and says how many. `Memory` changes nothing.
    pub fn push_run(&mut self, batch: &Arc<Batch>, from: usize, to: usize) -> Result<usize, Memory>
        requires { (from ≤ to) × (to ≤ length (arc_value batch.now)) }
        ensures count { IfOk result (λ n. n ≡ min (self.old.limit - length self.old.lines) (to - from)) }
        ensures ok { IfOk result (λ n. self.new ≡ with_lines (take n (drop from (arc_value batch.now))) self.old) }
        ensures err { OnErr result (self.new ≡ self.old) }
        ensures within { length self.new.lines ≤ self.new.limit }
    {
        let count = self.room().min(to - from);
        if count > 0 {
            let piece = run(batch, from, from + count)?;
            self.add(piece);
        }
        Ok(count)
    }

    /// How many lines more it takes.
    fn room(&self) -> usize
        ensures room { result ≡ self.now.limit - length self.now.lines }
        ensures within { length self.now.lines ≤ self.now.limit }
    {
        self.ring.capacity() - self.count
    }

    /// Adds a piece for whose lines there is room.
    fn add(&mut self, piece: Piece)
        requires is { IsPiece piece }
        requires room { length self.old.lines + length (lines_of piece) ≤ self.old.limit }
        ensures { self.new ≡ with_lines (lines_of piece) self.old }
    {
        self.count += count(&piece);
        self.pending += size(&piece);
        let Ok(()) = self.ring.try_push_back(piece) else {
            unreachable!();
        };
    }

    /// Writes the next pending bytes, each line with its CR and LF, as many as there are and as fit, and says how many.
    /// The buffer stays as it was behind them.
    pub fn front_bytes(&self, out: &mut [u8]) -> usize
        ensures count { result ≡ min (length out.old) (length (pending_bytes self.now)) }
        ensures bytes { take result out.new ≡ take (length out.old) (pending_bytes self.now) }
        ensures rest { drop result out.new ≡ drop result out.old }
    {
        let (front, back) = self.ring.as_slices();
        let at = put_pieces(out, 0, front, self.offset);
        let skip = if front.is_empty() { self.offset } else { 0 };
        put_pieces(out, at, back, skip)
    }

    /// The pending bytes where they stand in a text that queues share. `None` unless all of them stand in one.
    pub fn shared_front(&self) -> Option<&[u8]>
        ensures { IfSome result (λ bytes. bytes.now ≡ pending_bytes self.now) }
    {
        match self.ring.as_slices() {
            ([Piece::Run { from, to, batch }], []) => {
                let text = batch.text(usize::from(*from), usize::from(*to));
                Some(from_place(text, self.offset))
            }
            _ => None,
        }
    }

    /// How many bytes are pending, each line with its CR and LF.
    pub fn pending(&self) -> usize
        ensures { result ≡ length (pending_bytes self.now) }
    {
        self.pending
    }

    /// Whether no byte of the first line is taken. Takes no memory.
    pub fn at_line_start(&self) -> bool
        ensures { result ≡ (self.now.offset == 0) }
    {
        self.offset == 0
    }

    /// Removes the first `n` pending bytes.
    pub fn taken(&mut self, n: usize)
        requires { n ≤ length (pending_bytes self.old) }
        ensures exact { self.new ≡ without_bytes n self.old }
        ensures rest { pending_bytes self.new ≡ drop n (pending_bytes self.old) }
    {
        self.pending -= n;
        if self.pending == 0 {
            self.ring.clear();
            self.count = 0;
            self.offset = 0;
        } else {
            self.offset = take_off(&mut self.ring, &mut self.count, self.offset + n);
        }
    }
}
