//! Lines one after another in one text, which queues share.
ghost use Rattle.std.specs.Prelude.{◌≡◌, ◌+◌, ◌-◌, ◌<◌, ◌≤◌, ◌++◌, [], ◌∷◌, OnOk, OnErr, length, take, drop};
ghost use Rattle.link_queue.specs.Lines.{AreShort, ended_line, queued, text_bytes};

use aprs_base::{Line, Memory};
use std::alloc::Global;
use std::marker::Model;

/// Lines one after another in one text, each with its CR and LF, which queues share. At most 1,000.
#[derive(Drop)]
pub struct Batch {
    bytes: Vec<u8>,
    /// Where each line ends, behind its CR and LF.
    ends: Vec<usize>,
}

impl Model for Batch {
    ghost use Rattle.std.specs.Prelude.{List, ℕ};
    ghost use Rattle.link_queue.specs.Batches.{IsBatch, lines_at};

    ghost Value = { List (List ℕ) };

    ghost view = { λ b. lines_at 0 b.ends.items b.bytes.items };

    ghost invariant = { λ b. IsBatch (lines_at 0 b.ends.items b.bytes.items) b.bytes.items b.ends.items };
}

/// A place in a batch, and how many bytes of the line there.
#[derive(Drop)]
pub(crate) struct Spot {
    pub(crate) place: usize,
    pub(crate) offset: usize,
}

impl Batch {
    /// A batch with no line.
    pub fn new(alloc: Global) -> Batch
        ensures { result ≡ [] }
    {
        Batch {
            bytes: Vec::new(alloc),
            ends: Vec::new(alloc),
        }
    }

    /// How many lines it has.
    pub fn len(&self) -> usize
        ensures { result ≡ length self.now }
    {
        self.ends.len()
    }

    /// Adds a line at the end. `Memory` changes nothing.
    pub fn push(&mut self, line: &Line) -> Result<(), Memory>
        requires { length self.old < 1000 }
        ensures ok { OnOk result (self.new ≡ self.old ++ line.now ∷ []) }
        ensures err { OnErr result (self.new ≡ self.old) }
    {
        self.ends.reserve(1)?;
        add_line(&mut self.bytes, line.bytes())?;
        self.ends.push(self.bytes.as_slice().len()).unwrap();
        Ok(())
    }

    /// Where the line at a place begins in the text, or where the text ends.
    fn start(&self, place: usize) -> usize
        requires { place ≤ length self.now }
        ensures { result ≡ length (text_bytes (take place self.now)) }
    {
        if place == 0 {
            return 0;
        }
        self.ends[place - 1]
    }

    /// The text of the lines from the place `from` to before the place `to`.
    pub(crate) fn text(&self, from: usize, to: usize) -> &[u8]
        requires { (from ≤ to) × (to ≤ length self.now) }
        ensures { result.now ≡ text_bytes (take (to - from) (drop from self.now)) }
    {
        &self.bytes[self.start(from)..self.start(to)]
    }

    /// How many bytes their text has.
    pub(crate) fn size(&self, from: usize, to: usize) -> usize
        requires { (from ≤ to) × (to ≤ length self.now) }
        ensures size { result ≡ length (text_bytes (take (to - from) (drop from self.now))) }
        ensures short { AreShort (take (to - from) (drop from self.now)) }
    {
        // The invariant says that the lines are short.
        let _ = &self.ends;
        self.start(to) - self.start(from)
    }

    /// A place as a small number.
    pub(crate) fn place(&self, place: usize) -> u16
        requires { place ≤ length self.now }
        ensures { result ≡ place }
    {
        // The invariant says that the lines are few.
        let _ = &self.ends;
        place as u16
    }

    /// Where the first of these lines is that isn't wholly among their first `taken` bytes.
    pub(crate) fn first_left(&self, from: usize, to: usize, taken: usize) -> Spot
        requires run { (from < to) × (to ≤ length self.now) }
        requires part { taken < length (text_bytes (take (to - from) (drop from self.now))) }
        ensures within { (from ≤ result.place) × (result.place < to) }
        ensures left { queued (take (to - from) (drop from self.now)) taken ≡ record { lines = take (to - result.place) (drop result.place self.now); offset = result.offset } }
    {
        let mut low = from;
        let mut high = to;
        while high - low > 1 {
            let middle = low + (high - low) / 2;
            if self.size(from, middle) <= taken {
                low = middle;
            } else {
                high = middle;
            }
        }
        Spot {
            place: low,
            offset: taken - self.size(from, low),
        }
    }
}

/// Adds a line with its CR and LF at the end of a text.
fn add_line(bytes: &mut Vec<u8>, line: &[u8]) -> Result<(), Memory>
    requires { length line.now ≤ 510 }
    ensures ok { OnOk result (bytes.new.items ≡ bytes.old.items ++ ended_line line.now) }
    ensures err { OnErr result (bytes.new.items ≡ bytes.old.items) }
{
    bytes.reserve(line.len() + 2)?;
    bytes.extend_from_slice(line).unwrap();
    bytes.extend_from_slice(b"\r\n").unwrap();
    Ok(())
}
