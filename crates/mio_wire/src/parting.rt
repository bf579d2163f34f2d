//! The streams of links that were closed, kept for a while.
ghost use Rattle.std.specs.Prelude.{◌≡◌, ◌≤◌, ◌<◌, ◌+◌, [], ◌∷◌, ◌++◌, OnOk, OnErr, length};

use std::alloc::{AllocError, Global};
use std::mem::swap;

/// How many streams are kept at most.
const MOST_KEPT: usize = 256;

/// Streams that nothing is read from any more: those that came in this second, and in the one before.
#[derive(Drop)]
pub(crate) struct Parting<S> {
    pub(crate) late: Vec<S>,
    pub(crate) older: Vec<S>,
    ghost bounded: { length late.items + length older.items ≤ 256 },
}

impl<S: Drop> Parting<S> {
    pub(crate) fn new(alloc: Global) -> Parting<S>
        ensures { (result.late.items ≡ []) × (result.older.items ≡ []) }
    {
        Parting {
            late: Vec::new(alloc),
            older: Vec::new(alloc),
        }
    }

    /// Keeps a stream until the second move from now. Where 256 are kept, and for want of memory, it is dropped at once.
    pub(crate) fn keep(&mut self, stream: S) -> Result<(), AllocError>
        ensures kept { OnOk result (length self.old.late.items + length self.old.older.items < 256 → self.new.late.items ≡ self.old.late.items ++ stream ∷ []) }
        ensures full { 256 ≤ length self.old.late.items + length self.old.older.items → self.new.late.items ≡ self.old.late.items }
        ensures err { OnErr result (self.new.late.items ≡ self.old.late.items) }
        ensures older { self.new.older.items ≡ self.old.older.items }
    {
        if self.late.len() + self.older.len() < MOST_KEPT {
            self.late.push(stream)?;
        }
        Ok(())
    }

    /// Moves on to another second: drops what came before the last move.
    pub(crate) fn move_on(&mut self)
        ensures older { self.new.older.items ≡ self.old.late.items }
        ensures late { self.new.late.items ≡ [] }
    {
        self.older.clear();
        swap(&mut self.older, &mut self.late);
    }
}
