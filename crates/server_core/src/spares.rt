//! Packets whose room is used again.
ghost use Rattle.std.specs.Prelude.{◌≡◌, ◌≤◌, ◌+◌, ◌-◌, is_some, if◌then◌else◌};

use aprs_base::{Memory, Shared};
use std::alloc::Global;
use std::marker::Model;

/// The most packets that are kept, as many as there are events in the longest round.
const MOST_SPARES: usize = 512;

/// Packets of a short while ago. One that nobody else shares any more is written over, so that the next packet needs no room of its
/// own.
#[derive(Drop)]
pub(crate) struct Spares {
    /// Those of rounds before.
    free: Vec<Shared>,
    /// Those of this round, which links may still share.
    used: Vec<Shared>,
}

impl Model for Spares {
    ghost use Rattle.std.specs.Prelude.{ℕ, ◌+◌, ◌≤◌, length};

    /// How many there are.
    ghost Value = { ℕ };

    ghost view = { λ s. length s.free.items + length s.used.items };

    ghost invariant = { λ s. length s.free.items + length s.used.items ≤ 512 };
}

impl Spares {
    pub fn new(alloc: Global) -> Spares
        ensures { result ≡ 0 }
    {
        Spares {
            free: Vec::new(alloc),
            used: Vec::new(alloc),
        }
    }

    /// A round begins: all may be written over. After `Memory` none is lost.
    pub fn turn(&mut self) -> Result<(), Memory>
        ensures { self.new ≡ self.old }
    {
        Ok(self.free.append(&mut self.used)?)
    }

    /// One of a round before.
    pub fn take(&mut self) -> Option<Shared>
        ensures { self.new ≡ (if is_some result then self.old - 1 else self.old) }
    {
        self.free.pop()
    }

    /// One that went to no link is kept.
    pub fn give_back(&mut self, packet: Shared) -> Result<(), Memory>
        ensures { self.new ≤ self.old + 1 }
    {
        if self.free.len() + self.used.len() < MOST_SPARES {
            self.free.push(packet)?;
        }
        Ok(())
    }

    /// One that went to links is kept for the rounds to come.
    pub fn keep(&mut self, packet: Shared) -> Result<(), Memory>
        ensures { self.new ≤ self.old + 1 }
    {
        if self.free.len() + self.used.len() < MOST_SPARES {
            self.used.push(packet)?;
        }
        Ok(())
    }
}
