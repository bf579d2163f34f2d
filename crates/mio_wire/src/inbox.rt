//! The bytes that were read and not yet handed up. One room serves all links, since each read is handed up before the next.
ghost use Rattle.std.specs.Prelude.{◌≡◌, ◌↔◌, ◌≤◌, ◌==◌, [], IfOk, IfNone, IfSome, IsSome, OnOk, OnErr, length, take, drop, if◌then◌else◌};
ghost use Rattle.std.specs.Io.KnownBytes.{Consumes, IsAtEnd};
ghost use Rattle.mio_wire.specs.Unread.{forgotten, nothing};

use aprs_base::Chunk;
use std::alloc::{AllocError, Global};
use std::io::{self, Read};
use std::marker::Model;

/// How many bytes one read takes at most: those of two events, so that a link of short lines doesn't hold the others for long.
pub(crate) const MOST_READ: usize = 2920;

/// How many bytes one event has at most.
const MOST_CHUNK: usize = 1460;

#[derive(Drop)]
pub(crate) struct Inbox {
    buffer: Vec<u8>,
    link: u32,
    from: usize,
    to: usize,
}

impl Model for Inbox {
    ghost use Rattle.std.specs.Prelude.{◌-◌, ◌<◌, ◌≤◌, take, drop, length};
    ghost use Rattle.mio_wire.specs.Unread.{Brought};

    ghost Value = { Brought };

    ghost view = { λ i. record { link = i.link; left = take (i.to - i.from) (drop i.from i.buffer.items) } };

    ghost invariant = { λ i. (i.from ≤ i.to) × (i.to ≤ length i.buffer.items) × (0 < length i.buffer.items) };
}

impl Inbox {
    pub(crate) fn new(alloc: Global) -> Result<Inbox, AllocError>
        ensures { IfOk result (λ i. i ≡ nothing) }
    {
        Ok(Inbox {
            buffer: Vec::from_elem(alloc, 0, MOST_READ)?,
            link: 0,
            from: 0,
            to: 0,
        })
    }

    pub(crate) fn is_empty(&self) -> bool
        ensures { result ≡ (length self.now.left == 0) }
    {
        self.from >= self.to
    }

    /// Reads what a link brings, in place of what is left.
    pub(crate) fn fill<F: Read>(&mut self, link: u32, from: &mut F) -> io::Result<usize>
        ensures count { IfOk result (λ n. length self.new.left ≡ n) }
        ensures bytes { Consumes (F.remaining from.old) (F.remaining from.new) self.new.left }
        ensures end { IfOk result (λ n. n ≡ 0 → IsAtEnd (F.remaining from.new)) }
        ensures link { self.new.link ≡ link }
        ensures none { OnErr result (self.new.left ≡ []) }
    {
        self.link = link;
        self.from = 0;
        self.to = 0;
        let count = from.read(self.buffer.as_mut_slice())?;
        self.to = count;
        Ok(count)
    }

    /// The next bytes that are left, as many as one event has.
    pub(crate) fn take_chunk(&mut self) -> Option<(u32, Chunk)>
        ensures some { IsSome result ↔ (1 ≤ length self.old.left) }
        ensures chunk { IfSome result (λ c. (c.0 ≡ self.old.link) × (c.1 ≡ take 1460 self.old.left)) }
        ensures rest { self.new ≡ record self.old { left = drop 1460 self.old.left } }
        ensures none { IfNone result (length self.old.left ≡ 0) }
    {
        if self.from >= self.to {
            return None;
        }
        let end = self.from + MOST_CHUNK.min(self.to - self.from);
        let chunk = Chunk::new(&self.buffer[self.from..end])?;
        self.from = end;
        Some((self.link, chunk))
    }

    /// Lets go what is left of a link's bytes.
    pub(crate) fn forget(&mut self, link: u32)
        ensures { self.new ≡ forgotten link self.old }
    {
        if self.link == link {
            self.from = self.to;
        }
    }
}
