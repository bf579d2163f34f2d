//! A window in which packets are told from their copies.
ghost use Rattle.dupe_window.specs.Windows.{IsUpTo};

use crate::fields::{Answer, Fault, Fields, not_allowed, or_none, said, yes_or_no};
use aprs_base::{Line, Memory};
use arrayvec::ArrayVec;
use dupe_window::{Key, Window};
use row_texts::read_bytes;
use std::alloc::Global;
use std::hash::RandomState;
use std::marker::Model;
use tnc2_line::read;

/// A window, and the latest moment at which a packet was put into it.
#[derive(Drop)]
pub struct Lately {
    window: Window,
    latest: u64,
}

impl Model for Lately {
    ghost use Rattle.dupe_window.specs.Windows.{IsUpTo, WindowSeen};

    ghost Value = { WindowSeen };

    ghost view = { λ l. l.window };

    ghost invariant = { λ l. IsUpTo l.latest l.window };
}

impl Lately {
    pub fn new(alloc: Global, hasher: &RandomState, seconds: u32) -> Lately {
        Lately {
            window: Window::new(alloc, *hasher, seconds),
            latest: 0,
        }
    }

    pub fn expire(&mut self, now: u64) {
        self.window.expire(now);
    }

    /// Keeps a packet, unless it is a copy of one in the window, which is what it answers. An earlier moment than that of another
    /// counts as that one.
    pub fn put(&mut self, key: Key, now: u64) -> Result<Option<u64>, Memory> {
        self.latest = self.latest.max(now);
        offer(&mut self.window, &key, self.latest)
    }
}

/// Keeps a packet, unless it is a copy of one in the window, which is what it answers.
fn offer(window: &mut Window, key: &Key, now: u64) -> Result<Option<u64>, Memory>
    requires { IsUpTo now window.old }
    ensures { IsUpTo now window.new }
{
    window.expire(now);
    window.note(key, now)
}

/// The key of a packet: its source, destination and path, and then its body.
fn read_key(fields: &mut Fields) -> Result<Key, Fault> {
    let head = format!(in fields.alloc; "{}:x", fields.word())?;
    let body = read_bytes(fields.alloc, fields.word())?;
    let body = ArrayVec::try_from(body.as_slice())
        .ok()
        .ok_or(Fault::Unknown)?;
    let line = Line::new(head.as_bytes()).ok_or(Fault::Unknown)?;
    let Ok(mut parts) = read(&line) else {
        return Err(Fault::Unknown);
    };
    parts.body = body;
    Ok(Key::of(&parts))
}

/// Whether two packets are the same.
fn same(fields: &mut Fields) -> Answer {
    let one = read_key(fields)?;
    let other = read_key(fields)?;
    yes_or_no(fields.alloc, one == other)
}

/// The window that rows speak of.
#[derive(Drop)]
pub struct Windows {
    alloc: Global,
    hasher: RandomState,
    lately: Lately,
}

impl Windows {
    pub fn new(alloc: Global, hasher: &RandomState) -> Windows {
        Windows {
            alloc,
            hasher: *hasher,
            lately: Lately::new(alloc, hasher, 30),
        }
    }

    fn begin(&mut self, seconds: u32) -> Answer {
        self.lately = Lately::new(self.alloc, &self.hasher, seconds);
        said(self.alloc, "done")
    }

    /// A packet comes: whether it is new, or else when the same came.
    fn put(&mut self, fields: &mut Fields) -> Answer {
        let now = fields.number();
        let key = read_key(fields)?;
        if now < self.lately.latest {
            return not_allowed(self.alloc);
        }
        match self.lately.put(key, now)? {
            None => said(self.alloc, "new"),
            seen => or_none(self.alloc, seen),
        }
    }

    /// When a packet came, where that is inside the window.
    fn seen(&self, fields: &mut Fields) -> Answer {
        let now = fields.number();
        let key = read_key(fields)?;
        or_none(self.alloc, self.lately.window.seen(&key, now))
    }

    fn expire(&mut self, now: u64) -> Answer {
        self.lately.expire(now);
        said(self.alloc, "done")
    }

    pub fn answer(&mut self, fields: &mut Fields) -> Answer {
        match fields.word() {
            "new" => self.begin(fields.number()),
            "put" => self.put(fields),
            "seen" => self.seen(fields),
            "same" => same(fields),
            "expire" => self.expire(fields.number()),
            _ => Err(Fault::Unknown),
        }
    }
}
