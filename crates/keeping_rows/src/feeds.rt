//! Links that are fed.
ghost use Rattle.std.specs.Prelude.{◌≡◌, ◌≤◌};

use crate::fields::{Answer, Fault, Fields, all_of, not_allowed, said, shown};
use crate::items::{FEEDS, read_item};
use aprs_base::OpenGate;
use row_texts::write_bytes;
use std::alloc::Global;
use std::marker::Sync;
use std::thread::Threads;
use worker_match::{Crew, Feeds};

/// The links that rows speak of.
#[derive(Drop)]
pub struct Fed<'a, R> {
    rt: &'a R,
    alloc: Global,
    feeds: Feeds,
}

const SIDES: [(&str, bool); 2] = [("in", true), ("out", false)];

/// A link comes.
fn open(feeds: &mut Feeds, fields: &mut Fields) -> Answer
    requires { feeds.old.waiting ≡ 0 }
{
    let link = fields.number();
    let feed = fields.named(FEEDS.as_slice())?;
    let inbound = fields.named(SIDES.as_slice())?;
    feeds.open(fields.alloc, link, feed, inbound, fields.shared_line()?)?;
    said(fields.alloc, "done")
}

/// Something comes so many times.
fn bring(feeds: &mut Feeds, fields: &mut Fields) -> Answer {
    let count: u32 = fields.number();
    let rest = fields.rest;
    for _ in 0..count {
        fields.rest = rest;
        feeds.bring(read_item(fields)?)?;
    }
    said(fields.alloc, "done")
}

/// What the link at that place has to take.
fn front(alloc: Global, feeds: &Feeds, place: usize) -> Answer {
    if feeds.waiting() != 0 || place >= feeds.len() {
        return not_allowed(alloc);
    }
    let mut out = [0u8; 64];
    let count = feeds.front_bytes(place, &mut out);
    let text = write_bytes(alloc, &out[..count.min(64)])?;
    let pending = feeds.pending(place);
    Ok(format!(in alloc; "{pending} bytes {text}")?)
}

/// The link at that place takes so many bytes.
fn take(alloc: Global, feeds: &mut Feeds, place: usize, count: usize) -> Answer {
    if feeds.waiting() == 0 && place < feeds.len() && count <= feeds.pending(place) {
        feeds.taken(place, count);
        return said(alloc, "done");
    }
    not_allowed(alloc)
}

/// A line for the link at that place alone.
fn tell(feeds: &mut Feeds, fields: &mut Fields) -> Answer {
    let place = fields.number();
    if feeds.waiting() != 0 || place >= feeds.len() {
        return not_allowed(fields.alloc);
    }
    feeds.tell(place, fields.shared_line()?);
    said(fields.alloc, "done")
}

/// These links leave.
fn leave(feeds: &mut Feeds, fields: &mut Fields) -> Answer
    requires { feeds.old.waiting ≡ 0 }
{
    feeds.drop_these(fields.numbers()?.as_slice());
    said(fields.alloc, "done")
}

/// What is done or asked once all that came is matched.
fn settled(feeds: &mut Feeds, word: &str, fields: &mut Fields) -> Answer {
    let alloc = fields.alloc;
    if feeds.waiting() != 0 {
        return not_allowed(alloc);
    }
    match word {
        "open" => open(feeds, fields),
        "leave" => leave(feeds, fields),
        "overfull" => all_of(alloc, feeds.overfull(alloc)?.as_slice()),
        "put" => shown(alloc, feeds.count_put()),
        _ => Err(Fault::Unknown),
    }
}

impl<'a, R: Threads + Sync> Fed<'a, R> {
    pub fn new(rt: &'a R, alloc: Global) -> Fed<'a, R> {
        Fed {
            rt,
            alloc,
            feeds: Feeds::new(alloc),
        }
    }

    /// What came is matched by so many workers.
    fn settle(&mut self, workers: u32) -> Answer {
        if workers < 1 || workers > 64 {
            return not_allowed(self.alloc);
        }
        self.feeds.settle(&Crew {
            rt: self.rt,
            workers,
            gate: &OpenGate,
        })?;
        said(self.alloc, "done")
    }

    fn settle_alone(&mut self) -> Answer {
        self.feeds.settle_alone()?;
        said(self.alloc, "done")
    }

    fn clear(&mut self) -> Answer {
        self.feeds.clear();
        said(self.alloc, "done")
    }

    pub fn answer(&mut self, fields: &mut Fields) -> Answer {
        let alloc = self.alloc;
        let feeds = &mut self.feeds;
        match fields.word() {
            "new" => self.clear(),
            "bring" => bring(feeds, fields),
            "settle" => self.settle(fields.number()),
            "alone" => self.settle_alone(),
            "front" => front(alloc, feeds, fields.number()),
            "take" => take(alloc, feeds, fields.number(), fields.number()),
            "tell" => tell(feeds, fields),
            "length" => shown(alloc, feeds.len()),
            word => settled(feeds, word, fields),
        }
    }
}
