//! Links, and what walks over items leave of them.
ghost use Rattle.std.specs.Prelude.{◌≤◌};
ghost use Rattle.worker_match.specs.Items.{item_seen};
ghost use Rattle.worker_match.specs.Walk.{IsOrdered};

use crate::fields::{Answer, Fault, Fields, not_allowed, said};
use crate::items::{FEEDS, nowhere, read_item};
use aprs_base::{Gate, Memory, OpenGate};
use filter_lang::FilterSet;
use link_queue::Queue;
use meeting_gate::Meeting;
use row_texts::write_bytes;
use std::alloc::Global;
use std::marker::{Model, Sync};
use std::sync::Arc;
use std::sync::atomic::Ordering;
use std::thread::Threads;
use worker_match::{Item, LinkFeed, LinkFilter, spread};

/// What came to links since they were last walked, each in order.
#[derive(Drop)]
pub struct Block {
    items: Vec<Item>,
}

impl Model for Block {
    ghost use Rattle.std.specs.Prelude.{All, List};
    ghost use Rattle.worker_match.specs.Items.{items_seen};
    ghost use Rattle.worker_match.specs.Seen.{ItemSeen};
    ghost use Rattle.worker_match.specs.Walk.{IsOrdered};

    ghost Value = { List ItemSeen };

    ghost view = { λ b. items_seen b.items.items };

    ghost invariant = { λ b. All IsOrdered (items_seen b.items.items) };
}

impl Block {
    fn push(&mut self, item: Item) -> Result<(), Memory>
        requires { IsOrdered (item_seen item) }
    {
        self.items.push(item)?;
        Ok(())
    }

    /// The links are walked over all of it, which then is done with.
    fn spread<R: Threads + Sync, G: Gate + Sync>(
        &mut self,
        rt: &R,
        links: &mut [LinkFeed],
        workers: u32,
        gate: &G,
    ) -> Result<(), Memory>
        requires { (1 ≤ workers) × (workers ≤ 64) }
    {
        spread(rt, links, self.items.as_slice(), workers, gate)?;
        self.items.clear();
        Ok(())
    }
}

/// A filter by its text, unless that is `none`.
fn read_filter(fields: &Fields) -> Result<Option<Arc<FilterSet>>, Fault> {
    if fields.rest == "none" {
        return Ok(None);
    }
    match filter_lang::read(fields.alloc, fields.rest_bytes()?.as_slice()) {
        Ok(filter) => Ok(Some(Arc::new(fields.alloc, filter)?)),
        Err(_) => Err(Fault::Unknown),
    }
}

/// An inbound link by its feed, its room, its login and its filter.
fn read_link(number: u32, fields: &mut Fields) -> Result<LinkFeed, Fault> {
    let feed = fields.named(FEEDS.as_slice())?;
    let room: usize = fields.number();
    let me = fields.perhaps_call();
    let filter = read_filter(fields)?;
    let terms = match &filter {
        Some(filter) => filter.terms.len(),
        None => 0,
    };
    let friends = Box::new(fields.alloc, nowhere(terms))?;
    let queue = Queue::with_limit(fields.alloc, room.clamp(1, 1000))?;
    Ok(LinkFeed {
        link: number,
        feed,
        inbound: true,
        alive: true,
        over: false,
        me,
        friends,
        filter: LinkFilter::new(filter),
        mine: None,
        queue,
        put: 0,
    })
}

/// How a link is: whether it lives, is over, and was seen; how many packet lines it was put, how many bytes it has to take, and
/// the first of them.
fn link_text(alloc: Global, link: &LinkFeed) -> Answer {
    let number = link.link;
    let alive = if link.alive { "alive" } else { "ended" };
    let over = if link.over { ", over" } else { "" };
    let seen = if link.mine.is_some() { ", seen" } else { "" };
    let put = link.put;
    let pending = link.queue.pending();
    let mut out = [0u8; 64];
    let count = link.queue.front_bytes(&mut out);
    let text = write_bytes(alloc, &out[..count])?;
    Ok(format!(in alloc;
        "\n    link {number}: {alive}{over}{seen}, put {put}, {pending} bytes {text}"
    )?)
}

/// The links that rows speak of.
#[derive(Drop)]
pub struct Links<'a, R> {
    rt: &'a R,
    alloc: Global,
    links: Vec<LinkFeed>,
    block: Block,
}

impl<'a, R: Threads + Sync> Links<'a, R> {
    pub fn new(rt: &'a R, alloc: Global) -> Links<'a, R> {
        Links {
            rt,
            alloc,
            links: Vec::new(alloc),
            block: Block {
                items: Vec::new(alloc),
            },
        }
    }

    fn begin(&mut self) -> Answer {
        self.links.clear();
        self.block.items.clear();
        said(self.alloc, "done")
    }

    /// So many links of rising numbers.
    fn open(&mut self, fields: &mut Fields) -> Answer {
        let count: u32 = fields.number();
        let first: u32 = fields.number();
        let rest = fields.rest;
        for number in first..first.saturating_add(count) {
            fields.rest = rest;
            self.links.push(read_link(number, fields)?)?;
        }
        said(self.alloc, "done")
    }

    fn bring(&mut self, fields: &mut Fields) -> Answer {
        self.block.push(read_item(fields)?)?;
        said(self.alloc, "done")
    }

    /// How the links are once so many workers have walked them.
    fn walked(&mut self, workers: u32) -> Answer {
        if workers < 1 || workers > 64 {
            return not_allowed(self.alloc);
        }
        let links = self.links.as_mut_slice();
        self.block.spread(self.rt, links, workers, &OpenGate)?;
        let mut text = String::new(self.alloc);
        for link in &self.links {
            text.push_str(link_text(self.alloc, link)?.as_str())?;
        }
        Ok(text)
    }

    /// Two workers walk the links, each part once the other is there too.
    fn meet(&mut self) -> Answer {
        let meeting = Meeting::default();
        let links = self.links.as_mut_slice();
        self.block.spread(self.rt, links, 2, &meeting)?;
        let entered = meeting.entered.load(Ordering::SeqCst);
        let met = meeting.met.load(Ordering::SeqCst);
        let left = meeting.left.load(Ordering::SeqCst);
        let mut alive = 0usize;
        for link in &self.links {
            alive = alive.saturating_add(usize::from(link.alive));
        }
        let alloc = self.alloc;
        Ok(format!(in alloc; "entered {entered}, met {met}, left {left}, alive {alive}")?)
    }

    pub fn answer(&mut self, fields: &mut Fields) -> Answer {
        match fields.word() {
            "new" => self.begin(),
            "open" => self.open(fields),
            "bring" => self.bring(fields),
            "walked" => self.walked(fields.number()),
            "meet" => self.meet(),
            _ => Err(Fault::Unknown),
        }
    }
}
