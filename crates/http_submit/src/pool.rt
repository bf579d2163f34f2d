//! The links of a front whose requests haven't come whole, and the replies that it owes.
ghost use Rattle.std.specs.Prelude.{◌≡◌, ◌≤◌, ◌+◌, ◌++◌, [], length, filter, map, not, IfOk};
ghost use Rattle.std.specs.List.{find};
ghost use Rattle.std.specs.Option.{option_map};
ghost use Rattle.std.specs.Vec.{vec_capacity};
ghost use Rattle.http_submit.specs.Pools.{added, grown, heard, is_late, is_link, opened, owed_late, settled, ticked, without};

use aprs_base::{Addr, Memory};
use arrayvec::ArrayVec;
use std::alloc::Global;
use std::marker::Model;

/// The most links that wait at once.
const MOST_WAITING: usize = 16;

/// The most bytes of a request.
pub const MOST_BYTES: usize = 4096;

/// The seconds for which a link may wait.
const MOST_SECONDS: u64 = 30;

/// A reply that a link is owed: one of this status.
#[derive(Clone, Copy, PartialEq, Eq, Debug)]
pub struct Owed {
    pub link: u32,
    pub status: u16,
}

/// A link whose request hasn't come whole.
#[derive(Drop)]
pub struct Waiting {
    pub link: u32,
    pub from: Addr,
    /// When it was opened, in seconds since 1970.
    pub moment: u64,
    pub bytes: ArrayVec<u8, 4096>,
}

impl Model for Waiting {
    ghost use Rattle.http_submit.specs.Pools.{WaitingSeen};

    ghost Value = { WaitingSeen };

    ghost view = { λ w. record { link = w.link; from = w.from; moment = w.moment; bytes = w.bytes.items } };
}

/// At most 16 links that wait, and at most 16 replies that are owed. No call but `new` takes memory.
#[derive(Drop)]
pub struct Pool {
    waiting: Vec<Waiting>,
    owed: Vec<Owed>,
}

impl Model for Pool {
    ghost use Rattle.std.specs.Prelude.{◌≤◌, length};
    ghost use Rattle.std.specs.Vec.{vec_capacity};
    ghost use Rattle.http_submit.specs.Pools.{PoolSeen, most_waiting};

    ghost Value = { PoolSeen };

    ghost view = { λ p. record { waiting = p.waiting.items; owed = p.owed.items } };

    ghost invariant = { λ p. (length p.waiting.items ≤ most_waiting) × (length p.owed.items ≤ most_waiting)
        × (most_waiting ≤ vec_capacity p.waiting) × (most_waiting ≤ vec_capacity p.owed) };
}

impl Waiting {
    /// The bytes so far with these behind them, up to the 4,096th.
    pub fn heard(&self, bytes: &[u8]) -> ArrayVec<u8, 4096>
        ensures { result.items ≡ heard self.now bytes.now }
    {
        let mut heard = ArrayVec::new();
        heard.try_extend_from_slice(self.bytes.as_slice()).unwrap();
        let count = bytes.len().min(MOST_BYTES - heard.len());
        heard.try_extend_from_slice(&bytes[..count]).unwrap();
        heard
    }
}

fn is_late(waiting: &Waiting, now: u64) -> bool
    ensures { result ≡ is_late now waiting.now }
{
    now.saturating_sub(waiting.moment) >= MOST_SECONDS
}

/// Appends a reply for each link that is late.
fn owe_late(waiting: &[Waiting], owed: &mut Vec<Owed>, now: u64)
    requires { length owed.old.items + length waiting.now ≤ vec_capacity owed.old }
    ensures owed { owed.new.items ≡ owed.old.items ++ map owed_late (filter (is_late now) waiting.now) }
    ensures room { vec_capacity owed.old ≤ vec_capacity owed.new }
    ensures few { length owed.new.items ≤ length owed.old.items + length waiting.now }
{
    let [first, rest @ ..] = waiting else {
        return;
    };
    if is_late(first, now) {
        let reply = Owed {
            link: first.link,
            status: 408,
        };
        owed.push(reply).unwrap();
    }
    owe_late(rest, owed, now);
}

fn drop_late(waiting: &mut Vec<Waiting>, now: u64)
    ensures left { waiting.new.items ≡ filter (λ w. not (is_late now w)) waiting.old.items }
    ensures room { vec_capacity waiting.new ≡ vec_capacity waiting.old }
    ensures few { length waiting.new.items ≤ length waiting.old.items }
{
    waiting.retain(|one| !is_late(one, now));
}

fn drop_link(waiting: &mut Vec<Waiting>, link: u32)
    ensures left { waiting.new.items ≡ filter (λ w. not (is_link link w)) waiting.old.items }
    ensures room { vec_capacity waiting.new ≡ vec_capacity waiting.old }
    ensures few { length waiting.new.items ≤ length waiting.old.items }
{
    waiting.retain(|one| one.link != link);
}

/// Appends bytes to a link where it is this one.
fn grow(waiting: &mut Waiting, link: u32, bytes: &[u8])
    ensures { waiting.new ≡ grown link bytes.now waiting.old }
{
    if waiting.link == link {
        waiting.bytes = waiting.heard(bytes);
    }
}

fn grow_each(waiting: &mut [Waiting], link: u32, bytes: &[u8])
    ensures { waiting.new ≡ map (grown link bytes.now) waiting.old }
{
    for one in waiting.iter_mut() {
        grow(one, link, bytes);
    }
}

fn grow_all(waiting: &mut Vec<Waiting>, link: u32, bytes: &[u8])
    ensures all { waiting.new.items ≡ map (grown link bytes.now) waiting.old.items }
    ensures room { vec_capacity waiting.new ≡ vec_capacity waiting.old }
{
    grow_each(waiting.as_mut_slice(), link, bytes);
}

impl Pool {
    /// A pool in which no link waits and nothing is owed.
    pub fn new(alloc: Global) -> Result<Pool, Memory>
        ensures { IfOk result (λ p. p ≡ record { waiting = []; owed = [] }) }
    {
        Ok(Pool {
            waiting: Vec::with_capacity(alloc, MOST_WAITING)?,
            owed: Vec::with_capacity(alloc, MOST_WAITING)?,
        })
    }

    /// A link was opened, at a moment in seconds. It waits, or is owed 503 where 16 wait.
    pub fn open(&mut self, link: u32, from: Addr, moment: u64)
        requires { self.old.owed ≡ [] }
        ensures { self.new ≡ opened link from moment self.old }
    {
        if self.waiting.len() < MOST_WAITING {
            let waiting = Waiting {
                link,
                from,
                moment,
                bytes: ArrayVec::new(),
            };
            self.waiting.push(waiting).unwrap();
        } else {
            self.owed.push(Owed { link, status: 503 }).unwrap();
        }
    }

    /// It is this moment, in seconds: links that have waited for 30 s wait no more, and are owed 408.
    pub fn tick(&mut self, now: u64)
        requires { self.old.owed ≡ [] }
        ensures { self.new ≡ ticked now self.old }
    {
        owe_late(self.waiting.as_slice(), &mut self.owed, now);
        drop_late(&mut self.waiting, now);
    }

    /// The link of this number, where it waits.
    pub fn find(&self, link: u32) -> Option<&Waiting>
        ensures { option_map (λ w. w.now) result ≡ find (is_link link) self.now.waiting }
    {
        self.waiting.iter().find(|one| one.link == link)
    }

    /// Bytes came on a link: those up to its 4,096th are kept, where it waits.
    pub fn add(&mut self, link: u32, bytes: &[u8])
        ensures { self.new ≡ added link bytes.now self.old }
    {
        grow_all(&mut self.waiting, link, bytes);
    }

    /// A link waits no more.
    pub fn forget(&mut self, link: u32)
        ensures { self.new ≡ without link self.old }
    {
        drop_link(&mut self.waiting, link);
    }

    /// A link waits no more, and is owed a reply.
    pub fn settle(&mut self, link: u32, status: u16)
        requires { self.old.owed ≡ [] }
        ensures { self.new ≡ settled link status self.old }
    {
        drop_link(&mut self.waiting, link);
        self.owed.push(Owed { link, status }).unwrap();
    }

    /// The replies that are owed, in order.
    pub fn owed(&self) -> &[Owed]
        ensures { result.now ≡ self.now.owed }
    {
        self.owed.as_slice()
    }

    /// All that was owed is paid.
    pub fn clear_owed(&mut self)
        ensures { self.new ≡ record self.old { owed = [] } }
    {
        self.owed.clear();
    }
}
