//! The links that are served, in the order of their numbers: what is kept of their sessions, and what they are fed.
ghost use Rattle.std.specs.Prelude.{◌≡◌, ◌≤◌, ℕ, [], OnErr, OnOk, false, true};
ghost use Rattle.served_links.specs.Links.{Rises, numbers};
ghost use Rattle.served_links.specs.Halves.{AreHalves, IsEmptied};

mod asking;
mod changing;
mod coming;
mod endings;
mod offers;
mod openings;

use crate::sessions::Sessions;
use aprs_base::{Gate, Memory};
use std::alloc::Global;
use std::hash::RandomState;
use std::marker::{Model, Sync};
use std::thread::Threads;
use worker_match::{Crew, Feeds};

#[derive(Drop)]
pub struct Served {
    sessions: Sessions,
    feeds: Feeds,
    /// How many packet lines were put into queues, as far as they are counted.
    queued: u64,
    /// Whether no round is walked: then all that comes is matched at once.
    rests: bool,
}

impl Model for Served {
    ghost use Rattle.served_links.specs.Halves.{AreHalves, AtRest, ServedSeen, served_seen};

    ghost Value = { ServedSeen };

    ghost view = { λ s. served_seen s.sessions s.feeds s.queued s.rests };

    ghost invariant = { λ s. AreHalves s.sessions s.feeds × AtRest s.rests s.sessions s.feeds };
}

impl Served {
    /// No links, at rest. The table of logins has a copy of the hasher.
    pub fn new(alloc: Global, hasher: &RandomState) -> Served
        ensures { result ≡ record { links = []; queued = 0; waiting = 0; rests = true } }
    {
        Served {
            sessions: Sessions::new(alloc, hasher),
            feeds: Feeds::new(alloc),
            queued: 0,
            rests: true,
        }
    }

    /// A round begins: what comes may wait to be matched.
    pub fn wake(&mut self)
        ensures { self.new ≡ record self.old { rests = false } }
    {
        self.rests = false;
    }

    /// How many things came that aren't matched yet.
    pub fn waiting(&self) -> usize
        ensures { result ≡ self.now.waiting }
    {
        self.feeds.waiting()
    }

    /// What came is matched by the crew. After `Memory` no link is left.
    pub fn settle<R: Threads + Sync, G: Gate + Sync>(
        &mut self,
        crew: &Crew<R, G>,
    ) -> Result<(), Memory>
        requires { (1 ≤ crew.now.workers) × (crew.now.workers ≤ 64) }
        ensures rises { (high : ℕ) → Rises 0 (numbers self.old.links) high → Rises 0 (numbers self.new.links) high }
        ensures ok { OnOk result (self.new ≡ record self.old { waiting = 0 }) }
        ensures err { OnErr result (IsEmptied self.old self.new) }
    {
        settle(&mut self.sessions, &mut self.feeds, crew)
    }

    /// What came is matched by this thread alone. After `Memory` no link is left.
    fn settle_alone(&mut self) -> Result<(), Memory>
        ensures rises { (high : ℕ) → Rises 0 (numbers self.old.links) high → Rises 0 (numbers self.new.links) high }
        ensures ok { OnOk result (self.new ≡ record self.old { waiting = 0 }) }
        ensures err { OnErr result (IsEmptied self.old self.new) }
    {
        settle_alone(&mut self.sessions, &mut self.feeds)
    }

    /// No link is left.
    pub fn clear(&mut self)
        ensures links { self.new.links ≡ [] }
        ensures rests { self.new.rests ≡ true }
    {
        self.sessions.clear();
        self.feeds.clear();
        self.rests = true;
    }

    /// No link is left, and they rest as they did.
    fn give_up(&mut self)
        ensures { IsEmptied self.old self.new }
    {
        self.sessions.clear();
        self.feeds.clear();
    }

    /// How many packet lines were ever put into queues, at most the greatest u64.
    pub fn queued(&self) -> u64
        requires { self.now.rests ≡ true }
        ensures { result ≡ self.now.queued }
    {
        self.queued.saturating_add(self.feeds.put())
    }
}

/// All that came is matched by the crew. After `Memory` no link is left.
fn settle<R: Threads + Sync, G: Gate + Sync>(
    sessions: &mut Sessions,
    feeds: &mut Feeds,
    crew: &Crew<R, G>,
) -> Result<(), Memory>
    requires { (1 ≤ crew.now.workers) × (crew.now.workers ≤ 64) }
    ensures sessions { OnOk result (sessions.new ≡ sessions.old) }
    ensures feeds { OnOk result (feeds.new ≡ record feeds.old { waiting = 0 }) }
    ensures cleared { OnErr result ((sessions.new ≡ []) × (feeds.new ≡ record { links = []; waiting = 0 })) }
{
    let done = feeds.settle(crew);
    if done.is_err() {
        sessions.clear();
        feeds.clear();
    }
    done
}

/// All that came is matched by this thread alone. After `Memory` no link is left.
fn settle_alone(sessions: &mut Sessions, feeds: &mut Feeds) -> Result<(), Memory>
    ensures sessions { OnOk result (sessions.new ≡ sessions.old) }
    ensures feeds { OnOk result (feeds.new ≡ record feeds.old { waiting = 0 }) }
    ensures cleared { OnErr result ((sessions.new ≡ []) × (feeds.new ≡ record { links = []; waiting = 0 })) }
{
    let done = feeds.settle_alone();
    if done.is_err() {
        sessions.clear();
        feeds.clear();
    }
    done
}
