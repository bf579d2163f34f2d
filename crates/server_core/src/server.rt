//! What a core keeps, and the walk over a round's events.
ghost use Rattle.std.specs.Prelude.{◌≡◌, ◌∷◌, ◌++◌, [], ◌≤◌, ℕ, IsTrue, IfOk, IfSome, None, OnOk, Some, if◌then◌else◌, is_some, List, drop, length, false, true, min, take};
ghost use Rattle.aprs_base.specs.Bytes.{is_station};
ghost use Rattle.aprs_conf.specs.Sound.{IsGroup, IsWithin};
ghost use Rattle.aprs_history.specs.Stands.{reach_of};
ghost use Rattle.aprs_history.specs.History.{History, trace_of};
ghost use Rattle.aprs_history.specs.Journal.{round_lines};
ghost use Rattle.aprs_history.specs.Rounds.{AreFresh, greatest_after, is_whole, only_listens, stopped_after, with_events};
ghost use Rattle.aprs_history.specs.Downs.{DownSeen};
ghost use Rattle.served_links.specs.Links.{down_at, has_number, numbers, pending_at};
ghost use Rattle.served_links.specs.Halves.{more};
ghost use Rattle.aprs_base.specs.declared.events.Happening.{Happening};
ghost use Rattle.aprs_base.specs.declared.events.Sent.{Sent};
ghost use Rattle.server_core.specs.Meaning.{Stands, numbered, setting_of};
ghost use Rattle.server_core.specs.Sending.{bytes_in, with_lines};
ghost use Rattle.server_core.specs.Steps.{SameRest};

mod ahead;
mod answers;
mod datagrams;
mod endings;
mod lines;
mod openings;
mod packets;
mod rounds;
mod telling;
mod ticks;
mod verdicts;

use crate::conf::{dupe_window, uplink_timeout};
use crate::reach::Reach;
use crate::spares::Spares;
use aprs_base::{Event, Gate, JournalLine, Memory, Totals};
use aprs_conf::Conf;
use dupe_window::Window;
use heard_routing::Heard;
use parsed_lines::Ahead;
use served_links::{Down, Served};
use station_table::Stations;
use std::alloc::Global;
use std::hash::RandomState;
use std::marker::{Model, Sync};
use std::thread::Threads;
use worker_match::Crew;

/// The most bytes of one offer.
const MOST_OFFERED: usize = 65_536;

/// What there is for other servers at first.
fn reach_for(alloc: Global, conf: &Conf) -> Reach
    requires { length conf.now.uplinks ≤ 8 }
    ensures { result ≡ reach_of (setting_of conf.now) [] }
{
    let count = u16::try_from(conf.uplinks.len()).unwrap_or(0);
    Reach::new(alloc, count, uplink_timeout(conf))
}

/// A count raised by so many, which stays at the greatest u64.
fn raised(count: u64, n: u64) -> u64
    ensures { result ≡ more n count }
{
    count.saturating_add(n)
}

/// What was counted since the core was made, beside what was put into queues.
#[derive(Drop)]
struct Counts {
    accepted: u64,
    duplicate: u64,
    refused: u64,
}

/// What a core keeps. In the middle of a round, when it doesn't rest, what came to the links may wait to be matched.
#[derive(Drop)]
pub(crate) struct State {
    conf: Conf,
    moment: u64,
    links: Served,
    /// The links that were turned away in this round, and those that ended in it and are to be closed, both rising.
    turned: Vec<u32>,
    closing: Vec<u32>,
    /// The packets that were accepted a short while ago.
    window: Window,
    /// Where stations were last seen, and which are gates.
    stations: Stations,
    /// Which stations each link heard, and whose next positions links are owed.
    heard: Heard,
    /// What there is for other servers.
    reach: Reach,
    greatest: u32,
    stopped: bool,
    counts: Counts,
    /// The lines of the round, parsed before it is walked.
    ahead: Ahead,
    hasher: RandomState,
    /// How many links became downlinks, ended ones too.
    downs: u32,
    spares: Spares,
}

impl Model for State {
    ghost use Rattle.server_core.specs.Meaning.{CoreMeaning};
    ghost use Rattle.server_core.specs.Kept.{IsKept};

    ghost Value = { CoreMeaning };

    ghost view = { λ c. record { conf = c.conf; seen = record { moment = c.moment; links = c.links.links; turned = c.turned.items; closing = c.closing.items; window = c.window; stations = c.stations; heard = c.heard; reach = c.reach; greatest = c.greatest; downs = c.downs; stopped = c.stopped; totals = record { accepted = c.counts.accepted; duplicate = c.counts.duplicate; refused = c.counts.refused; queued = c.links.queued } }; rests = c.links.rests } };

    ghost invariant = { λ c. IsKept (record { conf = c.conf; seen = record { moment = c.moment; links = c.links.links; turned = c.turned.items; closing = c.closing.items; window = c.window; stations = c.stations; heard = c.heard; reach = c.reach; greatest = c.greatest; downs = c.downs; stopped = c.stopped; totals = record { accepted = c.counts.accepted; duplicate = c.counts.duplicate; refused = c.counts.refused; queued = c.links.queued } }; rests = c.links.rests }) };
}

impl State {
    /// For this configuration. It stands for the history of its listeners alone.
    pub fn new(alloc: Global, hasher: &RandomState, conf: Conf) -> Result<State, Memory>
        requires listens { length (numbered conf.listens) ≤ 16 }
        requires station { IsTrue (is_station conf.server) }
        requires uplinks { length conf.uplinks ≤ 8 }
        requires peers { IsGroup conf.group conf.peers }
        requires window { IsWithin 10 300 conf.dupe_window }
        ensures conf { IfOk result (λ core. core.conf ≡ conf) }
        ensures stands { IfOk result (λ core. Stands core (only_listens (setting_of conf))) }
        ensures fresh { IfOk result (λ core. (core.seen.greatest ≡ 0) × (core.seen.stopped ≡ false) × (core.rests ≡ true)) }
    {
        let reach = reach_for(alloc, &conf);
        let seconds = dupe_window(&conf);
        Ok(State {
            conf,
            moment: 0,
            links: Served::new(alloc, hasher),
            turned: Vec::new(alloc),
            closing: Vec::new(alloc),
            window: Window::new(alloc, *hasher, seconds),
            stations: Stations::new(alloc, hasher)?,
            heard: Heard::new(alloc, hasher)?,
            reach,
            greatest: 0,
            stopped: false,
            counts: Counts {
                accepted: 0,
                duplicate: 0,
                refused: 0,
            },
            ahead: Ahead::none(alloc),
            hasher: *hasher,
            downs: 0,
            spares: Spares::new(alloc),
        })
    }

    /// The configuration that it was made with.
    pub fn conf(&self) -> &Conf
        ensures { result.now ≡ self.now.conf }
    {
        &self.conf
    }

    /// The greatest number of a link that it was told of, 0 where there is none.
    pub fn greatest(&self) -> u32
        ensures { result ≡ self.now.seen.greatest }
    {
        self.greatest
    }

    /// Whether a round ended with a stop.
    pub fn is_stopped(&self) -> bool
        ensures { result ≡ self.now.seen.stopped }
    {
        self.stopped
    }

    /// Whether the link is there, and may be offered bytes.
    pub fn serves(&self, link: u32) -> bool
        ensures { result ≡ has_number link self.now.seen.links }
    {
        self.links.has_link(link)
    }

    /// The packets that were accepted a short while ago.
    pub fn window(&self) -> &Window
        ensures { result.now ≡ self.now.seen.window }
    {
        &self.window
    }

    /// What it has counted since it was made.
    pub fn totals(&self) -> Totals
        requires { self.now.rests ≡ true }
        ensures { result ≡ self.now.seen.totals }
    {
        Totals {
            accepted: self.counts.accepted,
            duplicate: self.counts.duplicate,
            refused: self.counts.refused,
            queued: self.links.queued(),
        }
    }

    /// Walks over one whole round of events. What comes to the links is matched by the crew. The lines that the round has for the
    /// journals come after those that are there.
    pub fn round<R: Threads + Sync, G: Gate + Sync>(
        &mut self,
        crew: &Crew<R, G>,
        alloc: Global,
        events: &[Event],
        lines: &mut Vec<JournalLine>,
    ) -> Result<(), Memory>
        requires workers { (1 ≤ crew.now.workers) × (crew.now.workers ≤ 64) }
        requires whole { is_whole 0 events.now ≡ true }
        requires fresh { AreFresh self.old.seen.greatest events.now }
        requires going { self.old.seen.stopped ≡ false }
        ensures conf { OnOk result (self.new.conf ≡ self.old.conf) }
        ensures greatest { OnOk result (self.new.seen.greatest ≡ greatest_after events.now self.old.seen.greatest) }
        ensures stopped { OnOk result (self.new.seen.stopped ≡ stopped_after events.now false) }
        ensures rests { OnOk result (self.new.rests ≡ true) }
        ensures stands { (h : History) → Stands self.old h → OnOk result (Stands self.new (with_events events.now h)) }
        ensures lines { (h : History) → Stands self.old h
            → OnOk result (lines.new.items ≡ lines.old.items ++ round_lines (setting_of self.old.conf) (trace_of (setting_of self.old.conf) (with_events events.now h))) }
    {
        self.tell_lost(lines)?;
        self.begin(alloc)?;
        self.look_ahead(crew.rt, alloc, events)?;
        for event in events {
            self.settle_before(crew, event)?;
            self.take_event(alloc, event, lines)?;
        }
        self.finish(crew, alloc, events, lines)?;
        Ok(())
    }

    /// Writes the next bytes that the link has still to take, as many as there are and as fit, at most 65,536, and says
    /// how many. The buffer stays as it was behind them.
    pub fn offer(&self, link: u32, out: &mut [u8]) -> usize
        requires { self.now.rests ≡ true }
        ensures count { result ≡ min (min (length out.old) 65536) (length (pending_at link self.now.seen.links)) }
        ensures bytes { take result out.new ≡ take (min (length out.old) 65536) (pending_at link self.now.seen.links) }
        ensures rest { drop result out.new ≡ drop result out.old }
    {
        let room = out.len().min(MOST_OFFERED);
        self.links.offer(link, &mut out[..room])
    }

    /// The bytes that `offer` writes, where they stand in a text that links share.
    pub fn shared_offer(&self, link: u32) -> Option<&[u8]>
        requires { self.now.rests ≡ true }
        ensures { IfSome result (λ bytes. bytes.now ≡ take 65536 (pending_at link self.now.seen.links)) }
    {
        match self.links.shared_offer(link) {
            Some(bytes) => Some(first_offered(bytes)),
            None => None,
        }
    }

    /// The downlink that the link is.
    pub fn down(&self, link: u32) -> Option<Down>
        ensures { result ≡ down_at link self.now.seen.links }
    {
        self.links.down(link)
    }

    /// The link took the first `n` of the `offered` bytes, which were its last offer: a downlink as whole lines, one by one.
    pub fn took(&mut self, link: u32, offered: usize, n: usize)
        requires part { n ≤ offered }
        requires small { offered ≤ 65536 }
        requires pending { offered ≤ length (pending_at link self.old.seen.links) }
        requires rests { self.old.rests ≡ true }
        ensures stands { (h : History) (bytes : List ℕ) → down_at link self.old.seen.links ≡ None → length bytes ≡ offered → Stands self.old h → Stands self.new (Happening.Sent link bytes (Sent.Took n) ∷ h) }
        ensures sends { (h : History) (down : DownSeen) (line : List ℕ) (lines : List (List ℕ)) → down_at link self.old.seen.links ≡ Some down → bytes_in (line ∷ lines) ≡ n
            → Stands self.old h → Stands self.new (with_lines link (line ∷ lines) h) }
        ensures numbers { numbers self.new.seen.links ≡ numbers self.old.seen.links }
        ensures rest { SameRest self.old self.new }
        ensures rests { self.new.rests ≡ self.old.rests }
    {
        let given = given_of(self.links.down(link), offered, n);
        self.links.take(link, given, n);
    }

    /// A send found the link gone: it ends as the next round begins.
    pub fn gone(&mut self, link: u32)
        ensures stands { (h : History) (bytes : List ℕ) → Stands self.old h → Stands self.new (Happening.Sent link bytes Sent.Gone ∷ h) }
        ensures numbers { numbers self.new.seen.links ≡ numbers self.old.seen.links }
        ensures rest { SameRest self.old self.new }
        ensures rests { self.new.rests ≡ self.old.rests }
    {
        self.links.lose(link);
    }

    /// Nothing is said of it any more, but that it rests.
    pub fn give_up(&mut self)
        ensures { self.new.rests ≡ true }
    {
        self.links.clear();
    }
}

/// How many bytes count as given to a link: a downlink is never given more than it takes.
fn given_of(down: Option<Down>, offered: usize, n: usize) -> usize
    ensures { result ≡ (if is_some down then n else offered) }
{
    if down.is_some() { n } else { offered }
}

/// As many of these bytes as one offer has.
fn first_offered(bytes: &[u8]) -> &[u8]
    ensures { result.now ≡ take 65536 bytes.now }
{
    &bytes[..MOST_OFFERED.min(bytes.len())]
}
