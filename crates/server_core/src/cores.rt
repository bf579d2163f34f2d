//! The core: it takes a round of events, and says what is to be done.
ghost use Rattle.std.specs.Prelude.{◌≡◌, ◌∷◌, ◌++◌, ◌≤◌, ℕ, IsTrue, IfOk, IfSome, None, OnOk, Some, List, drop, length, false, min, take, true};
ghost use Rattle.aprs_base.specs.Bytes.{is_station};
ghost use Rattle.aprs_conf.specs.Sound.{IsGroup, IsWithin};
ghost use Rattle.aprs_history.specs.History.{History, trace_of};
ghost use Rattle.aprs_history.specs.Counts.{totals_of};
ghost use Rattle.aprs_history.specs.Journal.{round_lines};
ghost use Rattle.aprs_history.specs.Scenes.{accepted_of};
ghost use Rattle.aprs_history.specs.Rounds.{AreFresh, greatest_after, is_whole, only_listens, stopped_after, with_events};
ghost use Rattle.aprs_history.specs.Texts.{untaken};
ghost use Rattle.aprs_history.specs.Downs.{DownSeen, down_of};
ghost use Rattle.served_links.specs.Links.{down_at};
ghost use Rattle.server_core.specs.LinkSteps.{AreServed, Rises, has_number, numbers, pending_at};
ghost use Rattle.aprs_base.specs.declared.events.Happening.{Happening};
ghost use Rattle.aprs_base.specs.declared.events.Sent.{Sent};
ghost use Rattle.server_core.specs.Meaning.{AreActs, Stands, numbered, setting_of};
ghost use Rattle.server_core.specs.Sending.{StandsAsShown, bytes_in, with_casts, with_lines};
ghost use Rattle.server_core.specs.Steps.{SameRest};

use crate::acts::Acts;
use crate::server::State;
use aprs_base::{Event, Gate, JournalLine, Memory, Totals};
use aprs_conf::Conf;
use dupe_window::Window;
use served_links::Down;
use std::alloc::Global;
use std::hash::RandomState;
use std::marker::{Model, Sync};
use std::thread::Threads;
use worker_match::Crew;

/// The core of a server. Outside of a round all that came to its links is matched.
#[derive(Drop)]
pub struct Core {
    state: State,
    workers: u32,
}

impl Model for Core {
    ghost use Rattle.std.specs.Prelude.{◌≡◌, ◌≤◌, true};
    ghost use Rattle.server_core.specs.Meaning.{CoreMeaning};

    ghost Value = { CoreMeaning };

    ghost view = { λ c. c.state };

    ghost invariant = { λ c. (c.state.rests ≡ true) × (1 ≤ c.workers) × (c.workers ≤ 64) };
}

impl Core {
    /// A core for this configuration, and at most this many workers, which match what comes to its links. It stands for the
    /// history of its listeners alone.
    pub fn new(
        alloc: Global,
        hasher: &RandomState,
        conf: Conf,
        workers: u32,
    ) -> Result<Core, Memory>
        requires some { 1 ≤ workers }
        requires most { workers ≤ 64 }
        requires listens { length (numbered conf.listens) ≤ 16 }
        requires station { IsTrue (is_station conf.server) }
        requires uplinks { length conf.uplinks ≤ 8 }
        requires peers { IsGroup conf.group conf.peers }
        requires window { IsWithin 10 300 conf.dupe_window }
        ensures conf { IfOk result (λ core. core.conf ≡ conf) }
        ensures stands { IfOk result (λ core. Stands core (only_listens (setting_of conf))) }
        ensures fresh { IfOk result (λ core. (core.seen.greatest ≡ 0) × (core.seen.stopped ≡ false)) }
    {
        Ok(Core {
            state: State::new(alloc, hasher, conf)?,
            workers,
        })
    }

    /// The configuration that it was made with.
    pub fn conf(&self) -> &Conf
        ensures { result.now ≡ self.now.conf }
    {
        self.state.conf()
    }

    /// The greatest number of a link that it was told of, 0 where there is none.
    pub fn greatest(&self) -> u32
        ensures { result ≡ self.now.seen.greatest }
    {
        self.state.greatest()
    }

    /// Whether a round ended with a stop.
    pub fn is_stopped(&self) -> bool
        ensures { result ≡ self.now.seen.stopped }
    {
        self.state.is_stopped()
    }

    /// Whether the link is there, and may be offered bytes.
    pub fn serves(&self, link: u32) -> bool
        ensures { result ≡ has_number link self.now.seen.links }
    {
        self.state.serves(link)
    }

    /// The packets that were accepted a short while ago.
    pub fn window(&self) -> &Window
        ensures { result.now ≡ self.now.seen.window }
    {
        self.state.window()
    }

    /// What it has counted since it was made.
    pub fn totals(&self) -> Totals
        ensures kept { result ≡ self.now.seen.totals }
        ensures counts { (h : History) → Stands self.now h → result ≡ totals_of (setting_of self.now.conf) (trace_of (setting_of self.now.conf) h) }
    {
        self.state.totals()
    }

    /// Takes one whole round of events, and says what is to be done. What comes to the links is matched by at most as many
    /// workers as it was made with, each part of the links through the gate. The lines that the round has for the journals come
    /// after those that are there. After `Memory` the core is spent.
    pub fn round<R: Threads + Sync, G: Gate + Sync>(
        &mut self,
        rt: &R,
        alloc: Global,
        events: &[Event],
        lines: &mut Vec<JournalLine>,
        gate: &G,
    ) -> Result<Acts, Memory>
        requires whole { is_whole 0 events.now ≡ true }
        requires fresh { AreFresh self.old.seen.greatest events.now }
        requires going { self.old.seen.stopped ≡ false }
        ensures conf { OnOk result (self.new.conf ≡ self.old.conf) }
        ensures greatest { OnOk result (self.new.seen.greatest ≡ greatest_after events.now self.old.seen.greatest) }
        ensures stopped { OnOk result (self.new.seen.stopped ≡ stopped_after events.now false) }
        ensures done { IfOk result (λ acts. acts.done ≡ self.new.seen.stopped) }
        ensures rising { IfOk result (λ acts. Rises 0 acts.offers self.new.seen.greatest) }
        ensures served { IfOk result (λ acts. AreServed acts.offers self.new.seen.links) }
        // The core stands for the history with the round, and the acts are those that are due after it.
        ensures stands { (h : History) → Stands self.old h → OnOk result (Stands self.new (with_events events.now h)) }
        ensures due { (h : History) → Stands self.old h
            → IfOk result (λ acts. AreActs (setting_of self.new.conf) (with_events events.now h) acts) }
        // Beside them are the packets that the round accepted, in order.
        ensures accepted { (h : History) → Stands self.old h
            → IfOk result (λ acts. accepted_of (trace_of (setting_of self.old.conf) (with_events events.now h)) ≡ accepted_of (trace_of (setting_of self.old.conf) h) ++ acts.accepted) }
        ensures lines { (h : History) → Stands self.old h
            → OnOk result (lines.new.items ≡ lines.old.items ++ round_lines (setting_of self.old.conf) (trace_of (setting_of self.old.conf) (with_events events.now h))) }
    {
        let crew = Crew {
            rt,
            workers: self.workers,
            gate,
        };
        match self.state.round(&crew, alloc, events, lines) {
            Ok(()) => self.state.acts(alloc),
            Err(memory) => {
                self.state.give_up();
                Err(memory)
            }
        }
    }

    /// Writes the next bytes that the link has still to take, as many as there are and as fit, at most 65,536, and says
    /// how many. The buffer stays as it was behind them.
    pub fn offer(&self, link: u32, out: &mut [u8]) -> usize
        requires served { IsTrue (has_number link self.now.seen.links) }
        ensures count { result ≡ min (min (length out.old) 65536) (length (pending_at link self.now.seen.links)) }
        ensures bytes { take result out.new ≡ take (min (length out.old) 65536) (pending_at link self.now.seen.links) }
        ensures next { (h : History) → Stands self.now h
            → take result out.new ≡ take (min (length out.old) 65536) (untaken (setting_of self.now.conf) (trace_of (setting_of self.now.conf) h) link) }
        ensures rest { drop result out.new ≡ drop result out.old }
    {
        self.state.offer(link, out)
    }

    /// The bytes that `offer` writes into room for 65,536, where they stand in a text that links share: nothing is copied. `None` where
    /// they don't, and then `offer` has them.
    pub fn shared_offer(&self, link: u32) -> Option<&[u8]>
        requires served { IsTrue (has_number link self.now.seen.links) }
        ensures bytes { IfSome result (λ bytes. bytes.now ≡ take 65536 (pending_at link self.now.seen.links)) }
        ensures next { (h : History) → Stands self.now h
            → IfSome result (λ bytes. bytes.now ≡ take 65536 (untaken (setting_of self.now.conf) (trace_of (setting_of self.now.conf) h) link)) }
    {
        self.state.shared_offer(link)
    }

    /// The downlink that the link is: then its lines are cast there. Takes no memory.
    pub fn down(&self, link: u32) -> Option<Down>
        ensures kept { result ≡ down_at link self.now.seen.links }
        ensures same { (h : History) → Stands self.now h → IsTrue (has_number link self.now.seen.links) → result ≡ down_of (setting_of self.now.conf) (trace_of (setting_of self.now.conf) h) link }
    {
        self.state.down(link)
    }

    /// The link took the first `n` of the `offered` bytes, which were its last offer. A downlink took them as whole lines, each in a
    /// datagram of its own: the wire shows these lines as casts.
    pub fn took(&mut self, link: u32, offered: usize, n: usize)
        requires part { n ≤ offered }
        requires small { offered ≤ 65536 }
        requires pending { offered ≤ length (pending_at link self.old.seen.links) }
        ensures stands { (h : History) (bytes : List ℕ) → down_at link self.old.seen.links ≡ None → length bytes ≡ offered → Stands self.old h → Stands self.new (Happening.Sent link bytes (Sent.Took n) ∷ h) }
        ensures sends { (h : History) (down : DownSeen) (line : List ℕ) (lines : List (List ℕ)) → down_at link self.old.seen.links ≡ Some down → bytes_in (line ∷ lines) ≡ n
            → Stands self.old h → Stands self.new (with_lines link (line ∷ lines) h) }
        ensures casts { (wired : History) (down : DownSeen) (line : List ℕ) (lines : List (List ℕ)) → down_at link self.old.seen.links ≡ Some down → bytes_in (line ∷ lines) ≡ n
            → StandsAsShown self.old wired → StandsAsShown self.new (with_casts down.number (line ∷ lines) wired) }
        ensures numbers { numbers self.new.seen.links ≡ numbers self.old.seen.links }
        ensures rest { SameRest self.old self.new }
    {
        self.state.took(link, offered, n);
    }

    /// A send found the link gone: it ends as the next round begins.
    pub fn gone(&mut self, link: u32)
        ensures stands { (h : History) (bytes : List ℕ) → Stands self.old h → Stands self.new (Happening.Sent link bytes Sent.Gone ∷ h) }
        ensures numbers { numbers self.new.seen.links ≡ numbers self.old.seen.links }
        ensures rest { SameRest self.old self.new }
    {
        self.state.gone(link);
    }
}
