//! One server of a network: its core, what waits for it, and its links.
ghost use Rattle.std.specs.Prelude.{◌≡◌, ◌∷◌, ◌++◌, ◌+◌, ◌==◌, ◌≤◌, IsTrue, IfOk, OnOk, [], length, map, nat_le, Some};
ghost use Rattle.std.specs.List.{list_any, position};
ghost use Rattle.aprs_base.specs.Bytes.{is_station};
ghost use Rattle.aprs_base.specs.declared.packets.ListenSpec.{ListenSpec};
ghost use Rattle.aprs_conf.specs.Sound.{IsGroup, IsWithin};
ghost use Rattle.aprs_history.specs.Rounds.{AreFresh, greatest_after, is_whole, stopped_after, with_events};
ghost use Rattle.net_history.specs.Network.{ServerSeen, new_server};
ghost use Rattle.net_history.specs.Report.{report_on};
ghost use Rattle.net_history.specs.Steps.{but_first_of};
ghost use Rattle.server_core.specs.Meaning.{numbered, setting_of};
ghost use Rattle.server_core.specs.LinkSteps.{has_number};
ghost use Rattle.net_schedule.specs.Asked.{AreBusy};
ghost use Rattle.net_schedule.specs.Kept.{is_heard_by, kept_arrival, kept_client, kept_downlink, kept_ended, kept_link, kept_may_open, kept_may_say, kept_speaks, kept_uplink};
ghost use Rattle.net_schedule.specs.Standing.{Keeps};

use crate::texts::login;
use aprs_base::{Addr, Call, Event, Line, ListenSpec, Memory, PortKind};
use aprs_conf::Conf;
use server_core::{Core, listeners};
use std::alloc::Global;
use std::hash::RandomState;
use std::marker::Model;
use std::sync::Arc;

/// What a link was made for: a client, at the listener of that number, or a pair.
#[derive(Clone, Copy)]
pub(crate) enum MadeFor {
    Client(u16),
    Pair,
}

/// A server of a network.
#[derive(Drop)]
pub(crate) struct Server {
    pub(crate) core: Core,
    pub(crate) listens: Vec<ListenSpec>,
    /// What comes with its next round, in order.
    pub(crate) arrivals: Vec<Event>,
    /// Its links, in the order of their numbers, from 1 on.
    pub(crate) made: Vec<MadeFor>,
    /// The uplinks that it dialled and that haven't joined since.
    pub(crate) dialled: Vec<u16>,
    /// The lines that it cast to each of its peers, and those that it accepted, in order.
    pub(crate) casts: Vec<Arc<Line>>,
    pub(crate) accepted: Vec<Arc<Line>>,
}

impl Model for Server {
    ghost use Rattle.std.specs.Prelude.{map};
    ghost use Rattle.std.specs.Arc.{arc_value};
    ghost use Rattle.net_schedule.specs.Running.{ServerKept};

    ghost Value = { ServerKept };

    ghost view = { λ s. record { core = s.core; listens = s.listens.items; arrivals = s.arrivals.items; made = s.made.items; dialled = s.dialled.items; casts = map arc_value s.casts.items; accepted = map arc_value s.accepted.items } };
}

/// The first place of an uplink.
fn first_of(dialled: &[u16], uplink: u16) -> Option<usize>
    ensures { result ≡ position (λ other. other == uplink) dialled.now }
{
    dialled.iter().position(|other| *other == uplink)
}

/// The uplink isn't dialled any more.
#[tactic(auto, using(crate::proofs::ListLemmas::first_left, crate::proofs::ListLemmas::none_left))]
fn forget(dialled: &mut Vec<u16>, uplink: u16)
    ensures { dialled.new.items ≡ but_first_of uplink dialled.old.items }
{
    match first_of(dialled.as_slice(), uplink) {
        Some(place) => {
            dialled.remove(place);
        }
        None => {}
    }
}

/// Whether clients connect to a listener.
fn is_heard(spec: &ListenSpec) -> bool
    ensures { result ≡ is_heard_by (Some spec.now) }
{
    !matches!(spec.kind, PortKind::Submit | PortKind::Core)
}

impl Server {
    /// A server that listens, and for which nothing waits.
    pub(crate) fn new(alloc: Global, hasher: &RandomState, conf: Conf) -> Result<Server, Memory>
        requires listens { length (numbered conf.listens) ≤ 16 }
        requires station { IsTrue (is_station conf.server) }
        requires uplinks { length conf.uplinks ≤ 8 }
        requires peers { IsGroup conf.group conf.peers }
        requires window { IsWithin 10 300 conf.dupe_window }
        requires busy { AreBusy conf.listens }
        ensures keeps { IfOk result (λ server. Keeps [] server (new_server (setting_of conf))) }
        ensures conf { IfOk result (λ server. server.core.conf ≡ conf) }
    {
        let listens = listeners(alloc, &conf)?;
        Ok(Server {
            core: Core::new(alloc, hasher, conf, 1)?,
            listens,
            arrivals: Vec::new(alloc),
            made: Vec::new(alloc),
            dialled: Vec::new(alloc),
            casts: Vec::new(alloc),
            accepted: Vec::new(alloc),
        })
    }

    /// The number of the next link.
    pub(crate) fn next_link(&self) -> u32
        ensures { length self.now.made + 1 ≤ 4294967295 → result ≡ length self.now.made + 1 }
    {
        u32::try_from(self.made.len())
            .unwrap_or(u32::MAX)
            .saturating_add(1)
    }

    /// Whether so many links more can be made.
    pub(crate) fn has_room(&self, more: u16) -> bool
        ensures { result ≡ nat_le (length self.now.made + more) 4294967295 }
    {
        self.made.len() <= 4_294_967_295 - usize::from(more)
    }

    pub(crate) fn is_dialled(&self, uplink: u16) -> bool
        ensures { result ≡ list_any (λ other. other == uplink) self.now.dialled }
    {
        self.dialled.iter().any(|other| *other == uplink)
    }

    /// Whether a client can connect to that listener.
    pub(crate) fn may_open(&self, listener: u16) -> bool
        ensures { result ≡ kept_may_open listener self.now }
    {
        usize::from(listener) < self.listens.len() && self.has_room(1)
    }

    /// Whether a finished round has ended the link, which came to that listener.
    fn has_ended(&self, listener: u16, link: u32) -> bool
        ensures { result ≡ kept_ended listener link self.now }
    {
        let heard = match self.listens.get(usize::from(listener)) {
            Some(spec) => is_heard(spec),
            None => false,
        };
        link <= self.core.greatest() && heard && !self.core.serves(link)
    }

    /// Whether a client can say something on that link.
    pub(crate) fn may_say(&self, link: u32) -> bool
        ensures { result ≡ kept_may_say link self.now }
    {
        let Some(place) = link.checked_sub(1) else {
            return false;
        };
        match self.made.get(place as usize) {
            Some(MadeFor::Client(listener)) => !self.has_ended(*listener, link),
            _ => false,
        }
    }

    /// Something comes with the next round.
    pub(crate) fn arrive(&mut self, event: Event) -> Result<(), Memory>
        ensures { OnOk result (self.new ≡ kept_arrival event self.old) }
    {
        self.arrivals.push(event)?;
        Ok(())
    }

    /// A link is made, as the event brings it.
    fn link(&mut self, made: MadeFor, event: Event) -> Result<(), Memory>
        ensures { OnOk result (self.new ≡ kept_link made event self.old) }
    {
        self.arrivals.push(event)?;
        self.made.push(made)?;
        Ok(())
    }

    /// A client connects to a listener, and logs in.
    pub(crate) fn open(&mut self, listener: u16, from: Addr, call: &Call) -> Result<(), Memory>
        ensures { length self.old.made + 1 ≤ 4294967295 → OnOk result (self.new ≡ kept_client listener from call.now self.old) }
    {
        let link = self.next_link();
        let opened = Event::Opened {
            listener,
            link,
            from,
        };
        self.link(MadeFor::Client(listener), opened)?;
        self.arrive(Event::Bytes(link, login(call)))
    }

    /// An uplink that was dialled joins.
    pub(crate) fn join(&mut self, uplink: u16, at: Addr) -> Result<(), Memory>
        ensures { length self.old.made + 1 ≤ 4294967295 → OnOk result (self.new ≡ kept_uplink uplink at self.old) }
    {
        let link = self.next_link();
        self.link(MadeFor::Pair, Event::Joined { uplink, link, at })?;
        forget(&mut self.dialled, uplink);
        Ok(())
    }

    /// A server of the network connects to a listener.
    pub(crate) fn admit(&mut self, listener: u16, from: Addr) -> Result<(), Memory>
        ensures { length self.old.made + 1 ≤ 4294967295 → OnOk result (self.new ≡ kept_downlink listener from self.old) }
    {
        let opened = Event::Opened {
            listener,
            link: self.next_link(),
            from,
        };
        self.link(MadeFor::Pair, opened)
    }
}
