//! A network: its servers, how they are joined, its steps and its report.
ghost use Rattle.std.specs.Prelude.{◌≡◌, ◌+◌, ◌≤◌, ◌++◌, ◌∷◌, List, IfOk, IfSome, OnErr, OnOk, [], Some, length, map, slice_get, true, false};
ghost use Rattle.aprs_conf.specs.Seen.{ConfSeen};
ghost use Rattle.net_history.specs.declared.events.NetEvent.{NetEvent};
ghost use Rattle.net_history.specs.Network.{NetSeen, address_of, changed_at, new_server};
ghost use Rattle.net_history.specs.Places.{Each};
ghost use Rattle.net_history.specs.Report.{report_of};
ghost use Rattle.net_history.specs.Steps.{is_there, network_of, next_link, with_step};
ghost use Rattle.server_core.specs.Meaning.{setting_of};
ghost use Rattle.net_schedule.specs.Asked.{CanServe, HavePeers, kept_is_there, kept_opens, kept_says};
ghost use Rattle.net_schedule.specs.Kept.{kept_client};
ghost use Rattle.net_schedule.specs.Networks.{AreNew, IsSound};
ghost use Rattle.net_schedule.specs.Running.{ServerKept, layout_of};
ghost use Rattle.net_schedule.specs.Standing.{IsNetwork, StandsFor};

use crate::joins::{
    carry, cut, join, mail, may_carry, may_cast, may_join, peering, unjoined, way_at,
};
use crate::report::append_all;
use crate::rounds::{arrive_at, run};
use crate::servers::Server;
use crate::texts::{address_of, ended};
use crate::ways::Way;
use aprs_base::{Call, Event, Memory};
use aprs_conf::Conf;
use net_history::{NetEvent, Pair, PeerPair};
use std::alloc::Global;
use std::hash::RandomState;
use std::marker::{Model, Sync};
use std::thread::Threads;

/// What became of a step.
#[derive(Clone, Copy, PartialEq, Eq)]
pub enum Step {
    Done,
    /// There is no such step now, and nothing has changed.
    NotThere,
}

/// Servers that are joined as uplinks of one another, or cast to each other, and what is on its way between them. Each is a real
/// core with one worker and no journals.
#[derive(Drop)]
pub struct Network {
    servers: Vec<Server>,
    pairs: Vec<Pair>,
    peers: Vec<PeerPair>,
    ways: Vec<Option<Way>>,
    /// Memory was wanting in a step.
    spent: bool,
}

impl Model for Network {
    ghost use Rattle.std.specs.Prelude.{◌≡◌, List, false};
    ghost use Rattle.net_schedule.specs.Running.{NetKept};
    ghost use Rattle.net_schedule.specs.Networks.{IsSound};

    ghost Value = { NetKept };

    ghost view = { λ n. record { servers = n.servers.items; pairs = n.pairs.items; peers = n.peers.items; ways = n.ways.items; spent = n.spent } };

    ghost invariant = { λ n. n.spent ≡ false → IsSound (record { servers = n.servers.items; pairs = n.pairs.items; peers = n.peers.items; ways = n.ways.items; spent = n.spent }) };
}

/// A server more, with this configuration.
fn add_server(
    alloc: Global,
    hasher: &RandomState,
    servers: &mut Vec<Server>,
    conf: Conf,
) -> Result<(), Memory>
    requires { CanServe conf }
    ensures { (confs : List ConfSeen) → AreNew confs servers.old.items → OnOk result (AreNew (confs ++ conf ∷ []) servers.new.items) }
{
    servers.push(Server::new(alloc, hasher, conf)?)?;
    Ok(())
}

/// Servers with these configurations.
fn servers_of(alloc: Global, hasher: &RandomState, confs: Vec<Conf>) -> Result<Vec<Server>, Memory>
    requires { Each CanServe confs.items }
    ensures { IfOk result (λ servers. AreNew confs.items servers.items) }
{
    let mut servers = Vec::new(alloc);
    for conf in confs {
        add_server(alloc, hasher, &mut servers, conf)?;
    }
    Ok(servers)
}

/// A client connects to a listener of a server, and logs in.
#[tactic(auto, using(crate::proofs::ListLemmas::past_changed, crate::proofs::ListLemmas::set_changed))]
fn open(servers: &mut [Server], server: u16, listener: u16, call: &Call) -> Result<(), Memory>
    ensures { kept_opens listener (slice_get servers.old server) ≡ true → OnOk result (servers.new ≡ changed_at (kept_client listener (address_of server) call.now) server servers.old) }
{
    let place = usize::from(server);
    if place >= servers.len() {
        return Ok(());
    }
    servers[place].open(listener, address_of(server), call)
}

/// Whether a client can connect to that listener.
fn may_open(servers: &[Server], server: u16, listener: u16) -> bool
    ensures { result ≡ kept_opens listener (slice_get servers.now server) }
{
    match servers.get(usize::from(server)) {
        Some(server) => server.may_open(listener),
        None => false,
    }
}

/// Whether a client can say something on that link.
fn may_say(servers: &[Server], server: u16, link: u32) -> bool
    ensures { result ≡ kept_says link (slice_get servers.now server) }
{
    match servers.get(usize::from(server)) {
        Some(server) => server.may_say(link),
        None => false,
    }
}

/// The pair of that number.
fn pair_at(pairs: &[Pair], number: u16) -> Option<Pair>
    ensures { result ≡ slice_get pairs.now number }
{
    pairs.get(usize::from(number)).copied()
}

/// The number that the next link of a server gets, 0 where there is no such server.
fn next_number(servers: &[Server], server: u16) -> u32
    ensures { (kept : ServerKept) → slice_get servers.now server ≡ Some kept → length kept.made + 1 ≤ 4294967295 → result ≡ length kept.made + 1 }
{
    match servers.get(usize::from(server)) {
        Some(server) => server.next_link(),
        None => 0,
    }
}

impl Network {
    /// A network of servers with these configurations, which have no idle listeners. None is joined or has a client yet.
    pub fn new(
        alloc: Global,
        hasher: &RandomState,
        confs: Vec<Conf>,
        pairs: Vec<Pair>,
        peers: Vec<PeerPair>,
    ) -> Result<Network, Memory>
        requires confs { Each CanServe confs.items }
        requires peers { HavePeers (record { servers = map setting_of confs.items; pairs = pairs.items; peers = peers.items }) }
        ensures layout { IfOk result (λ net. layout_of net ≡ record { servers = map setting_of confs.items; pairs = pairs.items; peers = peers.items }) }
        ensures fresh { IfOk result (λ net. net.spent ≡ false) }
        ensures stands { IfOk result (λ net. StandsFor net []) }
    {
        let ways = unjoined(alloc, pairs.as_slice())?;
        Ok(Network {
            servers: servers_of(alloc, hasher, confs)?,
            pairs,
            peers,
            ways,
            spent: false,
        })
    }

    /// Whether a step is there now.
    fn has(&self, event: &NetEvent) -> bool
        ensures { result ≡ kept_is_there self.now event.now }
    {
        let servers = self.servers.as_slice();
        match event {
            NetEvent::Open {
                server,
                listener,
                ..
            } => may_open(servers, *server, *listener),
            NetEvent::Say { server, link, .. } => may_say(servers, *server, *link),
            NetEvent::Round { server, .. } => usize::from(*server) < servers.len(),
            NetEvent::Join { pair } => match self.pairs.get(usize::from(*pair)) {
                Some(pair) => may_join(servers, pair),
                None => false,
            },
            NetEvent::Cut { pair } => way_at(self.ways.as_slice(), *pair).is_some(),
            NetEvent::Carry { pair, up, n } => match way_at(self.ways.as_slice(), *pair) {
                Some(way) => may_carry(way, *up, *n),
                None => false,
            },
            NetEvent::Cast { from, to, k } => {
                peering(self.peers.as_slice(), *from, *to).is_some() && may_cast(servers, *from, *k)
            }
        }
    }

    /// A step is done, which is there.
    fn take<R: Threads + Sync>(
        &mut self,
        rt: &R,
        alloc: Global,
        event: NetEvent,
    ) -> Result<(), Memory>
        requires sound { IsSound self.old }
        requires there { kept_is_there self.old event ≡ true }
        requires spent { self.old.spent ≡ true }
        ensures stands { (steps : List NetEvent) → StandsFor self.old steps
            → OnOk result (IsNetwork self.new (with_step (layout_of self.old) event (network_of (layout_of self.old) steps))) }
        ensures parts { (self.new.pairs ≡ self.old.pairs) × (self.new.peers ≡ self.old.peers) × (self.new.spent ≡ true) }
    {
        let servers = self.servers.as_mut_slice();
        let ways = self.ways.as_mut_slice();
        match event {
            NetEvent::Open {
                server,
                listener,
                call,
            } => open(servers, server, listener, &call),
            NetEvent::Say { server, link, line } => {
                arrive_at(servers, server, Event::Bytes(link, ended(&line)))
            }
            NetEvent::Round { server, moment } => run(rt, alloc, servers, ways, server, moment),
            NetEvent::Join { pair } => match pair_at(self.pairs.as_slice(), pair) {
                Some(joining) => join(alloc, servers, ways, pair, &joining),
                None => Ok(()),
            },
            NetEvent::Cut { pair } => cut(servers, ways, pair),
            NetEvent::Carry { pair, up, n } => carry(servers, ways, pair, up, n),
            NetEvent::Cast { from, to, k } => match peering(self.peers.as_slice(), from, to) {
                Some((_, peer)) => mail(servers, from, to, k, peer),
                None => Ok(()),
            },
        }
    }

    /// Does a step, where it is there now.
    pub fn step<R: Threads + Sync>(
        &mut self,
        rt: &R,
        alloc: Global,
        event: NetEvent,
    ) -> Result<Step, Memory>
        requires { self.old.spent ≡ false }
        ensures layout { OnOk result (layout_of self.new ≡ layout_of self.old) }
        ensures going { OnOk result (self.new.spent ≡ false) }
        ensures done { (steps : List NetEvent) → StandsFor self.old steps → IfOk result (λ step. step ≡ Step.Done
            → (is_there (layout_of self.old) (network_of (layout_of self.old) steps) event ≡ true) × StandsFor self.new (event ∷ steps)) }
        ensures not_there { (steps : List NetEvent) → StandsFor self.old steps → IfOk result (λ step. step ≡ Step.NotThere
            → (is_there (layout_of self.old) (network_of (layout_of self.old) steps) event ≡ false) × (self.new ≡ self.old)) }
        ensures err { OnErr result (self.new.spent ≡ true) }
    {
        if !self.has(&event) {
            return Ok(Step::NotThere);
        }
        self.spent = true;
        self.take(rt, alloc, event)?;
        self.spent = false;
        Ok(Step::Done)
    }

    /// The pair of that number.
    fn pair_at(pairs: &[Pair], number: u16) -> Option<Pair>
        ensures { result ≡ slice_get pairs.now number }
    {
        pairs.get(usize::from(number)).copied()
    }

    /// The number that the next link of a server gets, 0 where there is no such server.
    pub fn next_link(&self, server: u16) -> u32
        ensures { (steps : List NetEvent) → StandsFor self.now steps
            → IfSome (slice_get (network_of (layout_of self.now) steps).servers server) (λ s. next_link s ≤ 4294967295 → result ≡ next_link s) }
    {
        next_number(self.servers.as_slice(), server)
    }

    /// Appends the report: a line for each server with its call and how many packets it accepted, and then their lines in order, as it sent them on,
    /// each with a line feed. Where memory is wanting the text is as it was.
    pub fn report(&self, out: &mut Vec<u8>) -> Result<(), Memory>
        ensures text { (steps : List NetEvent) → StandsFor self.now steps → OnOk result (out.new.items ≡ out.old.items ++ report_of (network_of (layout_of self.now) steps)) }
        ensures err { OnErr result (out.new.items ≡ out.old.items) }
    {
        let before = out.len();
        let done = append_all(self.servers.as_slice(), out);
        if done.is_err() {
            out.truncate(before);
        }
        done
    }
}
