//! What the core keeps for other servers: its uplinks, and what the last round has for them. Beside it what that round accepted.
ghost use Rattle.std.specs.Prelude.{◌≡◌, ◌∷◌, ◌++◌, ◌≤◌, [], IfOk, None, OnOk, length, map, if◌then◌else◌};
ghost use Rattle.std.specs.Arc.{arc_value};
ghost use Rattle.aprs_history.specs.Dials.{casts_to};
ghost use Rattle.server_core.specs.LinkSteps.{ended_all};
ghost use Rattle.served_links.specs.Links.{has_number};
ghost use Rattle.server_core.specs.Meaning.{peer_of};
ghost use Rattle.uplinks_peers.specs.Uplinks.{acts_at, is_dialled, untried, uplinks_after};
ghost use Rattle.uplinks_peers.specs.declared.uplinks.UpEvent.TheVariants as up;

use crate::acts::CastOut;
use aprs_base::{Line, Memory, Shared};
use aprs_conf::PeerSpec;
use served_links::Served;
use std::alloc::Global;
use std::marker::Model;
use std::sync::Arc;
use uplinks_peers::{UpEvent, Uplinks};

/// The uplinks, the one that is to be dialled after the round, the lines that the round has for the peers, and the packets that it
/// accepted, both in order.
#[derive(Drop)]
pub(crate) struct Reach {
    uplinks: Uplinks,
    dial: Option<u16>,
    casts: Vec<CastOut>,
    accepted: Vec<Shared>,
}

impl Model for Reach {
    ghost use Rattle.std.specs.Prelude.{map};
    ghost use Rattle.std.specs.Arc.{arc_value};
    ghost use Rattle.aprs_history.specs.Stands.{ReachSeen};

    ghost Value = { ReachSeen };

    ghost view = { λ r. record { uplinks = r.uplinks; dial = r.dial; casts = r.casts.items; accepted = map arc_value r.accepted.items } };
}

impl Reach {
    /// So many uplinks, each of which may be silent for so many seconds.
    pub fn new(alloc: Global, count: u16, timeout: u32) -> Reach
        ensures { result ≡ record { uplinks = untried count timeout; dial = None; casts = []; accepted = [] } }
    {
        Reach {
            uplinks: Uplinks::new(count, timeout),
            dial: None,
            casts: Vec::new(alloc),
            accepted: Vec::new(alloc),
        }
    }

    /// A round begins.
    pub fn begin(&mut self)
        ensures { self.new ≡ record self.old { dial = None; casts = []; accepted = [] } }
    {
        self.dial = None;
        self.casts.clear();
        self.accepted.clear();
    }

    /// A second has passed: an uplink may be dialled.
    pub fn look(&mut self, now: u64)
        ensures { self.new ≡ record self.old {
          uplinks = uplinks_after up.Tick now self.old.uplinks;
          dial = (acts_at up.Tick now self.old.uplinks).dial;
        } }
    {
        self.dial = self.uplinks.step(UpEvent::Tick, now).dial;
    }

    /// An uplink has joined as that link: whether it was being dialled.
    pub fn join(&mut self, uplink: u16, link: u32, now: u64) -> bool
        ensures joins { self.new ≡ record self.old { uplinks = uplinks_after (up.Joined uplink link) now self.old.uplinks } }
        ensures asked { result ≡ (acts_at (up.Joined uplink link) now self.old.uplinks).login }
    {
        self.uplinks
            .step(UpEvent::Joined { uplink, link }, now)
            .login
    }

    /// Whether an uplink is being dialled.
    pub fn is_dialled(&self, uplink: u16) -> bool
        ensures { result ≡ is_dialled uplink self.now.uplinks.dialled }
    {
        self.uplinks.is_dialled(uplink)
    }

    /// A dial came to nothing.
    pub fn unjoin(&mut self, uplink: u16, now: u64)
        ensures { self.new ≡ record self.old { uplinks = uplinks_after (up.Unjoined uplink) now self.old.uplinks } }
    {
        self.uplinks.step(UpEvent::Unjoined(uplink), now);
    }

    /// A link brought bytes, where it is there.
    pub fn hear_at(&mut self, links: &Served, link: u32, now: u64)
        ensures { self.new ≡ (if has_number link links.now.links then record self.old { uplinks = uplinks_after (up.Heard link) now self.old.uplinks } else self.old) }
    {
        if links.has_link(link) {
            self.uplinks.step(UpEvent::Heard(link), now);
        }
    }

    /// A link ended, where it was there.
    pub fn end_at(&mut self, links: &Served, link: u32, now: u64)
        ensures { self.new ≡ (if has_number link links.now.links then record self.old { uplinks = uplinks_after (up.Ended link) now self.old.uplinks } else self.old) }
    {
        if links.has_link(link) {
            self.end(link, now);
        }
    }

    /// A link ended.
    fn end(&mut self, link: u32, now: u64)
        ensures { self.new ≡ record self.old { uplinks = uplinks_after (up.Ended link) now self.old.uplinks } }
    {
        self.uplinks.step(UpEvent::Ended(link), now);
    }

    /// These links ended, one after another.
    pub fn end_all(&mut self, links: &[u32], now: u64)
        ensures { self.new ≡ record self.old { uplinks = ended_all links.now now self.old.uplinks } }
    {
        for link in links {
            self.end(*link, now);
        }
    }

    /// A line for each peer.
    pub fn cast(&mut self, peers: &[PeerSpec], line: &Arc<Line>) -> Result<(), Memory>
        requires { length peers.now ≤ 8 }
        ensures { OnOk result (self.new ≡ record self.old { casts = self.old.casts ++ casts_to 0 (map peer_of peers.now) (arc_value line.now) }) }
    {
        cast_to(&mut self.casts, peers, line)
    }

    /// A packet was accepted.
    pub fn accept(&mut self, packet: &Shared) -> Result<(), Memory>
        ensures { OnOk result (self.new ≡ record self.old { accepted = self.old.accepted ++ arc_value packet.now ∷ [] }) }
    {
        let packet = packet.clone()?;
        Ok(self.accepted.push(packet)?)
    }

    /// The uplink that is to be dialled.
    pub fn dial(&self) -> Option<u16>
        ensures { result ≡ self.now.dial }
    {
        self.dial
    }

    /// The lines for the peers, which share their bytes with those that are kept.
    pub fn casts(&self, alloc: Global) -> Result<Vec<CastOut>, Memory>
        ensures { IfOk result (λ casts. casts.items ≡ self.now.casts) }
    {
        copy_casts(alloc, self.casts.as_slice())
    }

    /// The packets that were accepted, which share their bytes with those that are kept.
    pub fn accepted(&self, alloc: Global) -> Result<Vec<Shared>, Memory>
        ensures { IfOk result (λ packets. map arc_value packets.items ≡ self.now.accepted) }
    {
        copy_packets(alloc, self.accepted.as_slice())
    }
}

fn cast_to(casts: &mut Vec<CastOut>, peers: &[PeerSpec], line: &Arc<Line>) -> Result<(), Memory>
    requires { length peers.now ≤ 8 }
    ensures { OnOk result (casts.new.items ≡ casts.old.items ++ casts_to 0 (map peer_of peers.now) (arc_value line.now)) }
{
    let mut peer = 0;
    for _spec in peers {
        let line = line.clone()?;
        casts.push(CastOut { peer, line })?;
        peer += 1;
    }
    Ok(())
}

fn copy_casts(alloc: Global, casts: &[CastOut]) -> Result<Vec<CastOut>, Memory>
    ensures { IfOk result (λ copies. copies.items ≡ casts.now) }
{
    let mut copies = Vec::new(alloc);
    for cast in casts {
        let line = cast.line.clone()?;
        copies.push(CastOut {
            peer: cast.peer,
            line,
        })?;
    }
    Ok(copies)
}

fn copy_packets(alloc: Global, packets: &[Shared]) -> Result<Vec<Shared>, Memory>
    ensures { IfOk result (λ copies. map arc_value copies.items ≡ map arc_value packets.now) }
{
    let mut copies = Vec::new(alloc);
    for packet in packets {
        let packet = packet.clone()?;
        copies.push(packet)?;
    }
    Ok(copies)
}
