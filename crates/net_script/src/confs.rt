//! The configurations of a script's servers.
ghost use Rattle.std.specs.Prelude.{◌≡◌, ◌++◌, [], map, replicate, IfOk, IsTrue, OnOk};
ghost use Rattle.std.specs.List.{AllZip, cons_option, list_any};
ghost use Rattle.std.specs.Option.{option_map};
ghost use Rattle.aprs_base.specs.Bytes.{is_station};
ghost use Rattle.aprs_conf.specs.Sound.{IsSound, IsWithin};
ghost use Rattle.net_history.specs.Network.{address_of};
ghost use Rattle.net_script.specs.Grammar.{has_peer};
ghost use Rattle.net_script.specs.Layouts.{HasSetting, IsConfOf, beyond, group_of, layout_of, peer_in, peer_of, peers_at, plain_conf, setting_at, some_uplink};
ghost use Rattle.net_script.specs.Limits.{KeepsLimits};

use crate::servers::count_uplinks;
use crate::types::{Script, ScriptServer};
use aprs_base::{Addr, Memory, UplinkSpec, copy_call};
use aprs_conf::{Conf, PeerSpec, read as read_conf};
use arrayvec::ArrayVec;
use login_pass::passcode;
use net_history::PeerPair;
use std::alloc::Global;

/// A configuration of which the lines say no more than they must. No text of a network shows its ports.
const PLAIN_CONF: &[u8] = b"ServerId NONE\nPassCode 0\n\
Listen \"full\" fullfeed tcp 0.0.0.0 10152\nListen \"igate\" igate tcp 0.0.0.0 14580\n";

fn plain_conf(alloc: Global) -> Result<Conf, Memory>
    ensures { IfOk result (λ conf. conf ≡ plain_conf) }
{
    match read_conf(alloc, PLAIN_CONF) {
        Ok(conf) => Ok(conf),
        Err(_) => Err(Memory),
    }
}

/// The address of a server: 10.0 and its number.
fn address_of(server: u16) -> Addr
    ensures { result ≡ address_of server }
{
    Addr {
        ip: [10, 0, (server / 256) as u8, (server % 256) as u8],
        port: 1,
    }
}

/// An uplink. No text of a network shows where it goes.
fn some_uplink() -> UplinkSpec
    ensures { result ≡ some_uplink }
{
    let mut host = ArrayVec::new();
    host.try_extend_from_slice(b"10.0.0.0").unwrap();
    UplinkSpec { host, port: 1 }
}

fn some_uplinks(alloc: Global, count: usize) -> Result<Vec<UplinkSpec>, Memory>
    ensures { IfOk result (λ uplinks. uplinks.items ≡ replicate count some_uplink) }
{
    let mut uplinks = Vec::new(alloc);
    for _ in 0..count {
        uplinks.push(some_uplink())?;
    }
    Ok(uplinks)
}

/// The other server of a pair of peers, where this one is of it.
fn beyond(server: u16, pair: &PeerPair) -> Option<u16>
    ensures { result ≡ beyond server pair.now }
{
    if pair.a == server {
        Some(pair.b)
    } else if pair.b == server {
        Some(pair.a)
    } else {
        None
    }
}

fn has_peers(server: u16, peers: &[PeerPair]) -> bool
    ensures { result ≡ list_any (has_peer server) peers.now }
{
    peers
        .iter()
        .any(|pair| pair.a == server || pair.b == server)
}

/// Where a server with peers takes their datagrams.
fn group_of(server: u16, peers: &[PeerPair]) -> Option<Addr>
    ensures { result ≡ group_of server peers.now }
{
    if has_peers(server, peers) {
        Some(address_of(server))
    } else {
        None
    }
}

/// Puts a peer behind the others, where there is one.
fn push_some(peers: &mut Vec<PeerSpec>, peer: Option<PeerSpec>) -> Result<(), Memory>
    ensures { OnOk result (map peer_of peers.new.items ≡ map peer_of peers.old.items ++ cons_option (option_map peer_of peer) []) }
{
    if let Some(peer) = peer {
        peers.push(peer)?;
    }
    Ok(())
}

impl Script {
    /// The peer that a pair gives to a server.
    fn peer_in(&self, server: u16, pair: &PeerPair) -> Option<PeerSpec>
        ensures { option_map peer_of result ≡ peer_in self.now server pair.now }
    {
        let other = beyond(server, pair)?;
        let made = self.servers.get(usize::from(other))?;
        Some(PeerSpec {
            call: copy_call(&made.call),
            at: address_of(other),
        })
    }

    fn peers_of(&self, alloc: Global, server: u16) -> Result<Vec<PeerSpec>, Memory>
        ensures { IfOk result (λ peers. map peer_of peers.items ≡ peers_at self.now server) }
    {
        let mut peers = Vec::new(alloc);
        for pair in &self.peers {
            push_some(&mut peers, self.peer_in(server, pair))?;
        }
        Ok(peers)
    }

    /// The configuration of a server of that number.
    fn conf(&self, alloc: Global, number: u16, server: &ScriptServer) -> Result<Conf, Memory>
        ensures setting { IfOk result (λ conf. HasSetting conf (setting_at self.now number server.now)) }
        ensures sound { KeepsLimits self.now → IsTrue (is_station server.now.call) → IsWithin 10 300 server.now.window → IfOk result IsSound }
    {
        let mut conf = plain_conf(alloc)?;
        conf.server = copy_call(&server.call);
        conf.code = u32::from(passcode(&server.call));
        conf.uplinks = some_uplinks(alloc, count_uplinks(self.pairs.as_slice(), number))?;
        conf.group = group_of(number, self.peers.as_slice());
        conf.peers = self.peers_of(alloc, number)?;
        conf.dupe_window = server.window;
        Ok(conf)
    }

    /// The configurations of its servers, in order: a full and an igate listener, an uplink for each `uplink` line, a peer for each
    /// `peer` line, and all else as where a configuration says nothing.
    pub fn confs(&self, alloc: Global) -> Result<Vec<Conf>, Memory>
        requires { KeepsLimits self.now }
        ensures { IfOk result (λ confs. AllZip IsConfOf confs.items (layout_of self.now).servers) }
    {
        let mut confs = Vec::new(alloc);
        let mut number: u16 = 0;
        for server in &self.servers {
            confs.push(self.conf(alloc, number, server)?)?;
            number += 1;
        }
        Ok(confs)
    }
}
