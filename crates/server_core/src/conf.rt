//! What the core asks of a configuration.
ghost use Rattle.std.specs.Prelude.{◌≡◌, ◌+◌, ◌-◌, ◌++◌, OnOk, ◌≤◌, Some, None, IfOk, IfErr, IfSome, IsTrue, true, length, map, option_map, slice_get};
ghost use Rattle.std.specs.List.{list_all, list_any};
ghost use Rattle.aprs_base.specs.Bytes.{is_station};
ghost use Rattle.aprs_history.specs.Downs.{may_be_down, port_of_link};
ghost use Rattle.aprs_history.specs.Setting.{is_client_kind, is_same_down, kind_at, kind_of_spec, peer_from};
ghost use Rattle.aprs_history.specs.Journal.{group_of};
ghost use Rattle.server_core.specs.Meaning.{address_by, caster, casts_to, downs_of, idle_specs, kind_in, listeners, numbered, peer_of, serving, setting_of, timeouts_of};

use aprs_base::{Addr, Call, ListenSpec, Memory, PortKind};
use aprs_conf::{Conf, Listen, PeerSpec, count_numbered};
use aprs_history::LinkKind;
use served_links::Timeouts;
use std::alloc::Global;

/// The server's call.
pub(crate) fn server_of(conf: &Conf) -> &Call
    ensures { result.now ≡ conf.now.server }
{
    &conf.server
}

/// The most clients that may be there at once.
pub(crate) fn most_clients(conf: &Conf) -> usize
    ensures { result ≡ conf.now.max_clients }
{
    conf.max_clients as usize
}

/// The seconds that a client may be silent.
fn client_timeout(conf: &Conf) -> u32
    ensures { result ≡ conf.now.client_timeout }
{
    conf.client_timeout
}

/// The seconds that an uplink may be silent.
pub(crate) fn uplink_timeout(conf: &Conf) -> u32
    ensures { result ≡ conf.now.up_timeout }
{
    conf.up_timeout
}

/// For how many seconds a packet is a duplicate of one that was accepted.
pub(crate) fn dupe_window(conf: &Conf) -> u32
    ensures { result ≡ conf.now.dupe_window }
{
    conf.dupe_window
}

/// After how many seconds without bytes links end.
pub(crate) fn timeouts(conf: &Conf) -> Timeouts
    ensures { result ≡ timeouts_of conf.now }
{
    Timeouts {
        client: client_timeout(conf),
        uplink: uplink_timeout(conf),
    }
}

/// The server's passcode.
pub(crate) fn code_of(conf: &Conf) -> u32
    ensures { result ≡ conf.now.code }
{
    conf.code
}

pub(crate) fn peers_of(conf: &Conf) -> &[PeerSpec]
    ensures { result.now ≡ conf.now.peers }
{
    conf.peers.as_slice()
}

/// The listeners that have a number, in order.
fn numbered_listens(alloc: Global, listens: &[Listen]) -> Result<Vec<ListenSpec>, Memory>
    ensures { IfOk result (λ specs. specs.items ≡ numbered listens.now) }
{
    let mut specs = Vec::new(alloc);
    for listen in listens {
        if !listen.idle {
            specs.push(listen.spec)?;
        }
    }
    Ok(specs)
}

/// The listeners that lines are only cast from come last, in order.
fn put_casters(listens: &[Listen], specs: &mut Vec<ListenSpec>) -> Result<(), Memory>
    ensures { OnOk result (specs.new.items ≡ specs.old.items ++ map caster (idle_specs listens.now)) }
{
    for listen in listens {
        if listen.idle {
            specs.push(ListenSpec {
                kind: PortKind::Submit,
                at: listen.spec.at,
            })?;
        }
    }
    Ok(())
}

/// All listeners, in the order of their numbers: those that aren't idle, that of the peer group, and last those that lines are
/// only cast from, which take submissions for the wire.
pub fn listeners(alloc: Global, conf: &Conf) -> Result<Vec<ListenSpec>, Memory>
    ensures { IfOk result (λ specs. specs.items ≡ listeners conf.now) }
{
    let mut specs = numbered_listens(alloc, conf.listens.as_slice())?;
    if let Some(at) = conf.group {
        specs.push(ListenSpec {
            kind: PortKind::Core,
            at,
        })?;
    }
    put_casters(conf.listens.as_slice(), &mut specs)?;
    Ok(specs)
}

/// The listener of that number among those that aren't idle, or how many numbers further it is than they go.
fn numbered_at(listens: &[Listen], number: usize) -> Result<ListenSpec, usize>
    ensures found { IfOk result (λ spec. slice_get (numbered listens.now) number ≡ Some spec) }
    ensures left { IfErr result (λ left. (slice_get (numbered listens.now) number ≡ None) × (length (numbered listens.now) + left ≡ number)) }
{
    let mut left = number;
    for listen in listens {
        if !listen.idle {
            if left == 0 {
                return Ok(listen.spec);
            }
            left -= 1;
        }
    }
    Err(left)
}

/// The number of the last listener that serves what comes there.
fn last_serving(conf: &Conf) -> u16
    requires { length (numbered conf.now.listens) ≤ 16 }
    ensures { result ≡ length (serving conf.now) - 1 }
{
    let count = count_numbered(conf.listens.as_slice());
    let last = match conf.group {
        Some(_) => count,
        None => count.saturating_sub(1),
    };
    u16::try_from(last).unwrap_or(0)
}

/// The number of the peer group's listener, which is the last that serves what comes there.
pub(crate) fn group_of(conf: &Conf) -> u16
    requires { length (numbered conf.now.listens) ≤ 16 }
    ensures { result ≡ group_of (setting_of conf.now) }
{
    last_serving(conf)
}

/// What the listener of that number serves, among those that serve what comes there. That of the peer group comes after all others.
fn kind_among(conf: &Conf, listener: u16) -> Option<PortKind>
    ensures { result ≡ kind_of_spec (slice_get (serving conf.now) listener) }
{
    match numbered_at(conf.listens.as_slice(), usize::from(listener)) {
        Ok(spec) => Some(spec.kind),
        Err(0) if conf.group.is_some() => Some(PortKind::Core),
        Err(_) => None,
    }
}

/// What the listener of that number serves: nothing where there is none, or where lines are only cast from it.
pub(crate) fn served_by(conf: &Conf, listener: u16) -> Option<PortKind>
    ensures { result ≡ kind_at (setting_of conf.now) listener }
{
    kind_among(conf, listener)
}

/// Whether it is a kind of port whose links may have their lines cast, and the same.
fn is_same_down(one: PortKind, other: PortKind) -> bool
    ensures { result ≡ is_same_down one other }
{
    match one {
        PortKind::Full => matches!(other, PortKind::Full),
        PortKind::Igate => matches!(other, PortKind::Igate),
        PortKind::Only => matches!(other, PortKind::Only),
        PortKind::Dupe | PortKind::Submit | PortKind::Core => false,
    }
}

/// Whether the listener is one that lines are cast from to links of such ports.
fn casts_to(listen: &Listen, port: PortKind) -> bool
    ensures { result ≡ casts_to port listen.now }
{
    listen.idle && is_same_down(port, listen.spec.kind)
}

/// Whether lines are cast to links of such ports.
fn has_caster(listens: &[Listen], port: PortKind) -> bool
    ensures { result ≡ list_any (casts_to port) listens.now }
{
    listens.iter().any(|listen| casts_to(listen, port))
}

/// Whether links of such ports may have their lines cast.
fn has_down(listens: &[Listen], port: PortKind) -> bool
    ensures { result ≡ list_any (is_same_down port) (map kind_in (idle_specs listens.now)) }
{
    has_caster(listens, port)
}

/// Whether a link of that kind may have its lines cast.
fn may_be_down(conf: &Conf, kind: LinkKind) -> bool
    ensures { result ≡ may_be_down (downs_of conf.now) kind }
{
    match kind {
        LinkKind::Client(port) => has_down(conf.listens.as_slice(), port),
        LinkKind::Uplink(_) => false,
    }
}

/// That port of where a link came from.
fn port_of_link(from: Addr, port: Option<u16>) -> Option<Addr>
    ensures { result ≡ option_map (port_of_link from) port }
{
    match port {
        Some(port) => {
            let ip = from.ip;
            Some(Addr { ip, port })
        }
        None => None,
    }
}

/// The address that a link of that kind, which came from there, asks its lines to be cast to: that port, where it came from.
pub(crate) fn asked_addr(conf: &Conf, opened: (LinkKind, Addr), port: Option<u16>) -> Option<Addr>
    ensures { result ≡ address_by (downs_of conf.now) opened port }
{
    let (kind, from) = opened;
    if may_be_down(conf, kind) {
        port_of_link(from, port)
    } else {
        None
    }
}

/// Whether clients connect to ports of this kind.
pub(crate) fn is_client_kind(kind: PortKind) -> bool
    ensures { result ≡ is_client_kind kind }
{
    match kind {
        PortKind::Full | PortKind::Igate | PortKind::Only | PortKind::Dupe => true,
        PortKind::Submit | PortKind::Core => false,
    }
}

/// The number and the call of the first peer that has this address, port and all.
pub(crate) fn peer_from(peers: &[PeerSpec], at: Addr) -> Option<(u16, &Call)>
    requires { length peers.now ≤ 8 }
    ensures peer { option_map (λ peer. (peer.0, peer.1.now)) result ≡ peer_from 0 (map peer_of peers.now) at }
    ensures station { list_all (λ peer. is_station peer.call) peers.now ≡ true → IfSome result (λ peer. IsTrue (is_station peer.1.now)) }
{
    let mut number = 0;
    for peer in peers {
        if peer.at == at {
            return Some((number, &peer.call));
        }
        number += 1;
    }
    None
}
