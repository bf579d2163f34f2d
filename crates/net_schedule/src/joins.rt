//! The steps between two servers: pairs that join and are cut, bytes and datagrams that arrive.
ghost use Rattle.std.specs.Prelude.{◌≡◌, ◌+◌, ◌≤◌, IfOk, IsSomeAnd, OnOk, Some, None, drop, is_some, length, map, slice_get, take, true};
ghost use Rattle.net_history.specs.Places.{Each};
ghost use Rattle.std.specs.Option.{option_map};
ghost use Rattle.link_queue.specs.Lines.{ended_line};
ghost use Rattle.net_history.specs.Network.{address_of, changed_at};
ghost use Rattle.net_history.specs.Steps.{address_in, peering};
ghost use Rattle.net_schedule.specs.Asked.{kept_datagram, kept_may_carry, kept_may_join, way_at};
ghost use Rattle.net_schedule.specs.Joined.{HasFewListens, IsPiece, after_carry, after_cut, after_join, after_mail, far_of, kept_mail, no_way, way_carried, way_joined};
ghost use Rattle.net_schedule.specs.Kept.{kept_downlink, kept_told, kept_uplink};
ghost use Rattle.net_schedule.specs.Running.{ServerKept, setting_in};

use crate::rounds::arrive_at;
use crate::servers::Server;
use crate::texts::{address_of, ended};
use crate::ways::{LinkEnd, Way, put, take_out};
use aprs_base::{Addr, Chunk, Event, Memory};
use net_history::{Pair, PeerPair};
use std::alloc::Global;

/// No pair is joined.
pub(crate) fn unjoined(alloc: Global, pairs: &[Pair]) -> Result<Vec<Option<Way>>, Memory>
    ensures { IfOk result (λ ways. ways.items ≡ map no_way pairs.now) }
{
    let mut ways = Vec::new(alloc);
    for _ in pairs {
        ways.push(None)?;
    }
    Ok(ways)
}

/// How a pair is joined, where it is.
pub(crate) fn way_at(ways: &[Option<Way>], pair: u16) -> Option<&Way>
    ensures { option_map (λ (way : _). way.now) result ≡ way_at pair ways.now }
{
    match ways.get(usize::from(pair)) {
        Some(Some(way)) => Some(way),
        _ => None,
    }
}

/// Whether a pair can join: its uplink was dialled, and a link more can be made at each end.
pub(crate) fn may_join(servers: &[Server], pair: &Pair) -> bool
    ensures { result ≡ kept_may_join servers.now (Some pair.now) }
{
    let Some(low) = servers.get(usize::from(pair.low)) else {
        return false;
    };
    if pair.low == pair.high {
        return low.is_dialled(pair.uplink) && low.has_room(2);
    }
    let Some(high) = servers.get(usize::from(pair.high)) else {
        return false;
    };
    low.is_dialled(pair.uplink) && low.has_room(1) && high.has_room(1)
}

/// Whether so many bytes can arrive.
pub(crate) fn may_carry(way: &Way, up: bool, n: u16) -> bool
    ensures { result ≡ kept_may_carry up n (Some way.now) }
{
    let waiting = if up { way.up.len() } else { way.down.len() };
    1 <= n && n <= 1460 && usize::from(n) <= waiting
}

/// What number each of the two is among the other's peers: the receiver among the sender's, and the sender among the receiver's.
pub(crate) fn peering(peers: &[PeerPair], from: u16, to: u16) -> Option<(u16, u16)>
    ensures { result ≡ peering from to peers.now }
{
    for pair in peers {
        if pair.a == from && pair.b == to {
            return Some((pair.at_a, pair.at_b));
        }
        if pair.a == to && pair.b == from {
            return Some((pair.at_b, pair.at_a));
        }
    }
    None
}

/// The next link of a server, for one end of a pair.
fn next_end(servers: &[Server], server: u16) -> LinkEnd
    ensures { (kept : ServerKept) → slice_get servers.now server ≡ Some kept → length kept.made + 1 ≤ 4294967295 → result ≡ record { server = server; place = length kept.made } }
{
    let link = match servers.get(usize::from(server)) {
        Some(server) => server.next_link(),
        None => 0,
    };
    LinkEnd::new(server, link)
}

/// The uplink of a pair joins at the low end.
#[tactic(auto, using(crate::proofs::ListLemmas::past_changed, crate::proofs::ListLemmas::set_changed))]
fn join_low(servers: &mut [Server], pair: &Pair) -> Result<(), Memory>
    ensures { (kept : ServerKept) → slice_get servers.old pair.now.low ≡ Some kept → length kept.made + 1 ≤ 4294967295
        → OnOk result (servers.new ≡ changed_at (kept_uplink pair.now.uplink (address_of pair.now.high)) pair.now.low servers.old) }
{
    let place = usize::from(pair.low);
    if place >= servers.len() {
        return Ok(());
    }
    servers[place].join(pair.uplink, address_of(pair.high))
}

/// A listener opens a link for it at the high end.
#[tactic(auto, using(crate::proofs::ListLemmas::past_changed, crate::proofs::ListLemmas::set_changed))]
fn join_high(servers: &mut [Server], pair: &Pair) -> Result<(), Memory>
    ensures { (kept : ServerKept) → slice_get servers.old pair.now.high ≡ Some kept → length kept.made + 1 ≤ 4294967295
        → OnOk result (servers.new ≡ changed_at (kept_downlink pair.now.listener (address_of pair.now.low)) pair.now.high servers.old) }
{
    let place = usize::from(pair.high);
    if place >= servers.len() {
        return Ok(());
    }
    servers[place].admit(pair.listener, address_of(pair.low))
}

/// A pair joins: nothing is on its way at first.
pub(crate) fn join(
    alloc: Global,
    servers: &mut [Server],
    ways: &mut [Option<Way>],
    number: u16,
    pair: &Pair,
) -> Result<(), Memory>
    ensures servers { kept_may_join servers.old (Some pair.now) ≡ true → OnOk result (servers.new ≡ after_join pair.now servers.old) }
    ensures ways { kept_may_join servers.old (Some pair.now) ≡ true → OnOk result (ways.new ≡ changed_at (way_joined pair.now servers.old) number ways.old) }
{
    let low = next_end(servers, pair.low);
    join_low(servers, pair)?;
    let high = next_end(servers, pair.high);
    join_high(servers, pair)?;
    let way = Way {
        low,
        high,
        up: Vec::new(alloc),
        down: Vec::new(alloc),
    };
    put(ways, number, way);
    Ok(())
}

/// The link at one end of a pair has ended.
fn end_at(servers: &mut [Server], end: LinkEnd) -> Result<(), Memory>
    ensures { OnOk result (servers.new ≡ kept_told (Some end) servers.old) }
{
    arrive_at(servers, end.server(), Event::Ended(end.number()))
}

/// A pair is cut: what was on its way is lost.
pub(crate) fn cut(
    servers: &mut [Server],
    ways: &mut [Option<Way>],
    number: u16,
) -> Result<(), Memory>
    ensures servers { OnOk result (servers.new ≡ after_cut (way_at number ways.old) servers.old) }
    ensures ways { OnOk result (ways.new ≡ changed_at (λ way. None) number ways.old) }
{
    let Some(way) = take_out(ways, number) else {
        return Ok(());
    };
    end_at(servers, way.low)?;
    end_at(servers, way.high)
}

/// The first bytes on their way are taken from there.
fn take_first(bytes: &mut Vec<u8>, n: u16) -> Option<Chunk>
    ensures some { (n ≤ 1460) → (n ≤ length bytes.old.items) → IsSomeAnd result (λ chunk. chunk ≡ take n bytes.old.items) }
    ensures rest { bytes.new.items ≡ drop n bytes.old.items }
{
    let count = usize::from(n).min(bytes.len());
    let chunk = Chunk::new(&bytes.as_slice()[..count]);
    bytes.drain(..count);
    chunk
}

/// The end to which bytes go on that way.
fn far_end(way: &Way, up: bool) -> LinkEnd
    ensures { result ≡ far_of up way.now }
{
    if up { way.high } else { way.low }
}

/// The next bytes on that way of a pair, and the end to which they go.
fn take_piece(way: &mut Option<Way>, up: bool, n: u16) -> Option<(LinkEnd, Chunk)>
    ensures piece { kept_may_carry up n way.old ≡ true → IsPiece up n way.old result }
    ensures rest { way.new ≡ way_carried up n way.old }
{
    let way = way.as_mut()?;
    let to = far_end(way, up);
    let bytes = if up {
        take_first(&mut way.up, n)
    } else {
        take_first(&mut way.down, n)
    };
    Some((to, bytes?))
}

/// The next bytes on that way of the pair of that number, and the end to which they go.
#[tactic(auto, using(crate::proofs::ListLemmas::past_changed, crate::proofs::ListLemmas::set_changed))]
fn take_piece_of(
    ways: &mut [Option<Way>],
    number: u16,
    up: bool,
    n: u16,
) -> Option<(LinkEnd, Chunk)>
    ensures piece { kept_may_carry up n (way_at number ways.old) ≡ true → IsPiece up n (way_at number ways.old) result }
    ensures rest { ways.new ≡ changed_at (way_carried up n) number ways.old }
{
    let place = usize::from(number);
    if place >= ways.len() {
        return None;
    }
    take_piece(&mut ways[place], up, n)
}

/// The next bytes on their way arrive.
pub(crate) fn carry(
    servers: &mut [Server],
    ways: &mut [Option<Way>],
    number: u16,
    up: bool,
    n: u16,
) -> Result<(), Memory>
    ensures servers { kept_may_carry up n (way_at number ways.old) ≡ true → OnOk result (servers.new ≡ after_carry up n (way_at number ways.old) servers.old) }
    ensures ways { OnOk result (ways.new ≡ changed_at (way_carried up n) number ways.old) }
{
    match take_piece_of(ways, number, up, n) {
        Some((to, bytes)) => arrive_at(servers, to.server(), Event::Bytes(to.number(), bytes)),
        None => Ok(()),
    }
}

/// The datagram of that number, counted from 1, which the one server cast to its peers.
fn datagram(servers: &[Server], from: u16, k: u32) -> Option<Chunk>
    ensures { result ≡ option_map ended_line (kept_datagram k (slice_get servers.now from)) }
{
    let place = k.checked_sub(1)?;
    let line = servers.get(usize::from(from))?.casts.get(place as usize)?;
    Some(ended(line))
}

/// Whether there is such a datagram.
pub(crate) fn may_cast(servers: &[Server], from: u16, k: u32) -> bool
    ensures { result ≡ is_some (kept_datagram k (slice_get servers.now from)) }
{
    match servers.get(usize::from(from)) {
        Some(server) => 1 <= k && ((k - 1) as usize) < server.casts.len(),
        None => false,
    }
}

/// The address that a server has for a peer.
fn peer_address(server: &Server, peer: u16) -> Addr
    ensures { result ≡ address_in (slice_get (setting_in server.now).peers peer) }
{
    match server.core.conf().peers.get(usize::from(peer)) {
        Some(peer) => peer.at,
        None => address_of(0),
    }
}

/// A datagram comes to the listener of a server's peer group, the last one.
fn take_datagram(server: &mut Server, peer: u16, bytes: Chunk) -> Result<(), Memory>
    ensures { length server.old.listens ≤ 65536 → OnOk result (server.new ≡ kept_mail peer bytes server.old) }
{
    let last = server.listens.len().saturating_sub(1);
    let from = peer_address(server, peer);
    server.arrive(Event::Datagram {
        listener: u16::try_from(last).unwrap_or(u16::MAX),
        from,
        bytes,
    })
}

/// The datagram of that number arrives, from the address that the receiver has for the sender.
#[tactic(auto, using(crate::proofs::ListLemmas::past_changed, crate::proofs::ListLemmas::set_changed))]
pub(crate) fn mail(
    servers: &mut [Server],
    from: u16,
    to: u16,
    k: u32,
    peer: u16,
) -> Result<(), Memory>
    ensures { Each HasFewListens servers.old → OnOk result (servers.new ≡ after_mail to peer (option_map ended_line (kept_datagram k (slice_get servers.old from))) servers.old) }
{
    let Some(bytes) = datagram(servers, from, k) else {
        return Ok(());
    };
    let place = usize::from(to);
    if place >= servers.len() {
        return Ok(());
    }
    take_datagram(&mut servers[place], peer, bytes)
}
