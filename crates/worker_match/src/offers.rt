//! A packet as it is offered to links.
ghost use Rattle.std.specs.Prelude.{◌≡◌, ◌==◌, ◌↔◌, IfOk, IfSome, IsSome, IsTrue, length};
ghost use Rattle.std.specs.List.{list_any};
ghost use Rattle.std.specs.List.Sorted.{IsStrictlyIncreasing};
ghost use Rattle.worker_match.specs.Items.{item_seen, items_seen};
ghost use Rattle.worker_match.specs.Runs.{fresh, is_packet};
ghost use Rattle.worker_match.specs.Seen.{Came, came_all};
ghost use Rattle.worker_match.specs.Walk.{is_from, told_by, told_in};

use crate::items::Item;
use aprs_base::{Memory, Packet, Source};
use filter_eval::Seen;
use station_table::seen_in;
use std::alloc::Global;
use std::marker::Model;

/// A packet with what is known of its source, and the links that are to have it whatever their filters pass.
#[derive(Drop)]
pub(crate) struct Offer<'a> {
    pub packet: &'a Packet,
    pub dupe: bool,
    pub submitted: bool,
    pub known: &'a Option<Seen>,
    pub gate: bool,
    pub extra: &'a [u32],
    /// Where it tells that its source is: what many links ask for is read once.
    told: Option<Seen>,
}

impl<'a> Model for Offer<'a> {
    ghost use Rattle.std.specs.Prelude.{◌≡◌};
    ghost use Rattle.worker_match.specs.Seen.{OfferSeen};
    ghost use Rattle.worker_match.specs.Walk.{told_in};

    ghost Value = { OfferSeen };

    ghost view = { λ o. record {
      packet = o.packet.now;
      dupe = o.dupe;
      submitted = o.submitted;
      known = o.known.now;
      gate = o.gate;
      extra = o.extra.now;
    } };

    ghost invariant = { λ o. o.told ≡ told_in o.dupe o.packet.now };
}

impl<'a> Offer<'a> {
    /// Whether the packet came from that link.
    pub fn is_from(&self, link: u32) -> bool
        ensures { result ≡ is_from link self.now.packet.from }
    {
        let packet = self.packet;
        is_from(link, &packet.from)
    }

    /// Where it tells that its source is.
    pub fn told(&self) -> &Option<Seen>
        ensures { result.now ≡ told_by self.now }
    {
        &self.told
    }

    /// How many lines of a run are its own: a refused duplicate has none.
    pub fn run_lines(&self) -> usize
        ensures { result ≡ length (fresh self.now.dupe self.now.packet.line) }
    {
        if self.dupe { 0 } else { 1 }
    }

    /// Whether the message rule asks for it at that link.
    pub fn is_owed(&self, link: u32) -> bool
        requires { IsStrictlyIncreasing self.now.extra }
        ensures { result ≡ list_any (λ other. link == other) self.now.extra }
    {
        is_among(link, self.extra)
    }
}

/// The packet of an item, where it is one.
pub(crate) fn offered(item: &Item) -> Option<Offer<'_>>
    ensures is { IfSome result (λ offer. item_seen item.now ≡ Came offer) }
    ensures packet { IsSome result ↔ IsTrue (is_packet (item_seen item.now)) }
{
    match item {
        Item::Packet {
            packet,
            dupe,
            submitted,
            known,
            gate,
            extra,
        } => Some(Offer {
            packet,
            dupe: *dupe,
            submitted: *submitted,
            known,
            gate: *gate,
            extra: extra.as_slice(),
            told: told_in(*dupe, packet),
        }),
        Item::Text { .. } | Item::All { .. } | Item::End { .. } | Item::Session { .. } => None,
    }
}

/// Where a packet tells that its source is, which a refused duplicate doesn't.
fn told_in(dupe: bool, packet: &Packet) -> Option<Seen>
    ensures { result ≡ told_in dupe packet.now }
{
    if dupe { None } else { seen_in(packet) }
}

/// The packets of items, where these are packets alone.
pub(crate) fn offers_of(items: &[Item]) -> Result<Option<Vec<Offer<'_>>>, Memory>
    ensures { IfOk result (λ offers. IfSome offers (λ offers. came_all offers.items ≡ items_seen items.now)) }
{
    match memory_of(items) {
        Some(alloc) => offers_in(alloc, items),
        None => Ok(None),
    }
}

/// The packets of items, where these are packets alone, as a list in that memory.
fn offers_in(alloc: Global, items: &[Item]) -> Result<Option<Vec<Offer<'_>>>, Memory>
    ensures { IfOk result (λ offers. IfSome offers (λ offers. came_all offers.items ≡ items_seen items.now)) }
{
    let mut offers = Vec::with_capacity(alloc, items.len())?;
    for item in items {
        let Some(offer) = offered(item) else {
            return Ok(None);
        };
        offers.push(offer)?;
    }
    Ok(Some(offers))
}

/// Where the first packet has its memory.
fn memory_of(items: &[Item]) -> Option<Global> {
    match items.first() {
        Some(Item::Packet { extra, .. }) => Some(*extra.allocator()),
        _ => None,
    }
}

fn is_among(number: u32, numbers: &[u32]) -> bool
    requires { IsStrictlyIncreasing numbers.now }
    ensures { result ≡ list_any (λ other. number == other) numbers.now }
{
    numbers.binary_search(&number).is_ok()
}

fn is_from(link: u32, from: &Source) -> bool
    ensures { result ≡ is_from link from.now }
{
    match from {
        Source::Link(number) => link == *number,
        Source::Submit(_) | Source::Peer(_) => false,
    }
}
