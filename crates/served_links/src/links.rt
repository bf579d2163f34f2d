//! What is kept of links' sessions, in the order of the links' numbers: what is looked for in it, and done at one place.
ghost use Rattle.std.specs.Prelude.{◌≡◌, ◌++◌, ◌^◌, ℕ, [], IfOk, IsTrue, List, None, OnErr, OnOk, Some, filter, map, option_map, position};
ghost use Rattle.std.specs.Arc.{arc_value};
ghost use Rattle.std.specs.List.{list_any};
ghost use Rattle.std.specs.List.Sorted.{IsStrictlyIncreasing};
ghost use Rattle.aprs_base.specs.Cuts.{cuts_by};
ghost use Rattle.aprs_base.specs.Held.{held_after};
ghost use Rattle.aprs_history.specs.Stands.{LinkSeen};
ghost use Rattle.line_verdict.specs.Voices.{HasStation, voice_of};
ghost use Rattle.served_links.specs.Fed.{AllMatch, offer_of, shows_kept};
ghost use Rattle.served_links.specs.Links.{Rises, client_at, clients_in, down_at, filters_at, has_number, has_that, held_at, here, is_at, is_late_here, is_lost_here, is_none_of, kind_and_from, login_here, named_of, numbers, opening_at, speaker_at, submitted_from};
ghost use Rattle.served_links.specs.Changes.{at_link, is_asked_at, when_gone, with_bytes, with_room};
ghost use Rattle.uplinks_peers.specs.Sides.{is_passed_on};
ghost use Rattle.uplinks_peers.specs.declared.sides.Side.TheVariants as side;
ghost use Rattle.worker_match.specs.Items.{item_seen};
ghost use Rattle.worker_match.specs.Seen.{FeedSeen, Came};
ghost use Rattle.worker_match.specs.Walk.{IsOrdered};

use crate::link::{Down, LinkSession, SourcePlace, Timeouts};
use crate::messages::is_message;
use aprs_base::{Addr, Cut, Cutter, Memory, Packet, Shared, Source};
use aprs_history::LinkKind;
use line_verdict::Voice;
use std::alloc::Global;
use uplinks_peers::{Side, goes_to};
use worker_match::Item;

/// Where the link of that number stands.
pub(crate) fn place_of(links: &[LinkSession], number: u32) -> Option<usize>
    requires { Rises 0 (numbers links.now) (2 ^ 32) }
    ensures { result ≡ position (has_that number) links.now }
{
    links.binary_search_by_key(&number, |link| link.number).ok()
}

/// Where the link of that number stands, which may be at `near`: there it is looked for first.
pub(crate) fn place_near(links: &[LinkSession], near: usize, number: u32) -> Option<usize>
    requires { Rises 0 (numbers links.now) (2 ^ 32) }
    ensures { result ≡ position (has_that number) links.now }
{
    match links.get(near) {
        Some(link) if link.number == number => Some(near),
        _ => place_of(links, number),
    }
}

/// Where the link of that number stands, if it hasn't left. It is looked for at `near` first.
pub(crate) fn place_here_near(links: &[LinkSession], near: usize, number: u32) -> Option<usize>
    requires { Rises 0 (numbers links.now) (2 ^ 32) }
    ensures { result ≡ position (is_at number) links.now }
{
    match place_near(links, near, number) {
        Some(place) if links[place].is_here() => Some(place),
        _ => None,
    }
}

/// Where the link of that number stands, if it hasn't left.
pub(crate) fn place_here(links: &[LinkSession], number: u32) -> Option<usize>
    requires { Rises 0 (numbers links.now) (2 ^ 32) }
    ensures { result ≡ position (is_at number) links.now }
{
    place_here_near(links, links.len(), number)
}

/// A copy of that link's cutter.
pub(crate) fn cutter_at(links: &[LinkSession], number: u32) -> Option<Cutter>
    requires { Rises 0 (numbers links.now) (2 ^ 32) }
    ensures { result ≡ held_at number (here links.now) }
{
    match place_here(links, number) {
        Some(place) => Some(links[place].cutter()),
        None => None,
    }
}

/// The link has room again.
pub(crate) fn give_room(links: &mut Vec<LinkSession>, number: u32)
    requires { Rises 0 (numbers links.old.items) (2 ^ 32) }
    ensures { links.new.items ≡ map (at_link number with_room) links.old.items }
{
    match place_of(links.as_slice(), number) {
        Some(place) => links[place].give_room(),
        None => {}
    }
}

/// A send found the link gone.
pub(crate) fn lose(links: &mut Vec<LinkSession>, number: u32)
    requires { Rises 0 (numbers links.old.items) (2 ^ 32) }
    ensures { links.new.items ≡ map (at_link number when_gone) links.old.items }
{
    match place_of(links.as_slice(), number) {
        Some(place) => links[place].lose(),
        None => {}
    }
}

/// Whether the message rule can ask for the packet nowhere: it is no message, and nobody heard its receiver or is owed it.
fn asks_nobody(packet: &Packet, hearers: &[u32], owed: &[u32]) -> bool
    ensures { IsTrue result → (links : List LinkSeen) → filter (is_asked_at packet.now hearers.now owed.now) links ≡ [] }
{
    if is_message(packet) || !hearers.is_empty() {
        return false;
    }
    owed.is_empty()
}

/// The numbers of the links that the message rule asks for, where these links heard the packet's receiver and are owed it.
fn asked(
    alloc: Global,
    links: &[LinkSession],
    packet: &Packet,
    hearers: &[u32],
    owed: &[u32],
) -> Result<Vec<u32>, Memory>
    requires hearers { IsStrictlyIncreasing hearers.now }
    requires owed { IsStrictlyIncreasing owed.now }
    ensures { IfOk result (λ v. v.items ≡ numbers (filter (is_asked_at packet.now hearers.now owed.now) links.now)) }
{
    let mut numbers = Vec::new(alloc);
    if asks_nobody(packet, hearers, owed) {
        return Ok(numbers);
    }
    for link in links {
        if link.is_asked(packet, hearers, owed) {
            numbers.push(link.number())?;
        }
    }
    Ok(numbers)
}

/// An accepted packet as it is offered to all links.
pub(crate) fn offered(
    alloc: Global,
    links: &[LinkSession],
    packet: &Packet,
    shared: &Shared,
    source: &SourcePlace,
    hearers: &[u32],
    owed: &[u32],
) -> Result<Item, Memory>
    requires hearers { IsStrictlyIncreasing hearers.now }
    requires owed { IsStrictlyIncreasing owed.now }
    requires rises { Rises 0 (numbers links.now) (2 ^ 32) }
    requires same { arc_value shared.now ≡ packet.now }
    ensures exact { IfOk result (λ item. item_seen item ≡ Came (offer_of packet.now source.now (numbers (filter (is_asked_at packet.now hearers.now owed.now) links.now)))) }
    ensures ordered { IfOk result (λ item. IsOrdered (item_seen item)) }
{
    let extra = asked(alloc, links, packet, hearers, owed)?;
    Ok(Item::Packet {
        packet: shared.clone()?,
        dupe: false,
        submitted: source.submitted,
        known: source.place,
        gate: source.gate,
        extra,
    })
}

/// Whether one of them is shown the duplicates that others are refused.
pub(crate) fn shows_any(links: &[LinkSession]) -> bool
    ensures { result ≡ list_any shows_kept links.now }
{
    links.iter().any(|link| link.shows_duplicates())
}

/// The numbers of the links that a send found gone.
pub(crate) fn lost(alloc: Global, links: &[LinkSession]) -> Result<Vec<u32>, Memory>
    ensures { IfOk result (λ v. v.items ≡ numbers (filter is_lost_here links.now)) }
{
    let mut numbers = Vec::new(alloc);
    for link in links {
        if link.is_lost() {
            numbers.push(link.number())?;
        }
    }
    Ok(numbers)
}

/// The numbers of the links that end by time.
pub(crate) fn late(
    alloc: Global,
    links: &[LinkSession],
    timeouts: Timeouts,
    now: u64,
) -> Result<Vec<u32>, Memory>
    ensures { IfOk result (λ v. v.items ≡ numbers (filter (is_late_here timeouts now) links.now)) }
{
    let mut numbers = Vec::new(alloc);
    for link in links {
        if link.is_late(timeouts, now) {
            numbers.push(link.number())?;
        }
    }
    Ok(numbers)
}

/// The links of these numbers leave.
pub(crate) fn drop_these(links: &mut Vec<LinkSession>, numbers: &[u32])
    ensures { links.new.items ≡ filter (is_none_of numbers.now) links.old.items }
{
    links.retain(|link| link.is_none_of(numbers));
}

/// Those that left are let go.
pub(crate) fn sweep(links: &mut Vec<LinkSession>)
    ensures { links.new.items ≡ here links.old.items }
{
    links.retain(|link| link.is_here());
}

/// The numbers of all links.
pub(crate) fn all(alloc: Global, links: &[LinkSession]) -> Result<Vec<u32>, Memory>
    ensures { IfOk result (λ v. v.items ≡ numbers (here links.now)) }
{
    let mut numbers = Vec::new(alloc);
    for link in links {
        if link.is_here() {
            numbers.push(link.number())?;
        }
    }
    Ok(numbers)
}

/// Whether there is a link of that number.
pub(crate) fn has_link(links: &[LinkSession], number: u32) -> bool
    requires { Rises 0 (numbers links.now) (2 ^ 32) }
    ensures { result ≡ has_number number (here links.now) }
{
    place_here(links, number).is_some()
}

/// Who speaks on that link.
pub(crate) fn voice_at(links: &[LinkSession], number: u32) -> Voice
    requires { Rises 0 (numbers links.now) (2 ^ 32) }
    ensures value { result ≡ voice_of (speaker_at number (here links.now)) }
    ensures station { HasStation result }
{
    match place_here(links, number) {
        Some(place) => links[place].voice(),
        None => Voice::Nameless { filters: false },
    }
}

/// What that link is to the server, and where it came from.
pub(crate) fn opened_by(links: &[LinkSession], number: u32) -> Option<(LinkKind, Addr)>
    requires { Rises 0 (numbers links.now) (2 ^ 32) }
    ensures { result ≡ option_map kind_and_from (opening_at number (here links.now)) }
{
    match place_here(links, number) {
        Some(place) => links[place].opened_by(),
        None => None,
    }
}

/// The downlink that this link is, which is looked for at `near` first.
pub(crate) fn down_at(links: &[LinkSession], near: usize, number: u32) -> Option<Down>
    requires { Rises 0 (numbers links.now) (2 ^ 32) }
    ensures { result ≡ down_at number (here links.now) }
{
    match place_here_near(links, near, number) {
        Some(place) => links[place].down(),
        None => None,
    }
}

/// Whether that link is a client.
pub(crate) fn is_client_at(links: &[LinkSession], number: u32) -> bool
    requires { Rises 0 (numbers links.now) (2 ^ 32) }
    ensures { result ≡ client_at number (here links.now) }
{
    match place_here(links, number) {
        Some(place) => links[place].is_client(),
        None => false,
    }
}

/// The side at the other end of that link.
fn side_at(links: &[LinkSession], number: u32) -> Side
    requires { Rises 0 (numbers links.now) (2 ^ 32) }
    ensures { is_passed_on result side.Peer ≡ client_at number (here links.now) }
{
    if is_client_at(links, number) {
        Side::Client
    } else {
        Side::Uplink
    }
}

/// The side that sends what comes from there. A link that is no client is an uplink.
fn side_of(links: &[LinkSession], from: &Source) -> Side
    requires { Rises 0 (numbers links.now) (2 ^ 32) }
    ensures { is_passed_on result side.Peer ≡ submitted_from from.now (here links.now) }
{
    match from {
        Source::Link(number) => side_at(links, *number),
        Source::Submit(_) => Side::Client,
        Source::Peer(_) => Side::Peer,
    }
}

/// Whether what comes from there was submitted here: that alone goes on to peers and uplinks.
pub(crate) fn is_submitted(links: &[LinkSession], from: &Source) -> bool
    requires { Rises 0 (numbers links.now) (2 ^ 32) }
    ensures { result ≡ submitted_from from.now (here links.now) }
{
    goes_to(side_of(links, from), Side::Peer)
}

/// How many clients there are.
pub(crate) fn count_clients(links: &[LinkSession]) -> usize
    ensures { result ≡ clients_in links.now }
{
    let mut count = 0;
    for link in links {
        if link.is_client() {
            count += 1;
        }
    }
    count
}

/// Whether the port of that link has filters.
pub(crate) fn has_filters_at(links: &[LinkSession], number: u32) -> bool
    requires { Rises 0 (numbers links.now) (2 ^ 32) }
    ensures { result ≡ filters_at number (here links.now) }
{
    match place_here(links, number) {
        Some(place) => links[place].has_filters(),
        None => false,
    }
}

/// The link of that number brought bytes: what they cut. `Memory` changes nothing.
pub(crate) fn bring(
    alloc: Global,
    links: &mut Vec<LinkSession>,
    number: u32,
    moment: u64,
    bytes: &[u8],
) -> Result<Vec<Cut>, Memory>
    requires { Rises 0 (numbers links.old.items) (2 ^ 32) }
    ensures named { map named_of links.new.items ≡ map named_of links.old.items }
    ensures logins { map login_here links.new.items ≡ map login_here links.old.items }
    ensures halves { (states : List FeedSeen) → AllMatch links.old.items states → AllMatch links.new.items states }
    ensures links { (before : List ℕ) → held_at number (here links.old.items) ≡ Some (held_after before)
        → OnOk result (links.new.items ≡ map (at_link number (with_bytes moment (held_after (before ++ bytes.now)))) links.old.items) }
    ensures cuts { (before : List ℕ) → held_at number (here links.old.items) ≡ Some (held_after before) → IfOk result (λ cuts. cuts.items ≡ cuts_by before bytes.now) }
    ensures nowhere { held_at number (here links.old.items) ≡ None → IfOk result (λ cuts. (cuts.items ≡ []) × (links.new.items ≡ links.old.items)) }
    ensures err { OnErr result (links.new.items ≡ links.old.items) }
{
    let mut cuts = Vec::new(alloc);
    match place_here(links.as_slice(), number) {
        Some(place) => {
            links[place].bring(alloc, moment, bytes, &mut cuts)?;
            Ok(cuts)
        }
        None => Ok(cuts),
    }
}
