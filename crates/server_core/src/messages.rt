//! Messages: whom they are for, which links heard their receivers, and which are owed their senders' positions.
ghost use Rattle.std.specs.Prelude.{◌≡◌, List, OnOk, IfOk};
ghost use Rattle.std.specs.List.Sorted.{IsStrictlyIncreasing};
ghost use Rattle.aprs_base.specs.declared.texts.Word9.{Word9};
ghost use Rattle.aprs_history.specs.Messages.{is_message, is_position};
ghost use Rattle.aprs_history.specs.Stands.{LinkSeen};
ghost use Rattle.heard_routing.specs.Heard.{courtesies, without_promises};
ghost use Rattle.served_links.specs.Links.{submitted_from};
ghost use Rattle.server_core.specs.LinkSteps.{call_in, forgotten_all, hearers_of, may_promise, noted_from, promised_all, promised_one, receiver_of};

use aprs_base::{Call, Memory, Packet, Source, Word9};
use aprs_body::class;
use heard_routing::Heard;
use served_links::{Served, is_from, is_message};
use std::alloc::Global;

pub(crate) fn is_position(packet: &Packet) -> bool
    ensures { result ≡ is_position packet.now }
{
    packet.body.class & class::POSITION != 0
}

/// The word, where it is a call.
fn call_in(to: &Option<Word9>) -> Option<Call>
    ensures { result ≡ call_in to.now }
{
    match to {
        Some(to) => Call::read(to.bytes()),
        None => None,
    }
}

/// The receiver of a message, where it is a call.
pub(crate) fn receiver_of(packet: &Packet) -> Option<Call>
    ensures { result ≡ receiver_of packet.now }
{
    if is_message(packet) {
        call_in(&packet.body.to)
    } else {
        None
    }
}

/// The links that heard the receiver, rising.
pub(crate) fn hearers_of(
    alloc: Global,
    heard: &Heard,
    now: u64,
    to: &Option<Call>,
) -> Result<Vec<u32>, Memory>
    ensures hearers { IfOk result (λ links. links.items ≡ hearers_of now heard.now to.now) }
    ensures rises { IfOk result (λ links. IsStrictlyIncreasing links.items) }
{
    let mut links = Vec::new(alloc);
    if let Some(to) = to {
        heard.receivers(alloc, to, now, &mut links)?;
    }
    Ok(links)
}

/// The links that are owed the sender's position, rising. The promises are spent.
pub(crate) fn owed_to(
    alloc: Global,
    heard: &mut Heard,
    now: u64,
    sender: &Call,
) -> Result<Vec<u32>, Memory>
    ensures owed { IfOk result (λ links. links.items ≡ courtesies heard.old sender.now now) }
    ensures rises { IfOk result (λ links. IsStrictlyIncreasing links.items) }
    ensures spent { OnOk result (heard.new ≡ without_promises sender.now heard.old) }
{
    let mut links = Vec::new(alloc);
    heard.courtesy(alloc, sender, now, &mut links)?;
    Ok(links)
}

/// Whether a link may be promised the next position of a sender from elsewhere.
fn may_promise(links: &Served, from: &Source, link: u32) -> bool
    ensures { result ≡ may_promise links.now.links from.now link }
{
    !is_from(link, from) && links.has_filters_at(link)
}

/// Promises a link the sender's next position, where it may have one.
fn promise_one(
    alloc: Global,
    heard: &mut Heard,
    links: &Served,
    from: &Source,
    sender: &Call,
    now: u64,
    link: u32,
) -> Result<(), Memory>
    ensures { OnOk result (heard.new ≡ promised_one links.now.links from.now sender.now now link heard.old) }
{
    if may_promise(links, from, link) {
        heard.promise(alloc, link, sender, now)?;
    }
    Ok(())
}

/// Promises it to several links, one after another.
pub(crate) fn promise_all(
    alloc: Global,
    heard: &mut Heard,
    links: &Served,
    from: &Source,
    sender: &Call,
    now: u64,
    hearers: &[u32],
) -> Result<(), Memory>
    ensures { OnOk result (heard.new ≡ promised_all links.now.links from.now sender.now now hearers.now heard.old) }
{
    for link in hearers {
        promise_one(alloc, heard, links, from, sender, now, *link)?;
    }
    Ok(())
}

/// A client has heard the source of its packet: a link whose packets are submitted here is a client's.
pub(crate) fn note_from(
    alloc: Global,
    heard: &mut Heard,
    from: &Source,
    submitted: bool,
    call: &Call,
    now: u64,
) -> Result<(), Memory>
    ensures { (links : List LinkSeen) → submitted ≡ submitted_from from.now links → OnOk result (heard.new ≡ noted_from links from.now call.now now heard.old) }
{
    match from {
        Source::Link(number) if submitted => {
            heard.note(alloc, *number, call, now)?;
        }
        _ => {}
    }
    Ok(())
}

/// Forgets what all links heard and were promised.
pub(crate) fn forget_all(heard: &mut Heard, links: &[u32])
    ensures { heard.new ≡ forgotten_all links.now heard.old }
{
    for link in links {
        heard.forget(*link);
    }
}
