//! A round of a server in a network: what waits for it comes, and it does what is due.
ghost use Rattle.std.specs.Prelude.{◌≡◌, ◌≢◌, ◌<◌, ◌++◌, ◌∷◌, ℕ, List, IfOk, IfSome, OnOk, [], length, map, Some, slice_get, true, false};
ghost use Rattle.std.specs.Arc.{arc_value};
ghost use Rattle.aprs_base.specs.PacketSeen.{PacketSeen};
ghost use Rattle.aprs_base.specs.declared.events.Event.{Event};
ghost use Rattle.aprs_history.specs.Acts.{Closes};
ghost use Rattle.aprs_history.specs.Rounds.{AreFresh, is_whole, with_events};
ghost use Rattle.aprs_history.specs.Trace.{Trace};
ghost use Rattle.net_history.specs.Network.{End, NetSeen, ServerSeen, changed_at, end_beyond};
ghost use Rattle.net_history.specs.Serving.{with_acts, with_all, with_round};
ghost use Rattle.server_core.specs.LinkSteps.{AreServed, Rises, has_number, numbers};
ghost use Rattle.server_core.specs.Meaning.{AreActs};
ghost use Rattle.server_core.specs.Steps.{SameRest};
ghost use Rattle.net_schedule.specs.Kept.{kept_arrival, kept_told};
ghost use Rattle.net_schedule.specs.Rounds.{Drives, LeftSame, acted, all_acted, next_bytes, offer_to, with_casts, with_dialled, with_round_events, ways_sent};
ghost use Rattle.net_schedule.specs.Running.{all_with_taken, joins_of, way_parted_at};
ghost use Rattle.net_schedule.specs.Standing.{Goes, Keeps, Turns};
ghost use Rattle.net_schedule.specs.Waiting.{EndsByTick, IsReady, Ready, Waits};

use crate::servers::Server;
use crate::ways::{Way, end_beyond, part, take};
use aprs_base::{Event, Line, Memory, OpenGate, Shared};
use server_core::{Acts, CastOut};
use std::alloc::Global;
use std::marker::Sync;
use std::mem::replace;
use std::sync::Arc;
use std::thread::Threads;

/// The most events of a round of the core.
const MOST_EVENTS: usize = 512;

/// The most bytes of one offer.
const MOST_OFFERED: usize = 65_536;

/// The lines of these packets come behind those that are there.
fn note_accepted(lines: &mut Vec<Arc<Line>>, packets: &[Shared]) -> Result<(), Memory>
    ensures { OnOk result (map arc_value lines.new.items ≡ map arc_value lines.old.items ++ map (λ (packet : PacketSeen). packet.line) (map arc_value packets.now)) }
{
    for packet in packets {
        lines.push(packet.line.clone()?)?;
    }
    Ok(())
}

/// Takes one whole round of events, and says what is to be done.
fn come<R: Threads + Sync>(
    rt: &R,
    alloc: Global,
    server: &mut Server,
    events: &[Event],
) -> Result<Acts, Memory>
    requires whole { is_whole 0 events.now ≡ true }
    requires fresh { AreFresh server.old.core.seen.greatest events.now }
    requires going { server.old.core.seen.stopped ≡ false }
    ensures rising { IfOk result (λ acts. Rises 0 acts.offers server.new.core.seen.greatest) }
    ensures served { IfOk result (λ acts. AreServed acts.offers server.new.core.seen.links) }
    ensures due { (s : ServerSeen) (rest : List Event) → Keeps rest server.old s → IfOk result (λ acts. AreActs s.setting (with_events events.now s.history) acts) }
    ensures keeps { (s : ServerSeen) (rest : List Event) → Keeps (events.now ++ rest) server.old s → OnOk result (Keeps rest server.new (with_round_events events.now s)) }
{
    let mut lines = Vec::new(alloc);
    let acts = server.core.round(rt, alloc, events, &mut lines, &OpenGate)?;
    note_accepted(&mut server.accepted, acts.accepted.as_slice())?;
    Ok(acts)
}

/// An uplink is dialled, where that is due.
fn dial(server: &mut Server, uplink: Option<u16>) -> Result<(), Memory>
    ensures { OnOk result (server.new ≡ record server.old { dialled = with_dialled uplink server.old.dialled }) }
{
    if let Some(uplink) = uplink {
        server.dialled.push(uplink)?;
    }
    Ok(())
}

/// The lines that were cast to the first peer come behind those that are there.
fn note_casts(lines: &mut Vec<Arc<Line>>, casts: &[CastOut]) -> Result<(), Memory>
    ensures { OnOk result (map arc_value lines.new.items ≡ with_casts casts.now (map arc_value lines.old.items)) }
{
    for cast in casts {
        if cast.peer == 0 {
            lines.push(cast.line.clone()?)?;
        }
    }
    Ok(())
}

/// Lines are cast. Each peer is cast the same ones.
fn cast(server: &mut Server, casts: &[CastOut]) -> Result<(), Memory>
    ensures { OnOk result (server.new ≡ record server.old { casts = with_casts casts.now server.old.casts }) }
{
    note_casts(&mut server.casts, casts)
}

/// A link is offered its next bytes, and takes them whole.
fn send_one(
    server: &mut Server,
    number: u16,
    ways: &mut [Option<Way>],
    link: u32,
    buffer: &mut [u8],
) -> Result<(), Memory>
    requires served { has_number link server.old.core.seen.links ≡ true }
    requires room { length buffer.old ≡ 65536 }
    ensures room { length buffer.new ≡ 65536 }
    ensures keeps { (s : ServerSeen) (rest : List Event) (round : Trace) (links : List ℕ) → Keeps rest server.old s → LeftSame round (link ∷ links) s
        → OnOk result (Keeps rest server.new (acted (offer_to s.setting round link) s) × (ways.new ≡ all_with_taken number link (next_bytes s.setting round link) ways.old)) }
    ensures numbers { OnOk result (numbers server.new.core.seen.links ≡ numbers server.old.core.seen.links) }
    ensures rest { OnOk result (SameRest server.old.core server.new.core) }
{
    let count = server.core.offer(link, buffer);
    take(ways, number, link, &buffer[..count])?;
    server.core.took(link, count, count);
    Ok(())
}

/// Each of these links is offered its next bytes, in rising number, and takes them whole.
fn send_all(
    server: &mut Server,
    number: u16,
    ways: &mut [Option<Way>],
    offers: &[u32],
) -> Result<(), Memory>
    requires served { AreServed offers.now server.old.core.seen.links }
    requires rising { (high : ℕ) × Rises 0 offers.now high }
    ensures { (s : ServerSeen) (rest : List Event) (round : Trace) → Keeps rest server.old s → LeftSame round offers.now s
        → OnOk result (Keeps rest server.new (all_acted (map (offer_to s.setting round) offers.now) s) × (ways.new ≡ ways_sent number s.setting round offers.now ways.old)) }
{
    let mut buffer = [0u8; MOST_OFFERED];
    for link in offers {
        send_one(server, number, ways, *link, &mut buffer)?;
    }
    Ok(())
}

/// A whole round comes to a server, and it does all that is due but the closes.
fn drive<R: Threads + Sync>(
    rt: &R,
    alloc: Global,
    server: &mut Server,
    number: u16,
    ways: &mut [Option<Way>],
    events: &[Event],
) -> Result<Acts, Memory>
    requires whole { is_whole 0 events.now ≡ true }
    requires fresh { AreFresh server.old.core.seen.greatest events.now }
    requires going { server.old.core.seen.stopped ≡ false }
    ensures { (s : ServerSeen) (rest : List Event) → Keeps (events.now ++ rest) server.old s → IfOk result (λ acts. Drives number events.now rest s acts server.new ways.old ways.new) }
{
    let acts = come(rt, alloc, server, events)?;
    dial(server, acts.dial)?;
    cast(server, acts.casts.as_slice())?;
    send_all(server, number, ways, acts.offers.as_slice())?;
    Ok(acts)
}

/// Something comes to a server with its next round.
#[tactic(auto, using(crate::proofs::ListLemmas::past_changed, crate::proofs::ListLemmas::set_changed))]
pub(crate) fn arrive_at(servers: &mut [Server], number: u16, event: Event) -> Result<(), Memory>
    ensures { OnOk result (servers.new ≡ changed_at (kept_arrival event) number servers.old) }
{
    let place = usize::from(number);
    if place >= servers.len() {
        return Ok(());
    }
    servers[place].arrive(event)
}

/// A link is closed: a pair that is joined by it parts, and its other end is told.
fn close(
    servers: &mut [Server],
    ways: &mut [Option<Way>],
    number: u16,
    link: u32,
) -> Result<(), Memory>
    ensures servers { OnOk result (servers.new ≡ kept_told (end_beyond number link (joins_of ways.old)) servers.old) }
    ensures ways { OnOk result (ways.new ≡ map (way_parted_at number link) ways.old) }
{
    let beyond = end_beyond(ways, number, link);
    part(ways, number, link);
    match beyond {
        Some(end) => arrive_at(servers, end.server(), Event::Ended(end.number())),
        None => Ok(()),
    }
}

/// Each of these links is closed: a pair that is joined by it parts, and its other end is told.
fn close_all(
    servers: &mut [Server],
    ways: &mut [Option<Way>],
    number: u16,
    closes: &[u32],
) -> Result<(), Memory>
    ensures { (rest : List Event) (brought : End → List ℕ) (n : NetSeen) → Turns number rest brought servers.old ways.old n
        → OnOk result (Turns number rest brought servers.new ways.new (with_acts number (map Closes closes.now) n)) }
{
    for link in closes {
        close(servers, ways, number, *link)?;
    }
    Ok(())
}

/// A whole round comes to a server of the network, and it does all that is due.
fn run_part<R: Threads + Sync>(
    rt: &R,
    alloc: Global,
    servers: &mut [Server],
    ways: &mut [Option<Way>],
    number: u16,
    events: &[Event],
) -> Result<(), Memory>
    requires there { number < length servers.old }
    requires whole { is_whole 0 events.now ≡ true }
    requires ready { IsReady number events.now servers.old }
    ensures { (rest : List Event) (brought : End → List ℕ) (n : NetSeen) → Turns number (events.now ++ rest) brought servers.old ways.old n
        → OnOk result (Turns number rest brought servers.new ways.new (with_all number events.now n)) }
{
    let acts = drive(
        rt,
        alloc,
        &mut servers[usize::from(number)],
        number,
        ways,
        events,
    )?;
    close_all(servers, ways, number, acts.closes.as_slice())
}

/// What waits for a server.
fn take_arrivals(alloc: Global, server: &mut Server) -> Vec<Event>
    ensures waited { result.items ≡ server.old.arrivals }
    ensures none { server.new ≡ record server.old { arrivals = [] } }
{
    replace(&mut server.arrivals, Vec::new(alloc))
}

/// Events that wait come to a server of the network, as many rounds of them as there are, and it does all that is due.
fn run_parts<R: Threads + Sync>(
    rt: &R,
    alloc: Global,
    servers: &mut [Server],
    ways: &mut [Option<Way>],
    number: u16,
    events: &[Event],
) -> Result<(), Memory>
    requires ends { EndsByTick events.now }
    requires ready { (n : NetSeen) × (brought : End → List ℕ) × Turns number events.now brought servers.old ways.old n × Ready number events.now n }
    ensures { (brought : End → List ℕ) (n : NetSeen) → Turns number events.now brought servers.old ways.old n → Ready number events.now n
        → OnOk result (Turns number [] brought servers.new ways.new (with_all number events.now n)) }
{
    let mut rest = events;
    while 0 < rest.len() {
        let (part, later) = rest.split_at(rest.len().min(MOST_EVENTS));
        run_part(rt, alloc, servers, ways, number, part)?;
        rest = later;
    }
    Ok(())
}

/// What waits for a server comes, then a tick, and it does all that is due.
pub(crate) fn run<R: Threads + Sync>(
    rt: &R,
    alloc: Global,
    servers: &mut [Server],
    ways: &mut [Option<Way>],
    number: u16,
    moment: u64,
) -> Result<(), Memory>
    requires there { number < length servers.old }
    requires ready { (n : NetSeen) × (brought : End → List ℕ) × Goes brought servers.old ways.old n × Waits number n }
    ensures { (brought : End → List ℕ) (n : NetSeen) → Goes brought servers.old ways.old n → Waits number n
        → OnOk result (Goes brought servers.new ways.new (with_round number moment n)) }
{
    let mut events = take_arrivals(alloc, &mut servers[usize::from(number)]);
    events.push(Event::Tick(moment))?;
    run_parts(rt, alloc, servers, ways, number, events.as_slice())
}
