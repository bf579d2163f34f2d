//! A core, and what it must be given.
ghost use Rattle.std.specs.Prelude.{◌≡◌, ◌<◌, ◌≤◌, ◌+◌, IsTrue, IfSome, false, length, true};
ghost use Rattle.aprs_base.specs.Outside.{new_link};
ghost use Rattle.aprs_conf.specs.Sound.{IsGroup, IsWithin};
ghost use Rattle.aprs_history.specs.History.{is_round_event};
ghost use Rattle.aprs_history.specs.Rounds.{AreFresh, is_whole};
ghost use Rattle.server_core.specs.Meaning.{numbered};

use aprs_base::{Addr, Call, Chunk, Event, ListenSpec, OpenGate, PortKind, Text};
use aprs_conf::{Conf, Listen};
use server_core::Core;
use std::alloc::Global;
use std::hash::RandomState;
use std::marker::Sync;
use std::process::Abort;
use std::random::RandomSource;
use std::thread::Threads;

const HERE: Addr = Addr {
    ip: [127, 0, 0, 1],
    port: 14580,
};

/// Where stations send datagrams from.
const fn far(port: u16) -> Addr {
    Addr {
        ip: [10, 0, 0, 8],
        port,
    }
}

fn no_text(alloc: Global) -> Text {
    Text {
        bytes: Vec::new(alloc),
    }
}

fn listen(alloc: Global, kind: PortKind) -> Listen {
    Listen {
        name: no_text(alloc),
        spec: ListenSpec { kind, at: HERE },
        idle: false,
    }
}

/// A port of each kind.
fn conf_of<R: Abort>(rt: &R, alloc: Global, server: Call) -> Conf
    ensures server { result.server ≡ server }
    ensures listens { length (numbered result.listens) ≤ 16 }
    ensures uplinks { length result.uplinks ≤ 8 }
    ensures peers { IsGroup result.group result.peers }
    ensures window { IsWithin 10 300 result.dupe_window }
{
    let listens = [
        listen(alloc, PortKind::Full),
        listen(alloc, PortKind::Igate),
        listen(alloc, PortKind::Only),
        listen(alloc, PortKind::Dupe),
        listen(alloc, PortKind::Submit),
    ];
    Conf {
        server,
        code: 8385,
        admin: no_text(alloc),
        email: no_text(alloc),
        listens: Vec::from_array(alloc, listens).expect(rt, "memory"),
        upload: None,
        page: None,
        uplinks: Vec::new(alloc),
        group: None,
        peers: Vec::new(alloc),
        up_timeout: 15,
        client_timeout: 172_800,
        max_clients: 500,
        dupe_window: 30,
    }
}

/// A core of the server T2TEST over such a configuration.
pub(crate) fn core_of<R: RandomSource + Abort>(rt: &R, alloc: Global) -> Core {
    let server = Call::read(b"T2TEST").expect(rt, "a call");
    assert!(rt; server.is_station());
    let hasher = RandomState::new(rt).expect(rt, "a hasher");
    Core::new(alloc, &hasher, conf_of(rt, alloc, server), 1).expect(rt, "memory")
}

pub(crate) fn opened(link: u32, listener: u16) -> Event {
    Event::Opened {
        listener,
        link,
        from: HERE,
    }
}

pub(crate) fn datagram<R: Abort>(rt: &R, listener: u16, port: u16, text: &[u8]) -> Event {
    Event::Datagram {
        listener,
        from: far(port),
        bytes: Chunk::new(text).expect(rt, "a chunk"),
    }
}

pub(crate) fn bytes<R: Abort>(rt: &R, link: u32, text: &[u8]) -> Event {
    Event::Bytes(link, Chunk::new(text).expect(rt, "a chunk"))
}

fn is_round_event(event: &Event) -> bool
    ensures { result ≡ is_round_event event.now }
{
    matches!(event, Event::Tick(_) | Event::Stop)
}

/// Whether the last of the events ends a round, after so many before them.
fn is_whole(before: usize, events: &[Event]) -> bool
    requires { before + length events.now ≤ 512 }
    ensures { result ≡ is_whole before events.now }
{
    match events {
        [] => false,
        [event] => is_round_event(event) || before == 511,
        [event, rest @ ..] => !is_round_event(event) && is_whole(before + 1, rest),
    }
}

fn new_link(event: &Event) -> Option<u32>
    ensures { result ≡ new_link event.now }
{
    match event {
        Event::Opened { link, .. } => Some(*link),
        Event::Joined { link, .. } => Some(*link),
        _ => None,
    }
}

/// Whether the links that the events bring rise above the greatest so far.
fn are_fresh(greatest: u32, events: &[Event]) -> bool
    ensures { IsTrue result → AreFresh greatest events.now }
{
    match events {
        [] => true,
        [event, rest @ ..] => match new_link(event) {
            Some(link) => greatest < link && are_fresh(link, rest),
            None => are_fresh(greatest, rest),
        },
    }
}

/// A round of these events may be given now.
fn check_round<R: Abort>(rt: &R, core: &Core, events: &[Event])
    ensures whole { is_whole 0 events.now ≡ true }
    ensures fresh { AreFresh core.now.seen.greatest events.now }
    ensures going { core.now.seen.stopped ≡ false }
{
    assert!(rt; events.len() <= 512);
    assert!(rt; is_whole(0, events));
    assert!(rt; are_fresh(core.greatest(), events));
    assert!(rt; !core.is_stopped());
}

/// Takes a round of these events.
pub(crate) fn round<R: Threads + Sync + Abort>(
    rt: &R,
    alloc: Global,
    core: &mut Core,
    events: &[Event],
) {
    check_round(rt, core, events);
    let mut lines = Vec::new(alloc);
    let _ = core
        .round(rt, alloc, events, &mut lines, &OpenGate)
        .expect(rt, "memory");
}
