//! Packets, their parts, and what their bodies say.
ghost use Rattle.std.specs.Prelude.{◌≡◌, ℕ, ◌≤ℤ◌, pos, negsuc, [], List};

use crate::texts::{Addr, Call, Line, Word9, copy_call};
use arrayvec::ArrayVec;
use std::marker::Model;
use std::sync::Arc;

/// A place on the globe, with the symbol that stands there: millionths of a degree, north and east positive,
/// the latitude within 90 degrees and the longitude within 180.
#[derive(Clone, Copy)]
pub struct Place {
    pub lat: i32,
    pub lon: i32,
    /// The symbol's table.
    pub table: u8,
    /// The symbol's code in that table.
    pub code: u8,
    /// How many bytes were read.
    pub used: u16,
    ghost south: { negsuc 89999999 ≤ℤ lat },
    ghost north: { lat ≤ℤ pos 90000000 },
    ghost west: { negsuc 179999999 ≤ℤ lon },
    ghost east: { lon ≤ℤ pos 180000000 },
}

/// One element of a path: a call, and whether `*` follows it.
#[derive(Default, PartialEq, Eq, Hash, Drop)]
pub struct Via {
    pub call: Call,
    pub star: bool,
}

/// A packet's parts: `source>dest`, then for each element of the path a comma and the element, then `:` and the body.
#[derive(PartialEq, Eq, Drop)]
pub struct Parts {
    pub source: Call,
    pub dest: Call,
    pub vias: ArrayVec<Via, 32>,
    pub body: ArrayVec<u8, 510>,
}

impl Model for Parts {
    ghost use Rattle.aprs_base.specs.PartsSeen.{PartsSeen};

    ghost Value = { PartsSeen };

    ghost view = { λ p. record { source = p.source; dest = p.dest; vias = p.vias.items; body = p.body.items } };

    ghost inverse = { λ p. record { source = p.source; dest = p.dest; vias = record { items = p.vias }; body = record { items = p.body } } };
}

impl Parts {
    /// Parts that are still to be filled: they have no path and no body.
    pub fn unfilled() -> Parts
        ensures vias { result.vias ≡ [] }
        ensures body { result.body ≡ [] }
    {
        Parts {
            source: Call::default(),
            dest: Call::default(),
            vias: ArrayVec::new(),
            body: ArrayVec::new(),
        }
    }
}

/// What a body is: the bits of its class, and what it names.
#[derive(Clone, Drop)]
pub struct Body {
    pub class: u16,
    pub place: Option<Place>,
    /// The name of an object or item.
    pub name: Option<Word9>,
    /// Whether the object or item is alive.
    pub live: bool,
    /// The receiver of a message.
    pub to: Option<Word9>,
}

/// Where a packet came from: a link by its number, a submission by its listener, or a peer.
#[derive(Clone, Copy, PartialEq, Eq)]
pub enum Source {
    Link(u32),
    Submit(u16),
    Peer(u16),
}

/// An accepted packet, its parts and its line as they are sent on.
#[derive(Drop)]
pub struct Packet {
    pub from: Source,
    /// When it was accepted, in seconds.
    pub moment: u64,
    pub parts: Parts,
    pub body: Body,
    pub line: Arc<Line>,
}

impl Model for Packet {
    ghost use Rattle.std.specs.Arc.{arc_value};
    ghost use Rattle.aprs_base.specs.PacketSeen.{PacketSeen};

    ghost Value = { PacketSeen };

    ghost view = { λ p. record { from = p.from; moment = p.moment; parts = p.parts; body = p.body; line = arc_value p.line } };
}

/// A packet that several links share.
pub type Shared = Arc<Packet>;

/// What a listener serves.
#[derive(Clone, Copy, PartialEq, Eq, Debug)]
pub enum PortKind {
    Full,
    Igate,
    Only,
    Dupe,
    Submit,
    Core,
}

/// A listener: what it serves, and where.
#[derive(Clone, Copy)]
pub struct ListenSpec {
    pub kind: PortKind,
    pub at: Addr,
}

/// A server to dial: its name or address, and its port.
#[derive(Clone, PartialEq, Eq, Drop)]
pub struct UplinkSpec {
    pub host: ArrayVec<u8, 64>,
    pub port: u16,
}

impl Model for UplinkSpec {
    ghost use Rattle.aprs_base.specs.UplinkSeen.{UplinkSeen};

    ghost Value = { UplinkSeen };

    ghost view = { λ u. record { host = u.host.items; port = u.port } };

    ghost inverse = { λ u. record { host = record { items = u.host }; port = u.port } };
}

/// A copy of an element, which takes no memory.
pub fn copy_via(via: &Via) -> Via
    ensures { result ≡ via.now }
{
    Via {
        call: copy_call(&via.call),
        star: via.star,
    }
}

/// A copy of an uplink's name, which takes no memory.
pub(crate) fn copy_uplink(spec: &UplinkSpec) -> UplinkSpec
    ensures { result ≡ spec.now }
{
    spec.clone().unwrap()
}
