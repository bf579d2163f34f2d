//! What happens on a wire.
ghost use Rattle.std.specs.Prelude.{◌≡◌, IfOk};
ghost use Rattle.aprs_base.specs.CameSeen.{bytes_of, head_of};
ghost use Rattle.aprs_base.specs.declared.events.WireError.TheVariants.{Memory};

use crate::texts::{Addr, Chunk, Memory, Text, copy_chunk};
use std::alloc::{AllocError, AllocFailed, Global};
use std::marker::Model;

/// What comes from the outside.
#[derive(Clone, Drop)]
pub enum Event {
    /// A moment, in seconds since 1970.
    Tick(u64),
    Opened {
        listener: u16,
        link: u32,
        from: Addr,
    },
    Joined {
        uplink: u16,
        link: u32,
        at: Addr,
    },
    Unjoined(u16),
    Bytes(u32, Chunk),
    Ended(u32),
    /// The link can take bytes again.
    Room(u32),
    Datagram {
        listener: u16,
        from: Addr,
        bytes: Chunk,
    },
    Stop,
}

/// What became of an offer of bytes.
#[derive(Clone, Copy, PartialEq, Eq)]
pub enum Sent {
    Took(usize),
    Gone,
}

/// Why a wire gives no answer.
#[derive(Clone, Copy, PartialEq, Eq, Debug)]
pub enum WireError {
    Failed,
    Memory,
}

impl From<AllocError> for WireError {
    ghost from_gives = { λ _ e. e ≡ Memory };

    fn from(_error: AllocError) -> WireError {
        WireError::Memory
    }
}

impl<T: Drop> From<AllocFailed<T>> for WireError {
    ghost from_gives = { λ _ e. e ≡ Memory };

    fn from(_failed: AllocFailed<T>) -> WireError {
        WireError::Memory
    }
}

impl From<Memory> for WireError {
    ghost from_gives = { λ _ e. e ≡ Memory };

    fn from(_memory: Memory) -> WireError {
        WireError::Memory
    }
}

/// An event without the bytes that it brings.
#[derive(Clone, Copy, PartialEq, Eq)]
enum Head {
    Tick(u64),
    Opened {
        listener: u16,
        link: u32,
        from: Addr,
    },
    Joined {
        uplink: u16,
        link: u32,
        at: Addr,
    },
    Unjoined(u16),
    Bytes(u32),
    Ended(u32),
    Room(u32),
    Datagram {
        listener: u16,
        from: Addr,
    },
    Stop,
}

/// An event that came, which takes no more room than its bytes need.
#[derive(PartialEq, Eq, Drop)]
pub struct Came {
    head: Head,
    bytes: Text,
}

impl Model for Came {
    ghost use Rattle.aprs_base.specs.CameSeen.{HasBytesOf, bytes_of, event_of, head_is_back, head_of};
    ghost use Rattle.aprs_base.specs.declared.events.Event.{Event};

    ghost Value = { Event };

    ghost view = { λ c. event_of c.head c.bytes };

    ghost invariant = { λ c. HasBytesOf c.head c.bytes };

    ghost inverse = { λ e. record { head = head_of e; bytes = bytes_of e } };

    ghost inverse_ok = { λ c has i. record { head = head_is_back c.head c.bytes i; bytes = has i } };
}

/// The event without its bytes.
fn head_of(event: &Event) -> Head
    ensures { result ≡ head_of event.now }
{
    match event {
        Event::Tick(moment) => Head::Tick(*moment),
        Event::Opened {
            listener,
            link,
            from,
        } => Head::Opened {
            listener: *listener,
            link: *link,
            from: *from,
        },
        Event::Joined { uplink, link, at } => Head::Joined {
            uplink: *uplink,
            link: *link,
            at: *at,
        },
        Event::Unjoined(uplink) => Head::Unjoined(*uplink),
        Event::Bytes(link, _) => Head::Bytes(*link),
        Event::Ended(link) => Head::Ended(*link),
        Event::Room(link) => Head::Room(*link),
        Event::Datagram { listener, from, .. } => Head::Datagram {
            listener: *listener,
            from: *from,
        },
        Event::Stop => Head::Stop,
    }
}

/// The bytes that an event brings.
fn bytes_of(event: &Event) -> &[u8]
    ensures { result.now ≡ bytes_of event.now }
{
    match event {
        Event::Bytes(_, bytes) | Event::Datagram { bytes, .. } => bytes.bytes(),
        _ => &[],
    }
}

impl Came {
    /// The event as it is kept.
    pub fn of(alloc: Global, event: &Event) -> Result<Came, Memory>
        ensures { IfOk result (λ came. came ≡ event.now) }
    {
        Ok(Came {
            head: head_of(event),
            bytes: Text::copied(alloc, bytes_of(event))?,
        })
    }
}

/// One thing that happened on a wire: what came, and what was done.
#[derive(PartialEq, Eq, Drop)]
pub enum Happening {
    Listen(u16),
    Event(Came),
    Sent(u32, Text, Sent),
    Closed(u32),
    Dialled(u16),
    Cast(u16, Text),
}

/// A copy of an event, which takes no memory.
pub fn copy_event(event: &Event) -> Event
    ensures { result ≡ event.now }
{
    match event {
        Event::Bytes(link, bytes) => Event::Bytes(*link, copy_chunk(bytes)),
        Event::Datagram {
            listener,
            from,
            bytes,
        } => Event::Datagram {
            listener: *listener,
            from: *from,
            bytes: copy_chunk(bytes),
        },
        other => other.clone().unwrap(),
    }
}
