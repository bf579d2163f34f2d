//! Events that bring no bytes.
ghost use Rattle.std.specs.Prelude.{◌≡◌};

use aprs_base::{Addr, Event};
use std::marker::Model;

/// What an event tells that brings no bytes.
#[derive(Clone, Copy)]
pub(crate) enum Head {
    Tick(u64),
    Opened {
        listener: u16,
        link: u32,
        from: Addr,
    },
    Joined {
        uplink: u16,
        link: u32,
        at: Addr,
    },
    Unjoined(u16),
    Ended(u32),
    Room(u32),
    Stop,
}

/// An event that brings no bytes. It takes far less room than one that may bring some, so that it is handed on as this until
/// it is handed up.
#[derive(Drop)]
pub(crate) struct Brief {
    pub(crate) head: Head,
}

impl Model for Brief {
    ghost use Rattle.aprs_base.specs.declared.events.Event.{Event};
    ghost use Rattle.mio_wire.specs.Briefs.{event_of};

    ghost Value = { Event };

    ghost view = { λ b. event_of b.head };
}

impl Brief {
    /// It as any event.
    pub(crate) fn event(&self) -> Event
        ensures { result ≡ self.now }
    {
        match self.head {
            Head::Tick(moment) => Event::Tick(moment),
            Head::Opened {
                listener,
                link,
                from,
            } => Event::Opened {
                listener,
                link,
                from,
            },
            Head::Joined { uplink, link, at } => Event::Joined { uplink, link, at },
            Head::Unjoined(uplink) => Event::Unjoined(uplink),
            Head::Ended(link) => Event::Ended(link),
            Head::Room(link) => Event::Room(link),
            Head::Stop => Event::Stop,
        }
    }
}

/// What a step gives, as any event.
pub(crate) fn whole<E>(step: Result<Option<Brief>, E>) -> Result<Option<Event>, E>
    ensures { result ≡ step }
{
    match step {
        Ok(Some(brief)) => Ok(Some(brief.event())),
        Ok(None) => Ok(None),
        Err(error) => Err(error),
    }
}
