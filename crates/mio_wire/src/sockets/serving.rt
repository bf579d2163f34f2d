//! Serving the sources that are ready.
ghost use Rattle.std.specs.Prelude.{◌≡◌, ◌+◌, ◌<◌, ◌≤◌, ◌^◌, Some, OnOk, IfNone, IfOk, IfSome, Contains, length, option_map, slice_get, vec_len};
ghost use Rattle.std.specs.Io.KnownBytes.{Consumes};
ghost use Rattle.mio_wire.specs.Arrivals.{IsArrival};
ghost use Rattle.mio_wire.specs.Held.{BringsAt, OpensAt, holding_of, listening_of};
ghost use Rattle.mio_wire.specs.Linked.{at_place, numbers, reading_of, without};
ghost use Rattle.mio_wire.specs.Seen.{StepsTo, seen_of};
ghost use Rattle.mio_wire.specs.Sources.{after_read, waiting_after};
ghost use Rattle.mio_wire.specs.declared.dials.Dials.{Dials};

use super::Sockets;
use crate::addresses::addr_of;
use crate::briefs::{Brief, Head, whole};
use crate::dials::{Dials, Outcome};
use crate::links::{Links, Reading};
use crate::mail::{Received, receive};
use crate::turns::{Ready, Source, source_of};
use aprs_base::{Addr, Event};
use mio::net::{TcpListener, TcpStream};
use mio::{Interest, Poll, Token};
use std::alloc::AllocError;
use std::io::{self, ErrorKind, Read};

/// How many links one listener opens in a turn.
pub(super) const MOST_OPENED: u32 = 64;

/// How many datagrams one socket brings in a turn.
const MOST_DATAGRAMS: u32 = 64;

impl Sockets {
    /// Serves the source whose turn it is.
    #[tactic(auto, unfolding(crate::specs::Arrivals::IsArrival))]
    pub(crate) fn serve(
        &mut self,
        links: &mut Links<TcpStream>,
        dials: &mut Dials,
    ) -> Result<Option<Event>, AllocError>
        requires { length self.old.inbox.left ≡ 0 }
        ensures step { StepsTo (seen_of self.old links.old dials.old) (seen_of self.new links.new dials.new) result }
        ensures arrival { IfOk result IsArrival }
    {
        let Some(ready) = self.turns.current() else {
            return Ok(None);
        };
        match source_of(ready.token) {
            Source::Link(number) => whole(self.serve_link(links, number, ready)),
            Source::Ear(place) => whole(self.serve_ear(links, place, ready.token)),
            Source::Mailbox(place) => self.serve_mailbox(place, ready.token),
            Source::Dial(token) => whole(self.serve_dial(links, dials, token, ready)),
        }
    }

    /// Hands up a datagram, or goes on where none waits. A socket that had its share waits for the next turn.
    #[tactic(auto, unfolding(crate::specs::Held::BringsAt, crate::specs::Sources::waiting_after))]
    fn serve_mailbox(&mut self, place: usize, token: usize) -> Result<Option<Event>, AllocError>
        ensures named { IfOk result (BringsAt (listening_of self.old).mail place) }
        ensures later { OnOk result (IfSome (slice_get self.old.mailboxes.items place) (λ mailbox. self.new.turns.later.items ≡ waiting_after 64 mailbox.received token self.old.turns.later.items)) }
        ensures holding { holding_of self.new ≡ holding_of self.old }
    {
        let Some(mailbox) = self.mailboxes.get(place) else {
            self.turns.advance();
            return Ok(None);
        };
        if mailbox.received >= MOST_DATAGRAMS {
            self.turns.put_off_once(token)?;
            self.turns.advance();
            return Ok(None);
        }
        let listener = mailbox.number;
        let received = receive(&mailbox.socket);
        self.count_received(place);
        match received {
            Received::Datagram(from, bytes) => Ok(Some(Event::Datagram {
                listener,
                from,
                bytes,
            })),
            Received::Dropped => Ok(None),
            Received::Nothing => {
                self.turns.advance();
                Ok(None)
            }
        }
    }

    /// Counts a read of the socket at a place.
    fn count_received(&mut self, place: usize)
        requires { place < vec_len self.old.mailboxes }
        ensures kept { self.new ≡ record self.old { mailboxes = self.new.mailboxes } }
        ensures listening { listening_of self.new ≡ listening_of self.old }
    {
        let mailbox = &mut self.mailboxes[place];
        mailbox.received = mailbox.received.saturating_add(1);
    }

    /// Answers a dial of whose socket the poll told, once its outcome is known.
    #[tactic(auto, unfolding(crate::specs::Arrivals::IsArrival))]
    fn serve_dial(
        &mut self,
        links: &mut Links<TcpStream>,
        dials: &mut Dials,
        token: usize,
        ready: Ready,
    ) -> Result<Option<Brief>, AllocError>
        ensures step { StepsTo (seen_of self.old links.old dials.old) (seen_of self.new links.new dials.new) result }
        ensures arrival { IfOk result IsArrival }
        ensures inbox { self.new.inbox ≡ self.old.inbox }
    {
        self.turns.advance();
        let Some(place) = dials.place_of(token) else {
            return Ok(None);
        };
        match dials.outcome(place, ready.writable || ready.closed) {
            Outcome::Waits => Ok(None),
            Outcome::Joins => self.join(links, dials, place),
            Outcome::Fails => Ok(Some(Brief {
                head: Head::Unjoined(dials.give_up(place)),
            })),
        }
    }

    /// Makes a link of a dial that is connected, where there is a number for it.
    #[tactic(auto, unfolding(crate::specs::Arrivals::IsArrival))]
    fn join(
        &mut self,
        links: &mut Links<TcpStream>,
        dials: &mut Dials,
        place: usize,
    ) -> Result<Option<Brief>, AllocError>
        requires { place < length dials.old.list.items }
        ensures step { StepsTo (seen_of self.old links.old dials.old) (seen_of self.new links.new dials.new) result }
        ensures arrival { IfOk result IsArrival }
        ensures inbox { self.new.inbox ≡ self.old.inbox }
    {
        let Some(number) = links.made.checked_add(1) else {
            return Ok(Some(Brief {
                head: Head::Unjoined(dials.give_up(place)),
            }));
        };
        links.make_room()?;
        let dial = dials.take(place);
        let uplink = dial.uplink;
        let at = dial.at;
        let Some(stream) = self.taken_over(dial.stream, number) else {
            return Ok(Some(Brief {
                head: Head::Unjoined(uplink),
            }));
        };
        links.add(stream)?;
        Ok(Some(Brief {
            head: Head::Joined {
                uplink,
                link: number,
                at,
            },
        }))
    }

    /// The stream of a dial, watched by the poll as that of a link.
    fn taken_over(&self, stream: Option<TcpStream>, number: u32) -> Option<TcpStream> {
        let mut stream = stream?;
        // A link works without it.
        let _ = stream.set_nodelay(true);
        let interest = Interest::READABLE | Interest::WRITABLE;
        self.poll
            .registry()
            .reregister(&mut stream, Token(number as usize), interest)
            .ok()?;
        Some(stream)
    }

    /// Opens a link, or goes on where none waits.
    fn serve_ear(
        &mut self,
        links: &mut Links<TcpStream>,
        place: usize,
        token: usize,
    ) -> Result<Option<Brief>, AllocError>
        ensures named { IfOk result (OpensAt (listening_of self.old).links place) }
        ensures step { (dials : Dials) → StepsTo (seen_of self.old links.old dials) (seen_of self.new links.new dials) result }
        ensures inbox { self.new.inbox ≡ self.old.inbox }
    {
        let opened = self.open_link(links, place, token)?;
        if opened.is_none() {
            self.turns.advance();
        }
        Ok(opened)
    }

    /// Opens the link that waits at a listener, if any. A listener that had its share waits for the next turn.
    #[tactic(auto, unfolding(crate::specs::Held::OpensAt, crate::specs::Sources::waiting_after))]
    fn open_link(
        &mut self,
        links: &mut Links<TcpStream>,
        place: usize,
        token: usize,
    ) -> Result<Option<Brief>, AllocError>
        ensures named { IfOk result (OpensAt (listening_of self.old).links place) }
        ensures later { links.old.made + 1 < 2 ^ 32 → OnOk result (IfSome (slice_get self.old.ears.items place) (λ ear. self.new.turns.later.items ≡ waiting_after 64 ear.opened token self.old.turns.later.items)) }
        ensures step { (dials : Dials) → StepsTo (seen_of self.old links.old dials) (seen_of self.new links.new dials) result }
        ensures inbox { self.new.inbox ≡ self.old.inbox }
    {
        let Some(number) = links.made.checked_add(1) else {
            return Ok(None);
        };
        let Some(ear) = self.ears.get(place) else {
            return Ok(None);
        };
        if ear.opened >= MOST_OPENED {
            self.turns.put_off_once(token)?;
            return Ok(None);
        }
        links.make_room()?;
        let listener = ear.number;
        match accept(&self.poll, &ear.listener, number) {
            Ok((stream, from)) => {
                self.count_opened(place);
                links.add(stream)?;
                Ok(Some(Brief {
                    head: Head::Opened {
                        listener,
                        link: number,
                        from,
                    },
                }))
            }
            Err(error) => {
                self.note_deaf(place, error.kind() != ErrorKind::WouldBlock);
                Ok(None)
            }
        }
    }

    /// Counts a link that the listener at a place opened.
    fn count_opened(&mut self, place: usize)
        requires { place < vec_len self.old.ears }
        ensures kept { self.new ≡ record self.old { ears = self.new.ears } }
        ensures listening { listening_of self.new ≡ listening_of self.old }
    {
        let ear = &mut self.ears[place];
        ear.opened = ear.opened.saturating_add(1);
    }

    /// Notes whether the listener at a place is deaf.
    fn note_deaf(&mut self, place: usize, deaf: bool)
        requires { place < vec_len self.old.ears }
        ensures kept { self.new ≡ record self.old { ears = self.new.ears } }
        ensures listening { listening_of self.new ≡ listening_of self.old }
        ensures deaf { IfSome (slice_get self.new.ears.items place) (λ ear. ear.deaf ≡ deaf) }
    {
        self.ears[place].deaf = deaf;
    }

    /// Says that a link has room again, or reads what it brings.
    #[tactic(auto, unfolding(crate::specs::Arrivals::IsArrival))]
    fn serve_link<S: Read + Drop>(
        &mut self,
        links: &mut Links<S>,
        number: u32,
        ready: Ready,
    ) -> Result<Option<Brief>, AllocError>
        requires { length self.old.inbox.left ≡ 0 }
        ensures step { (dials : Dials) → StepsTo (seen_of self.old links.old dials) (seen_of self.new links.new dials) result }
        ensures arrival { IfOk result IsArrival }
        ensures link { 1 ≤ length self.new.inbox.left → self.new.inbox.link ≡ number }
        ensures others { without number links.new.list.items ≡ without number links.old.list.items }
    {
        let Some(place) = links.place_of(number) else {
            self.turns.advance();
            return Ok(None);
        };
        if links.note(place, ready) {
            return Ok(Some(Brief {
                head: Head::Room(number),
            }));
        }
        self.turns.advance();
        if !ready.readable || (links.is_later(place) && !ready.again) {
            return Ok(None);
        }
        self.read(links, place, number)
    }

    /// Reads once from a link, which has another turn where more may be there.
    #[tactic(auto, unfolding(crate::specs::Arrivals::IsArrival))]
    fn read<S: Read + Drop>(
        &mut self,
        links: &mut Links<S>,
        place: usize,
        number: u32,
    ) -> Result<Option<Brief>, AllocError>
        requires empty { length self.old.inbox.left ≡ 0 }
        requires place { place < length links.old.list.items }
        requires at { option_map (λ l. l.number) (slice_get links.old.list.items place) ≡ Some number }
        requires there { Contains (numbers links.old.list.items) number }
        ensures step { (dials : Dials) → StepsTo (seen_of self.old links.old dials) (seen_of self.new links.new dials) result }
        ensures arrival { IfOk result IsArrival }
        ensures link { 1 ≤ length self.new.inbox.left → self.new.inbox.link ≡ number }
        ensures bytes { IfOk result (λ o. IfNone o (Consumes (at_place S.remaining links.old.list.items place) (at_place S.remaining links.new.list.items place) self.new.inbox.left)) }
        ensures later { OnOk result (1 ≤ length self.new.inbox.left → IfSome (slice_get links.old.list.items place) (λ l. self.new.turns.later.items ≡ after_read (reading_of (length self.new.inbox.left) l.closed) number self.old.turns.later.items)) }
        ensures others { without number links.new.list.items ≡ without number links.old.list.items }
    {
        self.turns.make_room()?;
        let reading = links.read(place, &mut self.inbox);
        if matches!(reading, Reading::End) {
            self.let_go(links, number);
            return Ok(Some(Brief {
                head: Head::Ended(number),
            }));
        }
        self.turns.put_off_read(reading, number)?;
        Ok(None)
    }
}

/// The stream of the link that waits at a listener, watched by the poll, and where it comes from.
fn accept(poll: &Poll, listener: &TcpListener, number: u32) -> io::Result<(TcpStream, Addr)> {
    let (mut stream, from) = listener.accept()?;
    // A link works without it.
    let _ = stream.set_nodelay(true);
    let interest = Interest::READABLE | Interest::WRITABLE;
    poll.registry()
        .register(&mut stream, Token(number as usize), interest)?;
    Ok((stream, addr_of(from)))
}
