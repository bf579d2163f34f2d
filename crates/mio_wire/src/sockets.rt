//! The poll with the sockets that it watches.
ghost use Rattle.std.specs.Prelude.{◌≡◌, ◌≤◌, ◌⊎◌, ◌++◌, ◌+◌, ◌-◌, ◌*◌, ◌^◌, min, [], ◌∷◌, map, None, true, false, OnOk, OnErr, IfOk, IfNone, IfSome, is_some, length, option_map, slice_get, take, drop, ℕ, Some};
ghost use Rattle.aprs_base.specs.Outside.{IsOutcome};
ghost use Rattle.aprs_base.specs.declared.packets.PortKind.TheVariants.{Core, Submit};
ghost use Rattle.mio_wire.specs.Arrivals.{after_sent};
ghost use Rattle.mio_wire.specs.Linked.{TakesBytes, TakesOf, at_place, dropped, numbers, without};
ghost use Rattle.mio_wire.specs.Held.{casts_from, holding_of, is_to_ask, listening_after, listening_of, with_deaf, woken};
ghost use Rattle.mio_wire.specs.Sources.{reads_link};
ghost use Rattle.mio_wire.specs.Unread.{IsHeld, forgotten, nothing, unread_after};
ghost use Rattle.std.specs.List.{list_any};

mod serving;

use self::serving::MOST_OPENED;
use crate::addresses::socket_of;
use crate::inbox::Inbox;
use crate::links::Links;
use crate::mail::{Caster, Mailbox, caster_after, greater};
use crate::turns::{FIRST_EAR, FIRST_MAILBOX, Ready, Turns};
use aprs_base::{Addr, Chunk, ListenSpec, PortKind, Sent, WireError};
use mio::net::{TcpListener, TcpStream, UdpSocket};
use mio::{Events, Interest, Poll, Token};
use std::alloc::{AllocError, Global};
use std::io::{self, Write};
use std::net::Net;
use std::time::Duration;

/// How many events one poll brings at most.
const MOST_EVENTS: usize = 16_384;

/// The numbers of peers, by which datagrams are cast, are below this one; those of downlinks begin with it.
const FIRST_DOWNLINK: u16 = 256;

/// How many links that end have their turn between two askings, beside one for each link that may be opened meanwhile.
const MOST_ENDED: usize = 256;

/// How many links that end have their turn before the sockets are asked again, by the number of listeners: more than those open
/// in a turn, so that there is an end of them.
fn share_of(ears: usize) -> usize
    ensures { result ≡ min (64 * ears + 256) (2 ^ 64 - 1) }
{
    ears.saturating_mul(MOST_OPENED as usize)
        .saturating_add(MOST_ENDED)
}

/// A listener for links.
#[derive(Drop)]
struct Ear {
    number: u16,
    listener: TcpListener,
    /// Its token at the poll.
    token: usize,
    /// An accept failed: it is tried again at each new second and after each close.
    deaf: bool,
    /// How many links it opened in this turn.
    opened: u32,
}

#[derive(Drop)]
pub(crate) struct Sockets {
    poll: Poll,
    events: Events,
    ears: Vec<Ear>,
    mailboxes: Vec<Mailbox>,
    /// The peer group's mailbox with the greatest number.
    caster: Option<Caster>,
    /// The mailbox with the greatest number.
    downlinks: Option<Caster>,
    turns: Turns,
    inbox: Inbox,
    /// Deaf ears are to be tried again.
    retry: bool,
}

impl Sockets {
    pub(crate) fn open<R: Net>(rt: &R, alloc: Global) -> Result<Sockets, WireError>
        ensures { IfOk result (λ s. (s.inbox ≡ nothing) × (listening_of s ≡ record { links = []; mail = []; caster = None; downlinks = None })) }
    {
        let events = Events::with_capacity(alloc, MOST_EVENTS)?;
        let inbox = Inbox::new(alloc)?;
        let Ok(poll) = Poll::new(rt) else {
            return Err(WireError::Failed);
        };
        Ok(Sockets {
            poll,
            events,
            ears: Vec::new(alloc),
            mailboxes: Vec::new(alloc),
            caster: None,
            downlinks: None,
            turns: Turns::new(alloc),
            inbox,
            retry: false,
        })
    }

    /// Listens for links or for datagrams, as a listener of its kind does.
    pub(crate) fn listen<R: Net>(
        &mut self,
        rt: &R,
        number: u16,
        spec: &ListenSpec,
    ) -> Result<(), WireError>
        ensures ok { OnOk result (holding_of self.new ≡ record (holding_of self.old) { heard = listening_after spec.now.kind number (listening_of self.old) }) }
        ensures err { OnErr result (holding_of self.new ≡ holding_of self.old) }
    {
        match spec.kind {
            PortKind::Full | PortKind::Igate | PortKind::Only | PortKind::Dupe => {
                self.listen_for_links(rt, number, spec.at)
            }
            PortKind::Submit | PortKind::Core => self.listen_for_mail(rt, number, spec),
        }
    }

    fn listen_for_links<R: Net>(&mut self, rt: &R, number: u16, at: Addr) -> Result<(), WireError>
        ensures ok { OnOk result (holding_of self.new ≡ record (holding_of self.old) { heard = record (listening_of self.old) { links = (listening_of self.old).links ++ number ∷ [] } }) }
        ensures err { OnErr result (holding_of self.new ≡ holding_of self.old) }
    {
        self.ears.reserve(1)?;
        let token = FIRST_EAR.saturating_add(self.ears.len());
        let Ok(listener) = self.bind(rt, at, token) else {
            return Err(WireError::Failed);
        };
        self.ears.push(Ear {
            number,
            listener,
            token,
            deaf: false,
            opened: 0,
        })?;
        Ok(())
    }

    fn bind<R: Net>(&self, rt: &R, at: Addr, token: usize) -> io::Result<TcpListener> {
        let mut listener = TcpListener::bind(rt, socket_of(at))?;
        self.poll
            .registry()
            .register(&mut listener, Token(token), Interest::READABLE)?;
        Ok(listener)
    }

    fn listen_for_mail<R: Net>(
        &mut self,
        rt: &R,
        number: u16,
        spec: &ListenSpec,
    ) -> Result<(), WireError>
        requires { (spec.now.kind ≡ Submit) ⊎ (spec.now.kind ≡ Core) }
        ensures ok { OnOk result (holding_of self.new ≡ record (holding_of self.old) { heard = listening_after spec.now.kind number (listening_of self.old) }) }
        ensures err { OnErr result (holding_of self.new ≡ holding_of self.old) }
    {
        self.mailboxes.reserve(1)?;
        let Ok(socket) = self.bind_mailbox(rt, spec.at) else {
            return Err(WireError::Failed);
        };
        let place = self.mailboxes.len();
        self.mailboxes.push(Mailbox {
            number,
            socket,
            received: 0,
        })?;
        self.caster = caster_after(self.caster, spec.kind, number, place);
        self.downlinks = greater(self.downlinks, Caster { number, place });
        Ok(())
    }

    fn bind_mailbox<R: Net>(&self, rt: &R, at: Addr) -> io::Result<UdpSocket> {
        let mut socket = UdpSocket::bind(rt, socket_of(at))?;
        let token = Token(FIRST_MAILBOX.saturating_add(self.mailboxes.len()));
        self.poll
            .registry()
            .register(&mut socket, token, Interest::READABLE)?;
        Ok(socket)
    }

    /// Begins to connect to an address. None where that fails at once.
    pub(crate) fn connect<R: Net>(&self, rt: &R, at: Addr, token: usize) -> Option<TcpStream> {
        let mut stream = TcpStream::connect(rt, socket_of(at)).ok()?;
        let interest = Interest::READABLE | Interest::WRITABLE;
        self.poll
            .registry()
            .register(&mut stream, Token(token), interest)
            .ok()?;
        Some(stream)
    }

    /// Where the datagram of a cast goes from: that of a downlink, from 256 on, from any listener for datagrams.
    fn casts_from(&self, peer: u16) -> Option<Caster>
        ensures { result ≡ casts_from peer (listening_of self.now) }
    {
        if peer < FIRST_DOWNLINK {
            self.caster
        } else {
            self.downlinks
        }
    }

    /// Casts a datagram. A lost one is no fault.
    pub(crate) fn cast(&self, peer: u16, to: Addr, bytes: &[u8]) {
        let Some(caster) = self.casts_from(peer) else {
            return;
        };
        if let Some(mailbox) = self.mailboxes.get(caster.place) {
            let _ = mailbox.socket.send_to(bytes, socket_of(to));
        }
    }

    /// Has deaf listeners tried again in the next turn.
    pub(crate) fn retry(&mut self)
        ensures { self.new ≡ record self.old { retry = true } }
    {
        self.retry = true;
    }

    /// Waits until something is ready, but not where something waits for another turn, and begins a turn.
    pub(crate) fn wait(&mut self, most: Duration) -> Result<(), WireError>
        ensures { holding_of self.new ≡ holding_of self.old }
    {
        self.wake_ears()?;
        let most = if self.turns.has_later() {
            Duration::ZERO
        } else {
            most
        };
        if self.poll.poll(&mut self.events, Some(most)).is_err() {
            return Err(WireError::Failed);
        }
        self.turns.begin(&self.events, share_of(self.ears.len()))?;
        open_anew(self.ears.as_mut_slice());
        receive_anew(self.mailboxes.as_mut_slice());
        Ok(())
    }

    /// Deaf listeners wait for the next turn where they are to be tried again.
    fn wake_ears(&mut self) -> Result<(), AllocError>
        ensures later { OnOk result (self.new.turns.later.items ≡ woken self.old.retry self.old.ears.items self.old.turns.later.items) }
        ensures tried { OnOk result (self.new.retry ≡ false) }
        ensures kept { self.new ≡ record self.old { turns = self.new.turns; retry = self.new.retry } }
    {
        if self.retry {
            wake_all(&mut self.turns, self.ears.as_slice())?;
        }
        self.retry = false;
        Ok(())
    }

    /// Bytes that were read, as many as one event has.
    pub(crate) fn take_chunk(&mut self) -> Option<(u32, Chunk)>
        ensures chunk { IfSome result (λ c. (c.0 ≡ self.old.inbox.link) × (c.1 ≡ take 1460 self.old.inbox.left)) }
        ensures rest { self.new ≡ record self.old { inbox = record self.old.inbox { left = drop 1460 self.old.inbox.left } } }
        ensures none { IfNone result (length self.old.inbox.left ≡ 0) }
        ensures some { IfSome result (λ c. 1 ≤ length self.old.inbox.left) }
    {
        self.inbox.take_chunk()
    }

    /// Whether bytes that were read are not handed up yet.
    pub(crate) fn has_bytes(&self) -> bool
        ensures { result ≡ false → length self.now.inbox.left ≡ 0 }
    {
        !self.inbox.is_empty()
    }

    /// Whether a source of this turn is not served yet.
    pub(crate) fn has_ready(&self) -> bool
        ensures { result ≡ is_some (slice_get self.now.turns.ready.items self.now.turns.at) }
    {
        self.turns.current().is_some()
    }

    /// Whether the sockets are asked again before more links end: once all that was read is handed up.
    #[tactic(auto, unfolding(crate::specs::Held::is_to_ask))]
    pub(crate) fn is_to_ask(&self) -> bool
        ensures { result ≡ is_to_ask self.now }
    {
        self.inbox.is_empty() && self.turns.is_to_ask()
    }

    /// Whether more is to be read from a link that was read in this turn.
    pub(crate) fn reads_on(&self) -> bool
        ensures { result ≡ list_any reads_link self.now.turns.later.items }
    {
        self.turns.reads_on()
    }

    /// Takes the stream of a link, which is let go with what it brought.
    pub(crate) fn take<S: Drop>(&mut self, links: &mut Links<S>, number: u32) -> Option<S>
        ensures links { (links.new.list.items ≡ without number links.old.list.items) × (links.new.made ≡ links.old.made) }
        ensures numbers { numbers links.new.list.items ≡ dropped number (numbers links.old.list.items) }
        ensures others { without number links.new.list.items ≡ without number links.old.list.items }
        ensures kept { self.new ≡ record self.old { inbox = forgotten number self.old.inbox; retry = true } }
    {
        let stream = links.take(number);
        self.inbox.forget(number);
        self.retry = true;
        stream
    }

    /// Lets go a link with what it brought.
    pub(crate) fn let_go<S: Drop>(&mut self, links: &mut Links<S>, number: u32)
        ensures links { (links.new.list.items ≡ without number links.old.list.items) × (links.new.made ≡ links.old.made) }
        ensures numbers { numbers links.new.list.items ≡ dropped number (numbers links.old.list.items) }
        ensures others { without number links.new.list.items ≡ without number links.old.list.items }
        ensures kept { self.new ≡ record self.old { inbox = forgotten number self.old.inbox; retry = true } }
    {
        let _ = self.take(links, number);
    }

    /// Offers bytes to a link.
    pub(crate) fn send<S: Write + Drop>(
        &mut self,
        links: &mut Links<S>,
        number: u32,
        bytes: &[u8],
    ) -> Result<Sent, AllocError>
        ensures there { IfOk result (TakesOf (numbers links.old.list.items) number) }
        ensures held { IsHeld self.old.inbox (numbers links.old.list.items) → IsHeld self.new.inbox (numbers links.new.list.items) }
        ensures unread { self.new.inbox ≡ unread_after result number self.old.inbox }
        ensures part { IfOk result (IsOutcome bytes.now) }
        ensures bytes { (place : ℕ) → option_map (λ l. l.number) (slice_get links.old.list.items place) ≡ Some number → IfOk result (TakesBytes (at_place S.contents links.old.list.items place) (at_place S.contents links.new.list.items place) bytes.now) }
        ensures made { links.new.made ≡ links.old.made }
        ensures numbers { OnOk result (numbers links.new.list.items ≡ after_sent result number (numbers links.old.list.items)) }
        ensures others { without number links.new.list.items ≡ without number links.old.list.items }
        ensures listening { listening_of self.new ≡ listening_of self.old }
        ensures err { OnErr result (links.new.list.items ≡ links.old.list.items) }
    {
        let Some(place) = links.place_of(number) else {
            self.inbox.forget(number);
            return Ok(Sent::Gone);
        };
        self.turns.make_room()?;
        let Some(written) = links.write(place, bytes) else {
            self.let_go(links, number);
            return Ok(Sent::Gone);
        };
        if written.taken < bytes.len() && !written.full {
            self.turns.put_off(Ready::to_write(number as usize))?;
        }
        Ok(Sent::Took(written.taken))
    }
}

/// A deaf listener waits for the next turn.
fn wake(turns: &mut Turns, ear: &Ear) -> Result<(), AllocError>
    ensures { OnOk result (turns.new.later.items ≡ with_deaf (ear.now ∷ []) turns.old.later.items) }
{
    if ear.deaf {
        turns.put_off_once(ear.token)?;
    }
    Ok(())
}

/// Deaf listeners wait for the next turn.
fn wake_all(turns: &mut Turns, ears: &[Ear]) -> Result<(), AllocError>
    ensures { OnOk result (turns.new.later.items ≡ with_deaf ears.now turns.old.later.items) }
{
    for ear in ears {
        wake(turns, ear)?;
    }
    Ok(())
}

/// Each listener may open its share of links again.
fn open_anew(ears: &mut [Ear])
    ensures numbers { map (λ ear. ear.number) ears.new ≡ map (λ ear. ear.number) ears.old }
{
    for ear in ears.iter_mut() {
        ear.opened = 0;
    }
}

/// Each socket for datagrams may bring its share again.
fn receive_anew(mailboxes: &mut [Mailbox])
    ensures numbers { map (λ mailbox. mailbox.number) mailboxes.new ≡ map (λ mailbox. mailbox.number) mailboxes.old }
{
    for mailbox in mailboxes.iter_mut() {
        mailbox.received = 0;
    }
}
