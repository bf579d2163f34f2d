//! What is ready and is served in turn, and what waits for another turn.
ghost use Rattle.std.specs.Prelude.{◌≡◌, ◌==◌, ◌≢◌, ◌↔◌, ◌+◌, ◌-◌, ◌^◌, true, false, List, [], ◌∷◌, ◌++◌, OnOk, OnErr, IsTrue, min, slice_get, ◌<◌, ◌≤◌, vec_len, vec_capacity, ◌&&◌, drop, length, nat_le, nat_lt};
ghost use Rattle.std.specs.List.{list_any};
ghost use Rattle.mio_wire.specs.declared.turns.Ready.{Ready};
ghost use Rattle.mio_wire.specs.Sources.{after_read, ending, going, is_end, reads_link, source_of, to_end, to_read, with_waiting};
ghost use Rattle.mio_wire.specs.Turning.{BeginsTurn};

use crate::links::Reading;
use mio::Events;
use mio::event::Event;
use std::alloc::{AllocError, Global};

/// The tokens of listeners begin here. Those of links are their numbers, which are never used twice.
pub(crate) const FIRST_EAR: usize = 1 << 32;

/// The tokens of sockets for datagrams begin here.
pub(crate) const FIRST_MAILBOX: usize = 2 << 32;

/// The tokens of dials begin here. None is used twice.
pub(crate) const FIRST_DIAL: usize = 3 << 32;

/// What a token stands for: a link by its number, a listener or a socket for datagrams by its place, or a dial by its token.
#[derive(Clone, Copy)]
pub(crate) enum Source {
    Link(u32),
    Ear(usize),
    Mailbox(usize),
    Dial(usize),
}

/// The source that a token stands for.
pub(crate) fn source_of(token: usize) -> Source
    ensures { result ≡ source_of token }
{
    match u32::try_from(token) {
        Ok(number) => Source::Link(number),
        Err(_) if token < FIRST_MAILBOX => Source::Ear(token.saturating_sub(FIRST_EAR)),
        Err(_) if token < FIRST_DIAL => Source::Mailbox(token.saturating_sub(FIRST_MAILBOX)),
        Err(_) => Source::Dial(token),
    }
}

/// A source that is ready.
#[derive(Clone, Copy)]
pub(crate) struct Ready {
    pub(crate) token: usize,
    pub(crate) readable: bool,
    pub(crate) writable: bool,
    /// Its peer will send no more.
    pub(crate) closed: bool,
    /// It waited for another turn.
    pub(crate) again: bool,
}

impl Ready {
    fn of(event: &Event) -> Ready {
        let closed = event.is_read_closed();
        Ready {
            token: event.token().0,
            readable: event.is_readable() || closed || event.is_error(),
            writable: event.is_writable() || event.is_write_closed(),
            closed,
            again: false,
        }
    }

    /// A source of which more can be read.
    pub(crate) fn to_read(token: usize) -> Ready
        ensures { result ≡ to_read token }
    {
        Ready {
            token,
            readable: true,
            writable: false,
            closed: false,
            again: true,
        }
    }

    /// A link whose end is to be read.
    pub(crate) fn to_end(token: usize) -> Ready
        ensures { result ≡ to_end token }
    {
        Ready {
            closed: true,
            ..Ready::to_read(token)
        }
    }

    /// Whether it is a link whose peer will send no more.
    fn is_end(self) -> bool
        ensures { result ≡ is_end self }
    {
        self.closed && self.token < FIRST_EAR
    }

    /// A link to which more can be written.
    pub(crate) fn to_write(token: usize) -> Ready
        ensures { result ≡ record { token = token; readable = false; writable = true; closed = false; again = true } }
    {
        Ready {
            token,
            readable: false,
            writable: true,
            closed: false,
            again: true,
        }
    }
}

/// The sources that are ready in this turn, from the place that is served, and those that wait for the next.
#[derive(Drop)]
pub(crate) struct Turns {
    ready: Vec<Ready>,
    at: usize,
    later: Vec<Ready>,
    /// What came, while a turn is made of it.
    came: Vec<Ready>,
    /// The links that end, while a turn is made.
    ends: Vec<Ready>,
    /// From this place on only links that end are left, and the sockets are asked again before them.
    ask_at: usize,
}

impl Turns {
    pub(crate) fn new(alloc: Global) -> Turns
        ensures turn { (result.ready.items ≡ []) × (result.at ≡ 0) × (result.ask_at ≡ 0) }
        ensures later { result.later.items ≡ [] }
    {
        Turns {
            ready: Vec::new(alloc),
            at: 0,
            later: Vec::new(alloc),
            came: Vec::new(alloc),
            ends: Vec::new(alloc),
            ask_at: 0,
        }
    }

    /// The source that is served now.
    pub(crate) fn current(&self) -> Option<Ready>
        ensures { result ≡ slice_get self.now.ready.items self.now.at }
    {
        self.ready.get(self.at).copied()
    }

    /// Goes on to the next source.
    pub(crate) fn advance(&mut self)
        ensures { self.new ≡ record self.old { at = min (self.old.at + 1) (2 ^ 64 - 1) } }
    {
        self.at = self.at.saturating_add(1);
    }

    /// Has room for one source more that waits.
    pub(crate) fn make_room(&mut self) -> Result<(), AllocError>
        ensures room { OnOk result (vec_len self.new.later < vec_capacity self.new.later) }
        ensures later { self.new.later.items ≡ self.old.later.items }
        ensures turn { (self.new.ready ≡ self.old.ready) × (self.new.at ≡ self.old.at) }
    {
        self.later.reserve(1)
    }

    /// Keeps a source for the next turn. It fails only where there is no room.
    pub(crate) fn put_off(&mut self, ready: Ready) -> Result<(), AllocError>
        ensures later { OnOk result (self.new.later.items ≡ self.old.later.items ++ ready ∷ []) }
        ensures err { OnErr result (self.new.later.items ≡ self.old.later.items) }
        ensures full { OnErr result (vec_capacity self.old.later ≤ vec_len self.old.later) }
        ensures turn { (self.new.ready ≡ self.old.ready) × (self.new.at ≡ self.old.at) }
    {
        self.later.push(ready)?;
        Ok(())
    }

    /// Keeps a link that was read for the next turn, where the read tells to. It fails only where there is no room.
    #[tactic(auto, unfolding(crate::specs::Sources::after_read))]
    pub(crate) fn put_off_read(&mut self, reading: Reading, number: u32) -> Result<(), AllocError>
        ensures later { OnOk result (self.new.later.items ≡ after_read reading number self.old.later.items) }
        ensures full { OnErr result (vec_capacity self.old.later ≤ vec_len self.old.later) }
        ensures turn { (self.new.ready ≡ self.old.ready) × (self.new.at ≡ self.old.at) }
    {
        match reading {
            Reading::More => self.put_off(Ready::to_read(number as usize)),
            Reading::Last => self.put_off(Ready::to_end(number as usize)),
            Reading::All | Reading::End => Ok(()),
        }
    }

    /// Whether a source waits for the next turn.
    fn waits(&self, token: usize) -> bool
        ensures { result ≡ list_any (λ r. r.token == token) self.now.later.items }
    {
        self.later.iter().any(|waiting| waiting.token == token)
    }

    /// Keeps a source of which more can be read for the next turn, unless it waits for that already.
    #[tactic(auto, unfolding(crate::specs::Sources::with_waiting))]
    pub(crate) fn put_off_once(&mut self, token: usize) -> Result<(), AllocError>
        ensures later { OnOk result (self.new.later.items ≡ with_waiting token self.old.later.items) }
        ensures err { OnErr result (self.new.later.items ≡ self.old.later.items) }
        ensures turn { (self.new.ready ≡ self.old.ready) × (self.new.at ≡ self.old.at) }
    {
        if self.waits(token) {
            return Ok(());
        }
        self.put_off(Ready::to_read(token))
    }

    /// Whether more is to be read from a link that was read in this turn, and not only its end.
    pub(crate) fn reads_on(&self) -> bool
        ensures { result ≡ list_any reads_link self.now.later.items }
    {
        self.later.iter().any(|waiting| waiting.readable
            && !waiting.closed
            && waiting.token < FIRST_EAR)
    }

    pub(crate) fn has_later(&self) -> bool
        ensures { IsTrue result ↔ (self.now.later.items ≢ []) }
    {
        !self.later.is_empty()
    }

    /// Whether links that end are left, of which as many had their turn as have it between two askings.
    pub(crate) fn is_to_ask(&self) -> bool
        ensures { result ≡ (nat_le self.now.ask_at self.now.at && nat_lt self.now.at (length self.now.ready.items)) }
    {
        self.ask_at <= self.at && self.at < self.ready.len()
    }

    /// Begins a turn with what the poll brought and what waited: first what doesn't end, then what is left of the turn
    /// before, and then the links that end. So many of those have their turn before the sockets are to be asked again.
    pub(crate) fn begin(&mut self, events: &Events, share: usize) -> Result<(), AllocError>
        ensures first { self.new.at ≡ 0 }
        ensures turn { OnOk result ((brought : List Ready) × BeginsTurn share (brought ++ self.old.later.items) (drop self.old.at self.old.ready.items) self.new) }
        ensures later { OnOk result (self.new.later.items ≡ []) }
    {
        self.keep_rest()?;
        self.collect(events)?;
        line_up(&mut self.ready, &mut self.ends, self.came.as_slice())?;
        self.ask_at = self.ready.len().saturating_add(share);
        self.ready.append(&mut self.ends)
    }

    /// Keeps what is left of the turn.
    fn keep_rest(&mut self) -> Result<(), AllocError>
        ensures rest { OnOk result (self.new.ends.items ≡ drop self.old.at self.old.ready.items) }
        ensures turn { (self.new.ready.items ≡ []) × (self.new.at ≡ 0) }
        ensures later { self.new.later ≡ self.old.later }
    {
        self.ends.clear();
        let kept = match self.ready.get(self.at..) {
            Some(rest) => self.ends.extend_from_slice(rest),
            None => Ok(()),
        };
        self.ready.clear();
        self.at = 0;
        kept
    }

    /// Collects what the poll brought and what waited.
    fn collect(&mut self, events: &Events) -> Result<(), AllocError>
        ensures came { OnOk result ((brought : List Ready) × (self.new.came.items ≡ brought ++ self.old.later.items)) }
        ensures later { OnOk result (self.new.later.items ≡ []) }
        ensures kept { self.new ≡ record self.old { came = self.new.came; later = self.new.later } }
    {
        self.came.clear();
        for event in events.iter() {
            self.came.push(Ready::of(event))?;
        }
        self.came.append(&mut self.later)
    }
}

/// Adds a source to those that are ready, or to the links that end.
fn place_one(
    ready: &mut Vec<Ready>,
    ends: &mut Vec<Ready>,
    source: &Ready,
) -> Result<(), AllocError>
    ensures ready { OnOk result (ready.new.items ≡ ready.old.items ++ going (source.now ∷ [])) }
    ensures ends { OnOk result (ends.new.items ≡ ends.old.items ++ ending (source.now ∷ [])) }
{
    if source.is_end() {
        ends.push(*source)?;
    } else {
        ready.push(*source)?;
    }
    Ok(())
}

/// Adds each source to those that are ready, or to the links that end.
fn line_up(
    ready: &mut Vec<Ready>,
    ends: &mut Vec<Ready>,
    sources: &[Ready],
) -> Result<(), AllocError>
    ensures ready { OnOk result (ready.new.items ≡ ready.old.items ++ going sources.now) }
    ensures ends { OnOk result (ends.new.items ≡ ends.old.items ++ ending sources.now) }
{
    for source in sources {
        place_one(ready, ends, source)?;
    }
    Ok(())
}
