//! The links, and what is read from them and written to them.
ghost use Rattle.std.specs.Prelude.{◌≡◌, ◌≢◌, ℕ, ◌+◌, ◌≤◌, ◌<◌, ◌^◌, [], ◌∷◌, ◌++◌, Some, OnOk, OnErr, OnSome, IfSome, IfNone, IfOk, All, Contains, false, ◌&&◌, ◌||◌, nat_lt, length, take, option_map, slice_get};
ghost use Rattle.std.specs.List.{remove};
ghost use Rattle.std.specs.VecDeque.{deque_capacity, deque_len};
ghost use Rattle.std.specs.Io.KnownBytes.{Appends, Consumes};
ghost use Rattle.mio_wire.specs.declared.links.Reading.TheVariants.{End};
ghost use Rattle.mio_wire.specs.Linked.{IsCounted, IsRising, at_place, dropped, noted, numbers, reading_of, without};

use crate::inbox::{Inbox, MOST_READ};
use crate::turns::Ready;
use std::alloc::{AllocError, Global};
use std::collections::VecDeque;
use std::io::{ErrorKind, Read, Write};

/// A link to a client, over a stream.
#[derive(Drop)]
pub(crate) struct Link<S> {
    pub(crate) number: u32,
    pub(crate) stream: S,
    /// It waits for another turn.
    pub(crate) later: bool,
    /// Its peer will send no more.
    pub(crate) closed: bool,
    /// It didn't take all that it was offered.
    pub(crate) blocked: bool,
}

/// What a read brought.
#[derive(Clone, Copy)]
pub(crate) enum Reading {
    /// The link has ended.
    End,
    /// There may be more.
    More,
    /// The peer will send no more: one read more tells of the end.
    Last,
    /// There is no more, until the poll tells of it.
    All,
}

impl<S> Link<S> {
    /// Notes what the poll says. True where the link was blocked and has room again.
    fn note(&mut self, ready: Ready) -> bool
        ensures room { result ≡ (ready.writable && self.old.blocked) }
        ensures noted { self.new ≡ noted ready self.old }
    {
        self.closed = self.closed || ready.closed;
        let room = ready.writable && self.blocked;
        if room {
            self.blocked = false;
        }
        room
    }
}

impl<S: Read> Link<S> {
    /// Reads once into an inbox.
    #[tactic(auto, unfolding(crate::specs::Linked::reading_of))]
    fn read(&mut self, inbox: &mut Inbox) -> Reading
        ensures number { self.new.number ≡ self.old.number }
        ensures link { inbox.new.link ≡ self.old.number }
        ensures bytes { Consumes (S.remaining self.old.stream) (S.remaining self.new.stream) inbox.new.left }
        ensures end { result ≡ End → length inbox.new.left ≡ 0 }
        ensures reading { 1 ≤ length inbox.new.left → result ≡ reading_of (length inbox.new.left) self.old.closed }
    {
        let reading = match inbox.fill(self.number, &mut self.stream) {
            Ok(0) => return Reading::End,
            Ok(MOST_READ) => Reading::More,
            Ok(_) if self.closed => Reading::Last,
            Ok(_) => Reading::All,
            Err(error) if error.kind() == ErrorKind::WouldBlock => Reading::All,
            Err(error) if error.kind() == ErrorKind::Interrupted => Reading::More,
            Err(_) => return Reading::End,
        };
        self.later = matches!(reading, Reading::More | Reading::Last);
        reading
    }
}

impl<S: Write> Link<S> {
    /// Offers bytes to the link.
    fn write(&mut self, bytes: &[u8]) -> Option<Written>
        ensures number { self.new.number ≡ self.old.number }
        ensures blocked { IfSome result (λ w. self.new.blocked ≡ (self.old.blocked || nat_lt w.taken (length bytes.now))) }
        ensures within { IfSome result (λ w. w.taken ≤ length bytes.now) }
        ensures bytes { IfSome result (λ w. Appends (S.contents self.old.stream) (S.contents self.new.stream) (take w.taken bytes.now)) }
    {
        let written = write_on(&mut self.stream, bytes)?;
        if written.taken < bytes.len() {
            self.blocked = true;
        }
        Some(written)
    }
}

/// The links that are open, in rising number, and the number of the last that was made.
#[derive(Drop)]
pub(crate) struct Links<S> {
    pub(crate) list: VecDeque<Link<S>>,
    pub(crate) made: u32,
    /// The place behind the link that was written to last: writes come in rising order, so the next one likely stands there.
    pub(crate) near: usize,
    ghost rising: { IsRising (numbers list.items) },
    ghost counted: { IsCounted made (numbers list.items) },
}

impl<S: Drop> Links<S> {
    pub(crate) fn new(alloc: Global) -> Links<S>
        ensures { (result.list.items ≡ []) × (result.made ≡ 0) }
    {
        Links {
            list: VecDeque::new(alloc),
            made: 0,
            near: 0,
        }
    }

    /// Has room for one link more.
    pub(crate) fn make_room(&mut self) -> Result<(), AllocError>
        ensures room { OnOk result (deque_len self.new.list < deque_capacity self.new.list) }
        ensures same { (self.new.list.items ≡ self.old.list.items) × (self.new.made ≡ self.old.made) }
    {
        self.list.reserve(1)
    }

    /// Adds a link with the next number. It fails only where there is no room.
    pub(crate) fn add(&mut self, stream: S) -> Result<(), AllocError>
        requires { self.old.made + 1 < 2 ^ 32 }
        ensures ok { OnOk result (self.new.made ≡ self.old.made + 1) }
        ensures link { OnOk result (self.new.list.items ≡ self.old.list.items ++ record { number = self.old.made + 1; stream = stream; later = false; closed = false; blocked = false } ∷ []) }
        ensures err { OnErr result ((self.new.list.items ≡ self.old.list.items) × (self.new.made ≡ self.old.made)) }
        ensures full { OnErr result (deque_capacity self.old.list ≤ deque_len self.old.list) }
    {
        self.list.push_back(Link {
            number: self.made + 1,
            stream,
            later: false,
            closed: false,
            blocked: false,
        })?;
        self.made += 1;
        Ok(())
    }

    /// Where the link with a number stands.
    pub(crate) fn place_of(&self, number: u32) -> Option<usize>
        ensures within { IfSome result (λ place. place < length self.now.list.items) }
        ensures number { IfSome result (λ place. option_map (λ l. l.number) (slice_get self.now.list.items place) ≡ Some number) }
        ensures there { OnSome result (Contains (numbers self.now.list.items) number) }
        ensures none { IfNone result (All (λ n. n ≢ number) (numbers self.now.list.items)) }
    {
        match self.list.get(self.near) {
            Some(link) if link.number == number => Some(self.near),
            _ => self.search(number),
        }
    }

    /// Where the link with a number stands, by halving.
    fn search(&self, number: u32) -> Option<usize>
        ensures within { IfSome result (λ place. place < length self.now.list.items) }
        ensures number { IfSome result (λ place. option_map (λ l. l.number) (slice_get self.now.list.items place) ≡ Some number) }
        ensures there { OnSome result (Contains (numbers self.now.list.items) number) }
        ensures none { IfNone result (All (λ n. n ≢ number) (numbers self.now.list.items)) }
    {
        self.list
            .binary_search_by_key(&number, |link| link.number)
            .ok()
    }

    /// Notes what the poll says of the link at a place. True where it was blocked and has room again.
    pub(crate) fn note(&mut self, place: usize, ready: Ready) -> bool
        requires { place < length self.old.list.items }
        ensures room { option_map (λ l. ready.writable && l.blocked) (slice_get self.old.list.items place) ≡ Some result }
        ensures noted { slice_get self.new.list.items place ≡ option_map (noted ready) (slice_get self.old.list.items place) }
        ensures same { (numbers self.new.list.items ≡ numbers self.old.list.items) × (self.new.made ≡ self.old.made) }
        ensures others { (number : ℕ) → option_map (λ l. l.number) (slice_get self.old.list.items place) ≡ Some number → without number self.new.list.items ≡ without number self.old.list.items }
    {
        self.list[place].note(ready)
    }

    /// Whether the link at a place waits for another turn.
    pub(crate) fn is_later(&self, place: usize) -> bool
        requires { place < length self.now.list.items }
        ensures { option_map (λ l. l.later) (slice_get self.now.list.items place) ≡ Some result }
    {
        self.list[place].later
    }

    /// Takes the stream of the link with a number, which is there no more.
    pub(crate) fn take(&mut self, number: u32) -> Option<S>
        ensures links { (self.new.list.items ≡ without number self.old.list.items) × (self.new.made ≡ self.old.made) }
        ensures numbers { numbers self.new.list.items ≡ dropped number (numbers self.old.list.items) }
        ensures others { without number self.new.list.items ≡ without number self.old.list.items }
        ensures stream { (place : ℕ) → option_map (λ l. l.number) (slice_get self.old.list.items place) ≡ Some number → IfSome result (λ stream. option_map (λ l. l.stream) (slice_get self.old.list.items place) ≡ Some stream) }
        ensures none { IfNone result (All (λ n. n ≢ number) (numbers self.old.list.items)) }
    {
        let place = self.place_of(number)?;
        let link = remove(&mut self.list, place)?;
        Some(link.stream)
    }

    /// Lets go the link with a number.
    pub(crate) fn let_go(&mut self, number: u32)
        ensures links { (self.new.list.items ≡ without number self.old.list.items) × (self.new.made ≡ self.old.made) }
        ensures numbers { numbers self.new.list.items ≡ dropped number (numbers self.old.list.items) }
        ensures others { without number self.new.list.items ≡ without number self.old.list.items }
    {
        let _ = self.take(number);
    }
}

/// Removes the link at a place.
fn remove<S: Drop>(list: &mut VecDeque<Link<S>>, place: usize) -> Option<Link<S>>
    ensures others { list.new.items ≡ remove list.old.items place }
    ensures link { slice_get list.old.items place ≡ result }
{
    list.remove(place)
}

impl<S: Read + Drop> Links<S> {
    /// Reads once from the link at a place.
    pub(crate) fn read(&mut self, place: usize, inbox: &mut Inbox) -> Reading
        requires { place < length self.old.list.items }
        ensures link { Contains (numbers self.old.list.items) inbox.new.link }
        ensures number { option_map (λ l. l.number) (slice_get self.old.list.items place) ≡ Some inbox.new.link }
        ensures bytes { Consumes (at_place S.remaining self.old.list.items place) (at_place S.remaining self.new.list.items place) inbox.new.left }
        ensures end { result ≡ End → length inbox.new.left ≡ 0 }
        ensures reading { 1 ≤ length inbox.new.left → IfSome (slice_get self.old.list.items place) (λ l. result ≡ reading_of (length inbox.new.left) l.closed) }
        ensures same { (numbers self.new.list.items ≡ numbers self.old.list.items) × (self.new.made ≡ self.old.made) }
        ensures others { (number : ℕ) → option_map (λ l. l.number) (slice_get self.old.list.items place) ≡ Some number → without number self.new.list.items ≡ without number self.old.list.items }
    {
        self.list[place].read(inbox)
    }
}

impl<S: Write + Drop> Links<S> {
    /// Offers bytes to the link at a place.
    pub(crate) fn write(&mut self, place: usize, bytes: &[u8]) -> Option<Written>
        requires { place < length self.old.list.items }
        ensures same { (numbers self.new.list.items ≡ numbers self.old.list.items) × (self.new.made ≡ self.old.made) }
        ensures others { (number : ℕ) → option_map (λ l. l.number) (slice_get self.old.list.items place) ≡ Some number → without number self.new.list.items ≡ without number self.old.list.items }
        ensures within { IfSome result (λ w. w.taken ≤ length bytes.now) }
        ensures bytes { IfSome result (λ w. Appends (at_place S.contents self.old.list.items place) (at_place S.contents self.new.list.items place) (take w.taken bytes.now)) }
    {
        self.near = place.saturating_add(1);
        self.list[place].write(bytes)
    }
}

/// What was written to a link that is there.
#[derive(Clone, Copy)]
pub(crate) struct Written {
    pub(crate) taken: usize,
    /// The link has room for no more, and the poll tells when it has again.
    pub(crate) full: bool,
}

/// How often a write goes on after a part was taken.
const MOST_WRITES: usize = 8;

/// Writes the first of the bytes, until all are taken or the link has no more room. `None` where the link is gone.
pub(crate) fn write_on<F: Write>(to: &mut F, bytes: &[u8]) -> Option<Written>
    ensures within { IfSome result (λ w. w.taken ≤ length bytes.now) }
    ensures bytes { IfSome result (λ w. Appends (F.contents to.old) (F.contents to.new) (take w.taken bytes.now)) }
{
    let mut taken = 0;
    for _ in 0..MOST_WRITES {
        if taken == bytes.len() {
            break;
        }
        match to.write(&bytes[taken..]) {
            Ok(count) => taken += count,
            Err(error) if error.kind() == ErrorKind::WouldBlock => {
                return Some(Written { taken, full: true });
            }
            Err(error) if error.kind() == ErrorKind::Interrupted => {}
            Err(_) => return None,
        }
    }
    Some(Written { taken, full: false })
}
