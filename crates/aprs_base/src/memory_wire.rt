//! A wire in memory, for tests, drills and rows: it gives listed events, and tells all that happened.
ghost use Rattle.std.specs.Prelude.{◌≡◌, ◌↔◌, ℕ, ◌+◌, ◌≤◌, ◌∷◌, ◌++◌, [], Some, None, IsErr, IsOk, OnOk, OnErr, IsErrOf, IfOk, IsTrue, true, false, drop};
ghost use Rattle.aprs_base.specs.WireScript.{after_act, after_listen, after_next, after_send, links_after, next_event, outcome_of, script_of, shown_by};
ghost use Rattle.aprs_base.specs.Outside.{AfterAct, AfterListen, AfterNext, AfterSend, are_numbered, new_link, with_cast, with_closed, with_dial};

use crate::events::{Came, Event, Happening, Sent, WireError, copy_event};
use crate::packets::{ListenSpec, UplinkSpec, copy_uplink};
use crate::texts::{Addr, Memory, Text};
use crate::wire::Wire;
use std::alloc::Global;
use std::marker::Model;

/// What a wire in memory does with one offer of bytes.
#[derive(Clone, Copy)]
pub enum Take {
    All,
    /// At most so many bytes.
    Most(usize),
    Gone,
}

/// The links that events bring aren't numbered in order from 1.
#[derive(Clone, Copy, PartialEq, Eq, Debug)]
pub struct WrongNumbers;

/// A wire in memory, which gives listed events and tells all that happened.
#[derive(Drop)]
pub struct MemWire {
    pub done: Vec<Happening>,
    pub listened: Vec<ListenSpec>,
    pub dialled: Vec<UplinkSpec>,
    pub cast_to: Vec<Addr>,
    alloc: Global,
    events: Vec<Event>,
    takes: Vec<Take>,
    fail_listen: Option<u64>,
    fail_next: Option<u64>,
    listens: u64,
    nexts: u64,
    at: usize,
    sends: usize,
    links: u32,
    failed_listens: u64,
    failed_nexts: u64,
    gones: u64,
}

impl Model for MemWire {
    ghost use Rattle.std.specs.Prelude.{IsTrue, drop};
    ghost use Rattle.aprs_base.specs.Outside.{are_numbered};
    ghost use Rattle.aprs_base.specs.WireScript.{WireScript};

    ghost Value = { WireScript };

    ghost view = { λ w. record {
      told = record { done = w.done.items; listened = w.listened.items; dialled = w.dialled.items; cast_to = w.cast_to.items };
      left = drop w.at w.events.items;
      takes = drop w.sends w.takes.items;
      fail_listen = w.fail_listen;
      fail_next = w.fail_next;
      listens = w.listens;
      nexts = w.nexts;
      links = w.links;
      failed_listens = w.failed_listens;
      failed_nexts = w.failed_nexts;
      gones = w.gones;
    } };

    ghost invariant = { λ w. IsTrue (are_numbered w.links (drop w.at w.events.items)) };
}

/// The number of the link that an event brings.
fn new_link_of(event: &Event) -> Option<u32>
    ensures { result ≡ new_link event.now }
{
    match event {
        Event::Opened { link, .. } | Event::Joined { link, .. } => Some(*link),
        _ => None,
    }
}

/// The event at a place, and Stop after the last.
fn event_at(events: &[Event], at: usize) -> Event
    ensures { result ≡ next_event (drop at events.now) }
{
    events.get(at).map_or(Event::Stop, copy_event)
}

/// The place of the item after, and the same past the last.
#[tactic(auto, using(crate::proofs::ScriptLemmas::left_after))]
fn place_after<T>(items: &[T], at: usize) -> usize
    ensures { drop result items.now ≡ drop 1 (drop at items.now) }
{
    if at < items.len() { at + 1 } else { at }
}

/// What becomes of an offer of bytes.
fn outcome_at(takes: &[Take], at: usize, bytes: &[u8]) -> Sent
    ensures { result ≡ outcome_of (drop at takes.now) bytes.now }
{
    match takes.get(at) {
        None | Some(Take::All) => Sent::Took(bytes.len()),
        Some(Take::Most(most)) => Sent::Took(bytes.len().min(*most)),
        Some(Take::Gone) => Sent::Gone,
    }
}

/// How many links were made, with the one that an event brings.
fn links_with(links: u32, event: &Event) -> u32
    ensures { result ≡ links_after links (new_link event.now) }
{
    new_link_of(event).unwrap_or(links)
}

/// Whether the links that the events bring are numbered in order from 1.
fn are_in_order(events: &[Event]) -> bool
    ensures { result ≡ are_numbered 0 events.now }
{
    let mut links = 0u32;
    for event in events {
        if let Some(link) = new_link_of(event) {
            if link == 0 || link - 1 != links {
                return false;
            }
            links = link;
        }
    }
    true
}

impl MemWire {
    /// A wire that gives these events, and Stop after the last; takes each offer as the list says, and whole after its end;
    /// and fails the calls of `listen` and `next` before which so many were made. It takes no memory until it is called.
    pub fn new(
        alloc: Global,
        events: Vec<Event>,
        takes: Vec<Take>,
        fail_listen: Option<u64>,
        fail_next: Option<u64>,
    ) -> Result<MemWire, WrongNumbers>
        ensures ok { IfOk result (λ w. w ≡ script_of events.items takes.items fail_listen fail_next) }
        ensures err { IsErr result ↔ (are_numbered 0 events.items ≡ false) }
    {
        if !are_in_order(events.as_slice()) {
            return Err(WrongNumbers);
        }
        Ok(MemWire {
            done: Vec::new(alloc),
            listened: Vec::new(alloc),
            dialled: Vec::new(alloc),
            cast_to: Vec::new(alloc),
            alloc,
            events,
            takes,
            fail_listen,
            fail_next,
            listens: 0,
            nexts: 0,
            at: 0,
            sends: 0,
            links: 0,
            failed_listens: 0,
            failed_nexts: 0,
            gones: 0,
        })
    }

    /// Tells an event that comes from elsewhere as if it were the next of the list, where none is left. The caller has it already.
    pub fn note(&mut self, event: &Event) -> Result<(), Memory>
        requires none { self.old.left ≡ [] }
        requires numbered { IsTrue (are_numbered self.old.links (event.now ∷ [])) }
        ensures shown { OnOk result (AfterNext (shown_by self.old) (shown_by self.new) (Ok event.now)) }
        ensures ok { OnOk result (self.new ≡ after_next self.old (Ok event.now)) }
        ensures err { OnErr result (self.new ≡ self.old) }
    {
        let came = Came::of(self.alloc, event)?;
        self.done.push(Happening::Event(came))?;
        self.nexts = self.nexts.saturating_add(1);
        self.links = links_with(self.links, event);
        Ok(())
    }
}

impl Wire for MemWire {
    ghost shown = { shown_by };

    fn listen(&mut self, n: u16, spec: &ListenSpec) -> Result<(), WireError>
        ensures listen { AfterListen (shown_by self.old) (shown_by self.new) n spec.now result }
        ensures failed { IsErrOf result WireError.Failed ↔ (self.old.fail_listen ≡ Some self.old.listens) }
        ensures exact { self.new ≡ after_listen n spec.now self.old result }
    {
        let calls = self.listens;
        if self.fail_listen == Some(calls) {
            self.listens = calls.saturating_add(1);
            self.failed_listens = self.failed_listens.saturating_add(1);
            return Err(WireError::Failed);
        }
        self.listened.push(*spec)?;
        if self.done.push(Happening::Listen(n)).is_err() {
            self.listened.pop();
            return Err(WireError::Memory);
        }
        self.listens = calls.saturating_add(1);
        Ok(())
    }

    #[tactic(auto, using(crate::proofs::ScriptLemmas::numbered_next))]
    fn next(&mut self) -> Result<Event, WireError>
        ensures next { AfterNext (shown_by self.old) (shown_by self.new) result }
        ensures failed { IsErrOf result WireError.Failed ↔ (self.old.fail_next ≡ Some self.old.nexts) }
        ensures order { IfOk result (λ e. e ≡ next_event self.old.left) }
        ensures exact { self.new ≡ after_next self.old result }
    {
        let calls = self.nexts;
        if self.fail_next == Some(calls) {
            self.nexts = calls.saturating_add(1);
            self.failed_nexts = self.failed_nexts.saturating_add(1);
            return Err(WireError::Failed);
        }
        let event = event_at(self.events.as_slice(), self.at);
        let came = Came::of(self.alloc, &event)?;
        self.done.push(Happening::Event(came))?;
        self.nexts = calls.saturating_add(1);
        self.at = place_after(self.events.as_slice(), self.at);
        self.links = links_with(self.links, &event);
        Ok(event)
    }

    fn send(&mut self, link: u32, bytes: &[u8]) -> Result<Sent, Memory>
        ensures send { AfterSend (shown_by self.old) (shown_by self.new) link bytes.now result }
        ensures outcome { IfOk result (λ s. s ≡ outcome_of self.old.takes bytes.now) }
        ensures exact { self.new ≡ after_send link bytes.now self.old result }
    {
        let sent = outcome_at(self.takes.as_slice(), self.sends, bytes);
        let copy = Text::copied(self.alloc, bytes)?;
        self.done.push(Happening::Sent(link, copy, sent))?;
        self.sends = place_after(self.takes.as_slice(), self.sends);
        if sent == Sent::Gone {
            self.gones = self.gones.saturating_add(1);
        }
        Ok(sent)
    }

    fn close(&mut self, link: u32) -> Result<(), Memory>
        ensures close { AfterAct (shown_by self.old) (shown_by self.new) (with_closed link) result }
        ensures exact { self.new ≡ after_act (with_closed link) self.old result }
    {
        self.done.push(Happening::Closed(link))?;
        Ok(())
    }

    fn dial(&mut self, uplink: u16, spec: &UplinkSpec) -> Result<(), Memory>
        ensures dial { AfterAct (shown_by self.old) (shown_by self.new) (with_dial uplink spec.now) result }
        ensures exact { self.new ≡ after_act (with_dial uplink spec.now) self.old result }
    {
        self.dialled.push(copy_uplink(spec))?;
        if self.done.push(Happening::Dialled(uplink)).is_err() {
            self.dialled.pop();
            return Err(Memory);
        }
        Ok(())
    }

    fn cast(&mut self, peer: u16, to: Addr, bytes: &[u8]) -> Result<(), Memory>
        ensures cast { AfterAct (shown_by self.old) (shown_by self.new) (with_cast peer to bytes.now) result }
        ensures exact { self.new ≡ after_act (with_cast peer to bytes.now) self.old result }
    {
        let copy = Text::copied(self.alloc, bytes)?;
        self.cast_to.push(to)?;
        if self.done.push(Happening::Cast(peer, copy)).is_err() {
            self.cast_to.pop();
            return Err(Memory);
        }
        Ok(())
    }
}
