//! The parts of a round: its begin, its events, its end, and what is to be done after it.
ghost use Rattle.std.specs.Prelude.{◌≡◌, ◌∷◌, ◌<◌, ◌≤◌, IsTrue, IfOk, OnOk, IfSome, false, true, filter, map};
ghost use Rattle.aprs_base.specs.Outside.{new_link};
ghost use Rattle.aprs_history.specs.Trace.{Trace, Roomed, is_live};
ghost use Rattle.aprs_history.specs.Stands.{Follows};
ghost use Rattle.aprs_history.specs.History.{begin_round, end_round, with_event};
ghost use Rattle.server_core.specs.LinkSteps.{AreServed};
ghost use Rattle.served_links.specs.Links.{Rises, is_ready, number_of};
ghost use Rattle.server_core.specs.Meaning.{setting_of};
ghost use Rattle.server_core.specs.Steps.{AfterEvent, SameRest, Walks};
ghost use Rattle.server_core.specs.Telling.{KnowUnasked, Tells};

use super::State;
use crate::acts::Acts;
use crate::messages::forget_all;
use aprs_base::{Event, Gate, JournalLine, Memory};
use std::alloc::Global;
use std::marker::Sync;
use std::thread::Threads;
use worker_match::Crew;

/// So many things for each worker are matched at once, as many as the lines of a round of the real wire, and no more wait.
const ENOUGH: usize = 400;

/// How many things may wait to be matched by so many workers.
fn enough_for(workers: u32) -> usize
    requires { workers ≤ 64 }
{
    ENOUGH * workers as usize
}

/// Whether links come, end, or grow older by it.
fn changes_links(event: &Event) -> bool {
    matches!(
        event,
        Event::Tick(_) | Event::Opened { .. } | Event::Joined { .. } | Event::Ended(_)
    )
}

impl State {
    /// A round begins: the links that a send found gone end.
    pub(super) fn begin(&mut self, alloc: Global) -> Result<(), Memory>
        ensures lasts { OnOk result (0 < self.old.seen.window.seconds) }
        ensures walks { (t : Trace) → Walks self.old t → OnOk result (Walks self.new (begin_round t)) }
        ensures rest { OnOk result (SameRest self.old self.new) }
    {
        let lost = self.links.lost(alloc)?;
        self.turned.clear();
        self.closing.clear();
        self.reach.begin();
        self.reach.end_all(lost.as_slice(), self.moment);
        forget_all(&mut self.heard, lost.as_slice());
        self.links.drop_these(lost.as_slice())?;
        self.links.wake();
        Ok(())
    }

    /// A link has room again.
    fn room(&mut self, number: u32)
        ensures live { (t : Trace) → Walks self.old t → IsTrue (is_live t number) → Walks self.new (Roomed number ∷ t) }
        ensures dead { (t : Trace) → Walks self.old t → is_live t number ≡ false → Walks self.new t }
        ensures rest { SameRest self.old self.new }
    {
        self.links.give_room(number);
    }

    /// The server is to stop.
    fn stop(&mut self)
        ensures walks { (t : Trace) → Walks self.old t → Walks self.new t }
        ensures conf { self.new.conf ≡ self.old.conf }
        ensures greatest { self.new.seen.greatest ≡ self.old.seen.greatest }
        ensures stopped { self.new.seen.stopped ≡ true }
    {
        self.stopped = true;
    }

    /// What came to the links is matched before links come, end, or grow older, and where there is much of it.
    pub(super) fn settle_before<R: Threads + Sync, G: Gate + Sync>(
        &mut self,
        crew: &Crew<R, G>,
        event: &Event,
    ) -> Result<(), Memory>
        requires { (1 ≤ crew.now.workers) × (crew.now.workers ≤ 64) }
        ensures { OnOk result (self.new ≡ self.old) }
    {
        let waiting = self.links.waiting();
        if waiting >= enough_for(crew.workers) || (waiting > 0 && changes_links(event)) {
            return self.links.settle(crew);
        }
        Ok(())
    }

    /// The events have been walked: what came to the links is matched, and they rest.
    fn rest<R: Threads + Sync, G: Gate + Sync>(&mut self, crew: &Crew<R, G>) -> Result<(), Memory>
        requires { (1 ≤ crew.now.workers) × (crew.now.workers ≤ 64) }
        ensures walks { (t : Trace) → Walks self.old t → OnOk result (Walks self.new t) }
        ensures rest { OnOk result (SameRest self.old self.new) }
        ensures rests { OnOk result (self.new.rests ≡ true) }
    {
        self.links.settle(crew)?;
        self.links.rest();
        Ok(())
    }

    /// One event of a round.
    pub(super) fn take_event(
        &mut self,
        alloc: Global,
        event: &Event,
        lines: &mut Vec<JournalLine>,
    ) -> Result<(), Memory>
        requires { IfSome (new_link event.now) (λ link. self.old.seen.greatest < link) }
        ensures walks { (t : Trace) → Walks self.old t → OnOk result (Walks self.new (with_event (setting_of self.old.conf) event.now t)) }
        ensures tells { (t : Trace) → Walks self.old t → OnOk result (Tells (setting_of self.old.conf) t (with_event (setting_of self.old.conf) event.now t) lines.old.items lines.new.items) }
        ensures rest { OnOk result (AfterEvent self.old self.new event.now) }
    {
        match event {
            Event::Tick(moment) => self.tick(alloc, *moment, lines)?,
            Event::Opened {
                listener,
                link,
                from,
            } => self.open(alloc, *listener, *link, *from, lines)?,
            Event::Joined { uplink, link, at } => {
                self.tell_joined(*uplink, *link, lines)?;
                self.join(alloc, *uplink, *link, *at)?;
            }
            Event::Unjoined(uplink) => {
                self.tell_unjoined(*uplink, lines)?;
                self.unjoin(*uplink);
            }
            Event::Bytes(link, chunk) => self.take_bytes(alloc, *link, chunk.bytes(), lines)?,
            Event::Ended(link) => {
                self.tell_ended(*link, lines)?;
                self.end(*link)?;
            }
            Event::Room(link) => self.room(*link),
            Event::Stop => self.stop(),
            Event::Datagram {
                listener,
                from,
                bytes,
            } => self.take_datagram(alloc, *listener, *from, bytes.bytes(), lines)?,
        }
        Ok(())
    }

    /// The events have been walked: what was parsed ahead is let go, and the room of the packets is for those of the next round.
    fn let_walked_go(&mut self, alloc: Global) -> Result<(), Memory>
        ensures { OnOk result (self.new ≡ self.old) }
    {
        self.ahead.clear(alloc);
        self.spares.turn()
    }

    /// A round ends.
    pub(super) fn finish<R: Threads + Sync, G: Gate + Sync>(
        &mut self,
        crew: &Crew<R, G>,
        alloc: Global,
        events: &[Event],
        lines: &mut Vec<JournalLine>,
    ) -> Result<(), Memory>
        requires { (1 ≤ crew.now.workers) × (crew.now.workers ≤ 64) }
        ensures follows { (t : Trace) → Walks self.old t
            → OnOk result (Follows (setting_of self.old.conf) self.new.seen (end_round (setting_of self.old.conf) self.old.seen.stopped t)) }
        ensures tells { (t : Trace) → Walks self.old t → KnowUnasked events.now t
            → OnOk result (Tells (setting_of self.old.conf) t (end_round (setting_of self.old.conf) self.old.seen.stopped t) lines.old.items lines.new.items) }
        ensures rest { OnOk result (SameRest self.old self.new) }
        ensures rests { OnOk result (self.new.rests ≡ true) }
    {
        self.let_walked_go(alloc)?;
        self.rest(crew)?;
        self.end_refused(alloc, events, lines)?;
        self.end_stopped(alloc, lines)
    }

    /// What is to be done now: the dial, the casts, the offers, and then the closes.
    pub(crate) fn acts(&self, alloc: Global) -> Result<Acts, Memory>
        requires { self.now.rests ≡ true }
        ensures offers { IfOk result (λ acts. acts.offers ≡ map number_of (filter is_ready self.now.seen.links)) }
        ensures closes { IfOk result (λ acts. acts.closes ≡ self.now.seen.closing) }
        ensures done { IfOk result (λ acts. acts.done ≡ self.now.seen.stopped) }
        ensures rising { IfOk result (λ acts. Rises 0 acts.offers self.now.seen.greatest) }
        ensures served { IfOk result (λ acts. AreServed acts.offers self.now.seen.links) }
        ensures dial { IfOk result (λ acts. acts.dial ≡ self.now.seen.reach.dial) }
        ensures casts { IfOk result (λ acts. acts.casts ≡ self.now.seen.reach.casts) }
        ensures accepted { IfOk result (λ acts. acts.accepted ≡ self.now.seen.reach.accepted) }
    {
        let offers = self.links.ready(alloc)?;
        let closes = self.closing.clone()?;
        Ok(Acts {
            dial: self.reach.dial(),
            casts: self.reach.casts(alloc)?,
            offers,
            closes,
            accepted: self.reach.accepted(alloc)?,
            done: self.stopped,
        })
    }
}
