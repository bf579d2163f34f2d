//! Links that end.
ghost use Rattle.std.specs.Prelude.{◌≡◌, ◌∷◌, IsTrue, IfOk, OnOk, false, true, filter};
ghost use Rattle.aprs_history.specs.Trace.{Trace, Ended, is_live, placed_all};
ghost use Rattle.aprs_history.specs.declared.verdicts.EndReason.TheVariants.{ByPeer};
ghost use Rattle.aprs_history.specs.Links.{late_links, late_reason};
ghost use Rattle.aprs_history.specs.Stands.{Follows};
ghost use Rattle.aprs_history.specs.History.{end_each, end_stopped, refused_links, refused_reason};
ghost use Rattle.served_links.specs.Links.{Rises, is_late_link, is_none_of, is_overfull, numbers};
ghost use Rattle.server_core.specs.LinkSteps.{ended_all, forgotten_all};
ghost use Rattle.server_core.specs.Meaning.{setting_of, timeouts_of};
ghost use Rattle.server_core.specs.Steps.{SameRest, Walks};
ghost use Rattle.server_core.specs.Telling.{KnowUnasked, Tells};

use super::State;
use crate::conf::timeouts;
use crate::messages::forget_all;
use crate::numbers::place_all;
use aprs_base::{Event, JournalLine, Memory};
use std::alloc::Global;

impl State {
    /// A link was ended by its peer.
    pub(super) fn end(&mut self, number: u32) -> Result<(), Memory>
        ensures live { (t : Trace) → Walks self.old t → IsTrue (is_live t number) → OnOk result (Walks self.new (Ended number ByPeer ∷ t)) }
        ensures dead { (t : Trace) → Walks self.old t → is_live t number ≡ false → OnOk result (Walks self.new t) }
        ensures rest { OnOk result (SameRest self.old self.new) }
    {
        self.reach.end_at(&self.links, number, self.moment);
        self.heard.forget(number);
        self.links.leave(number)
    }

    /// The links that are late end.
    pub(super) fn end_late(
        &mut self,
        alloc: Global,
        lines: &mut Vec<JournalLine>,
    ) -> Result<(), Memory>
        ensures walks { (t : Trace) → Walks self.old t
            → OnOk result (Walks self.new (end_each (late_reason t) (late_links (setting_of self.old.conf) t) t)) }
        ensures tells { (t : Trace) → Walks self.old t
            → OnOk result (Tells (setting_of self.old.conf) t (end_each (late_reason t) (late_links (setting_of self.old.conf) t) t) lines.old.items lines.new.items) }
        ensures rest { OnOk result (SameRest self.old self.new) }
    {
        let ends = self.late(alloc)?;
        self.tell_late(lines)?;
        self.let_go(ends.as_slice())
    }

    /// The numbers of the links that are late.
    fn late(&self, alloc: Global) -> Result<Vec<u32>, Memory>
        ensures { IfOk result (λ v. v.items ≡ numbers (filter (is_late_link (timeouts_of self.now.conf) self.now.seen.moment) self.now.seen.links)) }
    {
        self.links.late(alloc, timeouts(&self.conf), self.moment)
    }

    /// These links leave, and are to be closed: nothing else is kept of them.
    fn let_go(&mut self, ends: &[u32]) -> Result<(), Memory>
        ensures rising { Rises 0 (numbers self.old.seen.links) self.old.seen.greatest }
        ensures exact { OnOk result (self.new ≡ record self.old {
          seen = record self.old.seen {
            links = filter (is_none_of ends.now) self.old.seen.links;
            heard = forgotten_all ends.now self.old.seen.heard;
            reach = record self.old.seen.reach { uplinks = ended_all ends.now self.old.seen.moment self.old.seen.reach.uplinks };
            closing = placed_all ends.now self.old.seen.closing;
          };
        }) }
    {
        self.reach.end_all(ends, self.moment);
        forget_all(&mut self.heard, ends);
        self.links.drop_these(ends)?;
        place_all(&mut self.closing, ends)
    }

    /// The links that are overfull end, and those that were turned away.
    pub(super) fn end_refused(
        &mut self,
        alloc: Global,
        events: &[Event],
        lines: &mut Vec<JournalLine>,
    ) -> Result<(), Memory>
        requires { self.old.rests ≡ true }
        ensures walks { (t : Trace) → Walks self.old t
            → OnOk result (Walks self.new (end_each (refused_reason t) (refused_links (setting_of self.old.conf) t) t)) }
        ensures tells { (t : Trace) → Walks self.old t → KnowUnasked events.now t
            → OnOk result (Tells (setting_of self.old.conf) t (end_each (refused_reason t) (refused_links (setting_of self.old.conf) t) t) lines.old.items lines.new.items) }
        ensures rest { OnOk result (SameRest self.old self.new) }
        ensures rests { OnOk result (self.new.rests ≡ self.old.rests) }
    {
        let ends = self.refused(alloc)?;
        self.tell_refused(ends.as_slice(), events, lines)?;
        self.let_go(ends.as_slice())
    }

    /// The numbers of the links that are overfull or were turned away, rising.
    fn refused(&self, alloc: Global) -> Result<Vec<u32>, Memory>
        requires { self.now.rests ≡ true }
        ensures { IfOk result (λ v. v.items ≡ placed_all self.now.seen.turned (numbers (filter is_overfull self.now.seen.links))) }
    {
        let mut ends = self.links.overfull(alloc)?;
        place_all(&mut ends, self.turned.as_slice())?;
        Ok(ends)
    }

    /// After a stop all links end, and keep what they have still to take.
    pub(super) fn end_stopped(
        &mut self,
        alloc: Global,
        lines: &mut Vec<JournalLine>,
    ) -> Result<(), Memory>
        ensures follows { (t : Trace) → Walks self.old t
            → OnOk result (Follows (setting_of self.old.conf) self.new.seen (end_stopped self.old.seen.stopped t)) }
        ensures tells { (t : Trace) → Walks self.old t
            → OnOk result (Tells (setting_of self.old.conf) t (end_stopped self.old.seen.stopped t) lines.old.items lines.new.items) }
        ensures rest { OnOk result (SameRest self.old self.new) }
        ensures rests { OnOk result (self.new.rests ≡ self.old.rests) }
    {
        if self.stopped {
            let ends = self.all(alloc)?;
            self.links.tell_stopped(self.moment, lines)?;
            self.close_all(ends.as_slice())?;
        }
        Ok(())
    }

    /// The numbers of all links.
    fn all(&self, alloc: Global) -> Result<Vec<u32>, Memory>
        ensures { IfOk result (λ v. v.items ≡ numbers self.now.seen.links) }
    {
        self.links.all(alloc)
    }

    /// All links are to be closed, and are forgotten.
    fn close_all(&mut self, ends: &[u32]) -> Result<(), Memory>
        ensures follows { (t : Trace) → Walks self.old t → ends.now ≡ numbers self.old.seen.links
            → OnOk result (Follows (setting_of self.old.conf) self.new.seen (end_stopped true t)) }
        ensures rest { OnOk result (SameRest self.old self.new) }
        ensures rests { OnOk result (self.new.rests ≡ self.old.rests) }
    {
        self.reach.end_all(ends, self.moment);
        forget_all(&mut self.heard, ends);
        place_all(&mut self.closing, ends)
    }
}
