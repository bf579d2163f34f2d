//! What a round tells the journals.
ghost use Rattle.std.specs.Prelude.{◌≡◌, ℕ, List, ◌∷◌, [], ◌++◌, OnOk, filter, map, if◌then◌else◌};
ghost use Rattle.aprs_base.specs.PartsSeen.{PartsSeen};
ghost use Rattle.aprs_history.specs.Journal.{end_line, join_line, opening_lines, unjoined_lines};
ghost use Rattle.aprs_history.specs.Trace.{AtListener};
ghost use Rattle.aprs_history.specs.declared.verdicts.EndReason.TheVariants.{ByPeer};
ghost use Rattle.aprs_history.specs.declared.verdicts.Verdict.{Verdict};
ghost use Rattle.served_links.specs.Links.{has_number, is_late_link, is_lost};
ghost use Rattle.server_core.specs.Meaning.{timeouts_of};
ghost use Rattle.served_links.specs.EndLines.{late_line, lost_line};
ghost use Rattle.server_core.specs.Telling.{refused_line, said_lines};

use super::State;
use crate::conf::{group_of, timeouts};
use crate::telling::{tell_opened, tell_refused, tell_verdict};
use aprs_base::{Event, JournalLine, Memory, Source};
use aprs_history::{Admission, EndReason, Refusal, Verdict};
use journal_lines::{duplicate_line, end_line, join_line, refusal_line, unjoined_line};

impl State {
    /// What was said from there, with this verdict.
    pub(super) fn tell_said(
        &self,
        from: &Source,
        verdict: &Verdict,
        lines: &mut Vec<JournalLine>,
    ) -> Result<(), Memory>
        ensures { OnOk result (lines.new.items ≡ lines.old.items ++ said_lines self.now from.now verdict.now) }
    {
        tell_verdict(group_of(&self.conf), from, self.moment, verdict, lines)
    }

    /// A line or a datagram that came from there and is refused.
    pub(super) fn tell_refusal(
        &self,
        from: &Source,
        refusal: &Refusal,
        lines: &mut Vec<JournalLine>,
    ) -> Result<(), Memory>
        ensures { OnOk result (lines.new.items ≡ lines.old.items ++ said_lines self.now from.now (Verdict.Refused refusal.now)) }
    {
        lines.push(refusal_line(group_of(&self.conf), from, self.moment, refusal))?;
        Ok(())
    }

    /// A packet that came from there and is refused as a duplicate.
    pub(super) fn tell_duplicate(
        &self,
        from: &Source,
        lines: &mut Vec<JournalLine>,
    ) -> Result<(), Memory>
        ensures { (parts : PartsSeen) (line : List ℕ) → OnOk result (lines.new.items ≡ lines.old.items ++ said_lines self.now from.now (Verdict.Refused (Refusal.Duplicate parts line))) }
    {
        lines.push(duplicate_line(group_of(&self.conf), from, self.moment))?;
        Ok(())
    }

    /// A link that has come to a listener.
    pub(super) fn tell_opened(
        &self,
        listener: u16,
        link: u32,
        admission: Admission,
        lines: &mut Vec<JournalLine>,
    ) -> Result<(), Memory>
        ensures { OnOk result (lines.new.items ≡ lines.old.items ++ opening_lines (AtListener listener) admission self.now.seen.moment link) }
    {
        tell_opened(self.moment, link, listener, admission, lines)
    }

    /// A link to an uplink, which has joined.
    pub(super) fn tell_joined(
        &self,
        uplink: u16,
        link: u32,
        lines: &mut Vec<JournalLine>,
    ) -> Result<(), Memory>
        ensures { OnOk result (lines.new.items ≡ lines.old.items ++ join_line self.now.seen.moment link uplink ∷ []) }
    {
        lines.push(join_line(self.moment, link, uplink))?;
        Ok(())
    }

    /// A dial that came to nothing, where that uplink was being dialled.
    pub(super) fn tell_unjoined(
        &self,
        uplink: u16,
        lines: &mut Vec<JournalLine>,
    ) -> Result<(), Memory>
        ensures { OnOk result (lines.new.items ≡ lines.old.items ++ unjoined_lines self.now.seen.reach.uplinks.dialled self.now.seen.moment uplink) }
    {
        if self.reach.is_dialled(uplink) {
            lines.push(unjoined_line(self.moment, uplink))?;
        }
        Ok(())
    }

    /// A link that its peer has ended, where it is there.
    pub(super) fn tell_ended(&self, link: u32, lines: &mut Vec<JournalLine>) -> Result<(), Memory>
        ensures { OnOk result (lines.new.items ≡ lines.old.items ++ (if has_number link self.now.seen.links then end_line self.now.seen.moment link ByPeer ∷ [] else [])) }
    {
        if self.links.has_link(link) {
            lines.push(end_line(self.moment, link, EndReason::ByPeer))?;
        }
        Ok(())
    }

    /// The links that a send found gone.
    pub(super) fn tell_lost(&self, lines: &mut Vec<JournalLine>) -> Result<(), Memory>
        ensures { OnOk result (lines.new.items ≡ lines.old.items ++ map (lost_line self.now.seen.moment) (filter is_lost self.now.seen.links)) }
    {
        self.links.tell_lost(self.moment, lines)
    }

    /// The links that are late.
    pub(super) fn tell_late(&self, lines: &mut Vec<JournalLine>) -> Result<(), Memory>
        ensures { OnOk result (lines.new.items ≡ lines.old.items ++ map (late_line self.now.seen.moment) (filter (is_late_link (timeouts_of self.now.conf) self.now.seen.moment) self.now.seen.links)) }
    {
        self.links
            .tell_late(timeouts(&self.conf), self.moment, lines)
    }

    /// The links that end with the round, which has these events.
    pub(super) fn tell_refused(
        &self,
        ends: &[u32],
        events: &[Event],
        lines: &mut Vec<JournalLine>,
    ) -> Result<(), Memory>
        ensures { OnOk result (lines.new.items ≡ lines.old.items ++ map (refused_line self.now.seen.turned events.now self.now.seen.moment) ends.now) }
    {
        tell_refused(ends, self.turned.as_slice(), events, self.moment, lines)
    }
}
