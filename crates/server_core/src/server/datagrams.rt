//! Datagrams: those that stations submit, and those of the peer group.
ghost use Rattle.std.specs.Prelude.{◌≡◌, ◌∷◌, ◌++◌, ℕ, IsTrue, IfOk, OnOk, IfSome, IsNone, List, Some, None, map};
ghost use Rattle.aprs_history.specs.Trace.{Trace};
ghost use Rattle.aprs_history.specs.Setting.{kind_at, peer_from};
ghost use Rattle.aprs_base.specs.declared.cutting.Cut.{Cut};
ghost use Rattle.q_construct.specs.Rule.{has_station};
ghost use Rattle.q_construct.specs.declared.origins.Origin.TheVariants as Origin;
ghost use Rattle.aprs_history.specs.Scenes.{datagram_scene};
ghost use Rattle.aprs_history.specs.Verdicts.{submitter_of, verdict_of};
ghost use Rattle.aprs_history.specs.History.{datagram_cuts, refuse_datagram, relay, say_all, submit, with_lines};
ghost use Rattle.server_core.specs.LinkSteps.{IsDatagram};
ghost use Rattle.server_core.specs.Meaning.{peer_of, setting_of};
ghost use Rattle.server_core.specs.Steps.{SameRest, Walks, carried_at, with_verdict};
ghost use Rattle.server_core.specs.Telling.{Tells, said_lines};

use super::State;
use super::verdicts::Objection;
use crate::conf::{peer_from, peers_of, served_by, server_of};
use aprs_base::{Addr, Cut, Cutter, JournalLine, Memory, PortKind, Source, copy_call};
use aprs_history::Refusal;
use line_verdict::{is_comment_line, submitter_of};
use q_construct::Origin;
use std::alloc::Global;

/// The lines of a datagram, whose end ends the last one.
pub(super) fn cut_datagram(alloc: Global, bytes: &[u8]) -> Result<Vec<Cut>, Memory>
    ensures { IfOk result (λ cuts. cuts.items ≡ datagram_cuts bytes.now) }
{
    let mut cuts = Vec::new(alloc);
    let mut cutter = Cutter::new();
    cutter.feed(alloc, bytes, &mut cuts)?;
    cutter.feed(alloc, b"\n", &mut cuts)?;
    Ok(cuts)
}

impl State {
    /// A line of a datagram.
    fn take_datagram_line(
        &mut self,
        alloc: Global,
        from: Source,
        origin: &Origin,
        cut: &Cut,
        lines: &mut Vec<JournalLine>,
    ) -> Result<(), Memory>
        requires station { IsTrue (has_station origin.now) }
        requires datagram { IsDatagram from }
        ensures core { OnOk result (self.new ≡ with_verdict from cut.now (verdict_of (carried_at origin.now self.old) cut.now) self.old) }
        ensures lines { OnOk result (lines.new.items ≡ lines.old.items ++ said_lines self.old from (verdict_of (carried_at origin.now self.old) cut.now)) }
    {
        match cut {
            Cut::Long => self.object(alloc, &from, Objection::Long, lines),
            Cut::Line(line) if is_comment_line(line) => Ok(()),
            Cut::Line(line) => self.take_packet(alloc, from, origin, line, lines),
        }
    }

    /// Lines of a datagram, one after another.
    fn take_datagram_lines(
        &mut self,
        alloc: Global,
        from: Source,
        origin: &Origin,
        cuts: &[Cut],
        lines: &mut Vec<JournalLine>,
    ) -> Result<(), Memory>
        requires station { IsTrue (has_station origin.now) }
        requires datagram { IsDatagram from }
        ensures walks { (t : Trace) → Walks self.old t
            → OnOk result (Walks self.new (say_all (datagram_scene (setting_of self.old.conf) origin.now) from cuts.now t)) }
        ensures tells { (t : Trace) → Walks self.old t
            → OnOk result (Tells (setting_of self.old.conf) t (say_all (datagram_scene (setting_of self.old.conf) origin.now) from cuts.now t) lines.old.items lines.new.items) }
        ensures rest { OnOk result (SameRest self.old self.new) }
    {
        for cut in cuts {
            self.take_datagram_line(alloc, from, origin, cut, lines)?;
        }
        Ok(())
    }

    /// A datagram is refused whole, for what its first line is.
    fn refuse_datagram(
        &mut self,
        alloc: Global,
        listener: u16,
        refusal: Refusal,
        lines: &mut Vec<JournalLine>,
    ) -> Result<(), Memory>
        ensures walks { (t : Trace) (cut : Cut) → Walks self.old t → OnOk result (Walks self.new (refuse_datagram listener cut refusal t)) }
        ensures tells { (t : Trace) (cut : Cut) → Walks self.old t → OnOk result (Tells (setting_of self.old.conf) t (refuse_datagram listener cut refusal t) lines.old.items lines.new.items) }
        ensures rest { OnOk result (SameRest self.old self.new) }
    {
        self.turn_down(alloc, &Source::Submit(listener), refusal, lines)
    }

    /// A station submits a datagram: after its login come its packets.
    fn submit(
        &mut self,
        alloc: Global,
        listener: u16,
        first: &Cut,
        cuts: &[Cut],
        lines: &mut Vec<JournalLine>,
    ) -> Result<(), Memory>
        ensures walks { (t : Trace) → Walks self.old t
            → OnOk result (Walks self.new (submit (setting_of self.old.conf) listener first.now cuts.now (submitter_of self.old.conf.server first.now) t)) }
        ensures tells { (t : Trace) → Walks self.old t
            → OnOk result (Tells (setting_of self.old.conf) t (submit (setting_of self.old.conf) listener first.now cuts.now (submitter_of self.old.conf.server first.now) t) lines.old.items lines.new.items) }
        ensures rest { OnOk result (SameRest self.old self.new) }
    {
        match submitter_of(server_of(&self.conf), first) {
            Ok(login) => self.take_datagram_lines(
                alloc,
                Source::Submit(listener),
                &Origin::Udp { login },
                cuts,
                lines,
            ),
            Err(refusal) => self.refuse_datagram(alloc, listener, refusal, lines),
        }
    }

    /// The peer that has that address: its number, and where what it sends comes from.
    fn peer_at(&self, at: Addr) -> Option<(u16, Origin)>
        ensures none { IsNone result → peer_from 0 (map peer_of self.now.conf.peers) at ≡ None }
        ensures some { IfSome result (λ peer. (call : List ℕ) × (peer.1 ≡ Origin.Peer call) × (peer_from 0 (map peer_of self.now.conf.peers) at ≡ Some (peer.0, call))) }
        ensures station { IfSome result (λ peer. IsTrue (has_station peer.1)) }
    {
        match peer_from(peers_of(&self.conf), at) {
            Some((number, call)) => Some((number, Origin::Peer(copy_call(call)))),
            None => None,
        }
    }

    /// A datagram came to the peer group: where it is a peer's, its lines are packets.
    fn relay(
        &mut self,
        alloc: Global,
        listener: u16,
        from: Addr,
        cuts: &[Cut],
        lines: &mut Vec<JournalLine>,
    ) -> Result<(), Memory>
        ensures walks { (t : Trace) (first : Cut) (more : List Cut) → cuts.now ≡ first ∷ more → Walks self.old t
            → OnOk result (Walks self.new (relay (setting_of self.old.conf) listener first more (peer_from 0 (map peer_of self.old.conf.peers) from) t)) }
        ensures tells { (t : Trace) (first : Cut) (more : List Cut) → cuts.now ≡ first ∷ more → Walks self.old t
            → OnOk result (Tells (setting_of self.old.conf) t (relay (setting_of self.old.conf) listener first more (peer_from 0 (map peer_of self.old.conf.peers) from) t) lines.old.items lines.new.items) }
        ensures rest { OnOk result (SameRest self.old self.new) }
    {
        match self.peer_at(from) {
            Some((peer, origin)) => self.take_datagram_lines(
                alloc,
                Source::Peer(peer),
                &origin,
                cuts,
                lines,
            ),
            None => self.refuse_datagram(alloc, listener, Refusal::Stranger, lines),
        }
    }

    /// What the listener of that number serves.
    fn kind_served(&self, listener: u16) -> Option<PortKind>
        ensures { result ≡ kind_at (setting_of self.now.conf) listener }
    {
        served_by(&self.conf, listener)
    }

    /// The lines of a datagram came, on a listener of that kind.
    fn serve_datagram(
        &mut self,
        alloc: Global,
        kind: Option<PortKind>,
        listener: u16,
        from: Addr,
        cuts: &[Cut],
        lines: &mut Vec<JournalLine>,
    ) -> Result<(), Memory>
        ensures walks { (t : Trace) → Walks self.old t → OnOk result (Walks self.new (with_lines (setting_of self.old.conf) kind listener from cuts.now t)) }
        ensures tells { (t : Trace) → Walks self.old t
            → OnOk result (Tells (setting_of self.old.conf) t (with_lines (setting_of self.old.conf) kind listener from cuts.now t) lines.old.items lines.new.items) }
        ensures rest { OnOk result (SameRest self.old self.new) }
    {
        let Some((first, more)) = cuts.split_first() else {
            return Ok(());
        };
        match kind {
            Some(PortKind::Submit) => self.submit(alloc, listener, first, more, lines),
            Some(PortKind::Core) => self.relay(alloc, listener, from, cuts, lines),
            _ => Ok(()),
        }
    }

    /// A datagram came.
    pub(super) fn take_datagram(
        &mut self,
        alloc: Global,
        listener: u16,
        from: Addr,
        bytes: &[u8],
        lines: &mut Vec<JournalLine>,
    ) -> Result<(), Memory>
        ensures walks { (t : Trace) → Walks self.old t
            → OnOk result (Walks self.new (with_lines (setting_of self.old.conf) (kind_at (setting_of self.old.conf) listener) listener from (datagram_cuts bytes.now) t)) }
        ensures tells { (t : Trace) → Walks self.old t
            → OnOk result (Tells (setting_of self.old.conf) t (with_lines (setting_of self.old.conf) (kind_at (setting_of self.old.conf) listener) listener from (datagram_cuts bytes.now) t) lines.old.items lines.new.items) }
        ensures rest { OnOk result (SameRest self.old self.new) }
    {
        let cuts = cut_datagram(alloc, bytes)?;
        let kind = self.kind_served(listener);
        self.serve_datagram(alloc, kind, listener, from, cuts.as_slice(), lines)
    }
}
