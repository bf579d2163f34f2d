//! What an accepted packet comes to.
ghost use Rattle.std.specs.Prelude.{◌≡◌, ◌≤◌, ◌++◌, ℕ, IsTrue, IfOk, List, Ok, OnOk, false, length, map};
ghost use Rattle.std.specs.Arc.{arc_value};
ghost use Rattle.aprs_base.specs.declared.cutting.Cut.TheVariants as Cut;
ghost use Rattle.std.specs.List.Sorted.{IsStrictlyIncreasing};
ghost use Rattle.aprs_body.specs.Bodies.{body_of};
ghost use Rattle.dupe_window.specs.Keys.{key_of};
ghost use Rattle.dupe_window.specs.Windows.{has_copy};
ghost use Rattle.aprs_history.specs.Verdicts.{packet_verdict, read_and_routed};
ghost use Rattle.aprs_history.specs.Scenes.{packet_of};
ghost use Rattle.server_core.specs.Objections.{Makes, Routes, routed_in};
ghost use Rattle.server_core.specs.LinkSteps.{after_packet, cast_with, noted_from, owed_in, promised_all, source_found, spent};
ghost use Rattle.served_links.specs.Links.{others_from, submitted_from};
ghost use Rattle.server_core.specs.Meaning.{peer_of};
ghost use Rattle.q_construct.specs.Rule.{has_station};
ghost use Rattle.server_core.specs.Steps.{with_verdict};
ghost use Rattle.server_core.specs.Telling.{said_lines};
ghost use Rattle.tnc2_line.specs.Packet.{IsParts, parts_of, text_of};

use super::verdicts::Objection;
use super::{State, raised};
use crate::conf::peers_of;
use crate::messages::{hearers_of, is_position, note_from, owed_to, promise_all, receiver_of};
use aprs_base::{Body, JournalLine, Line, Memory, Packet, Parts, Shared, Source};
use line_verdict::line_of;
use q_construct::Origin;
use served_links::SourcePlace;
use std::alloc::Global;
use std::sync::Arc;

impl State {
    /// Where a packet's source was last seen, whether it is a gate, and whether the packet was submitted here.
    fn source_of(&self, packet: &Packet) -> SourcePlace
        ensures { result ≡ source_found self.now.seen packet.now.from packet.now.parts.source }
    {
        SourcePlace {
            place: self.stations.place_of(&packet.parts.source, self.moment),
            gate: self.stations.is_gate(&packet.parts.source, self.moment),
            submitted: self.links.is_submitted(&packet.from),
        }
    }

    /// The links that are owed a position, whose promises are spent; none for other packets.
    fn spend(&mut self, alloc: Global, packet: &Packet) -> Result<Vec<u32>, Memory>
        ensures owed { IfOk result (λ links. links.items ≡ owed_in self.old.seen packet.now) }
        ensures rises { IfOk result (λ links. IsStrictlyIncreasing links.items) }
        ensures spent { OnOk result (self.new ≡ record self.old { seen = record self.old.seen { heard = spent packet.now self.old.seen.heard } }) }
    {
        if is_position(packet) {
            owed_to(alloc, &mut self.heard, self.moment, &packet.parts.source)
        } else {
            Ok(Vec::new(alloc))
        }
    }

    /// The links that heard a message's receiver are promised its sender's next position, and a client has heard its source.
    fn promise(
        &mut self,
        alloc: Global,
        packet: &Packet,
        submitted: bool,
        hearers: &[u32],
    ) -> Result<(), Memory>
        requires { submitted ≡ submitted_from packet.now.from self.old.seen.links }
        ensures { OnOk result (self.new ≡ record self.old {
          seen = record self.old.seen {
            heard = noted_from self.old.seen.links packet.now.from packet.now.parts.source self.old.seen.moment
                (promised_all self.old.seen.links packet.now.from packet.now.parts.source self.old.seen.moment hearers.now self.old.seen.heard);
          };
        }) }
    {
        let sender = &packet.parts.source;
        promise_all(
            alloc,
            &mut self.heard,
            &self.links,
            &packet.from,
            sender,
            self.moment,
            hearers,
        )?;
        note_from(
            alloc,
            &mut self.heard,
            &packet.from,
            submitted,
            sender,
            self.moment,
        )
    }

    /// A packet that was submitted here is for the peers.
    fn cast(&mut self, packet: &Packet, submitted: bool) -> Result<(), Memory>
        requires { submitted ≡ submitted_from packet.now.from self.old.seen.links }
        ensures { OnOk result (self.new ≡ record self.old {
          seen = record self.old.seen { reach = record self.old.seen.reach { casts = cast_with (map peer_of self.old.conf.peers) packet.now self.old.seen } };
        }) }
    {
        if submitted {
            self.reach.cast(peers_of(&self.conf), &packet.line)?;
        }
        Ok(())
    }

    /// A packet that came from there now, with this body and this line, to be shared.
    pub(super) fn packet_of(
        &self,
        alloc: Global,
        from: Source,
        parts: Parts,
        body: Body,
        line: Line,
    ) -> Result<Shared, Memory>
        requires { body ≡ body_of parts.dest parts.body }
        ensures { IfOk result (λ packet. arc_value packet ≡ packet_of from self.now.seen.moment parts line) }
    {
        let line = Arc::new(alloc, line)?;
        let packet = Packet {
            from,
            moment: self.moment,
            parts,
            body,
            line,
        };
        Ok(Arc::new(alloc, packet)?)
    }

    /// A packet is accepted, which is shared and whose key is kept: it goes to the links that want it and to the peers, tells where
    /// its source is, is counted, and is kept for those who ask what the round accepted.
    fn accept(&mut self, alloc: Global, packet: &Packet, shared: &Shared) -> Result<(), Memory>
        requires same { arc_value shared.now ≡ packet.now }
        ensures { OnOk result (self.new ≡ record self.old {
          seen = record (after_packet (map peer_of self.old.conf.peers) packet.now self.old.seen) { window = self.old.seen.window };
        }) }
    {
        let source = self.source_of(packet);
        let to = receiver_of(packet);
        let hearers = hearers_of(alloc, &self.heard, self.moment, &to)?;
        let owed = self.spend(alloc, packet)?;
        self.promise(alloc, packet, source.submitted, hearers.as_slice())?;
        self.cast(packet, source.submitted)?;
        self.reach.accept(shared)?;
        self.links.share(
            alloc,
            packet,
            shared,
            &source,
            hearers.as_slice(),
            owed.as_slice(),
        )?;
        self.counts.accepted = raised(self.counts.accepted, 1);
        self.stations.note(alloc, packet)?;
        Ok(())
    }

    /// Writes a packet over another: that of a line from there, as it goes on. Says what there is against the line otherwise.
    fn write_over(
        &mut self,
        alloc: Global,
        packet: &mut Packet,
        from: Source,
        origin: &Origin,
        line: &Line,
    ) -> Result<Result<(), Objection>, Memory>
        requires station { IsTrue (has_station origin.now) }
        ensures exact { IfOk result (λ routed. Routes routed packet.new.parts (routed_in self.old from origin.now line.now)) }
        ensures packet { IfOk result (λ routed. OnOk routed (packet.new ≡ packet_of from self.old.seen.moment packet.new.parts (text_of packet.new.parts))) }
        ensures same { self.new ≡ self.old }
    {
        packet.parts.vias.clear();
        packet.parts.body.clear();
        match self.route(&mut packet.parts, from, origin, line) {
            Err(objection) => Ok(Err(objection)),
            Ok(body) => {
                packet.from = from;
                packet.moment = self.moment;
                packet.body = body;
                put_line(alloc, &mut packet.line, &packet.parts)?;
                Ok(Ok(()))
            }
        }
    }

    /// The packet of a line from there, as it goes on, in room of its own, or what there is against the line.
    fn make(
        &mut self,
        alloc: Global,
        from: Source,
        origin: &Origin,
        line: &Line,
    ) -> Result<Result<Shared, Objection>, Memory>
        requires station { IsTrue (has_station origin.now) }
        ensures exact { IfOk result (λ made. Makes arc_value made self.old from origin.now line.now) }
        ensures same { self.new ≡ self.old }
    {
        let mut parts = Parts::unfilled();
        match self.route(&mut parts, from, origin, line) {
            Err(objection) => Ok(Err(objection)),
            Ok(body) => {
                let text = line_of(&parts);
                Ok(Ok(self.packet_of(alloc, from, parts, body, text)?))
            }
        }
    }

    /// The packet of a line from there, as it goes on, or what there is against the line. It is written over one that nobody shares any
    /// more, where there is such.
    fn made_of(
        &mut self,
        alloc: Global,
        from: Source,
        origin: &Origin,
        line: &Line,
    ) -> Result<Result<Shared, Objection>, Memory>
        requires station { IsTrue (has_station origin.now) }
        ensures exact { IfOk result (λ made. Makes arc_value made self.old from origin.now line.now) }
        ensures same { self.new ≡ self.old }
    {
        let Some(mut spare) = self.spares.take() else {
            return self.make(alloc, from, origin, line);
        };
        let Some(packet) = Arc::get_mut(&mut spare) else {
            return self.make(alloc, from, origin, line);
        };
        match self.write_over(alloc, packet, from, origin, line)? {
            Ok(()) => Ok(Ok(spare)),
            Err(objection) => {
                self.spares.give_back(spare)?;
                Ok(Err(objection))
            }
        }
    }

    /// A packet came from there: it is refused, as a copy too, or accepted.
    pub(super) fn take_packet(
        &mut self,
        alloc: Global,
        from: Source,
        origin: &Origin,
        line: &Line,
        lines: &mut Vec<JournalLine>,
    ) -> Result<(), Memory>
        requires station { IsTrue (has_station origin.now) }
        ensures core { OnOk result (self.new ≡ with_verdict from (Cut.Line line.now) (packet_verdict (has_copy self.old.seen.moment self.old.seen.window) (routed_in self.old from origin.now line.now)) self.old) }
        ensures lines { OnOk result (lines.new.items ≡ lines.old.items ++ said_lines self.old from (packet_verdict (has_copy self.old.seen.moment self.old.seen.window) (routed_in self.old from origin.now line.now))) }
    {
        match self.made_of(alloc, from, origin, line)? {
            Err(objection) => self.object(alloc, &from, objection, lines),
            Ok(packet) => {
                if self.is_copy(&packet.parts)? {
                    self.tell_duplicate(&from, lines)?;
                    self.show(alloc, &packet)?;
                    self.spares.give_back(packet)
                } else {
                    self.accept(alloc, &packet, &packet)?;
                    self.spares.keep(packet)
                }
            }
        }
    }
}

/// Puts the line of a packet into room that nobody else shares.
fn put_line(alloc: Global, line: &mut Arc<Line>, parts: &Parts) -> Result<(), Memory>
    requires sound { IsParts parts.now }
    requires short { length (text_of parts.now) ≤ 510 }
    ensures { OnOk result (arc_value line.new ≡ text_of parts.now) }
{
    let text = line_of(parts);
    match Arc::get_mut(line) {
        Some(place) => *place = text,
        None => *line = Arc::new(alloc, text)?,
    }
    Ok(())
}
