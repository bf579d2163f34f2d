//! The verdict on what is said.
ghost use Rattle.std.specs.Prelude.{◌≡◌, ◌≤◌, ℕ, [], IsTrue, IfOk, List, Ok, OnOk, length};
ghost use Rattle.aprs_base.specs.Bytes.{is_station};
ghost use Rattle.aprs_base.specs.PartsSeen.{PartsSeen};
ghost use Rattle.aprs_body.specs.Bodies.{body_of};
ghost use Rattle.aprs_history.specs.Verdicts.{login_verdict, read_and_routed};
ghost use Rattle.dupe_window.specs.Keys.{key_of};
ghost use Rattle.dupe_window.specs.Windows.{has_copy, with_new};
ghost use Rattle.line_verdict.specs.Voices.{HasStation, voice_of};
ghost use Rattle.login_pass.specs.Login.{login_of};
ghost use Rattle.parsed_lines.specs.Lines.{IsSound, parsed_of};
ghost use Rattle.q_construct.specs.Rule.{has_station};
ghost use Rattle.served_links.specs.Links.{others_from, speaker_at};
ghost use Rattle.server_core.specs.Objections.{Routes, refusal_for, routed_in};
ghost use Rattle.tnc2_line.specs.Packet.{IsParts, parts_of, text_of};

use super::State;
use crate::conf::server_of;
use aprs_base::{Body, Call, Line, Memory, Parts, Source};
use aprs_history::{Refusal, Verdict};
use dupe_window::Key;
use line_verdict::{Voice, judge_login};
use parsed_lines::Parsed;
use q_construct::{Calls, Origin, QDrop, process_into};
use std::alloc::Global;
use tnc2_line::LineFault;

/// What there is against a line that is no login. A refusal takes far more room, since one may carry a packet.
#[derive(Drop)]
pub(crate) enum Objection {
    /// It has more than 510 bytes.
    Long,
    /// Its port only shows refused duplicates.
    ReadOnly,
    /// It is no packet.
    Packet(LineFault),
    /// The q construct rule drops the packet.
    Path(QDrop),
}

/// The refusal that it is.
pub(super) fn refusal_for(objection: Objection) -> Refusal
    ensures { result ≡ refusal_for objection }
{
    match objection {
        Objection::Long => Refusal::Long,
        Objection::ReadOnly => Refusal::ReadOnly,
        Objection::Packet(fault) => Refusal::Packet(fault),
        Objection::Path(why) => Refusal::Path(why),
    }
}

/// What is told by a body's format, once more.
fn copy_body(body: &Body) -> Body
    ensures { result ≡ body.now }
{
    body.clone().unwrap()
}

/// Puts a packet, as it goes on, into parts that are still to be filled, or says what there is against it.
fn route_parts<O: Calls>(
    whole: &mut Parts,
    server: &Call,
    origin: &Origin,
    others: &O,
    parts: &Parts,
) -> Result<(), Objection>
    requires parts { IsParts parts.now }
    requires server { IsTrue (is_station server.now) }
    requires origin { IsTrue (has_station origin.now) }
    requires vias { whole.old.vias ≡ [] }
    requires body { whole.old.body ≡ [] }
    ensures exact { Routes result whole.new (read_and_routed server.now origin.now (O.calls others.now) (Ok parts.now)) }
    ensures sound { OnOk result (IsParts whole.new) }
    ensures short { OnOk result (length (text_of whole.new) ≤ 510) }
    ensures stays { OnOk result ((whole.new.source ≡ parts.now.source) × (whole.new.dest ≡ parts.now.dest) × (whole.new.body ≡ parts.now.body)) }
{
    match process_into(whole, parts, origin, server, others) {
        Err(why) => Err(Objection::Path(why)),
        Ok(()) => Ok(()),
    }
}

/// Puts the packet that a line was parsed as, as it goes on, into parts that are still to be filled, and says what its body is, or
/// what there is against the line.
fn route_parsed<O: Calls>(
    whole: &mut Parts,
    server: &Call,
    origin: &Origin,
    others: &O,
    parsed: &Parsed,
) -> Result<Body, Objection>
    requires sound { IsSound parsed.now }
    requires server { IsTrue (is_station server.now) }
    requires origin { IsTrue (has_station origin.now) }
    requires vias { whole.old.vias ≡ [] }
    requires body { whole.old.body ≡ [] }
    ensures exact { (line : List ℕ) → parsed.now ≡ parsed_of line → Routes result whole.new (read_and_routed server.now origin.now (O.calls others.now) (parts_of line)) }
    ensures sound { OnOk result (IsParts whole.new) }
    ensures short { OnOk result (length (text_of whole.new) ≤ 510) }
    ensures body { (line : List ℕ) → parsed.now ≡ parsed_of line → IfOk result (λ body. body ≡ body_of whole.new.dest whole.new.body) }
{
    match parsed {
        Parsed::Bad(fault) => Err(Objection::Packet(*fault)),
        Parsed::Good { parts, body } => {
            route_parts(whole, server, origin, others, parts)?;
            Ok(copy_body(body))
        }
    }
}

impl State {
    /// Who speaks on the link of that number.
    pub(super) fn voice(&self, number: u32) -> Voice
        ensures value { result ≡ voice_of (speaker_at number self.now.seen.links) }
        ensures station { HasStation result }
    {
        self.links.voice_at(number)
    }

    /// The verdict on a line that is to be a login, on a port with filters or without.
    pub(super) fn judge_login(
        &self,
        alloc: Global,
        filters: bool,
        line: &Line,
    ) -> Result<Verdict, Memory>
        ensures { IfOk result (λ verdict. verdict ≡ login_verdict self.now.conf.server filters line.now (login_of line.now)) }
    {
        judge_login(alloc, server_of(&self.conf), filters, line)
    }

    /// Puts a packet from there, as it goes on, into parts that are still to be filled, and says what its body is, or what there is
    /// against it.
    pub(super) fn route(
        &mut self,
        whole: &mut Parts,
        from: Source,
        origin: &Origin,
        line: &Line,
    ) -> Result<Body, Objection>
        requires station { IsTrue (has_station origin.now) }
        requires vias { whole.old.vias ≡ [] }
        requires body { whole.old.body ≡ [] }
        ensures exact { Routes result whole.new (routed_in self.old from origin.now line.now) }
        ensures sound { OnOk result (IsParts whole.new) }
        ensures short { OnOk result (length (text_of whole.new) ≤ 510) }
        ensures body { IfOk result (λ body. body ≡ body_of whole.new.dest whole.new.body) }
        ensures same { self.new ≡ self.old }
    {
        self.ahead.seek(line);
        let others = self.links.logins(from);
        let parsed = self.ahead.what_it_is();
        route_parsed(whole, server_of(&self.conf), origin, &others, parsed)
    }

    /// Whether a packet with these parts is a copy of one that was accepted. One that is none is kept as accepted now.
    pub(super) fn is_copy(&mut self, parts: &Parts) -> Result<bool, Memory>
        ensures copy { IfOk result (λ copy. copy ≡ has_copy self.old.seen.moment self.old.seen.window parts.now) }
        ensures kept { OnOk result (self.new ≡ record self.old { seen = record self.old.seen { window = with_new (key_of parts.now) self.old.seen.moment self.old.seen.window } }) }
    {
        let seen = self.window.note(&Key::of(parts), self.moment)?;
        Ok(seen.is_some())
    }
}
