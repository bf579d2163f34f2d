//! What a verdict that accepts no packet comes to: refusals, logins and filters.
ghost use Rattle.std.specs.Prelude.{◌≡◌, ◌≤◌, ◌<◌, ◌+◌, ◌++◌, ◌&&◌, nat_lt, IfOk, IfSome, IsTrue, OnOk, length, None, Some, filter, if◌then◌else◌, map};
ghost use Rattle.std.specs.Arc.{arc_value};
ghost use Rattle.aprs_base.specs.Bytes.{is_station};
ghost use Rattle.aprs_base.specs.declared.packets.Source.TheVariants as Source;
ghost use Rattle.line_verdict.specs.Fit.{all_few, has_few};
ghost use Rattle.aprs_history.specs.declared.verdicts.FilterAnswer.{FilterAnswer};
ghost use Rattle.aprs_history.specs.declared.verdicts.Verdict.{Verdict};
ghost use Rattle.aprs_history.specs.Downs.{asked_addr, one_if};
ghost use Rattle.server_core.specs.LinkSteps.{after_login, greeted, link_asks, new_down, with_duplicate, with_refused, with_reply};
ghost use Rattle.served_links.specs.Changes.{takes_shown, with_shown};
ghost use Rattle.served_links.specs.Links.{opening_at, starts_line_at};
ghost use Rattle.server_core.specs.Meaning.{downs_of};
ghost use Rattle.server_core.specs.Objections.{refusal_for};
ghost use Rattle.server_core.specs.Steps.{with_port};
ghost use Rattle.server_core.specs.Telling.{said_lines};

use super::verdicts::{Objection, refusal_for};
use super::{State, raised};
use crate::conf::{asked_addr, server_of};
use crate::places::friends_found;
use aprs_base::{Addr, JournalLine, Line, Memory, Shared, Source};
use aprs_body::classify;
use aprs_history::{FilterAnswer, Refusal, Session, Verdict};
use filter_lang::FilterSet;
use line_verdict::{denied_line, login_line, refusal_line};
use served_links::Down;
use std::alloc::Global;
use std::sync::Arc;

/// The most links that may become downlinks, ended ones too.
const MOST_DOWNS: u32 = 65_280;

/// A port, where that is so.
fn port_where(free: bool, port: Option<u16>) -> Option<u16>
    ensures { result ≡ (if free then port else None) }
{
    if free { port } else { None }
}

impl State {
    /// A duplicate is refused, and is counted: the links that are shown such take it.
    pub(super) fn show(&mut self, alloc: Global, packet: &Shared) -> Result<(), Memory>
        ensures { OnOk result (self.new ≡ record self.old {
          seen = record self.old.seen {
            links = map (with_shown (arc_value packet.now).from (arc_value packet.now).line) self.old.seen.links;
            totals = with_duplicate (length (filter (takes_shown (arc_value packet.now).from) self.old.seen.links)) self.old.seen.totals;
          };
        }) }
    {
        self.links.show(alloc, packet)?;
        self.counts.duplicate = raised(self.counts.duplicate, 1);
        Ok(())
    }

    /// Something is refused that is no duplicate.
    fn count_refused(&mut self)
        ensures { self.new ≡ record self.old { seen = record self.old.seen { totals = with_refused self.old.seen.totals } } }
    {
        self.counts.refused = raised(self.counts.refused, 1);
    }

    /// A line for the link whose line was read, where it was a link's.
    fn reply(&mut self, alloc: Global, from: &Source, line: Line) -> Result<(), Memory>
        ensures { OnOk result (self.new ≡ record self.old { seen = record self.old.seen { links = with_reply from.now (Some line) self.old.seen.links } }) }
    {
        match from {
            Source::Link(number) => {
                let line = Arc::new(alloc, line)?;
                self.links.reply(*number, line)
            }
            Source::Submit(_) | Source::Peer(_) => Ok(()),
        }
    }

    /// A line that came from there is refused: its link is told so where it tried to log in.
    pub(super) fn refuse(
        &mut self,
        alloc: Global,
        from: &Source,
        refusal: Refusal,
    ) -> Result<(), Memory>
        ensures { OnOk result (self.new ≡ with_port from.now None (Verdict.Refused refusal) self.old) }
    {
        match refusal {
            Refusal::Duplicate(parts, line) => {
                let body = classify(&parts.dest, parts.body.as_slice());
                let packet = self.packet_of(alloc, *from, parts, body, line)?;
                self.show(alloc, &packet)
            }
            other => {
                self.count_refused();
                match refusal_line(&other) {
                    Some(line) => self.reply(alloc, from, line),
                    None => Ok(()),
                }
            }
        }
    }

    /// A line that came from there is refused, which is told and done.
    pub(super) fn turn_down(
        &mut self,
        alloc: Global,
        from: &Source,
        refusal: Refusal,
        lines: &mut Vec<JournalLine>,
    ) -> Result<(), Memory>
        ensures core { OnOk result (self.new ≡ with_port from.now None (Verdict.Refused refusal) self.old) }
        ensures lines { OnOk result (lines.new.items ≡ lines.old.items ++ said_lines self.old from.now (Verdict.Refused refusal)) }
    {
        self.tell_refusal(from, &refusal, lines)?;
        self.refuse(alloc, from, refusal)
    }

    /// A line that came from there is refused for what there is against it, which is told and done. It is rare: by itself it leaves no
    /// room for a refusal to be cleared at each line.
    #[inline(never)]
    pub(super) fn object(
        &mut self,
        alloc: Global,
        from: &Source,
        objection: Objection,
        lines: &mut Vec<JournalLine>,
    ) -> Result<(), Memory>
        ensures core { OnOk result (self.new ≡ with_port from.now None (Verdict.Refused (refusal_for objection)) self.old) }
        ensures lines { OnOk result (lines.new.items ≡ lines.old.items ++ said_lines self.old from.now (Verdict.Refused (refusal_for objection))) }
    {
        self.turn_down(alloc, from, refusal_for(objection), lines)
    }

    /// The address that the link of that number asks its lines to be cast to: that port, where it came from.
    fn address_for(&self, number: u32, port: Option<u16>) -> Option<Addr>
        ensures { result ≡ asked_addr (downs_of self.now.conf) (opening_at number self.now.seen.links) port }
    {
        match self.links.opened_by(number) {
            Some(opened) => asked_addr(&self.conf, opened, port),
            None => None,
        }
    }

    /// Whether the link of that number may become a downlink: it has taken whole lines, and not too many became one before.
    fn is_free(&mut self, number: u32) -> Result<bool, Memory>
        ensures free { IfOk result (λ free. free ≡ (nat_lt self.old.seen.downs 65280 && starts_line_at number self.old.seen.links)) }
        ensures same { OnOk result (self.new ≡ self.old) }
    {
        let starts = self.links.is_at_line_start(number)?;
        Ok(self.downs < MOST_DOWNS && starts)
    }

    /// The address that the link of that number asks its lines to be cast to, where it may become a downlink.
    fn asked_address(&mut self, number: u32, port: Option<u16>) -> Result<Option<Addr>, Memory>
        ensures asked { IfOk result (λ asked. asked ≡ link_asks (downs_of self.old.conf) number port self.old.seen) }
        ensures same { OnOk result (self.new ≡ self.old) }
    {
        let free = self.is_free(number)?;
        Ok(self.address_for(number, port_where(free, port)))
    }

    /// The number of the next downlink, which is counted.
    fn next_down(&mut self) -> u16
        requires { self.old.seen.downs < 65280 }
        ensures number { result ≡ self.old.seen.downs }
        ensures counted { self.new ≡ record self.old { seen = record self.old.seen { downs = self.old.seen.downs + 1 } } }
    {
        let number = u16::try_from(self.downs).unwrap_or(0);
        self.downs += 1;
        number
    }

    /// The downlink that a link becomes, which is counted.
    fn new_down(&mut self, asked: Option<Addr>) -> Option<Down>
        requires { IfSome asked (λ to. self.old.seen.downs < 65280) }
        ensures down { result ≡ new_down self.old.seen.downs asked }
        ensures counted { self.new ≡ record self.old { seen = record self.old.seen { downs = self.old.seen.downs + one_if asked } } }
    {
        match asked {
            Some(to) => {
                let number = self.next_down();
                Some(Down { number, to })
            }
            None => None,
        }
    }

    /// The link of that number has logged in, has become that downlink, if any, and is told so.
    fn greet(
        &mut self,
        alloc: Global,
        number: u32,
        session: Session,
        down: Option<Down>,
    ) -> Result<(), Memory>
        requires { IsTrue (is_station session.call) }
        ensures { OnOk result (self.new ≡ record self.old { seen = greeted self.old.conf.server number session down self.old.seen }) }
    {
        let mine = self.stations.place_of(&session.call, self.moment);
        let line = Arc::new(alloc, login_line(server_of(&self.conf), &session))?;
        self.links.log_in(number, session, down, mine, line)
    }

    /// The link of that number has logged in, and is told so. It asks for its lines at that port.
    fn open_session(
        &mut self,
        alloc: Global,
        number: u32,
        session: Session,
        port: Option<u16>,
    ) -> Result<(), Memory>
        requires { IsTrue (is_station session.call) }
        ensures { OnOk result (self.new ≡ record self.old { seen = after_login self.old.conf.server (downs_of self.old.conf) (Source.Link number) port session self.old.seen }) }
    {
        let asked = self.asked_address(number, port)?;
        let down = self.new_down(asked);
        self.greet(alloc, number, session, down)
    }

    /// The link of that number has another filter, and is told so.
    fn set_filter(
        &mut self,
        alloc: Global,
        number: u32,
        filter: FilterSet,
        line: Line,
    ) -> Result<(), Memory>
        requires { length filter ≤ 64 }
        ensures { OnOk result (self.new ≡ with_port (Source.Link number) None (Verdict.Filtered (FilterAnswer.Active filter line)) self.old) }
    {
        let friends = friends_found(&self.stations, self.moment, &filter);
        let line = Arc::new(alloc, line)?;
        let filter = Arc::new(alloc, filter)?;
        self.links.set_filter(number, filter, friends, line)
    }

    /// The answer to a filter.
    pub(super) fn answer(
        &mut self,
        alloc: Global,
        number: u32,
        answer: FilterAnswer,
    ) -> Result<(), Memory>
        requires { IsTrue (has_few answer) }
        ensures { OnOk result (self.new ≡ with_port (Source.Link number) None (Verdict.Filtered answer) self.old) }
    {
        match answer {
            FilterAnswer::Active(filter, line) => self.set_filter(alloc, number, filter, line),
            FilterAnswer::Denied(fault) => {
                let line = Arc::new(alloc, denied_line(alloc, fault)?)?;
                self.links.reply(number, line)?;
                self.count_refused();
                Ok(())
            }
        }
    }

    /// The link of that number has logged in, perhaps with a filter. It asks for its lines at that port.
    pub(super) fn log_in(
        &mut self,
        alloc: Global,
        number: u32,
        session: Session,
        port: Option<u16>,
        answer: Option<FilterAnswer>,
    ) -> Result<(), Memory>
        requires station { IsTrue (is_station session.call) }
        requires few { IsTrue (all_few answer) }
        ensures { OnOk result (self.new ≡ with_port (Source.Link number) port (Verdict.LoggedIn session answer) self.old) }
    {
        self.open_session(alloc, number, session, port)?;
        match answer {
            Some(answer) => self.answer(alloc, number, answer),
            None => Ok(()),
        }
    }
}
