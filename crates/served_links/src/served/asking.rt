//! What is asked of the links that are served.
ghost use Rattle.std.specs.Prelude.{◌≡◌, ◌++◌, IfOk, OnOk, filter, map, option_map, true};
ghost use Rattle.line_verdict.specs.Voices.{HasStation, voice_of};
ghost use Rattle.served_links.specs.Links.{client_at, clients_in, down_at, filters_at, has_number, held_at, here, is_late_link, is_lost, is_overfull, kind_and_from, numbers, opening_at, others_from, speaker_at, submitted_from};
ghost use Rattle.served_links.specs.EndLines.{late_line, lost_line, stop_line};

use super::Served;
use crate::link::{Down, Timeouts};
use crate::links::{
    all, cutter_at, down_at, has_filters_at, has_link, is_client_at, is_submitted, late, lost,
    opened_by, voice_at,
};
use crate::logins::Logins;
use crate::telling::{tell_late, tell_lost, tell_stopped};
use aprs_base::{Addr, Cutter, JournalLine, Memory, Source};
use aprs_history::LinkKind;
use line_verdict::Voice;
use std::alloc::Global;

impl Served {
    /// A copy of that link's cutter.
    pub fn cutter_at(&self, number: u32) -> Option<Cutter>
        ensures { result ≡ held_at number self.now.links }
    {
        cutter_at(self.sessions.as_slice(), number)
    }

    /// Whether there is a link of that number.
    pub fn has_link(&self, number: u32) -> bool
        ensures { result ≡ has_number number self.now.links }
    {
        has_link(self.sessions.as_slice(), number)
    }

    /// Who speaks on that link.
    pub fn voice_at(&self, number: u32) -> Voice
        ensures value { result ≡ voice_of (speaker_at number self.now.links) }
        ensures station { HasStation result }
    {
        voice_at(self.sessions.as_slice(), number)
    }

    /// Whether that link is a client.
    pub fn is_client_at(&self, number: u32) -> bool
        ensures { result ≡ client_at number self.now.links }
    {
        is_client_at(self.sessions.as_slice(), number)
    }

    /// What that link is to the server, and where it came from.
    pub fn opened_by(&self, number: u32) -> Option<(LinkKind, Addr)>
        ensures { result ≡ option_map kind_and_from (opening_at number self.now.links) }
    {
        opened_by(self.sessions.as_slice(), number)
    }

    /// The downlink that this link is. Takes no memory.
    pub fn down(&self, number: u32) -> Option<Down>
        ensures { result ≡ down_at number self.now.links }
    {
        down_at(self.sessions.as_slice(), self.sessions.near(), number)
    }

    /// Whether what comes from there was submitted here.
    pub fn is_submitted(&self, from: &Source) -> bool
        ensures { result ≡ submitted_from from.now self.now.links }
    {
        is_submitted(self.sessions.as_slice(), from)
    }

    /// Whether the port of that link has filters.
    pub fn has_filters_at(&self, number: u32) -> bool
        ensures { result ≡ filters_at number self.now.links }
    {
        has_filters_at(self.sessions.as_slice(), number)
    }

    /// How many clients there are.
    pub fn count_clients(&self) -> usize
        ensures { result ≡ clients_in self.now.links }
    {
        self.sessions.count_clients()
    }

    /// The logins of the verified links, but of the one that a line came from.
    pub fn logins(&self, from: Source) -> Logins<'_>
        ensures { others_from result.from (here result.links.now) ≡ others_from from self.now.links }
    {
        Logins {
            links: &self.sessions,
            from,
        }
    }

    /// The numbers of all links.
    pub fn all(&self, alloc: Global) -> Result<Vec<u32>, Memory>
        ensures { IfOk result (λ v. v.items ≡ numbers self.now.links) }
    {
        all(alloc, self.sessions.as_slice())
    }

    /// The numbers of the links that a send found gone.
    pub fn lost(&self, alloc: Global) -> Result<Vec<u32>, Memory>
        ensures { IfOk result (λ v. v.items ≡ numbers (filter is_lost self.now.links)) }
    {
        lost(alloc, self.sessions.as_slice())
    }

    /// The numbers of the links that end by time.
    pub fn late(&self, alloc: Global, timeouts: Timeouts, now: u64) -> Result<Vec<u32>, Memory>
        ensures { IfOk result (λ v. v.items ≡ numbers (filter (is_late_link timeouts now) self.now.links)) }
    {
        late(alloc, self.sessions.as_slice(), timeouts, now)
    }

    /// The numbers of the links that are overfull.
    pub fn overfull(&self, alloc: Global) -> Result<Vec<u32>, Memory>
        requires { self.now.rests ≡ true }
        ensures { IfOk result (λ v. v.items ≡ numbers (filter is_overfull self.now.links)) }
    {
        self.feeds.overfull(alloc)
    }

    /// What is told of the links that a send found gone.
    pub fn tell_lost(&self, now: u64, lines: &mut Vec<JournalLine>) -> Result<(), Memory>
        ensures { OnOk result (lines.new.items ≡ lines.old.items ++ map (lost_line now) (filter is_lost self.now.links)) }
    {
        tell_lost(self.sessions.as_slice(), now, lines)
    }

    /// What is told of the links that are late.
    pub fn tell_late(
        &self,
        timeouts: Timeouts,
        now: u64,
        lines: &mut Vec<JournalLine>,
    ) -> Result<(), Memory>
        ensures { OnOk result (lines.new.items ≡ lines.old.items ++ map (late_line now) (filter (is_late_link timeouts now) self.now.links)) }
    {
        tell_late(self.sessions.as_slice(), timeouts, now, lines)
    }

    /// What is told of all links, which a stop ends.
    pub fn tell_stopped(&self, now: u64, lines: &mut Vec<JournalLine>) -> Result<(), Memory>
        ensures { OnOk result (lines.new.items ≡ lines.old.items ++ map (stop_line now) self.now.links) }
    {
        tell_stopped(self.sessions.as_slice(), now, lines)
    }
}
