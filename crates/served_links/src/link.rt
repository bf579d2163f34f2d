//! What is kept of a link and its session.
ghost use Rattle.std.specs.Prelude.{◌≡◌, ◌++◌, ◌||◌, IsTrue, List, ℕ, OnErr, OnOk, Some, is_some, nat_lt, not, option_map};
ghost use Rattle.std.specs.Option.{option_or};
ghost use Rattle.std.specs.List.Sorted.{IsStrictlyIncreasing};
ghost use Rattle.aprs_base.specs.Bytes.{is_station};
ghost use Rattle.aprs_base.specs.Cuts.{cuts_by};
ghost use Rattle.aprs_base.specs.Held.{held_after};
ghost use Rattle.aprs_history.specs.Links.{has_filters};
ghost use Rattle.aprs_history.specs.Messages.{is_to_login};
ghost use Rattle.aprs_history.specs.Texts.{shows_duplicates};
ghost use Rattle.aprs_history.specs.Trace.{is_from, is_member};
ghost use Rattle.line_verdict.specs.Voices.{HasStation, voice_of};
ghost use Rattle.served_links.specs.Fed.{new_half, opening_feed};
ghost use Rattle.served_links.specs.Links.{client_kept, is_here, is_late_here, is_late_link, is_login, is_lost_here, is_nameless_link, is_none_of, kind_and_from, login_here, number_of, list_of, speaker_kept, timeout_for, when_left};
ghost use Rattle.served_links.specs.Changes.{is_asked_at, when_gone, with_bytes, with_room};
ghost use Rattle.served_links.specs.EndLines.{late_reason_kept};

use crate::kinds::{feed_of, is_filter_kind, is_inbound, visitor_voice};
use crate::messages::{is_among, is_message_to};
use aprs_base::{Addr, Call, Cut, Cutter, Memory, Packet, PortKind, Source, copy_call};
use aprs_history::{EndReason, LinkKind, Session};
use filter_eval::Seen;
use line_verdict::Voice;
use q_construct::Origin;
use std::alloc::Global;
use std::marker::Model;
use worker_match::Feed;

/// The seconds that a link has for its login.
const LOGIN_SECONDS: u64 = 30;

/// Where a packet's source was last seen, whether it is a gate, and whether the packet was submitted here.
#[derive(Clone, Copy)]
pub struct SourcePlace {
    pub place: Option<Seen>,
    pub gate: bool,
    pub submitted: bool,
}

/// After how many seconds without bytes links end.
#[derive(Clone, Copy)]
pub struct Timeouts {
    pub client: u32,
    pub uplink: u32,
}

/// A downlink: its number, and where its lines are cast to.
#[derive(Clone, Copy)]
pub struct Down {
    pub number: u16,
    pub to: Addr,
}

impl Model for Down {
    ghost use Rattle.aprs_history.specs.Downs.{DownSeen};

    ghost Value = { DownSeen };

    ghost view = { λ d. record { number = d.number; to = d.to } };

    ghost inverse = { λ d. record { number = d.number; to = d.to } };
}

/// What is kept of a link's session, seen as a link that is fed nothing. What it is fed is kept beside it.
#[derive(Drop)]
pub struct LinkSession {
    pub number: u32,
    /// `None` once it has left: then it keeps its place until all such are let go.
    kind: Option<LinkKind>,
    from: Addr,
    /// When it was opened, and when its last bytes came.
    opened: u64,
    last: u64,
    cutter: Cutter,
    session: Option<Session>,
    /// Where its lines are cast to, where it is a downlink.
    down: Option<Down>,
    blocked: bool,
    gone: bool,
}

impl Model for LinkSession {
    ghost use Rattle.std.specs.Prelude.{option_map, IsTrue};
    ghost use Rattle.aprs_history.specs.Stands.{LinkSeen};
    ghost use Rattle.served_links.specs.Fed.{unfed};
    ghost use Rattle.served_links.specs.Links.{is_login};

    ghost Value = { LinkSeen };

    ghost view = { λ l. unfed l.number (option_map (λ kind. record { kind = kind; from = l.from; moment = l.opened }) l.kind) l.last l.cutter l.session l.down l.blocked l.gone };

    ghost invariant = { λ l. IsTrue (is_login l.session) };
}

impl LinkSession {
    /// A link that has just been opened.
    pub fn open(number: u32, kind: LinkKind, from: Addr, moment: u64) -> LinkSession
        ensures { result ≡ new_half number (record { kind = kind; from = from; moment = moment }) }
    {
        LinkSession {
            number,
            kind: Some(kind),
            from,
            opened: moment,
            last: moment,
            cutter: Cutter::new(),
            session: None,
            down: None,
            blocked: false,
            gone: false,
        }
    }

    /// Bytes came: they are cut into lines. `Memory` changes nothing.
    pub fn bring(
        &mut self,
        alloc: Global,
        moment: u64,
        bytes: &[u8],
        cuts: &mut Vec<Cut>,
    ) -> Result<(), Memory>
        ensures frame { self.new ≡ record self.old { last = self.new.last; held = self.new.held } }
        ensures brought { (before : List ℕ) → self.old.held ≡ held_after before
            → OnOk result ((self.new ≡ with_bytes moment (held_after (before ++ bytes.now)) self.old) × (cuts.new.items ≡ cuts.old.items ++ cuts_by before bytes.now)) }
        ensures err { OnErr result (self.new ≡ self.old) }
    {
        self.cutter.feed(alloc, bytes, cuts)?;
        self.last = moment;
        Ok(())
    }

    /// A copy of its cutter.
    pub fn cutter(&self) -> Cutter
        ensures { result ≡ self.now.held }
    {
        self.cutter.clone().unwrap()
    }

    /// The link has logged in, and may have become a downlink: what it is fed from then on.
    pub fn log_in(&mut self, session: Session, down: Option<Down>) -> Feed
        requires { IsTrue (is_station session.call) }
        ensures exact { self.new ≡ record self.old { session = Some session; down = option_or down self.old.down } }
        ensures feed { result ≡ opening_feed self.old.opening (Some session) }
    {
        self.session = Some(session);
        self.down = down.or(self.down);
        match self.kind {
            Some(kind) => feed_of(kind, &self.session),
            None => Feed::Nothing,
        }
    }

    /// Whether its port has filters.
    pub fn has_filters(&self) -> bool
        ensures { result ≡ has_filters self.now.opening }
    {
        match self.kind {
            Some(LinkKind::Client(kind)) => is_filter_kind(kind),
            Some(LinkKind::Uplink(_)) | None => false,
        }
    }

    /// Whether it is a client.
    pub fn is_client(&self) -> bool
        ensures { result ≡ client_kept self.now }
    {
        match self.kind {
            Some(kind) => is_inbound(kind),
            None => false,
        }
    }

    /// Who speaks on it.
    pub fn voice(&self) -> Voice
        ensures value { result ≡ voice_of (speaker_kept self.now) }
        ensures station { HasStation result }
    {
        match self.kind {
            Some(LinkKind::Client(kind)) => visitor_voice(kind, &self.session),
            Some(LinkKind::Uplink(_)) => Voice::Carrier(Origin::Uplink(self.from)),
            None => visitor_voice(PortKind::Full, &self.session),
        }
    }

    /// Whether it is shown the duplicates that others are refused.
    pub fn shows_duplicates(&self) -> bool
        ensures { result ≡ shows_duplicates self.now.opening self.now.session }
    {
        match self.kind {
            Some(LinkKind::Client(PortKind::Dupe)) => self.session.is_some(),
            Some(LinkKind::Client(_) | LinkKind::Uplink(_)) | None => false,
        }
    }

    /// What its login is by that session, where this is verified and the link hasn't left.
    pub fn login_by(&self, session: &Session) -> Option<Call>
        ensures { list_of result ≡ login_here (record self.now { session = Some session.now }) }
    {
        if session.verified && self.is_here() {
            Some(copy_call(&session.call))
        } else {
            None
        }
    }

    /// Its login, where it is verified and hasn't left.
    pub fn verified_call(&self) -> Option<Call>
        ensures { list_of result ≡ login_here self.now }
    {
        match &self.session {
            Some(session) => self.login_by(session),
            None => None,
        }
    }

    /// Whether the packet is a message to its own login.
    fn is_receiver(&self, packet: &Packet) -> bool
        ensures { result ≡ is_to_login packet.now self.now.session }
    {
        match &self.session {
            Some(session) => is_message_to(packet, &session.call),
            None => false,
        }
    }

    /// Whether the message rule asks for a packet, where these links heard its receiver and are owed it.
    pub fn is_asked(&self, packet: &Packet, hearers: &[u32], owed: &[u32]) -> bool
        requires hearers { IsStrictlyIncreasing hearers.now }
        requires owed { IsStrictlyIncreasing owed.now }
        ensures { result ≡ is_asked_at packet.now hearers.now owed.now self.now }
    {
        self.is_receiver(packet) || is_among(self.number, hearers) || is_among(self.number, owed)
    }

    pub fn number(&self) -> u32
        ensures { result ≡ number_of self.now }
    {
        self.number
    }

    /// Whether it hasn't left.
    pub fn is_here(&self) -> bool
        ensures { result ≡ is_here self.now }
    {
        self.kind.is_some()
    }

    /// Whether it is here, and has not logged in for half a minute, or has brought no bytes for too long.
    pub fn is_late(&self, timeouts: Timeouts, now: u64) -> bool
        ensures { result ≡ is_late_here timeouts now self.now }
    {
        self.is_here() && self.is_over_time(timeouts, now)
    }

    fn is_over_time(&self, timeouts: Timeouts, now: u64) -> bool
        ensures { result ≡ is_late_link timeouts now self.now }
    {
        self.is_nameless(now) || u64::from(self.timeout(timeouts)) <= now.saturating_sub(self.last)
    }

    /// Why it is late: for want of a login, where that rule applies.
    pub fn late_reason(&self, now: u64) -> EndReason
        ensures { result ≡ late_reason_kept now self.now }
    {
        if self.is_nameless(now) {
            EndReason::NoLogin
        } else {
            EndReason::Silent
        }
    }

    /// The most seconds without bytes, less one.
    fn timeout(&self, timeouts: Timeouts) -> u32
        ensures { result ≡ timeout_for timeouts self.now }
    {
        if self.is_client() {
            timeouts.client
        } else {
            timeouts.uplink
        }
    }

    /// Whether its number is none of these.
    pub fn is_none_of(&self, numbers: &[u32]) -> bool
        ensures { result ≡ is_none_of numbers.now self.now }
    {
        !has_member(numbers, self.number)
    }

    fn is_nameless(&self, now: u64) -> bool
        ensures { result ≡ is_nameless_link now self.now }
    {
        self.is_client()
            && self.session.is_none()
            && LOGIN_SECONDS <= now.saturating_sub(self.opened)
    }

    pub fn give_room(&mut self)
        ensures { self.new ≡ with_room self.old }
    {
        self.blocked = false;
    }

    pub fn lose(&mut self)
        ensures { self.new ≡ when_gone self.old }
    {
        self.gone = true;
    }

    /// The link took that many of the bytes that it was offered: where some are left it is blocked.
    pub fn take(&mut self, offered: usize, count: usize)
        ensures { self.new ≡ record self.old { blocked = nat_lt count offered } }
    {
        self.blocked = count < offered;
    }

    /// It leaves.
    pub fn leave(&mut self)
        ensures { self.new ≡ when_left self.old }
    {
        self.kind = None;
    }

    /// Whether it is here, and a send found it gone.
    pub fn is_lost(&self) -> bool
        ensures { result ≡ is_lost_here self.now }
    {
        self.is_here() && self.gone
    }

    /// Whether bytes may be given to it: a downlink is never blocked.
    pub fn is_open(&self) -> bool
        ensures { result ≡ (is_some self.now.down || not self.now.blocked) }
    {
        self.down.is_some() || !self.blocked
    }

    /// The downlink that it is.
    pub fn down(&self) -> Option<Down>
        ensures { result ≡ self.now.down }
    {
        self.down
    }

    /// What it is to the server, and where it came from, where it hasn't left.
    pub fn opened_by(&self) -> Option<(LinkKind, Addr)>
        ensures { result ≡ option_map kind_and_from self.now.opening }
    {
        match self.kind {
            Some(kind) => Some((kind, self.from)),
            None => None,
        }
    }
}

pub fn has_member(numbers: &[u32], number: u32) -> bool
    ensures { result ≡ is_member number numbers.now }
{
    numbers.iter().any(|other| *other == number)
}

/// Whether a line is that link's.
pub fn is_from(number: u32, from: &Source) -> bool
    ensures { result ≡ is_from number from.now }
{
    match from {
        Source::Link(link) => number == *link,
        Source::Submit(_) | Source::Peer(_) => false,
    }
}
