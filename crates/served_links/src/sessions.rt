//! What is kept of all sessions, in the order of the links' numbers.
ghost use Rattle.std.specs.Prelude.{◌≡◌, ◌∷◌, ◌++◌, ◌^◌, ◌<◌, ℕ, [], IfOk, IsTrue, List, None, OnErr, OnOk, Some, false, filter, length, map, nat_lt, slice_get, slice_set, true};
ghost use Rattle.std.specs.Option.{option_or};
ghost use Rattle.aprs_base.specs.Bytes.{is_station};
ghost use Rattle.aprs_base.specs.Cuts.{cuts_by};
ghost use Rattle.aprs_base.specs.Held.{held_after};
ghost use Rattle.aprs_history.specs.Stands.{LinkSeen};
ghost use Rattle.served_links.specs.Counts.{having};
ghost use Rattle.served_links.specs.Changes.{at_link, when_gone, with_bytes, with_room};
ghost use Rattle.served_links.specs.Fed.{AllMatch, new_half, opening_feed};
ghost use Rattle.served_links.specs.Links.{Rises, clients_in, held_at, here, is_none_of, is_whole, named_of, numbers, when_left};
ghost use Rattle.worker_match.specs.Seen.{FeedSeen};

use crate::counts::{Counts, count_of, lower, lower_these, raise};
use crate::kinds::is_inbound;
use crate::link::{Down, LinkSession};
use crate::links::{bring, count_clients, drop_these, give_room, lose, sweep};
use aprs_base::{Addr, Call, Cut, Memory};
use aprs_history::{LinkKind, Session};
use indexmap::IndexMap;
use std::alloc::Global;
use std::hash::RandomState;
use std::marker::Model;
use worker_match::Feed;

/// What is kept of all sessions. A link that leaves keeps its place until all that left are let go, in one pass.
#[derive(Drop)]
pub struct Sessions {
    links: Vec<LinkSession>,
    /// How many verified ones have logged in with each call.
    counts: Counts,
    /// How many are clients.
    clients: usize,
    /// Whether some may have left.
    parted: bool,
    /// The place behind the link that took last: offers are made in rising order, so the next one likely stands there.
    near: usize,
}

impl Model for Sessions {
    ghost use Rattle.std.specs.Prelude.{◌≡◌, List, false, true};
    ghost use Rattle.aprs_history.specs.Stands.{LinkSeen};
    ghost use Rattle.served_links.specs.Counts.{CountsLogins};
    ghost use Rattle.served_links.specs.Links.{clients_in, is_whole};

    ghost Value = { List LinkSeen };

    ghost view = { λ s. s.links.items };

    ghost invariant = { λ s. (s.clients ≡ clients_in s.links.items) × (s.parted ≡ false → is_whole s.links.items ≡ true) × CountsLogins s.counts.entries s.links.items };
}

impl Sessions {
    /// None. The table of logins has a copy of the hasher.
    pub fn new(alloc: Global, hasher: &RandomState) -> Sessions
        ensures { result ≡ [] }
    {
        Sessions {
            links: Vec::new(alloc),
            counts: IndexMap::with_hasher(alloc, *hasher),
            clients: 0,
            parted: false,
            near: 0,
        }
    }

    pub fn as_slice(&self) -> &[LinkSession]
        ensures value { result.now ≡ self.now }
    {
        self.links.as_slice()
    }

    /// Where the link that is offered bytes next likely stands: a guess, and any would do.
    pub fn near(&self) -> usize {
        self.near
    }

    /// How many clients there are.
    pub fn count_clients(&self) -> usize
        ensures { result ≡ clients_in self.now }
    {
        self.clients
    }

    /// How many verified ones that are here have logged in with the call.
    pub fn count_login(&self, call: &Call) -> usize
        ensures { result ≡ having call.now self.now }
    {
        count_of(&self.counts, call)
    }

    /// Whether it is known that none has left.
    pub fn is_whole(&self) -> bool
        ensures { result ≡ true → is_whole self.now ≡ true }
    {
        !self.parted
    }

    /// Whether a link of that number can come after them.
    pub fn is_below(&self, number: u32) -> bool
        requires { Rises 0 (numbers self.now) (2 ^ 32) }
        ensures { result ≡ true → (last : ℕ) × Rises 0 (numbers self.now) last × (last < number) }
    {
        match self.links.last() {
            Some(link) => link.number < number,
            None => false,
        }
    }

    /// A link comes. `Memory` changes nothing.
    pub fn open(
        &mut self,
        number: u32,
        kind: LinkKind,
        from: Addr,
        moment: u64,
    ) -> Result<(), Memory>
        ensures ok { OnOk result (self.new ≡ self.old ++ new_half number (record { kind = kind; from = from; moment = moment }) ∷ []) }
        ensures err { OnErr result (self.new ≡ self.old) }
    {
        self.links
            .push(LinkSession::open(number, kind, from, moment))?;
        self.clients += usize::from(is_inbound(kind));
        Ok(())
    }

    /// The last that came goes again.
    pub fn take_back(&mut self)
        ensures { (links : List LinkSeen) (link : LinkSeen) → self.old ≡ links ++ link ∷ [] → self.new ≡ links }
    {
        if let Some(link) = self.links.pop() {
            lower(&mut self.counts, link.verified_call());
        }
        self.clients = count_clients(self.links.as_slice());
    }

    /// No link is left.
    pub fn clear(&mut self)
        ensures { self.new ≡ [] }
    {
        self.links.clear();
        self.counts.clear();
        self.clients = 0;
        self.parted = false;
    }

    /// The link of that number has room again.
    pub fn give_room(&mut self, number: u32)
        requires { Rises 0 (numbers self.old) (2 ^ 32) }
        ensures { self.new ≡ map (at_link number with_room) self.old }
    {
        give_room(&mut self.links, number);
    }

    /// A send found the link of that number gone.
    pub fn lose(&mut self, number: u32)
        requires { Rises 0 (numbers self.old) (2 ^ 32) }
        ensures { self.new ≡ map (at_link number when_gone) self.old }
    {
        lose(&mut self.links, number);
    }

    /// The link of that number brought bytes: what they cut. `Memory` changes nothing.
    pub fn bring(
        &mut self,
        alloc: Global,
        number: u32,
        moment: u64,
        bytes: &[u8],
    ) -> Result<Vec<Cut>, Memory>
        requires { Rises 0 (numbers self.old) (2 ^ 32) }
        ensures named { map named_of self.new ≡ map named_of self.old }
        ensures halves { (states : List FeedSeen) → AllMatch self.old states → AllMatch self.new states }
        ensures links { (before : List ℕ) → held_at number (here self.old) ≡ Some (held_after before)
            → OnOk result (self.new ≡ map (at_link number (with_bytes moment (held_after (before ++ bytes.now)))) self.old) }
        ensures cuts { (before : List ℕ) → held_at number (here self.old) ≡ Some (held_after before) → IfOk result (λ cuts. cuts.items ≡ cuts_by before bytes.now) }
        ensures nowhere { held_at number (here self.old) ≡ None → IfOk result (λ cuts. (cuts.items ≡ []) × (self.new ≡ self.old)) }
        ensures err { OnErr result (self.new ≡ self.old) }
    {
        bring(alloc, &mut self.links, number, moment, bytes)
    }

    /// The link at that place has logged in, and may have become a downlink: what it is fed from then on. `Memory` changes nothing.
    pub fn log_in(
        &mut self,
        place: usize,
        session: Session,
        down: Option<Down>,
    ) -> Result<Feed, Memory>
        requires station { IsTrue (is_station session.call) }
        requires within { place < length self.old }
        ensures session { (link : LinkSeen) → slice_get self.old place ≡ Some link → OnOk result (self.new ≡ slice_set self.old place (record link { session = Some session; down = option_or down link.down })) }
        ensures feed { (link : LinkSeen) → slice_get self.old place ≡ Some link → IfOk result (λ feed. feed ≡ opening_feed link.opening (Some session)) }
        ensures err { OnErr result (self.new ≡ self.old) }
    {
        let link = &self.links[place];
        raise(&mut self.counts, link.login_by(&session))?;
        lower(&mut self.counts, link.verified_call());
        Ok(self.links[place].log_in(session, down))
    }

    /// The link at that place took that many of the bytes that it was offered.
    pub fn take(&mut self, place: usize, offered: usize, count: usize)
        requires { place < length self.old }
        ensures { (link : LinkSeen) → slice_get self.old place ≡ Some link → self.new ≡ slice_set self.old place (record link { blocked = nat_lt count offered }) }
    {
        self.links[place].take(offered, count);
        self.near = place + 1;
    }

    /// The link at that place leaves.
    pub fn leave(&mut self, place: usize)
        requires { place < length self.old }
        ensures { (link : LinkSeen) → slice_get self.old place ≡ Some link → self.new ≡ slice_set self.old place (when_left link) }
    {
        let link = &mut self.links[place];
        lower(&mut self.counts, link.verified_call());
        let client = link.is_client();
        link.leave();
        self.clients -= usize::from(client);
        self.parted = true;
    }

    /// The links of these numbers are let go.
    pub fn drop_these(&mut self, numbers: &[u32])
        ensures { self.new ≡ filter (is_none_of numbers.now) self.old }
    {
        lower_these(&mut self.counts, self.links.as_slice(), numbers);
        drop_these(&mut self.links, numbers);
        self.clients = count_clients(self.links.as_slice());
    }

    /// All links that left are let go.
    pub fn sweep(&mut self)
        ensures { self.new ≡ here self.old }
    {
        sweep(&mut self.links);
        self.parted = false;
    }
}
