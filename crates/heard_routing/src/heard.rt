//! The table of heard stations and of promises.
ghost use Rattle.std.specs.Prelude.{◌≡◌, ℕ, ◌≤◌, Bool, true, ◌++◌, ◌∷◌, [], List, OnOk, OnErr, IfOk};
ghost use Rattle.aprs_base.specs.PacketSeen.{PacketSeen};
ghost use Rattle.heard_routing.specs.LastHeard.{Agrees, AgreesAt, HasExactly, IsHeard, but_not, is_hearer};
ghost use Rattle.heard_routing.specs.Heard.{IsRisingListOf, courtesies, is_promised, is_receiver, nothing, noted, promised, receivers, recent, without_link, without_promises};

use crate::groups::Groups;
use aprs_base::{Call, Memory};
use std::alloc::Global;
use std::hash::RandomState;
use std::marker::Model;

/// For how long a link has heard a station: three hours, in seconds.
const HEARD_AGE: u64 = 10_800;

/// For how long a sender's next position is owed: half an hour, in seconds.
const PROMISE_AGE: u64 = 1_800;

/// When each link last heard each station, and when each link was last promised the next position of each sender.
#[derive(Drop)]
pub struct Heard {
    heard: Groups,
    promises: Groups,
}

impl Model for Heard {
    ghost use Rattle.std.specs.Prelude.{◌≡◌};
    ghost use Rattle.heard_routing.specs.Heard.{HeardSeen};

    ghost Value = { HeardSeen };

    ghost view = { λ h. record { heard = h.heard.groups; promises = h.promises.groups; hasher = h.heard.hasher } };

    ghost invariant = { λ h. h.promises.hasher ≡ h.heard.hasher };
}

impl Heard {
    /// Nothing was heard or promised. Each map has a copy of the hasher.
    pub fn new(alloc: Global, hasher: &RandomState) -> Result<Heard, Memory>
        ensures empty { IfOk result (λ table. table ≡ nothing hasher.now) }
        ensures last { (lives : ℕ → Bool) → IfOk result (λ table. Agrees lives table []) }
        ensures exactly { (now : ℕ) (lives : ℕ → Bool) → IfOk result (λ table. HasExactly now lives table []) }
    {
        Ok(Heard {
            heard: Groups::new(alloc, hasher),
            promises: Groups::new(alloc, hasher),
        })
    }

    /// Notes that the link heard the call at `now`, in seconds, in place of when it heard it before.
    pub fn note(&mut self, alloc: Global, link: u32, call: &Call, now: u64) -> Result<(), Memory>
        ensures ok { OnOk result (self.new ≡ noted link call.now now self.old) }
        // After a packet of a living link the table goes on to have when living links last heard each call.
        ensures last { (lives : ℕ → Bool) (packets : List PacketSeen) (packet : PacketSeen) → IsHeard packet link call.now now → lives link ≡ true → Agrees lives self.old packets → OnOk result (Agrees lives self.new (packets ++ packet ∷ [])) }
        ensures last_at { (moment : ℕ) (lives : ℕ → Bool) (packets : List PacketSeen) (packet : PacketSeen) → IsHeard packet link call.now now → lives link ≡ true → AgreesAt moment lives self.old packets → OnOk result (AgreesAt moment lives self.new (packets ++ packet ∷ [])) }
        ensures exactly { (lives : ℕ → Bool) (packets : List PacketSeen) (packet : PacketSeen) → IsHeard packet link call.now now → lives link ≡ true → HasExactly now lives self.old packets → OnOk result (HasExactly now lives self.new (packets ++ packet ∷ [])) }
        ensures err { OnErr result (self.new ≡ self.old) }
    {
        self.heard.set(alloc, link, call, now)
    }

    /// Promises the link the sender's next position, at `now`, in seconds, in place of an earlier promise.
    pub fn promise(
        &mut self,
        alloc: Global,
        link: u32,
        sender: &Call,
        now: u64,
    ) -> Result<(), Memory>
        ensures ok { OnOk result (self.new ≡ promised link sender.now now self.old) }
        ensures err { OnErr result (self.new ≡ self.old) }
    {
        self.promises.set(alloc, link, sender, now)
    }

    /// Appends to `out` the links that heard the call at most three hours before `now`, rising; `now` is in seconds.
    pub fn receivers(
        &self,
        alloc: Global,
        to: &Call,
        now: u64,
        out: &mut Vec<u32>,
    ) -> Result<(), Memory>
        ensures ok { OnOk result (out.new.items ≡ out.old.items ++ receivers self.now to.now now) }
        ensures links { IsRisingListOf (receivers self.now to.now now) (is_receiver self.now to.now now) }
        // The living links from which a packet of the call came that recently.
        ensures last { (lives : ℕ → Bool) (packets : List PacketSeen) → AgreesAt now lives self.now packets → IsRisingListOf (receivers self.now to.now now) (is_hearer lives packets to.now now) }
        ensures err { OnErr result (out.new.items ≡ out.old.items) }
    {
        self.heard.append_recent(alloc, to, now, HEARD_AGE, out)
    }

    /// Appends to `out` the links that were promised the sender's next position at most half an hour before `now`, rising,
    /// and removes all promises of it; `now` is in seconds.
    pub fn courtesy(
        &mut self,
        alloc: Global,
        sender: &Call,
        now: u64,
        out: &mut Vec<u32>,
    ) -> Result<(), Memory>
        ensures ok { OnOk result (out.new.items ≡ out.old.items ++ courtesies self.old sender.now now) }
        ensures links { IsRisingListOf (courtesies self.old sender.now now) (is_promised self.old sender.now now) }
        ensures spent { OnOk result (self.new ≡ without_promises sender.now self.old) }
        ensures err { OnErr result ((out.new.items ≡ out.old.items) × (self.new ≡ self.old)) }
    {
        if self.promises.has_links(sender) {
            self.promises
                .append_recent(alloc, sender, now, PROMISE_AGE, out)?;
            self.promises.clear(sender);
        }
        Ok(())
    }

    /// Forgets what the link heard and what it was promised.
    pub fn forget(&mut self, link: u32)
        ensures removed { self.new ≡ without_link link self.old }
        ensures last { (lives : ℕ → Bool) (packets : List PacketSeen) → Agrees lives self.old packets → Agrees (but_not link lives) self.new packets }
        ensures last_at { (moment : ℕ) (lives : ℕ → Bool) (packets : List PacketSeen) → AgreesAt moment lives self.old packets → AgreesAt moment (but_not link lives) self.new packets }
        ensures exactly { (moment : ℕ) (lives : ℕ → Bool) (packets : List PacketSeen) → HasExactly moment lives self.old packets → HasExactly moment (but_not link lives) self.new packets }
    {
        self.heard.forget(link);
        self.promises.forget(link);
    }

    /// Removes what is too old at `now`, in seconds, to be given any more: what was heard more than three hours before, and
    /// what was promised more than half an hour before.
    pub fn expire(&mut self, now: u64)
        ensures kept { self.new ≡ recent now self.old }
        // From now on the same links are given as without it.
        ensures given { (call : List ℕ) (later : ℕ) → now ≤ later → (receivers self.new call later ≡ receivers self.old call later) × (courtesies self.new call later ≡ courtesies self.old call later) }
        ensures last_at { (before : ℕ) (lives : ℕ → Bool) (packets : List PacketSeen) → before ≤ now → AgreesAt before lives self.old packets → AgreesAt now lives self.new packets }
        ensures exactly { (before : ℕ) (lives : ℕ → Bool) (packets : List PacketSeen) → before ≤ now → HasExactly before lives self.old packets → HasExactly now lives self.new packets }
    {
        self.heard.expire(now, HEARD_AGE);
        self.promises.expire(now, PROMISE_AGE);
    }
}
