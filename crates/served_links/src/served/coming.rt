//! What comes to all links.
ghost use Rattle.std.specs.Prelude.{◌≡◌, ◌⊎◌, ℕ, [], IfOk, None, OnErr, OnOk, false, filter, length, map, true};
ghost use Rattle.std.specs.Arc.{arc_value};
ghost use Rattle.std.specs.List.Sorted.{IsStrictlyIncreasing};
ghost use Rattle.worker_match.specs.Feeds.{met_by};
ghost use Rattle.served_links.specs.Fed.{refused_of};
ghost use Rattle.served_links.specs.Links.{Rises, numbers};
ghost use Rattle.served_links.specs.Changes.{at_moment, takes_packet, takes_shown, with_date, with_packet, with_shown};
ghost use Rattle.served_links.specs.Halves.{IsEmptied, more, waiting_after};
ghost use Rattle.worker_match.specs.Items.{item_seen};
ghost use Rattle.worker_match.specs.Seen.{Came};
ghost use Rattle.worker_match.specs.Walk.{IsOrdered};

use super::Served;
use crate::link::SourcePlace;
use crate::links::{offered, shows_any};
use crate::sessions::Sessions;
use aprs_base::{Line, Memory, Packet, Shared};
use std::alloc::Global;
use std::sync::Arc;
use worker_match::{Feeds, Item};

impl Served {
    /// An accepted packet, which is shared, comes to the links: those that want it take it, and are counted. The message rule asks
    /// for it at `hearers` and `owed`. After `Memory` no link is left, or all are as they were.
    pub fn share(
        &mut self,
        alloc: Global,
        packet: &Packet,
        shared: &Shared,
        source: &SourcePlace,
        hearers: &[u32],
        owed: &[u32],
    ) -> Result<(), Memory>
        requires hearers { IsStrictlyIncreasing hearers.now }
        requires owed { IsStrictlyIncreasing owed.now }
        requires same { arc_value shared.now ≡ packet.now }
        ensures rises { (high : ℕ) → Rises 0 (numbers self.old.links) high → Rises 0 (numbers self.new.links) high }
        ensures ok { OnOk result (self.new ≡ record self.old {
          links = map (with_packet packet.now source.now hearers.now owed.now) self.old.links;
          queued = more (length (filter (takes_packet packet.now source.now hearers.now owed.now) self.old.links)) self.old.queued;
          waiting = waiting_after self.old.rests self.old.waiting;
        }) }
        ensures err { OnErr result (IsEmptied self.old self.new ⊎ (self.new ≡ self.old)) }
    {
        let item = offered(
            alloc,
            self.sessions.as_slice(),
            packet,
            shared,
            source,
            hearers,
            owed,
        )?;
        come(&mut self.sessions, &mut self.feeds, self.rests, item)
    }

    /// The links that are shown a duplicate that is refused take it, and are counted. After `Memory` no link is left, or all are
    /// as they were.
    pub fn show(&mut self, alloc: Global, packet: &Shared) -> Result<(), Memory>
        ensures rises { (high : ℕ) → Rises 0 (numbers self.old.links) high → Rises 0 (numbers self.new.links) high }
        ensures ok { OnOk result ((self.new.links ≡ map (with_shown (arc_value packet.now).from (arc_value packet.now).line) self.old.links)
            × (self.new.queued ≡ more (length (filter (takes_shown (arc_value packet.now).from) self.old.links)) self.old.queued) × (self.new.rests ≡ self.old.rests)) }
        ensures err { OnErr result (IsEmptied self.old self.new ⊎ (self.new ≡ self.old)) }
    {
        if shows_any(self.sessions.as_slice()) {
            self.show_all(alloc, packet)
        } else {
            Ok(())
        }
    }

    /// A duplicate that is refused comes to the links, where some are shown such. After `Memory` no link is left, or all are as
    /// they were.
    fn show_all(&mut self, alloc: Global, packet: &Shared) -> Result<(), Memory>
        ensures rises { (high : ℕ) → Rises 0 (numbers self.old.links) high → Rises 0 (numbers self.new.links) high }
        ensures ok { OnOk result (self.new ≡ record self.old {
          links = map (with_shown (arc_value packet.now).from (arc_value packet.now).line) self.old.links;
          queued = more (length (filter (takes_shown (arc_value packet.now).from) self.old.links)) self.old.queued;
          waiting = waiting_after self.old.rests self.old.waiting;
        }) }
        ensures err { OnErr result (IsEmptied self.old self.new ⊎ (self.new ≡ self.old)) }
    {
        let item = refused(alloc, packet)?;
        come(&mut self.sessions, &mut self.feeds, self.rests, item)
    }

    /// The clients are told the date. After `Memory` no link is left.
    pub fn tell_all(&mut self, line: Arc<Line>) -> Result<(), Memory>
        ensures rises { (high : ℕ) → Rises 0 (numbers self.old.links) high → Rises 0 (numbers self.new.links) high }
        ensures ok { OnOk result (self.new ≡ record self.old { links = map (with_date (arc_value line)) self.old.links; waiting = waiting_after self.old.rests self.old.waiting }) }
        ensures err { OnErr result (IsEmptied self.old self.new) }
    {
        come(
            &mut self.sessions,
            &mut self.feeds,
            self.rests,
            Item::All { line },
        )
    }

    /// Positions that count no more are let go. After `Memory` no link is left.
    pub fn forget(&mut self, now: u64) -> Result<(), Memory>
        ensures ok { OnOk result (self.new ≡ record self.old { links = map (at_moment now) self.old.links; waiting = 0 }) }
        ensures err { OnErr result (IsEmptied self.old self.new) }
    {
        self.settle_alone()?;
        self.let_fade(now);
        Ok(())
    }

    /// Positions that count no more are let go, where all that came is matched.
    fn let_fade(&mut self, now: u64)
        requires { self.old.waiting ≡ 0 }
        ensures { self.new ≡ record self.old { links = map (at_moment now) self.old.links } }
    {
        self.feeds.forget(now);
    }
}

/// Something comes to the links, and is matched at once where they rest. After `Memory` no link is left.
fn come(sessions: &mut Sessions, feeds: &mut Feeds, rests: bool, item: Item) -> Result<(), Memory>
    requires { IsOrdered (item_seen item) }
    ensures sessions { OnOk result (sessions.new ≡ sessions.old) }
    ensures links { OnOk result (feeds.new.links ≡ met_by (item_seen item) feeds.old.links) }
    ensures waiting { OnOk result (feeds.new.waiting ≡ waiting_after rests feeds.old.waiting) }
    ensures cleared { OnErr result ((sessions.new ≡ []) × (feeds.new ≡ record { links = []; waiting = 0 })) }
{
    let done = bring_to(feeds, rests, item);
    if done.is_err() {
        sessions.clear();
        feeds.clear();
    }
    done
}

/// Something comes to the links, and is matched at once where they rest. After `Memory` nothing is said of the links.
fn bring_to(feeds: &mut Feeds, rests: bool, item: Item) -> Result<(), Memory>
    requires { IsOrdered (item_seen item) }
    ensures links { OnOk result (feeds.new.links ≡ met_by (item_seen item) feeds.old.links) }
    ensures waiting { OnOk result (feeds.new.waiting ≡ waiting_after rests feeds.old.waiting) }
{
    feeds.bring(item)?;
    if rests { feeds.settle_alone() } else { Ok(()) }
}

/// A duplicate that is refused, as it is offered to all links.
fn refused(alloc: Global, packet: &Shared) -> Result<Item, Memory>
    ensures { IfOk result (λ item. item_seen item ≡ Came (refused_of (arc_value packet.now))) }
{
    Ok(Item::Packet {
        packet: packet.clone()?,
        dupe: true,
        submitted: false,
        known: None,
        gate: false,
        extra: Vec::new(alloc),
    })
}
