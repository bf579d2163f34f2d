//! Links that come.
ghost use Rattle.std.specs.Prelude.{◌≡◌, ◌<◌, ◌∷◌, ◌++◌, ◌⊎◌, ℕ, [], None, OnErr, OnOk};
ghost use Rattle.served_links.specs.Links.{Rises, here, numbers};
ghost use Rattle.served_links.specs.Changes.{new_link_seen};
ghost use Rattle.served_links.specs.Halves.{AreHalves, IsEmptied, IsSwept};

use super::Served;
use super::endings::sweep;
use crate::kinds::{feed_of, is_inbound};
use crate::sessions::Sessions;
use aprs_base::{Addr, Line, Memory};
use aprs_history::LinkKind;
use std::alloc::Global;
use std::sync::Arc;
use worker_match::Feeds;

impl Served {
    /// A link comes, with its first line in its queue. After `Memory` no link is left, or all are as they were, and all that came to
    /// them is matched.
    pub fn open(
        &mut self,
        alloc: Global,
        number: u32,
        kind: LinkKind,
        from: Addr,
        moment: u64,
        first: Line,
    ) -> Result<(), Memory>
        requires { (high : ℕ) × Rises 0 (numbers self.old.links) high × (high < number) }
        ensures ok { OnOk result (self.new ≡ record self.old { links = self.old.links ++ new_link_seen number (record { kind = kind; from = from; moment = moment }) first ∷ []; waiting = 0 }) }
        ensures err { OnErr result (IsEmptied self.old self.new ⊎ (self.new ≡ record self.old { waiting = 0 })) }
    {
        self.settle_alone()?;
        self.push(alloc, number, kind, from, moment, first)
    }

    /// A link comes, where all that came to the others is matched. `Memory` changes nothing.
    fn push(
        &mut self,
        alloc: Global,
        number: u32,
        kind: LinkKind,
        from: Addr,
        moment: u64,
        first: Line,
    ) -> Result<(), Memory>
        requires rises { (high : ℕ) × Rises 0 (numbers self.old.links) high × (high < number) }
        requires settled { self.old.waiting ≡ 0 }
        ensures ok { OnOk result (self.new ≡ record self.old { links = self.old.links ++ new_link_seen number (record { kind = kind; from = from; moment = moment }) first ∷ [] }) }
        ensures err { OnErr result (self.new ≡ self.old) }
    {
        let first = Arc::new(alloc, first)?;
        let feed = feed_of(kind, &None);
        let put = make_way(&mut self.sessions, &mut self.feeds, number);
        self.queued = self.queued.saturating_add(put);
        self.sessions.open(number, kind, from, moment)?;
        match self
            .feeds
            .open(alloc, number, feed, is_inbound(kind), first)
        {
            Ok(()) => Ok(()),
            Err(memory) => {
                self.sessions.take_back();
                Err(memory)
            }
        }
    }
}

/// The links that left are let go, where a link of that number can't come after those that are kept: how many lines were
/// put that weren't counted before.
fn make_way(sessions: &mut Sessions, feeds: &mut Feeds, number: u32) -> u64
    requires settled { feeds.old.waiting ≡ 0 }
    requires halves { AreHalves sessions.old feeds.old }
    ensures swept { IsSwept sessions.old feeds.old sessions.new feeds.new result }
    ensures below { (high : ℕ) → Rises 0 (numbers (here sessions.old)) high → high < number → (last : ℕ) × Rises 0 (numbers sessions.new) last × (last < number) }
{
    if sessions.is_below(number) {
        return 0;
    }
    sweep(sessions, feeds)
}
