//! Links that leave.
ghost use Rattle.std.specs.Prelude.{◌≡◌, ◌∷◌, [], None, OnErr, OnOk, Some, false, filter, true};
ghost use Rattle.served_links.specs.Links.{here, is_none_of};
ghost use Rattle.served_links.specs.Halves.{AreHalves, IsEmptied, IsSwept};

use super::Served;
use crate::links::place_here;
use crate::sessions::Sessions;
use aprs_base::Memory;
use worker_match::Feeds;

impl Served {
    /// The links of these numbers leave. After `Memory` no link is left.
    pub fn drop_these(&mut self, ends: &[u32]) -> Result<(), Memory>
        ensures ok { OnOk result (self.new ≡ record self.old { links = filter (is_none_of ends.now) self.old.links; waiting = 0 }) }
        ensures err { OnErr result (IsEmptied self.old self.new) }
    {
        self.settle_alone()?;
        self.part_from(ends);
        Ok(())
    }

    /// The links of these numbers leave, where all that came is matched: what was put is counted before.
    fn part_from(&mut self, ends: &[u32])
        requires { self.old.waiting ≡ 0 }
        ensures { self.new ≡ record self.old { links = filter (is_none_of ends.now) self.old.links } }
    {
        if ends.is_empty() {
            return;
        }
        let put = self.feeds.count_put();
        self.queued = self.queued.saturating_add(put);
        self.sessions.drop_these(ends);
        self.feeds.drop_these(ends);
    }

    /// The link of that number leaves. After `Memory` no link is left.
    pub fn leave(&mut self, number: u32) -> Result<(), Memory>
        ensures ok { OnOk result (self.new ≡ record self.old { links = filter (is_none_of (number ∷ [])) self.old.links; waiting = 0 }) }
        ensures err { OnErr result (IsEmptied self.old self.new) }
    {
        self.settle_alone()?;
        if self.rests {
            self.part_from(&[number]);
        } else {
            self.part_later(number);
        }
        Ok(())
    }

    /// The link of that number leaves, where all that came is matched, and a round is walked: it keeps its place until that
    /// has been.
    fn part_later(&mut self, number: u32)
        requires settled { self.old.waiting ≡ 0 }
        requires wakes { self.old.rests ≡ false }
        ensures { self.new ≡ record self.old { links = filter (is_none_of (number ∷ [])) self.old.links } }
    {
        match place_here(self.sessions.as_slice(), number) {
            Some(place) => {
                self.sessions.leave(place);
                self.feeds.leave(place);
            }
            None => {}
        }
    }

    /// A round has been walked, and all that came is matched: the links that left in it are let go.
    pub fn rest(&mut self)
        requires { self.old.waiting ≡ 0 }
        ensures { self.new ≡ record self.old { rests = true } }
    {
        let put = sweep(&mut self.sessions, &mut self.feeds);
        self.queued = self.queued.saturating_add(put);
        self.rests = true;
    }
}

/// The links that left are let go, once what was put is counted: how many lines that is.
pub(super) fn sweep(sessions: &mut Sessions, feeds: &mut Feeds) -> u64
    requires settled { feeds.old.waiting ≡ 0 }
    requires halves { AreHalves sessions.old feeds.old }
    ensures swept { IsSwept sessions.old feeds.old sessions.new feeds.new result }
    ensures here { sessions.new ≡ here sessions.old }
{
    if sessions.is_whole() {
        return 0;
    }
    let put = feeds.count_put();
    sessions.sweep();
    feeds.sweep();
    put
}
