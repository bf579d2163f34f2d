//! Which bytes links are offered, and what they take of them.
ghost use Rattle.std.specs.Prelude.{◌≡◌, ◌≤◌, ◌<◌, IfOk, IfSome, None, Some, drop, filter, length, map, min, slice_get, take, true};
ghost use Rattle.served_links.specs.Fed.{AllMatch, joined, joined_all};
ghost use Rattle.served_links.specs.Links.{is_ready, numbers, pending_at};
ghost use Rattle.served_links.specs.Changes.{at_link, with_taken};
ghost use Rattle.worker_match.specs.Seen.{FeedSeen};

use super::Served;
use crate::link::LinkSession;
use crate::links::place_near;
use aprs_base::Memory;
use std::alloc::Global;
use worker_match::Feeds;

impl Served {
    /// The numbers of the links that are to be offered their next bytes.
    pub fn ready(&self, alloc: Global) -> Result<Vec<u32>, Memory>
        requires { self.now.rests ≡ true }
        ensures { IfOk result (λ v. v.items ≡ numbers (filter is_ready self.now.links)) }
    {
        ready(alloc, self.sessions.as_slice(), &self.feeds)
    }

    /// Writes the next bytes of the link, as many as there are and as fit. The buffer stays as it was behind them.
    pub fn offer(&self, number: u32, out: &mut [u8]) -> usize
        requires { self.now.rests ≡ true }
        ensures count { result ≡ min (length out.old) (length (pending_at number self.now.links)) }
        ensures bytes { take result out.new ≡ take (length out.old) (pending_at number self.now.links) }
        ensures rest { drop result out.new ≡ drop result out.old }
    {
        match place_near(self.sessions.as_slice(), self.sessions.near(), number) {
            Some(place) => self.feeds.front_bytes(place, out),
            None => 0,
        }
    }

    /// All bytes that the link has still to take, where they stand in a text that links share.
    pub fn shared_offer(&self, number: u32) -> Option<&[u8]>
        requires { self.now.rests ≡ true }
        ensures { IfSome result (λ bytes. bytes.now ≡ pending_at number self.now.links) }
    {
        match place_near(self.sessions.as_slice(), self.sessions.near(), number) {
            Some(place) => self.feeds.shared_front(place),
            None => None,
        }
    }

    /// The link took the first `count` bytes of an offer.
    pub fn take(&mut self, number: u32, offered: usize, count: usize)
        requires rests { self.old.rests ≡ true }
        requires pending { count ≤ length (pending_at number self.old.links) }
        ensures { self.new ≡ record self.old { links = map (at_link number (with_taken offered count)) self.old.links } }
    {
        match place_near(self.sessions.as_slice(), self.sessions.near(), number) {
            Some(place) => {
                self.sessions.take(place, offered, count);
                self.feeds.taken(place, count);
            }
            None => {}
        }
    }
}

/// Whether the link of that session, at that place, isn't blocked or is a downlink, and has bytes to take.
fn is_ready(session: &LinkSession, feeds: &Feeds, place: usize) -> bool
    requires settled { feeds.now.waiting ≡ 0 }
    requires within { place < length feeds.now.links }
    ensures { (state : FeedSeen) → slice_get feeds.now.links place ≡ Some state → result ≡ is_ready (joined session.now state) }
{
    session.is_open() && feeds.pending(place) > 0
}

/// The numbers of the links that are to be offered their next bytes.
fn ready(alloc: Global, sessions: &[LinkSession], feeds: &Feeds) -> Result<Vec<u32>, Memory>
    requires settled { feeds.now.waiting ≡ 0 }
    requires halves { AllMatch sessions.now feeds.now.links }
    ensures { IfOk result (λ v. v.items ≡ numbers (filter is_ready (joined_all sessions.now feeds.now.links))) }
{
    let mut numbers = Vec::new(alloc);
    for place in 0..sessions.len() {
        let session = &sessions[place];
        if is_ready(session, feeds, place) {
            numbers.push(session.number())?;
        }
    }
    Ok(numbers)
}
