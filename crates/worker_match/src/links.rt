//! A link, and what each item leaves of it.
ghost use Rattle.std.specs.Prelude.{◌≡◌, ◌^◌, ◌-◌, ◌<◌, ◌≤◌, if◌then◌else◌, IfOk, OnErr, OnOk, Some, drop, length, option_map, take};
ghost use Rattle.std.specs.Arc.{arc_value};
ghost use Rattle.std.specs.List.Sorted.{IsStrictlyIncreasing};
ghost use Rattle.filter_eval.specs.Passes.{passes_of};
ghost use Rattle.worker_match.specs.Items.{item_seen};
ghost use Rattle.worker_match.specs.Runs.{fresh, is_eager, is_plain, takes_all, takes_some, with_run};
ghost use Rattle.worker_match.specs.Seen.{Became, Came, Ended, Told};
ghost use Rattle.worker_match.specs.Walk.{IsOrdered, after, feed_wants, is_chosen, is_open, met, terms_of, told_by, wants, with_copy, with_packet, with_seen, with_text};

use crate::filters::LinkFilter;
use crate::friends::{copy_friends, see_friends, see_mine};
use crate::items::Item;
use crate::offers::{Offer, offered};
use aprs_base::{Call, Line, Memory, copy_call};
use filter_eval::{Friends, Seen, passes};
use filter_lang::FilterSet;
use link_queue::{Batch, Overfull, Queue};
use std::marker::Model;
use std::sync::Arc;

/// What a link is fed.
#[derive(Clone, Copy)]
pub enum Feed {
    Nothing,
    /// All packets.
    Full,
    /// What was submitted to this server.
    Up,
    /// The duplicates that are refused.
    Dupe,
    /// What its filter passes, and what the message rule asks for.
    Filter,
}

/// What a link is fed, and the lines that it has still to take. What every walk over items needs stands first.
#[derive(Drop)]
pub struct LinkFeed {
    pub link: u32,
    pub feed: Feed,
    /// Whether it was opened from the other side.
    pub inbound: bool,
    pub alive: bool,
    /// A line didn't fit into the queue: nothing changes the link any more.
    pub over: bool,
    /// How many packet lines were put into the queue. It stays at its greatest value.
    pub put: u64,
    pub queue: Queue,
    /// Its login.
    pub me: Option<Call>,
    pub filter: LinkFilter,
    /// Where the calls of the filter's terms were last seen. They take far more room than the rest, so they stand apart.
    pub friends: Box<Friends>,
    /// Where its own login was last seen.
    pub mine: Option<Seen>,
}

impl Model for LinkFeed {
    ghost use Rattle.worker_match.specs.Seen.{FeedSeen};

    ghost Value = { FeedSeen };

    ghost view = { λ l. record {
      link = l.link;
      feed = l.feed;
      inbound = l.inbound;
      alive = l.alive;
      over = l.over;
      me = l.me;
      filter = l.filter;
      friends = l.friends.value;
      mine = l.mine;
      queue = l.queue;
      put = l.put;
    } };
}

impl LinkFeed {
    /// Whether items change it.
    pub(crate) fn is_open(&self) -> bool
        ensures { result ≡ is_open self.now }
    {
        self.alive && !self.over
    }

    /// Whether it is open, takes all packets, and has no filter.
    pub(crate) fn is_plain(&self) -> bool
        ensures { result ≡ is_plain self.now }
    {
        self.is_open() && takes_all(self.feed) && self.filter.is_none()
    }

    /// Whether it is open, and may want packets that are no refused duplicates.
    pub(crate) fn is_eager(&self) -> bool
        ensures { result ≡ is_eager self.now }
    {
        self.is_open() && takes_some(self.feed)
    }

    /// Takes the lines of a batch from the place `from` to before the place `to`, which are counted, as many as fit; where one
    /// doesn't the link is over.
    pub(crate) fn take_lines(
        &mut self,
        batch: &Arc<Batch>,
        from: usize,
        to: usize,
    ) -> Result<(), Memory>
        requires { (from ≤ to) × (to ≤ length (arc_value batch.now)) }
        ensures ok { OnOk result (self.new ≡ with_run (take (to - from) (drop from (arc_value batch.now))) self.old) }
        ensures err { OnErr result (self.new ≡ self.old) }
        ensures within { OnOk result (length self.old.queue.lines ≤ self.old.queue.limit) }
        ensures counted { OnOk result (self.old.put < 2 ^ 64) }
    {
        let count = self.queue.push_run(batch, from, to)?;
        self.put = self.put.saturating_add(count as u64);
        self.over |= count < to - from;
        Ok(())
    }

    /// Takes all lines of a batch, which are counted, as many as fit; where one doesn't the link is over.
    pub(crate) fn take_run(&mut self, batch: &Arc<Batch>) -> Result<(), Memory>
        ensures ok { OnOk result (self.new ≡ with_run (arc_value batch.now) self.old) }
        ensures err { OnErr result (self.new ≡ self.old) }
        ensures within { OnOk result (length self.old.queue.lines ≤ self.old.queue.limit) }
        ensures counted { OnOk result (self.old.put < 2 ^ 64) }
    {
        self.take_lines(batch, 0, batch.len())
    }

    /// Takes a line; where it doesn't fit the link is over.
    fn push(&mut self, line: Arc<Line>)
        ensures { self.new ≡ with_text (arc_value line) self.old }
    {
        if let Err(Overfull) = self.queue.push(line) {
            self.over = true;
        }
    }

    /// Takes a packet's line, which is counted where it fits; where it doesn't the link is over.
    fn push_copy(&mut self, line: Arc<Line>)
        ensures { self.new ≡ with_copy (arc_value line) self.old }
    {
        match self.queue.push(line) {
            Ok(()) => self.put = self.put.saturating_add(1),
            Err(Overfull) => self.over = true,
        }
    }

    /// Whether its filter passes the packet.
    fn passes(&self, offer: &Offer) -> bool
        ensures { result ≡ passes_of (terms_of self.now.filter) offer.now.packet self.now.friends self.now.mine offer.now.known offer.now.gate }
    {
        match self.filter.get() {
            Some(filter) => passes(
                filter,
                offer.packet,
                &self.friends,
                self.mine,
                *offer.known,
                offer.gate,
            ),
            None => false,
        }
    }

    /// Whether its filter passes the packet, or the message rule asks for it there.
    fn chooses(&self, offer: &Offer) -> bool
        requires { IsStrictlyIncreasing offer.now.extra }
        ensures { result ≡ is_chosen offer.now self.now }
    {
        self.passes(offer) || offer.is_owed(self.link)
    }

    fn feed_wants(&self, offer: &Offer) -> bool
        requires { IsStrictlyIncreasing offer.now.extra }
        ensures { result ≡ feed_wants self.now.feed offer.now self.now }
    {
        match self.feed {
            Feed::Nothing => false,
            Feed::Full => !offer.dupe,
            Feed::Up => !offer.dupe && offer.submitted,
            Feed::Dupe => offer.dupe,
            Feed::Filter => !offer.dupe && self.chooses(offer),
        }
    }

    fn wants(&self, offer: &Offer) -> bool
        requires { IsStrictlyIncreasing offer.now.extra }
        ensures { result ≡ wants offer.now self.now }
    {
        !offer.is_from(self.link) && self.feed_wants(offer)
    }

    /// Takes the packet's line, where it wants it.
    fn take_copy(&mut self, offer: &Offer) -> Result<(), Memory>
        requires { IsStrictlyIncreasing offer.now.extra }
        ensures ok { OnOk result (self.new ≡ with_packet offer.now self.old) }
        ensures err { OnErr result (self.new ≡ self.old) }
    {
        if self.wants(offer) {
            let packet = offer.packet;
            self.push_copy(packet.line.clone()?);
        }
        Ok(())
    }

    /// A station was seen there.
    fn see(&mut self, call: &Call, seen: &Seen)
        ensures { self.new ≡ with_seen call.now (Some seen.now) self.old }
    {
        see_friends(call, seen, &self.filter, &mut self.friends);
        see_mine(call, seen, &self.me, &mut self.mine);
    }

    /// Sees where the packet's source is, where it tells that.
    fn see_source(&mut self, offer: &Offer)
        ensures { self.new ≡ with_seen offer.now.packet.parts.source (told_by offer.now) self.old }
    {
        if let Some(seen) = offer.told() {
            let packet = offer.packet;
            self.see(&packet.parts.source, seen);
        }
    }

    /// Meets a packet: takes its line, where it wants it, and sees where its source is.
    pub(crate) fn meet_packet(&mut self, offer: &Offer) -> Result<(), Memory>
        requires { IsStrictlyIncreasing offer.now.extra }
        ensures ok { OnOk result (self.new ≡ met (Came offer.now) self.old) }
        ensures err { OnErr result (self.new ≡ self.old) }
    {
        self.take_copy(offer)?;
        self.see_source(offer);
        Ok(())
    }

    /// Takes the packet's line, where it wants it. Where it is no refused duplicate the line is that of a batch from the
    /// place `from` to before the place `to`. After `Memory` nothing is said of the link.
    fn take_placed(
        &mut self,
        offer: &Offer,
        batch: &Arc<Batch>,
        from: usize,
        to: usize,
    ) -> Result<(), Memory>
        requires rising { IsStrictlyIncreasing offer.now.extra }
        requires within { (from ≤ to) × (to ≤ length (arc_value batch.now)) }
        requires line { take (to - from) (drop from (arc_value batch.now)) ≡ fresh offer.now.dupe offer.now.packet.line }
        ensures { OnOk result (self.new ≡ with_packet offer.now self.old) }
    {
        if offer.dupe {
            self.take_copy(offer)
        } else if self.wants(offer) {
            self.take_lines(batch, from, to)
        } else {
            Ok(())
        }
    }

    /// Meets a packet whose line, where it is no refused duplicate, is that of a batch from the place `from` to before the
    /// place `to`. After `Memory` nothing is said of the link.
    pub(crate) fn meet_placed(
        &mut self,
        offer: &Offer,
        batch: &Arc<Batch>,
        from: usize,
        to: usize,
    ) -> Result<(), Memory>
        requires rising { IsStrictlyIncreasing offer.now.extra }
        requires within { (from ≤ to) × (to ≤ length (arc_value batch.now)) }
        requires line { take (to - from) (drop from (arc_value batch.now)) ≡ fresh offer.now.dupe offer.now.packet.line }
        ensures { OnOk result (self.new ≡ met (Came offer.now) self.old) }
    {
        self.take_placed(offer, batch, from, to)?;
        self.see_source(offer);
        Ok(())
    }

    /// Takes a line, where it is for it.
    fn take_text(&mut self, is_for: bool, line: &Arc<Line>) -> Result<(), Memory>
        ensures ok { OnOk result (self.new ≡ (if is_for then with_text (arc_value line.now) self.old else self.old)) }
        ensures err { OnErr result (self.new ≡ self.old) }
    {
        if is_for {
            self.push(line.clone()?);
        }
        Ok(())
    }

    /// Takes a line for it alone, where it lives and isn't over. Where the line doesn't fit it is over.
    pub fn tell(&mut self, line: Arc<Line>)
        ensures { self.new ≡ after self.old (Told self.old.link (arc_value line)) }
    {
        if self.is_open() {
            self.push(line);
        }
    }

    /// Ends, where that is its number.
    fn end(&mut self, link: u32)
        ensures { self.new ≡ met (Ended link) self.old }
    {
        if self.link == link {
            self.alive = false;
        }
    }

    /// Is from now on what a session says, where that is its number.
    fn begin(
        &mut self,
        link: u32,
        feed: Feed,
        me: &Option<Call>,
        filter: &Option<Arc<FilterSet>>,
        friends: &Friends,
        mine: Option<Seen>,
    ) -> Result<(), Memory>
        ensures ok { OnOk result (self.new ≡ met (Became (record { link = link; feed = feed; me = me.now; filter = option_map arc_value filter.now; friends = friends.now; mine = mine })) self.old) }
        ensures err { OnErr result (self.new ≡ self.old) }
    {
        if self.link == link {
            self.filter = LinkFilter::shared(filter)?;
            self.feed = feed;
            self.me = copy_login(me);
            *self.friends = copy_friends(friends);
            self.mine = mine;
        }
        Ok(())
    }

    /// What an item leaves of it. `Memory` changes nothing.
    pub fn take(&mut self, item: &Item) -> Result<(), Memory>
        requires { IsOrdered (item_seen item.now) }
        ensures ok { OnOk result (self.new ≡ after self.old (item_seen item.now)) }
        ensures err { OnErr result (self.new ≡ self.old) }
    {
        if self.is_open() {
            self.meet(item)
        } else {
            Ok(())
        }
    }

    /// What an item leaves of it, where it lives and isn't over. `Memory` changes nothing.
    fn meet(&mut self, item: &Item) -> Result<(), Memory>
        requires { IsOrdered (item_seen item.now) }
        ensures ok { OnOk result (self.new ≡ met (item_seen item.now) self.old) }
        ensures err { OnErr result (self.new ≡ self.old) }
    {
        if let Some(offer) = offered(item) {
            return self.meet_packet(&offer);
        }
        match item {
            Item::Text { link, line } => self.take_text(self.link == *link, line),
            Item::All { line } => self.take_text(self.inbound, line),
            Item::End { link } => {
                self.end(*link);
                Ok(())
            }
            Item::Session {
                link,
                feed,
                me,
                filter,
                friends,
                mine,
            } => self.begin(*link, *feed, me, filter, friends, *mine),
            Item::Packet { .. } => unreachable!(),
        }
    }
}

fn takes_all(feed: Feed) -> bool
    ensures { result ≡ takes_all feed }
{
    match feed {
        Feed::Full => true,
        Feed::Nothing | Feed::Up | Feed::Dupe | Feed::Filter => false,
    }
}

/// Whether packets that are no refused duplicates may be wanted.
fn takes_some(feed: Feed) -> bool
    ensures { result ≡ takes_some feed }
{
    match feed {
        Feed::Full | Feed::Up | Feed::Filter => true,
        Feed::Nothing | Feed::Dupe => false,
    }
}

/// A copy of a login, which takes no memory.
fn copy_login(me: &Option<Call>) -> Option<Call>
    ensures { result ≡ me.now }
{
    match me {
        Some(call) => Some(copy_call(call)),
        None => None,
    }
}
