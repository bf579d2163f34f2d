//! The links, and what came to them since it was last matched.
ghost use Rattle.std.specs.Prelude.{◌≡◌, ◌==◌, ◌++◌, ◌∷◌, ◌≤◌, ◌<◌, ◌+◌, [], IfOk, IfSome, OnErr, OnOk, Some, drop, false, true, filter, length, map, min, slice_get, slice_set, take};
ghost use Rattle.std.specs.Arc.{arc_value};
ghost use Rattle.link_queue.specs.Queues.{pending_bytes};
ghost use Rattle.worker_match.specs.Feeds.{counted, forgotten, is_other, is_over, is_served, left, link_of, met_by, new_feed, put_in, told, with_login, with_taken, with_terms};
ghost use Rattle.worker_match.specs.Items.{item_seen};
ghost use Rattle.worker_match.specs.Seen.{FeedSeen};
ghost use Rattle.worker_match.specs.Walk.{IsOrdered};

use crate::items::Item;
use crate::links::{Feed, LinkFeed};
use crate::states::{
    count_each, drop_each, forget_each, leave, log_in, opened, overfull, put_by, set_filter, sweep,
};
use crate::workers::{Course, spread, walk};
use aprs_base::{Call, Gate, Line, Memory};
use filter_eval::{Friends, Seen};
use filter_lang::FilterSet;
use std::alloc::Global;
use std::marker::{Model, Sync};
use std::sync::Arc;
use std::thread::Threads;

/// A part with fewer meetings of a link and an item costs more than it saves.
const MEETINGS: usize = 4096;

/// Who matches what came: at most so many workers, 1 to 64, each part of the links through the gate.
#[derive(Drop)]
pub struct Crew<'a, R, G> {
    pub rt: &'a R,
    pub workers: u32,
    pub gate: &'a G,
}

/// The links, in the order in which they came, and what came to them since it was last matched. They are seen as what came
/// leaves them, matched or not.
#[derive(Drop)]
pub struct Feeds {
    states: Vec<LinkFeed>,
    items: Vec<Item>,
    /// How many links have come since.
    news: usize,
}

impl Model for Feeds {
    ghost use Rattle.std.specs.Prelude.{All};
    ghost use Rattle.worker_match.specs.Feeds.{FeedsSeen, seen_after};
    ghost use Rattle.worker_match.specs.Items.{items_seen};
    ghost use Rattle.worker_match.specs.Walk.{IsOrdered};

    ghost Value = { FeedsSeen };

    ghost view = { λ f. seen_after f.states.items (items_seen f.items.items) };

    ghost invariant = { λ f. All IsOrdered (items_seen f.items.items) };
}

/// In how many parts so many links meet so many things: no more than there are workers, and none that is too small.
fn parts_for(links: usize, things: usize, workers: u32) -> u32
    requires { 1 ≤ workers }
    ensures some { 1 ≤ result }
    ensures most { result ≤ workers }
{
    let more = links.saturating_mul(things) / MEETINGS;
    match u32::try_from(more) {
        Ok(more) => workers.min(more.saturating_add(1)),
        Err(_) => workers,
    }
}

impl Feeds {
    /// No links, and nothing that came.
    pub fn new(alloc: Global) -> Feeds
        ensures { result ≡ record { links = []; waiting = 0 } }
    {
        Feeds {
            states: Vec::new(alloc),
            items: Vec::new(alloc),
            news: 0,
        }
    }

    /// How many links there are.
    pub fn len(&self) -> usize
        ensures { result ≡ length self.now.links }
    {
        self.states.len()
    }

    /// How many things came that aren't matched yet.
    pub fn waiting(&self) -> usize
        ensures { result ≡ self.now.waiting }
    {
        self.items.len()
    }

    /// A link comes, which is fed so and has this line to take first. What came before must have been matched. `Memory` changes
    /// nothing.
    pub fn open(
        &mut self,
        alloc: Global,
        link: u32,
        feed: Feed,
        inbound: bool,
        first: Arc<Line>,
    ) -> Result<(), Memory>
        requires { self.old.waiting ≡ 0 }
        ensures ok { OnOk result (self.new ≡ record self.old { links = self.old.links ++ new_feed link feed inbound (arc_value first) ∷ [] }) }
        ensures err { OnErr result (self.new ≡ self.old) }
    {
        self.states
            .push(opened(alloc, link, feed, inbound, first)?)?;
        self.news = self.news.saturating_add(1);
        Ok(())
    }

    /// Something comes to the links. `Memory` changes nothing.
    pub fn bring(&mut self, item: Item) -> Result<(), Memory>
        requires { IsOrdered (item_seen item) }
        ensures ok { OnOk result (self.new ≡ record { links = met_by (item_seen item) self.old.links; waiting = self.old.waiting + 1 }) }
        ensures err { OnErr result (self.new ≡ self.old) }
    {
        self.items.push(item)?;
        Ok(())
    }

    /// What came is matched with the links by the crew. Links that have come since count as things that came. After `Memory`
    /// there are as many links and as much waits, but what the links are isn't known: some may have met what came. They can only be
    /// cleared then.
    pub fn settle<R: Threads + Sync, G: Gate + Sync>(
        &mut self,
        crew: &Crew<R, G>,
    ) -> Result<(), Memory>
        requires { (1 ≤ crew.now.workers) × (crew.now.workers ≤ 64) }
        ensures ok { OnOk result (self.new ≡ record self.old { waiting = 0 }) }
        ensures err { OnErr result ((length self.new.links ≡ length self.old.links) × (self.new.waiting ≡ self.old.waiting)) }
    {
        let things = self.items.len().saturating_add(self.news);
        if things == 0 {
            return Ok(());
        }
        let parts = parts_for(self.states.len(), things, crew.workers);
        spread(
            crew.rt,
            self.states.as_mut_slice(),
            self.items.as_slice(),
            parts,
            crew.gate,
        )?;
        self.items.clear();
        self.news = 0;
        Ok(())
    }

    /// What came is matched with the links by this thread alone, through no gate. After `Memory` there are as many links and as
    /// much waits, but what the links are isn't known.
    pub fn settle_alone(&mut self) -> Result<(), Memory>
        ensures ok { OnOk result (self.new ≡ record self.old { waiting = 0 }) }
        ensures err { OnErr result ((length self.new.links ≡ length self.old.links) × (self.new.waiting ≡ self.old.waiting)) }
    {
        if self.items.is_empty() {
            return Ok(());
        }
        walk(
            self.states.as_mut_slice(),
            self.items.as_slice(),
            Course { apart: false },
        )?;
        self.items.clear();
        Ok(())
    }

    /// How many packet lines were put into the queues since that was last counted, at most the greatest u64. What came must have
    /// been matched.
    pub fn put(&self) -> u64
        requires { self.now.waiting ≡ 0 }
        ensures { result ≡ put_in self.now.links }
    {
        put_by(self.states.as_slice())
    }

    /// Says how many packet lines were put into the queues, and counts from then on anew. What came must have been matched.
    pub fn count_put(&mut self) -> u64
        requires { self.old.waiting ≡ 0 }
        ensures count { result ≡ put_in self.old.links }
        ensures counted { self.new ≡ record self.old { links = map counted self.old.links } }
    {
        let put = self.put();
        count_each(self.states.as_mut_slice());
        put
    }

    /// Positions that are too old at that moment, in seconds, are let go. What came must have been matched.
    pub fn forget(&mut self, now: u64)
        requires { self.old.waiting ≡ 0 }
        ensures { self.new ≡ record self.old { links = map (forgotten now) self.old.links } }
    {
        forget_each(self.states.as_mut_slice(), now);
    }

    /// The links of these numbers leave. What came must have been matched.
    pub fn drop_these(&mut self, numbers: &[u32])
        requires { self.old.waiting ≡ 0 }
        ensures { self.new ≡ record self.old { links = filter (is_other numbers.now) self.old.links } }
    {
        drop_each(&mut self.states, numbers);
    }

    /// The link at that place leaves: it comes to nothing any more, and keeps its place until those that left are let go. What came
    /// must have been matched.
    pub fn leave(&mut self, place: usize)
        requires settled { self.old.waiting ≡ 0 }
        requires within { place < length self.old.links }
        ensures { (link : FeedSeen) → slice_get self.old.links place ≡ Some link → self.new ≡ record self.old { links = slice_set self.old.links place (left link) } }
    {
        leave(&mut self.states[place]);
    }

    /// All links that left are let go. What came must have been matched.
    pub fn sweep(&mut self)
        requires { self.old.waiting ≡ 0 }
        ensures { self.new ≡ record self.old { links = filter is_served self.old.links } }
    {
        sweep(&mut self.states);
    }

    /// All links leave, and nothing waits to be matched.
    pub fn clear(&mut self)
        ensures { self.new ≡ record { links = []; waiting = 0 } }
    {
        self.states.clear();
        self.items.clear();
        self.news = 0;
    }

    /// The numbers of the links that had no room for a line, in the order in which they came. What came must have been matched.
    pub fn overfull(&self, alloc: Global) -> Result<Vec<u32>, Memory>
        requires { self.now.waiting ≡ 0 }
        ensures { IfOk result (λ numbers. numbers.items ≡ map link_of (filter is_over self.now.links)) }
    {
        overfull(alloc, self.states.as_slice())
    }

    /// The link at that place has logged in, and is told so: it is fed so, and its login was last seen there. What came must have
    /// been matched.
    pub fn log_in(
        &mut self,
        place: usize,
        feed: Feed,
        call: Call,
        mine: Option<Seen>,
        reply: Arc<Line>,
    )
        requires settled { self.old.waiting ≡ 0 }
        requires within { place < length self.old.links }
        ensures { (link : FeedSeen) → slice_get self.old.links place ≡ Some link
            → self.new ≡ record self.old { links = slice_set self.old.links place (told (arc_value reply) (with_login feed call mine link)) } }
    {
        log_in(&mut self.states[place], feed, call, mine, reply);
    }

    /// The link at that place has another filter, and is told so. The calls of its terms were last seen there. What came must
    /// have been matched.
    pub fn set_filter(
        &mut self,
        place: usize,
        filter: Arc<FilterSet>,
        friends: Friends,
        reply: Arc<Line>,
    )
        requires settled { self.old.waiting ≡ 0 }
        requires within { place < length self.old.links }
        ensures { (link : FeedSeen) → slice_get self.old.links place ≡ Some link
            → self.new ≡ record self.old { links = slice_set self.old.links place (told (arc_value reply) (with_terms (arc_value filter) friends link)) } }
    {
        set_filter(&mut self.states[place], filter, friends, reply);
    }

    /// A line for the link at that place alone. What came must have been matched.
    pub fn tell(&mut self, place: usize, line: Arc<Line>)
        requires settled { self.old.waiting ≡ 0 }
        requires within { place < length self.old.links }
        ensures { (link : FeedSeen) → slice_get self.old.links place ≡ Some link → self.new ≡ record self.old { links = slice_set self.old.links place (told (arc_value line) link) } }
    {
        self.states[place].tell(line);
    }

    /// Writes the next bytes of the link at that place, as many as there are and as fit, and says how many. The buffer stays as it
    /// was behind them. What came must have been matched.
    pub fn front_bytes(&self, place: usize, out: &mut [u8]) -> usize
        requires settled { self.now.waiting ≡ 0 }
        requires within { place < length self.now.links }
        ensures count { (link : FeedSeen) → slice_get self.now.links place ≡ Some link → result ≡ min (length out.old) (length (pending_bytes link.queue)) }
        ensures bytes { (link : FeedSeen) → slice_get self.now.links place ≡ Some link → take result out.new ≡ take (length out.old) (pending_bytes link.queue) }
        ensures rest { drop result out.new ≡ drop result out.old }
    {
        self.states[place].queue.front_bytes(out)
    }

    /// All bytes that the link at that place has still to take, where they stand in a text that links share. What came must have
    /// been matched.
    pub fn shared_front(&self, place: usize) -> Option<&[u8]>
        requires settled { self.now.waiting ≡ 0 }
        requires within { place < length self.now.links }
        ensures { (link : FeedSeen) → slice_get self.now.links place ≡ Some link → IfSome result (λ bytes. bytes.now ≡ pending_bytes link.queue) }
    {
        self.states[place].queue.shared_front()
    }

    /// How many bytes the link at that place has still to take. What came must have been matched.
    pub fn pending(&self, place: usize) -> usize
        requires settled { self.now.waiting ≡ 0 }
        requires within { place < length self.now.links }
        ensures { (link : FeedSeen) → slice_get self.now.links place ≡ Some link → result ≡ length (pending_bytes link.queue) }
    {
        self.states[place].queue.pending()
    }

    /// Whether the link at that place has taken each line wholly that it has begun to take. What came must have been matched.
    pub fn at_line_start(&self, place: usize) -> bool
        requires settled { self.now.waiting ≡ 0 }
        requires within { place < length self.now.links }
        ensures { (link : FeedSeen) → slice_get self.now.links place ≡ Some link → result ≡ (link.queue.offset == 0) }
    {
        self.states[place].queue.at_line_start()
    }

    /// The link at that place took the first `n` bytes. What came must have been matched.
    pub fn taken(&mut self, place: usize, n: usize)
        requires settled { self.old.waiting ≡ 0 }
        requires within { place < length self.old.links }
        requires there { (link : FeedSeen) → slice_get self.old.links place ≡ Some link → n ≤ length (pending_bytes link.queue) }
        ensures { (link : FeedSeen) → slice_get self.old.links place ≡ Some link → self.new ≡ record self.old { links = slice_set self.old.links place (with_taken n link) } }
    {
        self.states[place].queue.taken(n);
    }
}
