//! What is done to links that have met all that came.
ghost use Rattle.std.specs.Prelude.{◌≡◌, ◌==◌, IfOk, filter, length, map};
ghost use Rattle.std.specs.List.{list_any};
ghost use Rattle.std.specs.Arc.{arc_value};
ghost use Rattle.worker_match.specs.Feeds.{counted, forgotten, is_other, is_fed, is_over, is_served, left, link_of, new_feed, put_in, told, with_login, with_terms};

use crate::filters::LinkFilter;
use crate::friends::{forget_friends, still_seen};
use crate::links::{Feed, LinkFeed};
use aprs_base::{Call, Line, Memory};
use arrayvec::ArrayVec;
use filter_eval::{Friends, Seen};
use filter_lang::FilterSet;
use link_queue::Queue;
use std::alloc::Global;
use std::sync::Arc;

/// The most lines that a link hasn't wholly taken.
const MOST_LINES: usize = 1000;

/// A link that has just come.
pub(crate) fn opened(
    alloc: Global,
    link: u32,
    feed: Feed,
    inbound: bool,
    first: Arc<Line>,
) -> Result<LinkFeed, Memory>
    ensures { IfOk result (λ state. state ≡ new_feed link feed inbound (arc_value first)) }
{
    let mut queue = Queue::with_limit(alloc, MOST_LINES)?;
    queue.push(first).unwrap();
    let at = ArrayVec::new();
    let friends = Box::new(alloc, Friends { at })?;
    Ok(LinkFeed {
        link,
        feed,
        inbound,
        alive: true,
        over: false,
        put: 0,
        queue,
        me: None,
        filter: LinkFilter::new(None),
        friends,
        mine: None,
    })
}

/// How many packet lines were put into their queues since that was last counted, at most the greatest u64.
pub(crate) fn put_by(states: &[LinkFeed]) -> u64
    ensures { result ≡ put_in states.now }
{
    let mut sum = 0u64;
    for state in states {
        sum = sum.saturating_add(state.put);
    }
    sum
}

/// What was put into its queue is counted.
fn count(state: &mut LinkFeed)
    ensures { state.new ≡ counted state.old }
{
    state.put = 0;
}

pub(crate) fn count_each(states: &mut [LinkFeed])
    ensures counted { states.new ≡ map counted states.old }
    ensures many { length states.new ≡ length states.old }
{
    for state in states.iter_mut() {
        count(state);
    }
}

fn forget(state: &mut LinkFeed, now: u64)
    ensures { state.new ≡ forgotten now state.old }
{
    forget_friends(now, &mut state.friends);
    state.mine = still_seen(now, state.mine);
}

pub(crate) fn forget_each(states: &mut [LinkFeed], now: u64)
    ensures forgotten { states.new ≡ map (forgotten now) states.old }
    ensures many { length states.new ≡ length states.old }
{
    for state in states.iter_mut() {
        forget(state, now);
    }
}

fn has_member(numbers: &[u32], number: u32) -> bool
    ensures { result ≡ list_any (λ n. n == number) numbers.now }
{
    numbers.iter().any(|other| *other == number)
}

fn is_other(state: &LinkFeed, numbers: &[u32]) -> bool
    ensures { result ≡ is_other numbers.now state.now }
{
    !has_member(numbers, state.link)
}

pub(crate) fn drop_each(states: &mut Vec<LinkFeed>, numbers: &[u32])
    ensures { states.new.items ≡ filter (is_other numbers.now) states.old.items }
{
    states.retain(|state| is_other(state, numbers));
}

/// It has left.
pub(crate) fn leave(state: &mut LinkFeed)
    ensures { state.new ≡ left state.old }
{
    state.feed = Feed::Nothing;
    state.inbound = false;
}

fn is_fed(feed: Feed) -> bool
    ensures { result ≡ is_fed feed }
{
    !matches!(feed, Feed::Nothing)
}

fn is_served(state: &LinkFeed) -> bool
    ensures { result ≡ is_served state.now }
{
    state.inbound || is_fed(state.feed)
}

/// Those that left are let go.
pub(crate) fn sweep(states: &mut Vec<LinkFeed>)
    ensures { states.new.items ≡ filter is_served states.old.items }
{
    states.retain(|state| is_served(state));
}

pub(crate) fn overfull(alloc: Global, states: &[LinkFeed]) -> Result<Vec<u32>, Memory>
    ensures { IfOk result (λ numbers. numbers.items ≡ map link_of (filter is_over states.now)) }
{
    let mut numbers = Vec::new(alloc);
    for state in states {
        if state.over {
            numbers.push(state.link)?;
        }
    }
    Ok(numbers)
}

pub(crate) fn log_in(
    state: &mut LinkFeed,
    feed: Feed,
    call: Call,
    mine: Option<Seen>,
    reply: Arc<Line>,
)
    ensures { state.new ≡ told (arc_value reply) (with_login feed call mine state.old) }
{
    state.feed = feed;
    state.me = Some(call);
    state.mine = mine;
    state.tell(reply);
}

pub(crate) fn set_filter(
    state: &mut LinkFeed,
    filter: Arc<FilterSet>,
    friends: Friends,
    reply: Arc<Line>,
)
    ensures { state.new ≡ told (arc_value reply) (with_terms (arc_value filter) friends state.old) }
{
    state.filter = LinkFilter::new(Some(filter));
    *state.friends = friends;
    state.tell(reply);
}
