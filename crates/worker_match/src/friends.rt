//! Where the calls that a filter names were last seen.
ghost use Rattle.std.specs.Prelude.{◌≡◌, ◌||◌, IsTrue, length, map};
ghost use Rattle.filter_eval.specs.Passes.{fresh, is_some_and, is_text};
ghost use Rattle.worker_match.specs.Walk.{friend_seen, friends_seen, mine_seen, names, terms_of};

use crate::filters::LinkFilter;
use aprs_base::Call;
use arrayvec::ArrayVec;
use filter_eval::{Friends, Seen};
use filter_lang::{Term, What};

/// Whether the term asks for the position of the call.
fn names(call: &Call, what: &What) -> bool
    ensures { result ≡ names call.now what.now }
{
    match what {
        What::Friend { call: named, .. } => named == call,
        What::ClassNear { call: named, .. } => named == call,
        _ => false,
    }
}

/// A station was seen: so was a term's call, where it is that.
fn see_one(call: &Call, seen: &Seen, term: &Term, friend: &mut Option<Seen>)
    ensures { friend.new ≡ friend_seen call.now seen.now term.now friend.old }
{
    if names(call, &term.what) {
        *friend = Some(*seen);
    }
}

/// Each term of a filter sees the station. Few filters name a call, so that this isn't in the way of the others.
#[inline(never)]
fn see_each(call: &Call, seen: &Seen, terms: &[Term], friends: &mut [Option<Seen>])
    ensures seen { friends.new ≡ friends_seen call.now seen.now terms.now friends.old }
    ensures many { length friends.new ≡ length friends.old }
{
    for place in 0..terms.len().min(friends.len()) {
        see_one(call, seen, &terms[place], &mut friends[place]);
    }
}

/// A station was seen there: so was a friend, where a term of the filter names it.
pub(crate) fn see_friends(call: &Call, seen: &Seen, filter: &LinkFilter, friends: &mut Friends)
    ensures { friends.new ≡ friends_seen call.now seen.now (terms_of filter.now) friends.old }
{
    match filter.naming() {
        Some(terms) => see_each(call, seen, terms, friends.at.as_mut_slice()),
        None => {}
    }
}

/// Where a link's own login was last seen, once a station was seen.
pub(crate) fn see_mine(call: &Call, seen: &Seen, me: &Option<Call>, mine: &mut Option<Seen>)
    ensures { mine.new ≡ mine_seen call.now seen.now me.now mine.old }
{
    match me {
        Some(own) if own == call => *mine = Some(*seen),
        _ => {}
    }
}

/// A copy, which takes no memory.
pub(crate) fn copy_friends(friends: &Friends) -> Friends
    ensures { result ≡ friends.now }
{
    let at = friends.at.clone().unwrap();
    Friends { at }
}

/// What still counts at `now`.
pub(crate) fn still_seen(now: u64, seen: Option<Seen>) -> Option<Seen>
    ensures { result ≡ fresh now seen }
{
    let place = seen?;
    if place.is_fresh(now) {
        Some(place)
    } else {
        None
    }
}

/// Leaves of many places what still counts at `now`.
fn forget_places(now: u64, places: &mut [Option<Seen>])
    ensures fresh { places.new ≡ map (fresh now) places.old }
    ensures many { length places.new ≡ length places.old }
{
    for place in places.iter_mut() {
        let seen = still_seen(now, *place);
        *place = seen;
    }
}

/// Friends that were seen too long ago are let go.
pub(crate) fn forget_friends(now: u64, friends: &mut Friends)
    ensures fresh { friends.new ≡ map (fresh now) friends.old }
    ensures many { length friends.new ≡ length friends.old }
{
    forget_places(now, friends.at.as_mut_slice());
}
