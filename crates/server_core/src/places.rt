//! Where the calls that a filter names were last seen.
ghost use Rattle.std.specs.Prelude.{◌≡◌, ◌≤◌, length, map};
ghost use Rattle.server_core.specs.LinkSteps.{found_in};

use arrayvec::ArrayVec;
use filter_eval::{Friends, Seen};
use filter_lang::{FilterSet, Term, What};
use station_table::Stations;

/// Where the call that a term names was last seen.
fn friend_found(stations: &Stations, now: u64, term: &Term) -> Option<Seen>
    ensures { result ≡ found_in now stations.now term.now }
{
    match &term.what {
        What::Friend { call, .. } => stations.place_of(call, now),
        What::ClassNear { call, .. } => stations.place_of(call, now),
        _ => None,
    }
}

/// Where the calls that a filter names were last seen.
pub(crate) fn friends_found(stations: &Stations, now: u64, filter: &FilterSet) -> Friends
    requires { length filter.now ≤ 64 }
    ensures { result ≡ map (found_in now stations.now) filter.now }
{
    let mut at = ArrayVec::new();
    for term in &filter.terms {
        at.push(friend_found(stations, now, term));
    }
    Friends { at }
}
