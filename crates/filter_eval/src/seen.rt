//! Where stations were last seen, and for how long that counts.
ghost use Rattle.std.specs.Prelude.{◌≡◌};
ghost use Rattle.filter_eval.specs.Passes.{fresh_place, is_fresh, is_young};

use aprs_base::Place;
use arrayvec::ArrayVec;
use std::marker::Model;

/// For how long a position counts: two days, in seconds.
pub const POSITION_AGE: u64 = 172_800;

/// Where a station was last seen, and when, in seconds.
#[derive(Clone, Copy)]
pub struct Seen {
    pub place: Place,
    pub moment: u64,
}

/// Whether the moment is less than two days before `now`; both in seconds. A later moment counts too.
pub fn is_young(moment: u64, now: u64) -> bool
    ensures { result ≡ is_young now moment }
{
    now.saturating_sub(moment) < POSITION_AGE
}

impl Seen {
    /// Whether it still counts at `now`, in seconds: it is less than two days old. What has a later moment counts too.
    pub fn is_fresh(&self, now: u64) -> bool
        ensures { result ≡ is_fresh now self.now }
    {
        is_young(self.moment, now)
    }
}

/// For each term of a filter, where the call that it names was last seen: None for a term that names none, and for a call
/// that wasn't seen.
#[derive(Drop)]
pub struct Friends {
    pub at: ArrayVec<Option<Seen>, 64>,
}

impl Model for Friends {
    ghost use Rattle.std.specs.Prelude.{List, Option};
    ghost use Rattle.filter_eval.specs.declared.seen.Seen.{Seen};

    ghost Value = { List (Option Seen) };

    ghost view = { λ f. f.at.items };
}

/// The place, if it still counts at `now`.
pub fn fresh_place(now: u64, seen: Option<Seen>) -> Option<Place>
    ensures { result ≡ fresh_place now seen }
{
    let seen = seen?;
    if seen.is_fresh(now) {
        Some(seen.place)
    } else {
        None
    }
}
