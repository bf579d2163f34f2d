//! Places: near a point, in an area, with a symbol.
ghost use Rattle.std.specs.Prelude.{◌≡◌, IsTrue};
ghost use Rattle.filter_lang.specs.Terms.{is_distance, is_latitude, is_longitude};
ghost use Rattle.filter_eval.specs.Passes.{is_between, is_by, is_from_to, is_inside, is_near, is_shown, is_some_and};

use aprs_base::Place;
use filter_lang::Marks;
use fixed_distance::within;

/// Whether the place is known, and within `km` kilometres of a point in millionths of a degree.
pub fn is_by(lat: i32, lon: i32, km: u32, place: &Option<Place>) -> bool
    requires lat { IsTrue (is_latitude lat) }
    requires lon { IsTrue (is_longitude lon) }
    requires km { IsTrue (is_distance km) }
    ensures { result ≡ is_by lat lon km place.now }
{
    let point = Place {
        lat,
        lon,
        table: b'/',
        code: b'/',
        used: 0,
    };
    match place {
        Some(place) => within(&point, place, km),
        None => false,
    }
}

/// Whether both places are known, and within `km` kilometres of each other.
pub fn is_near(centre: &Option<Place>, km: u32, place: &Option<Place>) -> bool
    requires { IsTrue (is_distance km) }
    ensures { result ≡ is_near centre.now km place.now }
{
    match (centre, place) {
        (Some(centre), Some(place)) => within(centre, place, km),
        _ => false,
    }
}

/// Whether the number is from `low` to `high`.
#[tactic(auto, unfolding(crate::specs::Passes::is_from_to))]
fn is_from_to(low: i32, high: i32, number: i32) -> bool
    ensures { result ≡ is_from_to low high number }
{
    low <= number && number <= high
}

/// Whether a longitude lies east of `west` and west of `east`, by the way over the 180th degree where `west` is greater.
#[tactic(auto, unfolding(crate::specs::Passes::is_between))]
fn is_between(west: i32, east: i32, lon: i32) -> bool
    ensures { result ≡ is_between west east lon }
{
    if west <= east {
        is_from_to(west, east, lon)
    } else {
        west <= lon || lon <= east
    }
}

/// Whether the place is known, and in the area.
pub fn is_inside(north: i32, west: i32, south: i32, east: i32, place: Option<Place>) -> bool
    ensures { result ≡ is_some_and (is_inside north west south east) place }
{
    let Some(place) = place else {
        return false;
    };
    is_from_to(south, north, place.lat) && is_between(west, east, place.lon)
}

/// Whether the place is known, and shown by a symbol of these codes and tables.
pub fn is_shown(pri: &Marks, alt: &Marks, over: &Marks, place: Option<Place>) -> bool
    ensures { result ≡ is_some_and (is_shown pri.now alt.now over.now) place }
{
    match place {
        Some(place) if place.table == b'/' => pri.contains(place.code),
        Some(place) => alt.contains(place.code) && (over.is_empty() || over.contains(place.table)),
        None => false,
    }
}
