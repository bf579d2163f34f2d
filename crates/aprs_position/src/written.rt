//! Positions as their own bytes write them, and the places that they are with the marks after them.
ghost use Rattle.std.specs.Prelude.{◌≡◌, ℕ, ◌<◌, ◌≤◌, IfSome};
ghost use Rattle.aprs_position.specs.Marks.{IsPart};
ghost use Rattle.aprs_position.specs.Written.{IsAngle, finest, millionths, place_with, value_of};
ghost use Rattle.aprs_position.specs.declared.marks.Mark.{Mark};
ghost use Rattle.aprs_position.specs.declared.written.Written.{Written};

use crate::marks::Mark;
use crate::places::place_at;
use aprs_base::Place;

/// One number of a position.
#[derive(Clone, Copy)]
pub struct Angle {
    /// Whether it is north or east.
    pub positive: bool,
    pub degrees: u32,
    /// Hundredths of minutes.
    pub hundredths: u32,
}

/// A position as its own bytes write it.
#[derive(Clone, Copy)]
pub struct Written {
    pub lat: Angle,
    pub lon: Angle,
    pub table: u8,
    pub code: u8,
    /// How many bytes it has.
    pub used: u16,
}

/// An angle in millionths of a degree.
fn millionths(degrees: u32, hundredths: u32, parts: u32) -> u32
    requires degrees { degrees < 1000 }
    requires minutes { hundredths < 6000 }
    requires parts { parts < 910 }
    ensures value { result ≡ millionths degrees hundredths parts }
    ensures below { result ≤ 1000000000 }
{
    degrees * 1_000_000 + (u64::from(hundredths * 910 + parts) * 1_000_000 / 5_460_000) as u32
}

/// An angle in millionths of a degree, negative in the south and in the west.
fn value_of(angle: &Angle, parts: u32) -> i32
    requires angle { IsAngle angle.now }
    requires parts { parts < 910 }
    ensures { result ≡ value_of angle.now parts }
{
    let size = millionths(angle.degrees, angle.hundredths, parts) as i32;
    if angle.positive { size } else { -size }
}

/// The place with what a mark adds. `None` exactly where that is off the globe.
#[tactic(auto, unfolding(crate::specs::Written::place_with))]
fn place_with(written: &Written, mark: Mark) -> Option<Place>
    requires lat { IsAngle written.now.lat }
    requires lon { IsAngle written.now.lon }
    requires mark { IsPart mark }
    ensures { result ≡ place_with written.now mark }
{
    let lat = value_of(&written.lat, mark.lat);
    let lon = value_of(&written.lon, mark.lon);
    place_at(lat, lon, written.table, written.code, written.used)
}

/// The place with what the mark adds, or without it where it would lead off the globe.
#[tactic(auto, unfolding(crate::specs::Written::finest))]
pub fn finest(written: &Written, mark: Option<Mark>) -> Option<Place>
    requires lat { IsAngle written.now.lat }
    requires lon { IsAngle written.now.lon }
    requires mark { IfSome mark IsPart }
    ensures { result ≡ finest written.now mark }
{
    let finer = match mark {
        Some(mark) => place_with(written, mark),
        None => None,
    };
    match finer {
        Some(place) => Some(place),
        None => place_with(written, Mark { lat: 0, lon: 0 }),
    }
}
