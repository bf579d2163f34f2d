//! Fine marks, the field's `!DAO!`: more digits of both numbers, in the bytes after a position.
ghost use Rattle.std.specs.Prelude.{◌≡◌, ℕ, ◌<◌, ◌≤◌, IfSome, length};
ghost use Rattle.aprs_position.specs.Marks.{IsPart, mark_at, mark_in, mark_with};
ghost use Rattle.aprs_position.specs.declared.marks.Mark.{Mark};

use crate::compressed::{base91_digit, is_base91};
use aprs_base::first_place;

/// What a fine mark adds to the latitude and to the longitude, in parts of which 910 make a hundredth of a minute:
/// so a tenth of one is whole, and a ninety-first too.
#[derive(Clone, Copy)]
pub struct Mark {
    pub lat: u32,
    pub lon: u32,
}

/// What stands between the two `!` of a mark.
fn mark_with(letter: u8, lat: u8, lon: u8) -> Option<Mark>
    ensures value { result ≡ mark_with letter lat lon }
    ensures below { IfSome result IsPart }
{
    match letter {
        b'W' if lat.is_ascii_digit() && lon.is_ascii_digit() => Some(Mark {
            lat: u32::from(lat - b'0') * 91,
            lon: u32::from(lon - b'0') * 91,
        }),
        b'w' if is_base91(lat) && is_base91(lon) => Some(Mark {
            lat: base91_digit(lat) * 10,
            lon: base91_digit(lon) * 10,
        }),
        _ => None,
    }
}

/// The mark that a text begins with.
fn mark_at(text: &[u8]) -> Option<Mark>
    ensures value { result ≡ mark_at text.now }
    ensures below { IfSome result IsPart }
{
    match text {
        [b'!', letter, lat, lon, b'!', ..] => mark_with(*letter, *lat, *lon),
        _ => None,
    }
}

/// A text from its first `!` on.
fn from_first(text: &[u8]) -> &[u8]
    ensures value { mark_in result.now ≡ mark_in text.now }
    ensures within { length result.now ≤ length text.now }
{
    &text[first_place(b'!', text)..]
}

/// The leftmost mark of a text.
pub fn find_mark(text: &[u8]) -> Option<Mark>
    ensures value { result ≡ mark_in text.now }
    ensures below { IfSome result IsPart }
{
    let mut rest = from_first(text);
    while let [_, later @ ..] = rest {
        if let Some(mark) = mark_at(rest) {
            return Some(mark);
        }
        rest = from_first(later);
    }
    None
}
