//! Positions whose latitude stands in the destination's call.
#![tactic(auto)]

ghost use Rattle.std.specs.Prelude.{◌≡◌, ℕ, ◌-◌, ◌≤◌, IfSome, OnSome, length};
ghost use Rattle.std.specs.List.{list_all, list_any};
ghost use Rattle.aprs_base.specs.declared.packets.Place.{Place};
ghost use Rattle.mic_e.specs.Grammar.{IsMicE};
ghost use Rattle.aprs_position.specs.Marks.{IsPart};
ghost use Rattle.aprs_position.specs.Written.{IsAngle};
ghost use Rattle.mic_e.specs.MicE.{between, degrees_of, digit_of, from_equator, from_greenwich, is_blank_letter, is_mark, is_set, late_digit_of, mark_after, mic_e_place, minutes_of, pair, written_of};

use aprs_base::{Call, Place};
use aprs_position::{Angle, Mark, Written, find_mark, finest, is_code, is_table};

/// The digit that a byte of the destination stands for, and 0 for a blank.
#[tactic(auto, unfolding(crate::specs::MicE::digit_of))]
fn digit(byte: u8) -> Option<u32>
    ensures value { result ≡ digit_of byte }
    ensures below { IfSome result (λ n. n ≤ 9) }
{
    match byte {
        b'0'..=b'9' => Some(u32::from(byte - b'0')),
        b'A'..=b'J' => Some(u32::from(byte - b'A')),
        b'P'..=b'Y' => Some(u32::from(byte - b'P')),
        b'K' | b'L' | b'Z' => Some(0),
        _ => None,
    }
}

/// The digit that a byte stands for at the last three places, where `A` to `K` can't stand.
#[tactic(auto, unfolding(crate::specs::MicE::late_digit_of, crate::specs::MicE::digit_of))]
fn late_digit(byte: u8) -> Option<u32>
    ensures value { result ≡ late_digit_of byte }
    ensures below { IfSome result (λ n. n ≤ 9) }
{
    match byte {
        b'A'..=b'K' => None,
        _ => digit(byte),
    }
}

/// Whether a byte sets the bit of its place.
fn is_set(byte: u8) -> bool
    ensures { result ≡ is_set byte }
{
    matches!(byte, b'P'..=b'Z')
}

/// A number of two digits.
#[tactic(auto, unfolding(crate::specs::MicE::pair))]
fn pair(tens: Option<u32>, ones: Option<u32>) -> Option<u32>
    requires tens { IfSome tens (λ n. n ≤ 9) }
    requires ones { IfSome ones (λ n. n ≤ 9) }
    ensures value { result ≡ pair tens ones }
    ensures below { IfSome result (λ n. n ≤ 99) }
{
    Some(tens? * 10 + ones?)
}

/// How far from the equator the six bytes of a destination say.
#[tactic(auto, unfolding(crate::specs::MicE::from_equator, crate::specs::MicE::pair))]
fn read_latitude(base: &[u8]) -> Option<Angle>
    ensures value { result ≡ from_equator base.now }
    ensures below { IfSome result IsAngle }
    ensures six { OnSome result (length base.now ≡ 6) }
{
    let [a, b, c, d, e, f] = base else {
        return None;
    };
    let degrees = pair(digit(*a), digit(*b))?;
    let minutes = pair(digit(*c), late_digit(*d))?;
    let hundredths = pair(late_digit(*e), late_digit(*f))?;
    if minutes >= 60 {
        return None;
    }
    Some(Angle {
        positive: is_set(*d),
        degrees,
        hundredths: minutes * 100 + hundredths,
    })
}

/// The degrees of a longitude: 180 to 189 stand for 100 to 109, and 190 to 199 for 0 to 9.
fn wrap_degrees(degrees: u32) -> u32
    requires { degrees ≤ 199 }
    ensures value { result ≡ degrees_of degrees }
    ensures below { result ≤ 179 }
{
    match degrees {
        180..=189 => degrees - 80,
        190..=199 => degrees - 190,
        _ => degrees,
    }
}

/// The minutes of a longitude: 60 and more stand for 0 and more.
fn wrap_minutes(minutes: u32) -> u32
    requires { minutes ≤ 99 }
    ensures value { result ≡ minutes_of minutes }
    ensures below { result ≤ 59 }
{
    if minutes < 60 { minutes } else { minutes - 60 }
}

fn all_in_range(text: &[u8]) -> bool
    ensures { result ≡ list_all (between 28 127) text.now }
{
    text.iter().all(|byte| matches!(*byte, 28..=127))
}

/// What a byte of the longitude says: it stands 28 above it.
fn lowered(byte: u8) -> u32
    ensures value { result ≡ byte - 28 }
{
    u32::from(byte.saturating_sub(28))
}

/// How far from Greenwich three bytes of the body say, where `more` degrees are added.
#[tactic(auto, unfolding(crate::specs::MicE::from_greenwich))]
fn read_longitude(text: &[u8], more: u32, positive: bool) -> Option<Angle>
    requires { more ≤ 100 }
    ensures value { result ≡ from_greenwich positive more text.now }
    ensures below { IfSome result IsAngle }
{
    let [x, y, z] = text else {
        return None;
    };
    if !all_in_range(text) {
        return None;
    }
    Some(Angle {
        positive,
        degrees: wrap_degrees(lowered(*x) + more),
        hundredths: wrap_minutes(lowered(*y)) * 100 + lowered(*z),
    })
}

fn is_mark(byte: u8) -> bool
    ensures { result ≡ is_mark byte }
{
    byte == b'`' || byte == b'\''
}

/// What a destination's base and a body write.
#[tactic(auto, unfolding(crate::specs::MicE::written_of))]
fn read_written(base: &[u8], body: &[u8]) -> Option<Written>
    requires { 9 ≤ length body.now }
    ensures value { result ≡ written_of base.now body.now }
    ensures angles { IfSome result (λ w. IsAngle w.lat × IsAngle w.lon) }
    ensures six { OnSome result (length base.now ≡ 6) }
{
    let lat = read_latitude(base)?;
    let more = if is_set(base[4]) { 100 } else { 0 };
    let lon = read_longitude(&body[1..4], more, !is_set(base[5]))?;
    if !is_code(body[7]) || !is_table(body[8]) {
        return None;
    }
    Some(Written {
        lat,
        lon,
        table: body[8],
        code: body[7],
        used: 9,
    })
}

fn is_blank_letter(byte: u8) -> bool
    ensures { result ≡ is_blank_letter byte }
{
    matches!(byte, b'K' | b'L' | b'Z')
}

/// Whether one of the bytes stands for a blank.
fn any_blank(text: &[u8]) -> bool
    ensures { result ≡ list_any is_blank_letter text.now }
{
    text.iter().any(|byte| is_blank_letter(*byte))
}

/// The mark that makes the numbers finer, where no digit of minutes or hundredths is blank.
#[tactic(auto, unfolding(crate::specs::MicE::mark_after))]
fn mark_after(base: &[u8], body: &[u8]) -> Option<Mark>
    requires base { length base.now ≡ 6 }
    requires body { 9 ≤ length body.now }
    ensures value { result ≡ mark_after base.now body.now }
    ensures below { IfSome result IsPart }
{
    let mark = find_mark(&body[9..])?;
    (!any_blank(&base[2..6])).then_some(mark)
}

#[tactic(auto, unfolding(crate::specs::MicE::place_of))]
fn parse(dest: &Call, body: &[u8]) -> Option<Place>
    ensures { result ≡ mic_e_place dest.now body.now }
{
    if body.len() < 9 || !is_mark(body[0]) {
        return None;
    }
    let base = dest.base();
    let written = read_written(base, body)?;
    finest(&written, mark_after(base, body))
}

/// The place of a destination and a body. `None` exactly where they aren't in the form.
pub fn read(dest: &Call, body: &[u8]) -> Option<Place>
    ensures exact { result ≡ mic_e_place dest.now body.now }
    ensures read { IfSome result (IsMicE dest.now body.now) }
    ensures only { (place : Place) → IsMicE dest.now body.now place → result ≡ Some place }
{
    parse(dest, body)
}
