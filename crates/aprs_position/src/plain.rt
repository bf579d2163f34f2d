//! The plain form of a position, `DDMM.hhN/DDDMM.hhW$`.
ghost use Rattle.std.specs.Prelude.{◌≡◌, ℕ, ◌+◌, ◌*◌, ◌<◌, ◌≤◌, IfSome, length};
ghost use Rattle.std.specs.Char.{is_ascii_digit};
ghost use Rattle.std.specs.List.{list_all, prefix_len};
ghost use Rattle.aprs_base.specs.Bytes.{is_blank};
ghost use Rattle.aprs_base.specs.declared.packets.Place.{Place};
ghost use Rattle.aprs_position.specs.Grammar.{BeginsPlain};
ghost use Rattle.aprs_position.specs.Marks.{IsPart};
ghost use Rattle.aprs_position.specs.Plain.{angle_of, degrees_of, digit_value, ends_in_blanks, hundredths_of, is_exact, mark_after, plain_place, side_of, written_of};
ghost use Rattle.aprs_position.specs.Written.{IsAngle};

use crate::marks::{Mark, find_mark};
use crate::places::{is_code, is_table};
use crate::written::{Angle, Written, finest};
use aprs_base::{Place, all_digits};

/// What a digit counts, and 0 for a blank.
fn digit_value(byte: u8) -> u32
    ensures value { result ≡ digit_value byte }
    ensures below { result ≤ 9 }
{
    match byte {
        b'0'..=b'9' => u32::from(byte - b'0'),
        _ => 0,
    }
}

fn pair(tens: u8, ones: u8) -> u32
    ensures value { result ≡ digit_value tens * 10 + digit_value ones }
    ensures below { result ≤ 99 }
{
    digit_value(tens) * 10 + digit_value(ones)
}

fn is_digit(byte: u8) -> bool
    ensures { result ≡ is_ascii_digit byte }
{
    byte.is_ascii_digit()
}

fn all_blank(text: &[u8]) -> bool
    ensures { result ≡ list_all is_blank text.now }
{
    text.iter().all(|byte| *byte == b' ')
}

/// How many digits `text` begins with.
fn count_digits(text: &[u8]) -> usize
    ensures value { result ≡ prefix_len is_ascii_digit text.now }
    ensures within { result ≤ length text.now }
{
    text.iter().take_while(|byte| is_digit(**byte)).count()
}

/// Whether `text` is digits, of which the last ones may be blank.
fn ends_in_blanks(text: &[u8]) -> bool
    ensures { result ≡ ends_in_blanks text.now }
{
    all_blank(&text[count_digits(text)..])
}

/// The hundredths of minutes that `MM.hh` writes.
fn read_hundredths(text: &[u8]) -> Option<u32>
    ensures value { result ≡ hundredths_of text.now }
    ensures below { IfSome result (λ n. n < 6000) }
{
    match text {
        [tens, ones, b'.', tenths, last] if ends_in_blanks(&[*tens, *ones, *tenths, *last]) => {
            let minutes = pair(*tens, *ones);
            (minutes < 60).then_some(minutes * 100 + pair(*tenths, *last))
        }
        _ => None,
    }
}

/// The whole degrees that two or three digits write.
fn read_degrees(text: &[u8]) -> Option<u32>
    ensures value { result ≡ degrees_of text.now }
    ensures below { IfSome result (λ n. n < 1000) }
{
    let degrees = match text {
        [tens, ones] => pair(*tens, *ones),
        [hundreds, tens, ones] => digit_value(*hundreds) * 100 + pair(*tens, *ones),
        _ => return None,
    };
    all_digits(text).then_some(degrees)
}

fn read_angle(degrees: &[u8], minutes: &[u8], positive: bool) -> Option<Angle>
    ensures value { result ≡ angle_of positive degrees.now minutes.now }
    ensures below { IfSome result IsAngle }
{
    Some(Angle {
        positive,
        degrees: read_degrees(degrees)?,
        hundredths: read_hundredths(minutes)?,
    })
}

/// Whether a letter names the positive side or the other one.
fn read_side(letter: u8, plus: u8, minus: u8) -> Option<bool>
    ensures { result ≡ side_of plus minus letter }
{
    if letter == plus {
        Some(true)
    } else if letter == minus {
        Some(false)
    } else {
        None
    }
}

/// What nineteen bytes write.
#[tactic(auto, unfolding(crate::specs::Plain::written_of))]
fn read_written(text: &[u8]) -> Option<Written>
    requires { 19 ≤ length text.now }
    ensures value { result ≡ written_of text.now }
    ensures angles { IfSome result (λ w. IsAngle w.lat × IsAngle w.lon) }
{
    let north = read_side(text[7], b'N', b'S')?;
    let lat = read_angle(&text[..2], &text[2..7], north)?;
    let east = read_side(text[17], b'E', b'W')?;
    let lon = read_angle(&text[9..12], &text[12..17], east)?;
    if !is_table(text[8]) || !is_code(text[18]) {
        return None;
    }
    Some(Written {
        lat,
        lon,
        table: text[8],
        code: text[18],
        used: 19,
    })
}

/// Whether no digit from the minutes on is left blank.
fn is_exact(text: &[u8]) -> bool
    requires { 19 ≤ length text.now }
    ensures { result ≡ is_exact text.now }
{
    all_digits(&text[2..4])
        && all_digits(&text[5..7])
        && all_digits(&text[12..14])
        && all_digits(&text[15..17])
}

/// The mark that makes the numbers finer.
#[tactic(auto, unfolding(crate::specs::Plain::mark_after))]
fn mark_after(text: &[u8]) -> Option<Mark>
    requires { 19 ≤ length text.now }
    ensures value { result ≡ mark_after text.now }
    ensures below { IfSome result IsPart }
{
    let mark = find_mark(&text[19..])?;
    is_exact(text).then_some(mark)
}

#[tactic(auto, unfolding(crate::specs::Plain::plain_place))]
fn parse(text: &[u8]) -> Option<Place>
    ensures { result ≡ plain_place text.now }
{
    if text.len() < 19 {
        return None;
    }
    finest(&read_written(text)?, mark_after(text))
}

/// The place that `text` begins with, in the plain form. `None` exactly where it begins with none.
pub fn read_plain(text: &[u8]) -> Option<Place>
    ensures exact { result ≡ plain_place text.now }
    ensures read { IfSome result (BeginsPlain text.now) }
    ensures only { (place : Place) → BeginsPlain text.now place → result ≡ Some place }
{
    parse(text)
}
