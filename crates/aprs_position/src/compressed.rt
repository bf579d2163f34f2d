//! The compressed form of a position, `/YYYYXXXX$csT`.
ghost use Rattle.std.specs.Prelude.{◌≡◌, ℕ, ◌-◌, ◌*◌, ◌≤◌, IfSome, ◌-ℤ◌, pos, ◌/◌};
ghost use Rattle.std.specs.List.{list_all};
ghost use Rattle.aprs_base.specs.declared.packets.Place.{Place};
ghost use Rattle.aprs_position.specs.Compressed.{compressed_place, is_base91, scaled_of, table_of};
ghost use Rattle.aprs_position.specs.Grammar.{BeginsCompressed};

use crate::places::{is_code, is_table, place_at};
use aprs_base::Place;

/// Half the globe from pole to pole, and the whole of it round the equator, in the units of the form.
const WHOLE: u32 = 68_566_680;

pub fn is_base91(byte: u8) -> bool
    ensures { result ≡ is_base91 byte }
{
    matches!(byte, 33..=123)
}

fn all_base91(text: &[u8]) -> bool
    ensures { result ≡ list_all is_base91 text.now }
{
    text.iter().all(|byte| is_base91(*byte))
}

/// The digit to base 91 that a byte stands for.
pub fn base91_digit(byte: u8) -> u32
    ensures value { result ≡ byte - 33 }
    ensures below { result ≤ 222 }
{
    u32::from(byte.saturating_sub(33))
}

/// A number of four digits to base 91.
fn read_scaled(text: &[u8]) -> Option<u32>
    ensures value { result ≡ scaled_of text.now }
    ensures below { IfSome result (λ n. n ≤ 68566680) }
{
    let [a, b, c, d] = text else {
        return None;
    };
    if !all_base91(text) {
        return None;
    }
    let number = ((base91_digit(*a) * 91 + base91_digit(*b)) * 91 + base91_digit(*c)) * 91
        + base91_digit(*d);
    (number <= WHOLE).then_some(number)
}

/// The table that a byte names, where `a` to `j` stand for `0` to `9`.
fn read_table(byte: u8) -> Option<u8>
    ensures { result ≡ table_of byte }
{
    match byte {
        b'a'..=b'j' => Some(byte - b'a' + b'0'),
        b'0'..=b'9' => None,
        _ => is_table(byte).then_some(byte),
    }
}

/// The latitude of so many units south of the pole.
fn latitude(units: u32) -> i32
    requires { units ≤ 68566680 }
    ensures { result ≡ pos 90000000 -ℤ pos (units * 1000000 / 380926) }
{
    90_000_000 - (u64::from(units) * 1_000_000 / 380_926) as i32
}

/// The longitude of so many units east of the date line.
fn longitude(units: u32) -> i32
    requires { units ≤ 68566680 }
    ensures { result ≡ pos (units * 1000000 / 190463) -ℤ pos 180000000 }
{
    (u64::from(units) * 1_000_000 / 190_463) as i32 - 180_000_000
}

#[tactic(auto, unfolding(crate::specs::Compressed::compressed_place))]
fn parse(text: &[u8]) -> Option<Place>
    ensures { result ≡ compressed_place text.now }
{
    if text.len() < 13 {
        return None;
    }
    let table = read_table(text[0])?;
    let south = read_scaled(&text[1..5])?;
    let east = read_scaled(&text[5..9])?;
    if !is_code(text[9]) {
        return None;
    }
    place_at(latitude(south), longitude(east), table, text[9], 13)
}

/// The place that `text` begins with, in the compressed form. `None` exactly where it begins with none.
pub fn read_compressed(text: &[u8]) -> Option<Place>
    ensures exact { result ≡ compressed_place text.now }
    ensures read { IfSome result (BeginsCompressed text.now) }
    ensures only { (place : Place) → BeginsCompressed text.now place → result ≡ Some place }
{
    parse(text)
}
