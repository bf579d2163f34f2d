//! Positions, bodies, distances and dates.
ghost use Rattle.std.specs.Prelude.{◌≤◌};

use crate::fields::{read_call, said, yes_or_no};
use aprs_base::{Body, Place};
use aprs_body::classify;
use aprs_position::{read_compressed, read_either, read_plain};
use comment_date::date_at;
use fixed_distance::{half_sine, within};
use row_texts::{RowError, read_bytes, split_word, write_bytes};
use std::alloc::{AllocError, Global};

/// A place's latitude, longitude, table and code, and how many bytes were read.
fn place_text(alloc: Global, place: &Place) -> Result<String, AllocError> {
    let table = char::from(place.table);
    let code = char::from(place.code);
    format!(in alloc; "{} {} {table} {code} {}", place.lat, place.lon, place.used)
}

fn place_or_none(alloc: Global, place: Option<Place>) -> Result<String, RowError> {
    match place {
        Some(place) => Ok(place_text(alloc, &place)?),
        None => said(alloc, "none"),
    }
}

/// A position that is written plainly.
pub fn plain(alloc: Global, field: &str) -> Result<String, RowError> {
    let text = read_bytes(alloc, field)?;
    place_or_none(alloc, read_plain(text.as_slice()))
}

/// A compressed position.
pub fn compressed(alloc: Global, field: &str) -> Result<String, RowError> {
    let text = read_bytes(alloc, field)?;
    place_or_none(alloc, read_compressed(text.as_slice()))
}

/// A position in either form.
pub fn either(alloc: Global, field: &str) -> Result<String, RowError> {
    let text = read_bytes(alloc, field)?;
    place_or_none(alloc, read_either(text.as_slice()))
}

/// A position of a destination and a body.
pub fn mic_e(alloc: Global, row: &str) -> Result<String, RowError> {
    let (dest, body) = split_word(row);
    let dest = read_call(alloc, dest)?;
    let body = read_bytes(alloc, body)?;
    place_or_none(alloc, mic_e::read(&dest, body.as_slice()))
}

/// What a body is and names.
pub fn body_text(alloc: Global, body: &Body) -> Result<String, AllocError> {
    let mut text = format!(in alloc; "class {}", body.class)?;
    if let Some(place) = &body.place {
        write!(text, " place {}", place_text(alloc, place)?)?;
    }
    if let Some(name) = &body.name {
        write!(text, " name {}", write_bytes(alloc, name.bytes())?)?;
    }
    if body.live {
        text.push_str(" live")?;
    }
    if let Some(to) = &body.to {
        write!(text, " to {}", write_bytes(alloc, to.bytes())?)?;
    }
    Ok(text)
}

/// A body of a packet to a destination.
pub fn body(alloc: Global, row: &str) -> Result<String, RowError> {
    let (dest, body) = split_word(row);
    let dest = read_call(alloc, dest)?;
    let body = read_bytes(alloc, body)?;
    Ok(body_text(alloc, &classify(&dest, body.as_slice()))?)
}

/// Two million million times the sine of half of so many millionths of a degree.
pub fn sine(alloc: Global, field: &str) -> Result<String, RowError> {
    let angle = field.parse::<u32>()?;
    if angle > 180_000_000 {
        return Err(RowError::Word);
    }
    Ok(format!(in alloc; "{}", half_sine(angle))?)
}

/// A place of a latitude and a longitude in millionths of a degree.
fn read_place(lat: &str, lon: &str) -> Result<Place, RowError> {
    let lat = lat.parse::<i32>()?;
    let lon = lon.parse::<i32>()?;
    if lat < -90_000_000 || lat > 90_000_000 || lon < -180_000_000 || lon > 180_000_000 {
        return Err(RowError::Word);
    }
    Ok(Place {
        lat,
        lon,
        table: b'/',
        code: b'-',
        used: 0,
    })
}

/// Whether two places are within so many kilometers.
pub fn near(alloc: Global, row: &str) -> Result<String, RowError> {
    let (lat, row) = split_word(row);
    let (lon, row) = split_word(row);
    let (other_lat, row) = split_word(row);
    let (other_lon, km) = split_word(row);
    let place = read_place(lat, lon)?;
    let other = read_place(other_lat, other_lon)?;
    let km = km.parse::<u32>()?;
    if km > 99_999 {
        return Err(RowError::Word);
    }
    yes_or_no(alloc, within(&place, &other, km))
}

/// The date of a moment.
pub fn date(alloc: Global, field: &str) -> Result<String, RowError> {
    let moment = field.parse::<u64>()?;
    Ok(write_bytes(alloc, &date_at(moment))?)
}
