//! Places on the globe.
ghost use Rattle.std.specs.Prelude.{◌≡◌, ℕ, IsTrue, ◌↔◌};
ghost use Rattle.aprs_position.specs.Places.{OnGlobe, is_code, is_table, place_at};

use aprs_base::Place;

/// Whether a byte names a symbol's table: `/`, `\`, a digit or a capital letter.
pub fn is_table(byte: u8) -> bool
    ensures { result ≡ is_table byte }
{
    matches!(byte, b'/' | b'\\' | b'0'..=b'9' | b'A'..=b'Z')
}

/// Whether a byte is a symbol's code: it is printable, and no blank.
pub fn is_code(byte: u8) -> bool
    ensures { result ≡ is_code byte }
{
    byte.is_ascii_graphic()
}

fn is_on_globe(lat: i32, lon: i32) -> bool
    ensures { IsTrue result ↔ OnGlobe lat lon }
{
    lat.unsigned_abs() <= 90_000_000 && lon.unsigned_abs() <= 180_000_000
}

/// The place of these numbers. `None` exactly where they aren't on the globe.
pub fn place_at(lat: i32, lon: i32, table: u8, code: u8, used: u16) -> Option<Place>
    ensures { result ≡ place_at lat lon table code used }
{
    if !is_on_globe(lat, lon) {
        return None;
    }
    Some(Place {
        lat,
        lon,
        table,
        code,
        used,
    })
}
