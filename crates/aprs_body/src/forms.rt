//! The forms of bodies, each read into what it says.
ghost use Rattle.std.specs.Prelude.{◌≡◌, ℕ, ◌==◌, ◌≤◌, length, drop};
ghost use Rattle.aprs_body.specs.Bodies.{bare, is_item_mark, item_in, item_of, life_of, name_len, message_class, message_of, named, nws_of, object_of, positioned, telemetry_of, weather_of, without_trailing_blanks};

use crate::class::{ITEM, MESSAGE, NWS, OBJECT, POSITION, TELEMETRY, WEATHER};
use aprs_base::{Body, Place, Word9};
use aprs_position::read_either;

/// A body that says no more than its class.
pub fn bare(class: u16) -> Body
    ensures { result ≡ bare class }
{
    Body {
        class,
        place: None,
        name: None,
        live: false,
        to: None,
    }
}

/// The weather bit, where the place's symbol is a weather station's.
fn weather_of(place: &Place) -> u16
    ensures { result ≡ weather_of place.now }
{
    if place.code == b'_' { WEATHER } else { 0 }
}

/// The bit of the National Weather Service, where a name is one of its own.
fn nws_of(name: &[u8]) -> u16
    ensures { result ≡ nws_of name.now }
{
    if name.starts_with(b"NWS") { NWS } else { 0 }
}

/// A text without the blanks at its end.
fn without_trailing_blanks(text: &[u8]) -> &[u8]
    ensures value { result.now ≡ without_trailing_blanks text.now }
    ensures shorter { length result.now ≤ length text.now }
{
    let mut rest = text;
    while let [front @ .., b' '] = rest {
        rest = front;
    }
    rest
}

/// A position report, also one whose position can't be read.
pub fn positioned(place: Option<Place>) -> Body
    ensures { result ≡ positioned place }
{
    match place {
        Some(place) => Body {
            class: POSITION | weather_of(&place),
            place: Some(place),
            name: None,
            live: false,
            to: None,
        },
        None => bare(POSITION),
    }
}

/// An object or an item, which is nothing without its position.
fn named(class: u16, name: Word9, live: bool, place: Option<Place>) -> Body
    ensures { result ≡ named class name live place }
{
    match place {
        Some(place) => Body {
            class: class | weather_of(&place),
            place: Some(place),
            name: Some(name),
            live,
            to: None,
        },
        None => bare(0),
    }
}

/// The name or the receiver that nine bytes write.
fn word(text: &[u8]) -> Word9
    requires { length text.now ≤ 9 }
    ensures { result ≡ without_trailing_blanks text.now }
{
    Word9::new(without_trailing_blanks(text)).unwrap()
}

/// Whether a mark says live by its sign, or killed by `_`.
fn life(mark: u8, sign: u8) -> Option<bool>
    ensures { result ≡ life_of sign mark }
{
    if mark == sign {
        Some(true)
    } else if mark == b'_' {
        Some(false)
    } else {
        None
    }
}

/// An object: nine bytes of name, `*` or `_`, seven bytes of time, and a position.
pub fn object(body: &[u8]) -> Body
    ensures { result ≡ object_of body.now }
{
    if body.len() < 18 {
        return bare(0);
    }
    let Some(live) = life(body[10], b'*') else {
        return bare(0);
    };
    let name = &body[1..10];
    named(
        OBJECT | nws_of(name),
        word(name),
        live,
        read_either(rest_at(body, 18)),
    )
}

fn is_item_mark(byte: u8) -> bool
    ensures { result ≡ is_item_mark byte }
{
    byte == b'!' || byte == b'_'
}

/// How long the name of an item is: up to its mark.
fn name_len(text: &[u8]) -> usize
    ensures value { result ≡ name_len text.now }
    ensures within { result ≤ length text.now }
{
    text.iter().take_while(|byte| !is_item_mark(**byte)).count()
}

/// An item after its first byte: a name of three to nine bytes, `!` or `_`, and a position.
fn item_in(text: &[u8]) -> Body
    ensures { result ≡ item_in text.now }
{
    let len = name_len(text);
    if len < 3 || len > 9 || len >= text.len() {
        return bare(0);
    }
    let name = Word9::new(&text[..len]).unwrap();
    named(ITEM, name, text[len] == b'!', read_either(&text[len + 1..]))
}

/// The body without its first bytes, or nothing where it is shorter.
pub fn rest_at(body: &[u8], start: usize) -> &[u8]
    ensures { result.now ≡ drop start body.now }
{
    body.get(start..).unwrap_or(&[])
}

/// An item.
pub fn item(body: &[u8]) -> Body
    ensures { result ≡ item_of body.now }
{
    item_in(rest_at(body, 1))
}

/// The class of a message by its text: the words of telemetry make it telemetry.
fn message_class(text: &[u8]) -> u16
    ensures { result ≡ message_class text.now }
{
    if text.starts_with(b"PARM.")
        || text.starts_with(b"UNIT.")
        || text.starts_with(b"EQNS.")
        || text.starts_with(b"BITS.")
    {
        TELEMETRY
    } else {
        MESSAGE
    }
}

/// A message: nine bytes of receiver, `:` and a text.
pub fn message(body: &[u8]) -> Body
    ensures { result ≡ message_of body.now }
{
    if body.len() < 11 || body[10] != b':' {
        return bare(0);
    }
    let to = &body[1..10];
    Body {
        class: message_class(&body[11..]) | nws_of(to),
        place: None,
        name: None,
        live: false,
        to: Some(word(to)),
    }
}

/// A telemetry report.
pub fn telemetry(body: &[u8]) -> Body
    ensures { result ≡ telemetry_of body.now }
{
    if body.starts_with(b"T#") {
        bare(TELEMETRY)
    } else {
        bare(0)
    }
}
