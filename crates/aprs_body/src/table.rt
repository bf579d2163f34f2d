//! The class table.
ghost use Rattle.std.specs.Prelude.{◌≡◌, ℕ};
ghost use Rattle.aprs_base.specs.declared.packets.Body.{Body};
ghost use Rattle.aprs_body.specs.Bodies.{body_of};
ghost use Rattle.aprs_body.specs.Grammar.{IsBody};

use crate::class::{QUERY, STATUS, USER_DEFINED, WEATHER};
use crate::forms::{bare, item, message, object, positioned, rest_at, telemetry};
use aprs_base::{Body, Call};
use aprs_position::read_either;

#[tactic(auto, unfolding(crate::specs::Bodies::body_of))]
fn look_up(dest: &Call, body: &[u8]) -> Body
    ensures { result ≡ body_of dest.now body.now }
{
    match body.first() {
        Some(b'!' | b'=') => positioned(read_either(rest_at(body, 1))),
        Some(b'/' | b'@') => positioned(read_either(rest_at(body, 8))),
        Some(b'`' | b'\'') => positioned(mic_e::read(dest, body)),
        Some(b';') => object(body),
        Some(b')') => item(body),
        Some(b':') => message(body),
        Some(b'>') => bare(STATUS),
        Some(b'T') => telemetry(body),
        Some(b'_') => bare(WEATHER),
        Some(b'{') => bare(USER_DEFINED),
        Some(b'?') => bare(QUERY),
        _ => bare(0),
    }
}

/// What a packet's destination and body say: the classes, the place, the name and life of an object or an item, and the
/// receiver of a message. A body in none of the formats has no class.
pub fn classify(dest: &Call, body: &[u8]) -> Body
    ensures exact { result ≡ body_of dest.now body.now }
    ensures said { IsBody dest.now body.now result }
    ensures only { (other : Body) → IsBody dest.now body.now other → result ≡ other }
{
    look_up(dest, body)
}
