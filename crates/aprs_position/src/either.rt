//! The choice between the two forms.
ghost use Rattle.std.specs.Prelude.{◌≡◌, ℕ, IfSome};
ghost use Rattle.aprs_base.specs.declared.packets.Place.{Place};
ghost use Rattle.aprs_position.specs.Either.{either_place};
ghost use Rattle.aprs_position.specs.Grammar.{BeginsPosition};

use crate::compressed::read_compressed;
use crate::plain::read_plain;
use aprs_base::Place;

#[tactic(auto, unfolding(crate::specs::Either::either_place))]
fn parse(text: &[u8]) -> Option<Place>
    ensures { result ≡ either_place text.now }
{
    match text.first() {
        Some(b'0'..=b'9') => read_plain(text),
        _ => read_compressed(text),
    }
}

/// The place that `text` begins with: in the plain form where it begins with a digit, else in the compressed one.
/// `None` exactly where it begins with none.
pub fn read_either(text: &[u8]) -> Option<Place>
    ensures exact { result ≡ either_place text.now }
    ensures read { IfSome result (BeginsPosition text.now) }
    ensures only { (place : Place) → BeginsPosition text.now place → result ≡ Some place }
{
    parse(text)
}
