//! From parts to their line.
ghost use Rattle.std.specs.Prelude.{◌≡◌, ℕ, ◌+◌, ◌<◌, ◌≤◌, ◌++◌, List, length, Ok, IfOk, OnOk, OnErr, IsErr, ◌↔◌};
ghost use Rattle.std.specs.List.{flat_map};
ghost use Rattle.tnc2_line.specs.Packet.{IsPacket, IsParts, parts_of, text_of, via_text, with_comma};

use aprs_base::{Line, Parts, Via};
use arrayvec::ArrayVec;

/// The text has more than 510 bytes.
#[derive(Clone, Copy, PartialEq, Eq, Debug)]
pub struct LongOut;

/// Appends the bytes, where they fit.
fn put(text: &mut ArrayVec<u8, 510>, bytes: &[u8]) -> Result<(), LongOut>
    ensures ok { OnOk result (text.new.items ≡ text.old.items ++ bytes.now) }
    ensures short { OnOk result (length text.new.items ≤ 510) }
    ensures err { OnErr result (510 < length text.old.items + length bytes.now) }
{
    match text.try_extend_from_slice(bytes) {
        Ok(()) => Ok(()),
        Err(_) => Err(LongOut),
    }
}

fn put_element(text: &mut ArrayVec<u8, 510>, via: &Via) -> Result<(), LongOut>
    ensures ok { OnOk result (text.new.items ≡ text.old.items ++ with_comma via.now) }
    ensures err { OnErr result (510 < length text.old.items + length (with_comma via.now)) }
{
    put(text, b",")?;
    put(text, via.call.bytes())?;
    if via.star { put(text, b"*") } else { Ok(()) }
}

fn put_path(text: &mut ArrayVec<u8, 510>, vias: &[Via]) -> Result<(), LongOut>
    ensures ok { OnOk result (text.new.items ≡ text.old.items ++ flat_map with_comma vias.now) }
    ensures err { OnErr result (510 < length text.old.items + length (flat_map with_comma vias.now)) }
{
    for via in vias {
        put_element(text, via)?;
    }
    Ok(())
}

#[tactic(auto, unfolding(crate::specs::Packet::text_of))]
fn put_parts(text: &mut ArrayVec<u8, 510>, parts: &Parts) -> Result<(), LongOut>
    ensures ok { OnOk result (text.new.items ≡ text.old.items ++ text_of parts.now) }
    ensures short { OnOk result (length text.new.items ≤ 510) }
    ensures err { OnErr result (510 < length text.old.items + length (text_of parts.now)) }
{
    put(text, parts.source.bytes())?;
    put(text, b">")?;
    put(text, parts.dest.bytes())?;
    put_path(text, parts.vias.as_slice())?;
    put(text, b":")?;
    put(text, parts.body.as_slice())
}

/// The line of these parts.
pub fn write(parts: &Parts) -> Result<Line, LongOut>
    requires { IsParts parts.now }
    ensures line { IfOk result (λ line. line ≡ text_of parts.now) }
    ensures long { IsErr result ↔ (510 < length (text_of parts.now)) }
    // It is read as these parts again.
    ensures again { IfOk result (λ line. parts_of line ≡ Ok parts.now) }
    // No other line has these parts.
    ensures only { IfOk result (λ line. (other : List ℕ) → IsPacket other parts.now → other ≡ line) }
{
    let mut text = ArrayVec::new();
    put_parts(&mut text, parts)?;
    Ok(Line { text })
}
