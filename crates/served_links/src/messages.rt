//! Messages: what is one, and whom it is for.
ghost use Rattle.std.specs.Prelude.{◌≡◌, ◌&&◌};
ghost use Rattle.std.specs.List.Sorted.{IsStrictlyIncreasing};
ghost use Rattle.filter_eval.specs.Passes.{is_some_and, is_text};
ghost use Rattle.aprs_history.specs.Messages.{is_message};
ghost use Rattle.heard_routing.specs.Heard.{is_among};

use aprs_base::{Call, Packet, Word9};
use aprs_body::class;

/// Whether the packet is a message.
pub fn is_message(packet: &Packet) -> bool
    ensures { result ≡ is_message packet.now }
{
    packet.body.class & class::MESSAGE != 0
}

/// Whether there is a receiver, and it is the call.
fn is_for(to: &Option<Word9>, call: &Call) -> bool
    ensures { result ≡ is_some_and (λ to. is_text to call.now) to.now }
{
    match to {
        Some(to) => to.bytes() == call.bytes(),
        None => false,
    }
}

/// Whether the packet is a message to the call.
pub(crate) fn is_message_to(packet: &Packet, call: &Call) -> bool
    ensures { result ≡ (is_message packet.now && is_some_and (λ to. is_text to call.now) packet.now.body.to) }
{
    is_message(packet) && is_for(&packet.body.to, call)
}

pub(crate) fn is_among(number: u32, numbers: &[u32]) -> bool
    requires rising { IsStrictlyIncreasing numbers.now }
    ensures { result ≡ is_among number numbers.now }
{
    numbers.binary_search(&number).is_ok()
}
