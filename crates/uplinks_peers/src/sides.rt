//! Who gets what came from whom.
ghost use Rattle.std.specs.Prelude.{◌≡◌, ◌↔◌, ◌≢◌, IsFalse};
ghost use Rattle.uplinks_peers.specs.Sides.{is_passed_on};
ghost use Rattle.uplinks_peers.specs.declared.sides.Side.TheVariants as side;

/// Who sends or gets a line. What is submitted by UDP comes from a client.
#[derive(Clone, Copy, PartialEq, Eq)]
pub enum Side {
    Client,
    Uplink,
    Peer,
}

/// Whether a line goes on, which it doesn't between uplinks and peers.
pub fn goes_to(from: Side, to: Side) -> bool
    ensures exact { result ≡ is_passed_on from to }
    ensures never { IsFalse result ↔ (from ≢ side.Client) × (to ≢ side.Client) }
{
    from == Side::Client || to == Side::Client
}
