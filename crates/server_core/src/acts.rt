//! What is to be done after a round.
use aprs_base::{Line, Shared};
use std::marker::Model;
use std::sync::Arc;

/// A line to be cast to a peer.
#[derive(Drop)]
pub struct CastOut {
    pub peer: u16,
    pub line: Arc<Line>,
}

impl Model for CastOut {
    ghost use Rattle.std.specs.Arc.{arc_value};
    ghost use Rattle.aprs_history.specs.Dials.{CastSeen};

    ghost Value = { CastSeen };

    ghost view = { λ c. record { peer = c.peer; line = arc_value c.line } };
}

/// The acts that are due after a round: a dial, the casts in order, the links to be offered their next bytes in rising
/// number, and then the links to be closed. Beside them the packets that the round accepted, in order. `done` where the round
/// ends with a stop.
#[derive(Drop)]
pub struct Acts {
    pub dial: Option<u16>,
    pub casts: Vec<CastOut>,
    pub offers: Vec<u32>,
    pub closes: Vec<u32>,
    pub accepted: Vec<Shared>,
    pub done: bool,
}

impl Model for Acts {
    ghost use Rattle.std.specs.Prelude.{map};
    ghost use Rattle.std.specs.Arc.{arc_value};
    ghost use Rattle.server_core.specs.ActsSeen.{ActsSeen};

    ghost Value = { ActsSeen };

    ghost view = { λ a. record { dial = a.dial; casts = a.casts.items; offers = a.offers.items; closes = a.closes.items; accepted = map arc_value a.accepted.items; done = a.done } };
}
