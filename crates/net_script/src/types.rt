//! The script as a value.
use aprs_base::{Call, Line};
use net_history::{Pair, PeerPair};
use std::marker::Model;

/// A server: its call, which is a station's, and for how long a packet is a duplicate there, 10 to 300 seconds.
#[derive(Drop)]
pub struct ScriptServer {
    pub call: Call,
    pub window: u32,
}

/// What a step asks for. Servers and pairs are given by their numbers.
#[derive(Drop)]
pub enum ScriptStep {
    /// A client connects to the server's first listener, and logs in by its call.
    Open { server: u16, call: Call },
    /// The client on the last link of the call says a line.
    Say { server: u16, call: Call, line: Line },
    /// The server takes what waits for it, and then a tick. A moment is in seconds since 1970.
    Round { server: u16, moment: u64 },
    /// The pair's uplink joins.
    Join { pair: u16 },
    /// The pair is parted.
    Cut { pair: u16 },
    /// The next bytes on their way arrive, 1 to 1,460 of them: from `low` to `high` where `up` is true.
    Carry { pair: u16, up: bool, n: u16 },
    /// The datagram of that number, from 1 on, arrives.
    Cast { from: u16, to: u16, k: u32 },
}

/// A step, and the number of its line, from 1 on.
#[derive(Drop)]
pub struct StepLine {
    pub number: u32,
    pub step: ScriptStep,
}

/// A network's servers, how they may be joined, and what is to happen in it, in order.
#[derive(Drop)]
pub struct Script {
    pub servers: Vec<ScriptServer>,
    pub pairs: Vec<Pair>,
    pub peers: Vec<PeerPair>,
    pub steps: Vec<StepLine>,
}

impl Model for Script {
    ghost use Rattle.net_script.specs.Seen.{ScriptSeen};

    ghost Value = { ScriptSeen };

    ghost view = { λ s. record { servers = s.servers.items; pairs = s.pairs.items; peers = s.peers.items; steps = s.steps.items } };
}
