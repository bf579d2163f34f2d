//! What joins the servers of a network, and what may happen in it.

use aprs_base::{Call, Line};

/// An uplink of a server, and the listener of the server to which it goes. Servers, uplinks and listeners are given by their numbers.
#[derive(Clone, Copy)]
pub struct Pair {
    pub low: u16,
    pub uplink: u16,
    pub high: u16,
    pub listener: u16,
}

/// Two servers that cast to each other: `at_a` is the number that `b` has among the peers of `a`, and `at_b` that of `a` among those
/// of `b`.
#[derive(Clone, Copy)]
pub struct PeerPair {
    pub a: u16,
    pub at_a: u16,
    pub b: u16,
    pub at_b: u16,
}

/// What may happen next.
#[derive(Drop)]
pub enum NetEvent {
    /// A client connects to a listener, and logs in by its call.
    Open {
        server: u16,
        listener: u16,
        call: Call,
    },
    /// The client on a link says a line.
    Say {
        server: u16,
        link: u32,
        line: Line,
    },
    /// The server takes what waits for it, and then a tick. A moment is in seconds since 1970.
    Round {
        server: u16,
        moment: u64,
    },
    /// The pair's uplink, which was dialled, joins.
    Join {
        pair: u16,
    },
    /// The pair is parted, and what is on its way is lost.
    Cut {
        pair: u16,
    },
    /// The next bytes on their way arrive, 1 to 1,460 of them: from `low` to `high` where `up` is true.
    Carry {
        pair: u16,
        up: bool,
        n: u16,
    },
    /// The datagram of that number, from 1 on, which one server cast to the other, arrives. It may do so again and again.
    Cast {
        from: u16,
        to: u16,
        k: u32,
    },
}
