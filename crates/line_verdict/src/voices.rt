//! Who speaks, as far as the verdict on a line needs it.
use q_construct::Origin;

/// Who speaks on a link or in a datagram.
#[derive(Drop)]
pub enum Voice {
    /// A client that hasn't logged in, on a port with filters or without.
    Nameless { filters: bool },
    /// A client that has logged in on a port that only shows refused duplicates.
    Reader,
    /// A client that has logged in, on a port with filters or without.
    Client { filters: bool, origin: Origin },
    /// Another server, or a station that sends its packets in datagrams.
    Carrier(Origin),
}
