//! The configuration as a value.
use aprs_base::{Addr, Call, ListenSpec, Text, UplinkSpec};
use std::marker::Model;

/// A listener: its name, what it serves and where. An idle one is read, and has no number.
#[derive(Drop)]
pub struct Listen {
    pub name: Text,
    pub spec: ListenSpec,
    pub idle: bool,
}

/// Another server of the group: its call, and where it takes datagrams.
#[derive(Drop)]
pub struct PeerSpec {
    pub call: Call,
    pub at: Addr,
}

/// The configuration of a server.
#[derive(Drop)]
pub struct Conf {
    pub server: Call,
    /// The server's passcode, 0 to 99,999.
    pub code: u32,
    /// Who runs the server, and where to write to; each empty where it isn't said.
    pub admin: Text,
    pub email: Text,
    /// 1 to 16 listeners, idle ones too. Those that aren't idle are numbered from 0.
    pub listens: Vec<Listen>,
    /// Where submissions by HTTP are taken. This is one listener more, which counts for the 16.
    pub upload: Option<Addr>,
    /// Where the status page is asked for. This too is one listener more, which counts for the 16.
    pub page: Option<Addr>,
    /// At most 8 servers to dial.
    pub uplinks: Vec<UplinkSpec>,
    /// Where datagrams of the group are taken, and at most 8 peers: none where there is no group.
    pub group: Option<Addr>,
    pub peers: Vec<PeerSpec>,
    /// After how long an uplink that brings nothing ends, 1 to 10,000,000 seconds.
    pub up_timeout: u32,
    /// After how long a client that brings nothing ends, 1 to 10,000,000 seconds.
    pub client_timeout: u32,
    /// How many clients there may be, 1 to 10,000.
    pub max_clients: u32,
    /// For how long a packet is a duplicate of one that was accepted, 10 to 300 seconds.
    pub dupe_window: u32,
}

impl Model for Conf {
    ghost use Rattle.aprs_conf.specs.Seen.{ConfSeen};

    ghost Value = { ConfSeen };

    ghost view = { λ c. record { server = c.server; code = c.code; admin = c.admin; email = c.email; listens = c.listens.items; upload = c.upload; page = c.page; uplinks = c.uplinks.items; group = c.group; peers = c.peers.items; up_timeout = c.up_timeout; client_timeout = c.client_timeout; max_clients = c.max_clients; dupe_window = c.dupe_window } };
}
