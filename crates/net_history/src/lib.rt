//! The model of a network: servers that are joined with one another, what waits for each, what is on its way between them, and the
//! steps by which it goes on.
#![tactic(auto)]

mod events;
mod laws;

pub use events::{NetEvent, Pair, PeerPair};
pub use laws::{
    accepted_packets_descend, constructs_keep_packets_away, pairs_bring_what_was_taken,
    servers_accept_once, servers_of_networks_run, sound_lines_stay_sound,
};
