//! The network of the system behind the trait `Wire`: listeners, links and dials over TCP, and datagrams over UDP.
#![tactic(auto)]

mod addresses;
mod briefs;
mod course;
mod dials;
mod inbox;
mod links;
mod mail;
mod names;
mod pace;
mod parting;
mod sockets;
mod turns;
mod wire;

pub use wire::MioWire;
