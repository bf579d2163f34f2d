//! The wire of the system's sockets over loopback, and the wire in memory. The crate holds nothing but tests.
#![tactic(auto)]

#[cfg(test)]
mod memory_tests;
#[cfg(test)]
mod socket_tests;
