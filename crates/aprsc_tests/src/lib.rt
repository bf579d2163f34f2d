//! The server over the system's sockets, files and output, and what rows of text can't try: threads that meet, and what a core
//! counts and keeps. The crate holds nothing but tests.
#![tactic(auto)]

#[cfg(test)]
mod client;
#[cfg(test)]
mod core_tests;
#[cfg(test)]
mod cores;
#[cfg(test)]
mod crowd_tests;
#[cfg(test)]
mod gate_runs;
#[cfg(test)]
mod journal_tests;
#[cfg(test)]
mod network_tests;
#[cfg(test)]
mod packets;
#[cfg(test)]
mod saying_tests;
#[cfg(test)]
mod server;
#[cfg(test)]
mod tests;
