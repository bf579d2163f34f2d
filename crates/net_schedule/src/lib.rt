//! Networks that run: real cores that are joined with one another, step by step.
#![tactic(auto)]

mod joins;
mod network;
mod report;
mod rounds;
mod servers;
mod texts;
mod ways;

pub use network::{Network, Step};
