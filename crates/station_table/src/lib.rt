//! Where stations were last seen, and which stations are gates.
#![tactic(auto)]

mod stations;

pub use stations::{Stations, seen_in};
