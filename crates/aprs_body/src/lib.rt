//! What the bodies of packets say: their classes, places, names and receivers.
#![tactic(auto)]

pub mod class;
mod forms;
mod table;

pub use table::classify;
