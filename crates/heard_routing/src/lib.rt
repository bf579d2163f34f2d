//! Which stations each link heard, and to which links a message's sender owes its next position.
#![tactic(auto)]

mod groups;
mod heard;
mod links;
mod listed;
mod table;

pub use heard::Heard;
