//! The events of a drill: a run of the server over generated traffic, the same wherever it is made from the same seed.
#![tactic(auto)]

mod lines;
mod logins;
mod plan;
mod writing;

pub use plan::{Events, Plan, copy_events};
