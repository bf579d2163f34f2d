//! Which packets a filter passes.
#![tactic(auto)]

mod names;
mod passing;
mod paths;
mod places;
mod seen;

pub use passing::passes;
pub use seen::{Friends, POSITION_AGE, Seen, is_young};
