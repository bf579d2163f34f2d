//! The uplinks of a server, which are dialled one after another, and who gets what came from whom.
#![tactic(auto)]

mod sides;
mod uplinks;

pub use sides::{Side, goes_to};
pub use uplinks::{UpActs, UpEvent, Uplinks};
