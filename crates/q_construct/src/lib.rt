//! The q construct rule: how a server marks the way that a packet came, and which packets it drops.
#![tactic(auto)]

mod building;
mod calls;
mod drops;
mod origins;
mod paths;
mod rule;

pub use calls::{Calls, Listed};
pub use drops::QDrop;
pub use origins::Origin;
pub use rule::{process, process_into};
