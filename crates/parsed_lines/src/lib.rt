//! Lines parsed side by side: the packet that each is, with what its body says, or why it is none.
#![tactic(auto)]

mod ahead;
mod parsing;

pub use ahead::Ahead;
pub use parsing::{Parsed, parse_all};
