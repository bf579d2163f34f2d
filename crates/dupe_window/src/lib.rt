//! The packets that came a moment ago, so that their copies are told from new packets.
#![tactic(auto)]

mod keys;
mod pairs;
mod windows;

pub use keys::Key;
pub use windows::Window;
