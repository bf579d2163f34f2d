//! The core of the server: sessions, rounds and acts, with no socket and no clock.
#![tactic(auto)]

mod acts;
mod conf;
mod cores;
mod messages;
mod numbers;
mod places;
mod reach;
mod server;
mod spares;
mod telling;

pub use acts::{Acts, CastOut};
pub use conf::listeners;
pub use cores::Core;
pub use served_links::Down;
