//! The configuration of a server: its reading from a text, with the first fault and its line, and its writing.
#![tactic(auto)]

mod arguments;
mod draft;
mod errors;
mod reading;
mod served;
mod types;
mod words;
mod writing;

pub use errors::{ConfError, ConfFault, ConfWord};
pub use reading::read;
pub use served::count_numbered;
pub use types::{Conf, Listen, PeerSpec};
