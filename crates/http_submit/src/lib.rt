//! Packets by HTTP: requests, and a front that stands before any wire and hands a request's body up as a datagram.
#![tactic(auto)]

mod front;
mod heads;
mod laws;
mod pool;
mod replies;
mod requests;

pub use front::HttpFront;
pub use heads::{Beginning, from_text, has_empty_line, read_head};
pub use laws::{replies_rise, requests_are_read_one_way};
pub use pool::{Owed, Pool, Waiting};
pub use replies::reply;
pub use requests::{Post, read_post};
