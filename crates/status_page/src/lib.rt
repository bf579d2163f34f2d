//! The status page: what an operator's monitor reads from `http://HOST:14501/status.json`.
#![tactic(auto)]

mod counts;
mod front;
mod laws;
mod page;
mod replies;
mod requests;

pub use counts::Counts;
pub use front::PageFront;
pub use laws::{counts_add_up, pages_rise, requests_are_read_one_way};
pub use replies::page_reply;
pub use requests::{Get, read_get};
