//! The links that are served: what is kept of their sessions, and what they are fed.
#![tactic(auto)]

mod counts;
mod kinds;
mod link;
mod links;
mod logins;
mod messages;
mod served;
mod sessions;
mod telling;

pub use link::{Down, SourcePlace, Timeouts, has_member, is_from};
pub use logins::Logins;
pub use messages::is_message;
pub use served::Served;
