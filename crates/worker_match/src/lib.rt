//! What links are fed, and what comes to them: one walk of each link over a list of items, shared out among workers; and the links
//! of a server, with what came to them since it was last matched.
#![tactic(auto)]

mod along;
mod feeds;
mod filters;
mod friends;
mod items;
mod laws;
mod links;
mod offers;
mod runs;
mod states;
mod workers;

pub use feeds::{Crew, Feeds};
pub use filters::LinkFilter;
pub use items::Item;
pub use laws::links_take_what_they_want;
pub use links::{Feed, LinkFeed};
pub use workers::spread;
