//! Histories behind fronts: what a server sees where one front for its status page and one for packets by HTTP stand between it and
//! its wire, what the links of their ports are sent, and how its serving goes on.
#![tactic(auto)]

mod laws;

pub use laws::{links_get_one_reply, pages_tell_counts, servers_see_views, views_are_one};
