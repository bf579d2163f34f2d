//! What comes to links, in order.
use crate::links::Feed;
use aprs_base::{Call, Line, Shared};
use filter_eval::{Friends, Seen};
use filter_lang::FilterSet;
use std::sync::Arc;

/// One thing that comes to links.
#[derive(Drop)]
pub enum Item {
    /// A line for one link.
    Text {
        link: u32,
        line: Arc<Line>,
    },
    /// A line for each inbound link.
    All {
        line: Arc<Line>,
    },
    /// A link ends.
    End {
        link: u32,
    },
    /// What a link is from then on: what it is fed, its login, its filter, and where the calls of the filter's terms and
    /// the login were last seen.
    Session {
        link: u32,
        feed: Feed,
        me: Option<Call>,
        filter: Option<Arc<FilterSet>>,
        friends: Box<Friends>,
        mine: Option<Seen>,
    },
    /// A packet, or a duplicate that is refused.
    Packet {
        packet: Shared,
        dupe: bool,
        /// Whether it was submitted to this server.
        submitted: bool,
        /// Where its source was last seen.
        known: Option<Seen>,
        /// Whether its source is a gate.
        gate: bool,
        /// The links that are to have it whatever their filters pass, rising.
        extra: Vec<u32>,
    },
}
