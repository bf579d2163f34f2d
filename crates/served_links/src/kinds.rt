//! Kinds of links and ports: what each is fed, and who speaks on it.
ghost use Rattle.std.specs.Prelude.{◌≡◌, IsTrue, Some};
ghost use Rattle.aprs_base.specs.Bytes.{is_station};
ghost use Rattle.aprs_history.specs.Links.{is_client_of};
ghost use Rattle.aprs_history.specs.Setting.{is_filter_kind, is_only_kind};
ghost use Rattle.aprs_history.specs.Verdicts.{client_origin};
ghost use Rattle.line_verdict.specs.Voices.{HasStation, visitor_voice};
ghost use Rattle.q_construct.specs.Rule.{has_station};
ghost use Rattle.served_links.specs.Fed.{feed_of, port_feed};
ghost use Rattle.served_links.specs.Links.{is_login};

use aprs_base::{PortKind, copy_call};
use aprs_history::{LinkKind, Session};
use line_verdict::Voice;
use q_construct::Origin;
use worker_match::Feed;

/// Whether a link of that kind was opened from the other side.
pub(crate) fn is_inbound(kind: LinkKind) -> bool
    ensures { result ≡ is_client_of kind }
{
    match kind {
        LinkKind::Client(_) => true,
        LinkKind::Uplink(_) => false,
    }
}

/// What a client of a port is fed once it has logged in.
fn port_feed(kind: PortKind) -> Feed
    ensures { result ≡ port_feed kind }
{
    match kind {
        PortKind::Full => Feed::Full,
        PortKind::Igate | PortKind::Only => Feed::Filter,
        PortKind::Dupe => Feed::Dupe,
        PortKind::Submit | PortKind::Core => Feed::Nothing,
    }
}

/// What a link is fed, logged in or not.
pub(crate) fn feed_of(kind: LinkKind, session: &Option<Session>) -> Feed
    ensures { result ≡ feed_of kind session.now }
{
    match kind {
        LinkKind::Client(_) if session.is_none() => Feed::Nothing,
        LinkKind::Client(port) => port_feed(port),
        LinkKind::Uplink(_) => Feed::Up,
    }
}

/// Whether ports of this kind have filters.
pub(crate) fn is_filter_kind(kind: PortKind) -> bool
    ensures { result ≡ is_filter_kind kind }
{
    match kind {
        PortKind::Igate | PortKind::Only => true,
        PortKind::Full | PortKind::Dupe | PortKind::Submit | PortKind::Core => false,
    }
}

/// Whether ports of this kind serve clients alone.
fn is_only_kind(kind: PortKind) -> bool
    ensures { result ≡ is_only_kind kind }
{
    match kind {
        PortKind::Only => true,
        _ => false,
    }
}

/// Who speaks on a port of this kind, logged in or not.
pub(crate) fn visitor_voice(kind: PortKind, session: &Option<Session>) -> Voice
    requires { IsTrue (is_login session.now) }
    ensures value { result ≡ visitor_voice kind session.now }
    ensures station { HasStation result }
{
    let filters = is_filter_kind(kind);
    match session {
        None => Voice::Nameless { filters },
        Some(_) if kind == PortKind::Dupe => Voice::Reader,
        Some(session) => Voice::Client {
            filters,
            origin: client_origin(kind, session),
        },
    }
}

fn client_origin(kind: PortKind, session: &Session) -> Origin
    requires { IsTrue (is_station session.now.call) }
    ensures value { result ≡ client_origin (is_only_kind kind) session.now }
    ensures station { IsTrue (has_station result) }
{
    Origin::Client {
        login: copy_call(&session.call),
        verified: session.verified,
        only: is_only_kind(kind),
    }
}
