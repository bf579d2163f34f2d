//! The logins of links, among which a call is looked for.
ghost use Rattle.std.specs.Prelude.{◌≡◌};
ghost use Rattle.std.specs.List.{list_any};
ghost use Rattle.q_construct.specs.Rule.{among};
ghost use Rattle.served_links.specs.Links.{here, login_here, logins_at, other_here, others_at};

use crate::link::LinkSession;
use crate::sessions::Sessions;
use aprs_base::{Call, Source};
use q_construct::Calls;

/// The logins of the verified links, but of the one that a line came from.
#[derive(Drop)]
pub struct Logins<'a> {
    pub links: &'a Sessions,
    pub from: Source,
}

/// Whether the link is here, is verified and has logged in with this call.
fn has_login(link: &LinkSession, call: &Call) -> bool
    ensures { result ≡ among call.now (login_here link.now) }
{
    match link.verified_call() {
        Some(login) => *call == login,
        None => false,
    }
}

/// Whether the link has another number, is here, is verified and has logged in with this call.
fn has_other_login(link: &LinkSession, number: u32, call: &Call) -> bool
    ensures { result ≡ among call.now (other_here number link.now) }
{
    link.number() != number && has_login(link, call)
}

/// Whether a verified link of another number has logged in with this call, link by link.
fn any_other_has_login(links: &[LinkSession], number: u32, call: &Call) -> bool
    ensures { result ≡ list_any (λ link. among call.now (other_here number link)) links.now }
{
    links.iter().any(|link| has_other_login(link, number, call))
}

/// Whether a verified link has logged in with this call.
fn have_login(links: &Sessions, call: &Call) -> bool
    ensures { result ≡ among call.now (logins_at (here links.now)) }
{
    links.count_login(call) > 0
}

/// Whether a verified link of another number has logged in with this call.
fn have_other_login(links: &Sessions, number: u32, call: &Call) -> bool
    ensures { result ≡ among call.now (others_at number (here links.now)) }
{
    links.count_login(call) > 0 && any_other_has_login(links.as_slice(), number, call)
}

impl<'a> Calls for Logins<'a> {
    ghost use Rattle.served_links.specs.Links.{here, others_from};

    ghost calls = { λ l. others_from l.from (here l.links.now) };

    fn have(&self, call: &Call) -> bool {
        match self.from {
            Source::Link(number) => have_other_login(self.links, number, call),
            Source::Submit(_) | Source::Peer(_) => have_login(self.links, call),
        }
    }
}
