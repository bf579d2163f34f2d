//! The packets that go no further.
ghost use Rattle.std.specs.Prelude.{◌≡◌, ℕ, ◌+◌, ◌-◌, ◌<◌, ◌≤◌, [], ◌∷◌, List, ◌&&◌, not, length, take, map, true};
ghost use Rattle.std.specs.List.{after_first, list_any};
ghost use Rattle.tnc2_line.specs.Packet.{names_construct};
ghost use Rattle.q_construct.specs.Rule.{among, begins_with, built_drops, first_other, first_twice, given_drops, is_login_not_last, is_own, refused};

use crate::building::Built;
use crate::calls::Calls;
use crate::origins::{Origin, is_own, is_submission, is_unverified_for};
use crate::paths::{after, before, construct_bytes, has_bar, has_call};
use aprs_base::{Call, Parts, Via, copy_call};

/// Why a packet goes no further: the first of these that applies.
#[derive(PartialEq, Eq, Drop)]
pub enum QDrop {
    /// The login is unverified, and the source is another.
    Unverified,
    /// The path says that the packet stays off the network.
    NoGate,
    /// The body is another's packet.
    ThirdParty,
    /// The body is a query.
    Query,
    /// The construct is qAZ.
    QAZ,
    /// This server stands after the construct.
    NamesServer,
    /// This call stands after the construct twice.
    Twice(Call),
    /// Another link has logged in with this call, which stands after the construct.
    OtherLogin(Call),
    /// The link's own login stands after the construct, and not last.
    LoginNotLast,
    /// The path has more than 32 elements, or the line more than 510 bytes.
    Long,
}

fn begins_with(byte: u8, body: &[u8]) -> bool
    ensures { result ≡ begins_with byte body.now }
{
    match body {
        [first, ..] => *first == byte,
        [] => false,
    }
}

/// The drops by what is given, before any path is built.
#[tactic(auto, unfolding(crate::specs::Rule::given_drops))]
pub fn check_given(
    parts: &Parts,
    origin: &Origin,
    server: &Call,
    given: &[Via],
) -> Result<(), QDrop>
    ensures { result ≡ refused (given_drops parts.now origin.now server.now given.now) }
{
    let submission = is_submission(origin);
    let body = parts.body.as_slice();
    if is_unverified_for(origin, &parts.source) {
        return Err(QDrop::Unverified);
    }
    if submission && has_bar(before(given)) {
        return Err(QDrop::NoGate);
    }
    if submission && begins_with(b'}', body) {
        return Err(QDrop::ThirdParty);
    }
    if submission && begins_with(b'?', body) {
        return Err(QDrop::Query);
    }
    if construct_bytes(given) == b"qAZ".as_slice() {
        return Err(QDrop::QAZ);
    }
    if has_call(server, after(given)) {
        return Err(QDrop::NamesServer);
    }
    Ok(())
}

/// The first call that equals one before it.
fn first_twice(vias: &[Via]) -> Option<Call>
    ensures { result ≡ first_twice [] (map (λ via. via.call) vias.now) }
{
    for (place, via) in vias.iter().enumerate() {
        if has_call(&via.call, &vias[..place]) {
            return Some(copy_call(&via.call));
        }
    }
    None
}

/// Whether another link has logged in with this call, which isn't the link's own login. For that the others aren't asked.
fn is_other<O: Calls>(origin: &Origin, others: &O, call: &Call) -> bool
    ensures { result ≡ (among call.now (O.calls others.now) && not (is_own origin.now call.now)) }
{
    if is_own(origin, call) {
        return false;
    }
    others.have(call)
}

/// The first call that another link has logged in with.
fn first_other<O: Calls>(origin: &Origin, others: &O, vias: &[Via]) -> Option<Call>
    ensures { result ≡ first_other origin.now (O.calls others.now) (map (λ via. via.call) vias.now) }
{
    for via in vias {
        if is_other(origin, others, &via.call) {
            return Some(copy_call(&via.call));
        }
    }
    None
}

fn any_own(origin: &Origin, vias: &[Via]) -> bool
    ensures { result ≡ list_any (λ via. is_own origin.now via.call) vias.now }
{
    vias.iter().any(|via| is_own(origin, &via.call))
}

/// Whether the link's own login stands before the last of these.
fn is_login_not_last(origin: &Origin, vias: &[Via]) -> bool
    ensures { result ≡ is_login_not_last origin.now (map (λ via. via.call) vias.now) }
{
    any_own(origin, &vias[..vias.len().saturating_sub(1)])
}

/// The drops by the calls after the construct of a path that is checked.
#[tactic(auto, unfolding(crate::specs::Rule::built_drops))]
fn check_names<O: Calls>(
    origin: &Origin,
    server: &Call,
    others: &O,
    path: &[Via],
) -> Result<(), QDrop>
    ensures { result ≡ refused (built_drops origin.now server.now (O.calls others.now) true path.now) }
{
    let names = after(path);
    if has_call(server, names) {
        return Err(QDrop::NamesServer);
    }
    if let Some(call) = first_twice(names) {
        return Err(QDrop::Twice(call));
    }
    if let Some(call) = first_other(origin, others, names) {
        return Err(QDrop::OtherLogin(call));
    }
    if is_login_not_last(origin, names) {
        return Err(QDrop::LoginNotLast);
    }
    Ok(())
}

/// The drops by the path that is built.
#[tactic(auto, unfolding(crate::specs::Rule::built_drops))]
pub fn check_built<O: Calls>(
    origin: &Origin,
    server: &Call,
    others: &O,
    built: &Built,
) -> Result<(), QDrop>
    ensures { result ≡ refused (built_drops origin.now server.now (O.calls others.now) built.now.checked built.now.path.items) }
{
    if built.checked {
        check_names(origin, server, others, built.path.as_slice())
    } else {
        Ok(())
    }
}
