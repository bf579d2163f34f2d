//! The path as it goes on.
ghost use Rattle.std.specs.Prelude.{◌≡◌, ℕ, ◌≤◌, [], ◌∷◌, ◌++◌, ◌&&◌, not, List, Bool, length, map, true, false};
ghost use Rattle.aprs_base.specs.Bytes.{IsCall};
ghost use Rattle.q_construct.specs.Building.{IsBuilt, Receives};
ghost use Rattle.q_construct.specs.Rule.{built_row, common_rows, ending, first_row, is_alone, name_of, row, same, starred};

use crate::origins::Origin;
use crate::paths::{
    Path, after, before, construct_bytes, gate_of, has_construct, put_ended, put_path,
    put_submitted,
};
use aprs_base::{Call, Via};
use arrayvec::ArrayVec;

/// A path, and whether the calls after its construct are to be checked.
#[derive(Drop)]
pub struct Built {
    pub path: Path,
    pub checked: bool,
}

impl Built {
    /// Nothing is built yet.
    pub fn new() -> Built
        ensures { result.path.items ≡ [] }
    {
        Built {
            path: ArrayVec::new(),
            checked: false,
        }
    }
}

/// The path as it came.
fn keep(built: &mut Built, given: &[Via])
    requires empty { built.old.path.items ≡ [] }
    requires short { length given.now ≤ 32 }
    ensures row { IsBuilt built.new (row true given.now true) }
    ensures short { length built.new.path.items ≤ 34 }
{
    put_path(&mut built.path, given);
    built.checked = true;
}

/// The elements, and the construct with the name.
fn end(built: &mut Built, front: &[Via], construct: &[u8], name: &Call)
    requires empty { built.old.path.items ≡ [] }
    requires short { length front.now ≤ 32 }
    requires construct { IsCall construct.now }
    ensures row { IsBuilt built.new (row true (front.now ++ ending construct.now name.now) true) }
    ensures short { length built.new.path.items ≤ 34 }
{
    put_ended(&mut built.path, front, construct, name);
    built.checked = true;
}

/// The path of what a user sends here.
fn send_here(built: &mut Built, way: &[u8], construct: &[u8], server: &Call)
    requires empty { built.old.path.items ≡ [] }
    requires way { IsCall way.now }
    requires construct { IsCall construct.now }
    ensures row { IsBuilt built.new (row true (starred way.now ∷ ending construct.now server.now) false) }
    ensures short { length built.new.path.items ≤ 34 }
{
    put_submitted(&mut built.path, way, construct, server);
    built.checked = false;
}

/// Whether these are the login alone.
fn is_alone(login: &Call, vias: &[Via]) -> bool
    ensures { result ≡ is_alone login.now (map (λ via. via.call) vias.now) }
{
    match vias {
        [via] => via.call == *login,
        _ => false,
    }
}

#[tactic(auto, unfolding(crate::specs::Rule::built_row, crate::specs::Rule::rows))]
fn build_submitted(built: &mut Built, source: &Call, login: &Call, server: &Call, given: &[Via])
    requires empty { built.old.path.items ≡ [] }
    requires short { length given.now ≤ 32 }
    ensures row { IsBuilt built.new (built_row source.now (Origin.Udp login.now) server.now given.now) }
    ensures short { length built.new.path.items ≤ 34 }
{
    if *source == *login {
        send_here(built, b"TCPIP", b"qAU", server);
    } else {
        put_ended(&mut built.path, before(given), b"qAU", server);
        built.checked = false;
    }
}

/// The path of another's packet, which a gateway sends that only receives. Answers whether it is one of these.
fn build_received(built: &mut Built, login: &Call, given: &[Via]) -> bool
    requires empty { built.old.path.items ≡ [] }
    requires short { length given.now ≤ 32 }
    ensures row { Receives result built.new true login.now given.now }
    ensures short { length built.new.path.items ≤ 34 }
    ensures none { result ≡ false → built.new ≡ built.old }
{
    if has_construct(given) {
        if construct_bytes(given) == b"qAR".as_slice() && is_alone(login, after(given)) {
            end(built, before(given), b"qAo", login);
            return true;
        }
        return false;
    }
    match gate_of(given) {
        Some((front, gate)) => {
            if *gate == *login {
                end(built, front, b"qAo", login);
                true
            } else {
                false
            }
        }
        None => {
            end(built, given, b"qAO", login);
            true
        }
    }
}

/// The path of what such a gateway sends for others, on a port for clients alone. Answers whether it is one of these.
fn build_relayed(built: &mut Built, source: &Call, login: &Call, only: bool, given: &[Via]) -> bool
    requires empty { built.old.path.items ≡ [] }
    requires short { length given.now ≤ 32 }
    ensures row { Receives result built.new (only && not (same source.now login.now)) login.now given.now }
    ensures short { length built.new.path.items ≤ 34 }
    ensures none { result ≡ false → built.new ≡ built.old }
{
    if only && *source != *login {
        build_received(built, login, given)
    } else {
        false
    }
}

/// The path of what a verified link sends, apart from those gateways.
fn build_sent(built: &mut Built, source: &Call, login: &Call, server: &Call, given: &[Via])
    requires empty { built.old.path.items ≡ [] }
    requires short { length given.now ≤ 32 }
    ensures row { (only : Bool) → IsBuilt built.new (first_row (common_rows source.now (Origin.Client login.now true only) server.now given.now)) }
    ensures short { length built.new.path.items ≤ 34 }
{
    if has_construct(given) {
        keep(built, given);
        return;
    }
    match gate_of(given) {
        Some((front, gate)) => {
            if *gate == *login {
                end(built, front, b"qAR", login);
            } else {
                end(built, front, b"qAr", gate);
            }
        }
        None => {
            if *source == *login {
                send_here(built, b"TCPIP", b"qAC", server);
            } else {
                end(built, given, b"qAS", login);
            }
        }
    }
}

#[tactic(auto, unfolding(crate::specs::Rule::built_row, crate::specs::Rule::rows))]
fn build_verified(
    built: &mut Built,
    source: &Call,
    login: &Call,
    only: bool,
    server: &Call,
    given: &[Via],
)
    requires empty { built.old.path.items ≡ [] }
    requires short { length given.now ≤ 32 }
    ensures row { IsBuilt built.new (built_row source.now (Origin.Client login.now true only) server.now given.now) }
    ensures short { length built.new.path.items ≤ 34 }
{
    if !build_relayed(built, source, login, only, given) {
        build_sent(built, source, login, server, given);
    }
}

/// The path of what another server sends.
#[tactic(auto, unfolding(crate::specs::Rule::built_row, crate::specs::Rule::rows))]
fn build_passed(built: &mut Built, name: &Call, given: &[Via])
    requires empty { built.old.path.items ≡ [] }
    requires short { length given.now ≤ 32 }
    ensures row { (source server : List ℕ) → IsBuilt built.new (built_row source (Origin.Peer name.now) server given.now) }
    ensures short { length built.new.path.items ≤ 34 }
{
    if has_construct(given) {
        keep(built, given);
        return;
    }
    match gate_of(given) {
        Some((front, gate)) => end(built, front, b"qAr", gate),
        None => end(built, given, b"qAS", name),
    }
}

/// The path that is built: the first row of the table that fits.
#[tactic(auto, unfolding(crate::specs::Rule::built_row, crate::specs::Rule::rows))]
pub fn build(
    built: &mut Built,
    source: &Call,
    origin: &Origin,
    name: &Call,
    server: &Call,
    given: &[Via],
)
    requires empty { built.old.path.items ≡ [] }
    requires name { name.now ≡ name_of origin.now }
    requires short { length given.now ≤ 32 }
    ensures row { IsBuilt built.new (built_row source.now origin.now server.now given.now) }
    ensures short { length built.new.path.items ≤ 34 }
{
    match origin {
        Origin::Udp { login } => build_submitted(built, source, login, server, given),
        Origin::Client {
            verified: false,
            ..
        } => send_here(built, b"TCPXX", b"qAX", server),
        Origin::Client { login, only, .. } => {
            build_verified(built, source, login, *only, server, given);
        }
        Origin::Uplink(_) => build_passed(built, name, given),
        Origin::Peer(_) => build_passed(built, name, given),
    }
}
