//! The parts of a path.
ghost use Rattle.std.specs.Prelude.{◌≡◌, ℕ, ◌+◌, ◌-◌, ◌<◌, ◌≤◌, [], ◌∷◌, ◌++◌, List, length, take, drop, map, true, false, MatchOption};
ghost use Rattle.std.specs.List.{after_first, list_any, position_or_len};
ghost use Rattle.aprs_base.specs.Bytes.{IsCall};
ghost use Rattle.tnc2_line.specs.Packet.{names_construct};
ghost use Rattle.q_construct.specs.Rule.{among, before, bars, construct_of, ending, ends_in_gate, gate_call, gate_front, given_path, has_construct, is_gate_mark, same, starred};

use aprs_base::{Call, Via, copy_call, copy_via, is_construct_text};
use arrayvec::ArrayVec;

/// A path while it is built: two elements for its ending and two for its trace may go beyond the 32.
pub type Path = ArrayVec<Via, 36>;

fn is_construct(via: &Via) -> bool
    ensures { result ≡ names_construct via.now }
{
    is_construct_text(via.call.bytes())
}

pub fn has_construct(path: &[Via]) -> bool
    ensures { result ≡ has_construct path.now }
{
    path.iter().any(|via| is_construct(via))
}

/// Where the construct stands, or the length.
fn construct_place(path: &[Via]) -> usize
    ensures place { result ≡ position_or_len names_construct path.now }
    ensures within { result ≤ length path.now }
{
    path.iter().take_while(|via| !is_construct(via)).count()
}

/// The elements before the construct, or all where there is none.
pub fn before(path: &[Via]) -> &[Via]
    ensures { result.now ≡ before path.now }
{
    &path[..construct_place(path)]
}

/// The elements after the construct.
pub fn after(path: &[Via]) -> &[Via]
    ensures { result.now ≡ after_first names_construct path.now }
{
    let place = construct_place(path);
    if place < path.len() {
        &path[place + 1..]
    } else {
        &path[path.len()..]
    }
}

/// The construct, or no bytes.
pub fn construct_bytes(path: &[Via]) -> &[u8]
    ensures { result.now ≡ construct_of path.now }
{
    let place = construct_place(path);
    if place < path.len() {
        path[place].call.bytes()
    } else {
        b""
    }
}

/// The path without a construct that stands last.
pub fn given_path(path: &[Via]) -> &[Via]
    ensures { result.now ≡ given_path path.now }
{
    let front = path.len().saturating_sub(1);
    if has_construct(&path[front..]) {
        &path[..front]
    } else {
        path
    }
}

/// Whether one of these elements has this call.
fn any_has_call(call: &Call, vias: &[Via]) -> bool
    ensures { result ≡ list_any (λ via. same call.now via.call) vias.now }
{
    vias.iter().any(|via| *call == via.call)
}

/// Whether this call is among those of the elements.
pub fn has_call(call: &Call, vias: &[Via]) -> bool
    ensures { result ≡ among call.now (map (λ via. via.call) vias.now) }
{
    any_has_call(call, vias)
}

/// Whether the element is `I`.
fn is_gate_mark(via: &Via) -> bool
    ensures { result ≡ is_gate_mark via.now }
{
    via.call.bytes() == b"I".as_slice() && !via.star
}

fn has_gate_mark(vias: &[Via]) -> bool
    ensures { result ≡ list_any is_gate_mark vias.now }
{
    vias.iter().any(|via| is_gate_mark(via))
}

/// The gate of a path that ends in an element and `I`, and the elements before it.
pub fn gate_of(path: &[Via]) -> Option<(&[Via], &Call)>
    ensures { MatchOption result (ends_in_gate path.now ≡ false) (λ found. (ends_in_gate path.now ≡ true) × (found.0.now ≡ gate_front path.now) × (found.1.now ≡ gate_call path.now)) }
{
    if path.len() < 2 || !has_gate_mark(&path[path.len() - 1..]) {
        return None;
    }
    let front = path.len() - 2;
    Some((&path[..front], &path[front].call))
}

/// Whether an element keeps a packet off the network.
fn is_bar(via: &Via) -> bool
    ensures { result ≡ bars via.now }
{
    let call = via.call.bytes();
    call == b"NOGATE".as_slice() || call == b"RFONLY".as_slice() || call == b"TCPXX".as_slice()
}

pub fn has_bar(vias: &[Via]) -> bool
    ensures { result ≡ list_any bars vias.now }
{
    vias.iter().any(|via| is_bar(via))
}

/// An element of this text.
fn element(text: &[u8], star: bool) -> Via
    requires { IsCall text.now }
    ensures { result ≡ record { call = text.now; star = star } }
{
    match Call::read(text) {
        Some(call) => Via { call, star },
        None => unreachable!(),
    }
}

/// Copies these elements to a path that has none.
pub fn put_path(path: &mut Path, vias: &[Via])
    requires empty { path.old.items ≡ [] }
    requires short { length vias.now ≤ 32 }
    ensures { path.new.items ≡ vias.now }
{
    for via in vias {
        path.push(copy_via(via));
    }
}

/// Puts the construct and the name behind the path.
fn push_ending(path: &mut Path, construct: &[u8], name: &Call)
    requires short { length path.old.items ≤ 32 }
    requires construct { IsCall construct.now }
    ensures { path.new.items ≡ path.old.items ++ ending construct.now name.now }
{
    path.push(element(construct, false));
    path.push(Via {
        call: copy_call(name),
        star: false,
    });
}

/// Copies these elements, and puts the construct and the name behind them.
pub fn put_ended(path: &mut Path, front: &[Via], construct: &[u8], name: &Call)
    requires empty { path.old.items ≡ [] }
    requires short { length front.now ≤ 32 }
    requires construct { IsCall construct.now }
    ensures { path.new.items ≡ front.now ++ ending construct.now name.now }
{
    put_path(path, front);
    push_ending(path, construct, name);
}

/// Puts the path of what a user sends here: how it came, the construct, and the server.
pub fn put_submitted(path: &mut Path, way: &[u8], construct: &[u8], server: &Call)
    requires empty { path.old.items ≡ [] }
    requires way { IsCall way.now }
    requires construct { IsCall construct.now }
    ensures { path.new.items ≡ starred way.now ∷ ending construct.now server.now }
{
    path.push(element(way, true));
    push_ending(path, construct, server);
}
