//! The rule as a whole.
ghost use Rattle.std.specs.Prelude.{◌≡◌, ℕ, ◌+◌, ◌<◌, ◌≤◌, [], List, length, Ok, Err, IfOk, OnOk, IsTrue, false, if◌then◌else◌};
ghost use Rattle.std.specs.List.{flat_map};
ghost use Rattle.aprs_base.specs.Bytes.{is_station};
ghost use Rattle.tnc2_line.specs.Packet.{IsParts, text_of, with_comma};
ghost use Rattle.tnc2_line.specs.Pieces.{Fills};
ghost use Rattle.q_construct.specs.Rule.{among, has_station, is_long, keeps_names, name_of, names_after, process_of, traced, with_name, with_path};

use crate::building::{Built, build};
use crate::calls::{Calls, Listed};
use crate::drops::{QDrop, check_built, check_given};
use crate::origins::{Origin, origin_name};
use crate::paths::{Path, after, construct_bytes, given_path, has_call};
use aprs_base::{Call, Parts, Via, copy_call, copy_via};
use arrayvec::ArrayVec;

/// Puts the name behind the construct, unless it is there.
fn add_name(path: &mut Path, name: &Call)
    requires { length path.old.items < 36 }
    ensures names { path.new.items ≡ with_name name.now path.old.items }
    ensures short { length path.new.items ≤ length path.old.items + 1 }
{
    if !has_call(name, after(path.as_slice())) {
        path.push(Via {
            call: copy_call(name),
            star: false,
        });
    }
}

/// Behind qAI, puts the sender's name and this server's.
fn trace(path: &mut Path, name: &Call, server: &Call)
    requires { length path.old.items ≤ 34 }
    ensures { path.new.items ≡ traced name.now server.now path.old.items }
{
    if construct_bytes(path.as_slice()) == b"qAI".as_slice() {
        add_name(path, name);
        add_name(path, server);
    }
}

/// How many bytes an element has, with the comma before it.
fn element_len(via: &Via) -> usize
    ensures value { result ≡ length (with_comma via.now) }
    ensures bound { result ≤ 11 }
{
    let call = via.call.bytes().len();
    if via.star { call + 2 } else { call + 1 }
}

fn path_len(vias: &[Via]) -> usize
    requires { length vias.now ≤ 32 }
    ensures value { result ≡ length (flat_map with_comma vias.now) }
    ensures bound { result ≤ 352 }
{
    let mut len = 0;
    for via in vias {
        len += element_len(via);
    }
    len
}

/// How many bytes the parts have with this path.
#[tactic(auto, unfolding(tnc2_line::specs::Packet::text_of))]
fn text_len(parts: &Parts, path: &[Via]) -> usize
    requires { length path.now ≤ 32 }
    ensures { result ≡ length (text_of (with_path parts.now path.now)) }
{
    let calls = parts.source.bytes().len() + parts.dest.bytes().len();
    calls + path_len(path) + parts.body.len() + 2
}

/// Copies these elements to a path that has none.
fn put_vias(vias: &mut ArrayVec<Via, 32>, path: &[Via])
    requires empty { vias.old.items ≡ [] }
    requires short { length path.now ≤ 32 }
    ensures { vias.new.items ≡ path.now }
{
    for via in path {
        vias.push(copy_via(via));
    }
}

/// Copies the text to a body that has none.
fn put_body(body: &mut ArrayVec<u8, 510>, text: &[u8])
    requires empty { body.old.items ≡ [] }
    requires short { length text.now ≤ 510 }
    ensures { body.new.items ≡ text.now }
{
    match body.try_extend_from_slice(text) {
        Ok(()) => {}
        Err(_) => unreachable!(),
    }
}

/// Puts the calls of the parts, the path and the body of the parts into ones that are still to be filled.
fn put_parts(whole: &mut Parts, parts: &Parts, path: &[Via])
    requires vias { whole.old.vias ≡ [] }
    requires body { whole.old.body ≡ [] }
    requires short { length path.now ≤ 32 }
    ensures { whole.new ≡ with_path parts.now path.now }
{
    whole.source = copy_call(&parts.source);
    whole.dest = copy_call(&parts.dest);
    put_vias(&mut whole.vias, path);
    put_body(&mut whole.body, parts.body.as_slice());
}

/// The parts with this path, where they aren't too long.
fn finish(whole: &mut Parts, parts: &Parts, path: &[Via]) -> Result<(), QDrop>
    requires vias { whole.old.vias ≡ [] }
    requires body { whole.old.body ≡ [] }
    ensures { Fills result whole.new (if is_long (with_path parts.now path.now) then Err QDrop.Long else Ok (with_path parts.now path.now)) }
{
    if path.len() > 32 {
        return Err(QDrop::Long);
    }
    if text_len(parts, path) > 510 {
        return Err(QDrop::Long);
    }
    put_parts(whole, parts, path);
    Ok(())
}

#[tactic(auto, unfolding(crate::specs::Rule::process_of))]
fn fill_from<O: Calls>(
    whole: &mut Parts,
    parts: &Parts,
    origin: &Origin,
    name: &Call,
    server: &Call,
    others: &O,
) -> Result<(), QDrop>
    requires name { name.now ≡ name_of origin.now }
    requires vias { whole.old.vias ≡ [] }
    requires body { whole.old.body ≡ [] }
    ensures { Fills result whole.new (process_of parts.now origin.now server.now (O.calls others.now)) }
{
    let given = given_path(parts.vias.as_slice());
    check_given(parts, origin, server, given)?;
    let mut built = Built::new();
    build(&mut built, &parts.source, origin, name, server, given);
    check_built(origin, server, others, &built)?;
    trace(&mut built.path, name, server);
    finish(whole, parts, built.path.as_slice())
}

/// Puts the packet as it goes on from this server into parts that are still to be filled, or says why it doesn't, which leaves
/// them as they happen to be. `others` are the calls that other verified links have logged in with.
pub fn process_into<O: Calls>(
    whole: &mut Parts,
    parts: &Parts,
    origin: &Origin,
    server: &Call,
    others: &O,
) -> Result<(), QDrop>
    requires parts { IsParts parts.now }
    requires server { IsTrue (is_station server.now) }
    requires origin { IsTrue (has_station origin.now) }
    requires vias { whole.old.vias ≡ [] }
    requires body { whole.old.body ≡ [] }
    ensures exact { Fills result whole.new (process_of parts.now origin.now server.now (O.calls others.now)) }
    // Its parts are again those of a text, and the text is a line.
    ensures sound { OnOk result (IsParts whole.new) }
    ensures short { OnOk result (length (text_of whole.new) ≤ 510) }
{
    let name = origin_name(origin);
    fill_from(whole, parts, origin, &name, server, others)
}

fn process_from(
    parts: &Parts,
    origin: &Origin,
    name: &Call,
    server: &Call,
    others: &[Call],
) -> Result<Parts, QDrop>
    requires { name.now ≡ name_of origin.now }
    ensures { result ≡ process_of parts.now origin.now server.now others.now }
{
    let mut whole = Parts::unfilled();
    let others = Listed { calls: others };
    fill_from(&mut whole, parts, origin, name, server, &others)?;
    Ok(whole)
}

/// The packet as it goes on from this server, or why it doesn't. `others` are the calls that other verified links
/// have logged in with.
pub fn process(
    parts: &Parts,
    origin: &Origin,
    server: &Call,
    others: &[Call],
) -> Result<Parts, QDrop>
    requires parts { IsParts parts.now }
    requires server { IsTrue (is_station server.now) }
    requires origin { IsTrue (has_station origin.now) }
    ensures exact { result ≡ process_of parts.now origin.now server.now others.now }
    // Its parts are again those of a text, and the text is a line.
    ensures sound { IfOk result (λ whole. IsParts whole) }
    ensures short { IfOk result (λ whole. length (text_of whole) ≤ 510) }
    ensures stays { IfOk result (λ whole. (whole.source ≡ parts.now.source) × (whole.dest ≡ parts.now.dest) × (whole.body ≡ parts.now.body)) }
    // Between servers each call after the construct stays there.
    ensures keeps { IsTrue (keeps_names origin.now) → IfOk result (λ whole. (name : List ℕ) → IsTrue (among name (names_after parts.now.vias)) → IsTrue (among name (names_after whole.vias))) }
    // What has passed here before doesn't pass again.
    ensures unnamed { OnOk result (among server.now (names_after parts.now.vias) ≡ false) }
{
    let name = origin_name(origin);
    process_from(parts, origin, &name, server, others)
}
