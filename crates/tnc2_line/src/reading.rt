//! From a line to its parts.
ghost use Rattle.std.specs.Prelude.{◌≡◌, ℕ, ◌+◌, ◌<◌, ◌≤◌, [], ◌∷◌, ◌==◌, List, length, nat_lt, map, count_by, IfSome, IfOk, OnOk, position};
ghost use Rattle.std.specs.List.{list_any, slice_split};
ghost use Rattle.std.specs.Option.{ok_or, option_map};
ghost use Rattle.aprs_base.specs.Bytes.{IsLine};
ghost use Rattle.memchr.specs.Find.{is_byte};
ghost use Rattle.tnc2_line.specs.Packet.{IsPacket, IsParts, call_of, checked_body, checked_path, construct_at, cut_at, is_comma, is_construct_via, may_follow, names_construct, next_via, parts_of, via_of, vias_of};
ghost use Rattle.tnc2_line.specs.Pieces.{Begins, Fills, Gives, path_at, pieces_of};

use aprs_base::{Call, Line, Parts, Via, first_place, is_construct_text};
use arrayvec::ArrayVec;

/// Why a line is no packet: the first of these that applies.
#[derive(Clone, Copy, PartialEq, Eq, Debug)]
pub enum LineFault {
    /// There is no `:`.
    NoColon,
    /// There is no `>` before the first `:`.
    NoArrow,
    /// The source is no call.
    BadSource,
    /// The destination is no call.
    BadDest,
    /// This element of the path, counted from 1, is none, has `*` on a construct or after one, or is the 33rd.
    BadVia(u16),
    /// The path has more than one construct.
    TwoConstructs,
    /// Nothing follows the colon.
    NoBody,
}

/// The text before and the text after the first `byte`.
fn cut(byte: u8, text: &[u8]) -> Option<(&[u8], &[u8])>
    ensures { option_map (λ parts. (parts.0.now, parts.1.now)) result ≡ cut_at (is_byte byte) text.now }
{
    let place = first_place(byte, text);
    if place < text.len() {
        Some((&text[..place], &text[place + 1..]))
    } else {
        None
    }
}

/// The text up to the first comma, and what follows that comma.
fn first_piece(text: &[u8]) -> (&[u8], Option<&[u8]>)
    ensures { result.0.now ∷ pieces_of (option_map (λ rest. rest.now) result.1) ≡ slice_split is_comma text.now }
{
    match cut(b',', text) {
        Some((piece, rest)) => (piece, Some(rest)),
        None => (text, None),
    }
}

fn read_via(text: &[u8]) -> Option<Via>
    ensures { result ≡ via_of text.now }
{
    let place = first_place(b'*', text);
    if text.len() > place + 1 {
        return None;
    }
    let call = Call::read(&text[..place])?;
    Some(Via {
        call,
        star: place < text.len(),
    })
}

fn is_construct_call(via: &Via) -> bool
    ensures { result ≡ names_construct via.now }
{
    is_construct_text(via.call.bytes())
}

fn has_construct(vias: &[Via]) -> bool
    ensures { result ≡ list_any names_construct vias.now }
{
    vias.iter().any(|via| is_construct_call(via))
}

/// Whether the element may stand after these.
fn may_come_after(earlier: &[Via], via: &Via) -> bool
    ensures { result ≡ may_follow earlier.now via.now }
{
    earlier.len() < 32 && !(via.star && (is_construct_call(via) || has_construct(earlier)))
}

fn read_next_via(earlier: &[Via], text: &[u8]) -> Option<Via>
    ensures { result ≡ next_via earlier.now text.now }
{
    let via = read_via(text)?;
    if may_come_after(earlier, &via) {
        Some(via)
    } else {
        None
    }
}

/// Appends the elements of a path to those that are there.
fn read_vias(vias: &mut ArrayVec<Via, 32>, first: Option<&[u8]>) -> Result<(), LineFault>
    ensures { Fills result vias.new.items (vias_of vias.old.items (pieces_of (option_map (λ rest. rest.now) first.entry))) }
{
    let mut path = first;
    while let Some(text) = path {
        let (piece, rest) = first_piece(text);
        match read_next_via(vias.as_slice(), piece) {
            Some(via) => vias.push(via),
            None => return Err(LineFault::BadVia(vias.len() as u16 + 1)),
        }
        path = rest;
    }
    Ok(())
}

fn read_call(text: &[u8], fault: LineFault) -> Result<Call, LineFault>
    ensures { result ≡ call_of fault text.now }
{
    Call::read(text).ok_or(fault)
}

fn count_constructs(vias: &[Via]) -> usize
    ensures { result ≡ count_by names_construct vias.now }
{
    vias.iter().filter(|via| is_construct_call(via)).count()
}

fn check_path(vias: &[Via]) -> Result<(), LineFault>
    ensures { Fills result vias.now (checked_path vias.now) }
{
    if count_constructs(vias) > 1 {
        Err(LineFault::TwoConstructs)
    } else {
        Ok(())
    }
}

/// Puts a path that is none yet where it will stay.
fn read_path(vias: &mut ArrayVec<Via, 32>, first: Option<&[u8]>) -> Result<(), LineFault>
    requires { vias.old.items ≡ [] }
    ensures { Fills result vias.new.items (path_at (pieces_of (option_map (λ rest. rest.now) first.entry))) }
{
    read_vias(vias, first)?;
    check_path(vias.as_slice())
}

fn cut_or(byte: u8, text: &[u8], fault: LineFault) -> Result<(&[u8], &[u8]), LineFault>
    ensures { Gives (λ parts. (parts.0.now, parts.1.now)) result (ok_or (cut_at (is_byte byte) text.now) fault) }
{
    match cut(byte, text) {
        Some(parts) => Ok(parts),
        None => Err(fault),
    }
}

/// The source, the destination, and the text of the path.
#[tactic(auto, unfolding(crate::specs::Packet::head_of))]
fn read_calls(head: &[u8]) -> Result<(Call, Call, Option<&[u8]>), LineFault>
    ensures { Begins (option_map (λ rest. rest.now)) result head.now }
{
    let (source, path) = cut_or(b'>', head, LineFault::NoArrow)?;
    let source = read_call(source, LineFault::BadSource)?;
    let (dest, path) = first_piece(path);
    let dest = read_call(dest, LineFault::BadDest)?;
    Ok((source, dest, path))
}

/// Puts a body that is none yet where it will stay.
fn read_body(body: &mut ArrayVec<u8, 510>, text: &[u8]) -> Result<(), LineFault>
    requires empty { body.old.items ≡ [] }
    requires short { length text.now ≤ 510 }
    ensures { Fills result body.new.items (checked_body text.now) }
{
    if text.is_empty() {
        return Err(LineFault::NoBody);
    }
    match body.try_extend_from_slice(text) {
        Ok(()) => Ok(()),
        Err(_) => unreachable!(),
    }
}

/// Fills the parts where they stay.
#[tactic(auto, unfolding(crate::specs::Packet::parts_of))]
fn fill_parts(line: &Line, parts: &mut Parts) -> Result<(), LineFault>
    requires path { parts.old.vias ≡ [] }
    requires body { parts.old.body ≡ [] }
    ensures exact { Fills result parts.new (parts_of line.now) }
    ensures grammar { IsLine line.now }
{
    let (head, body) = cut_or(b':', line.bytes(), LineFault::NoColon)?;
    let (source, dest, path) = read_calls(head)?;
    parts.source = source;
    parts.dest = dest;
    read_path(&mut parts.vias, path)?;
    read_body(&mut parts.body, body)
}

/// Puts the parts of a packet line into ones that are still to be filled, or says the line's first fault, which leaves them as
/// they happen to be.
pub fn read_into(line: &Line, parts: &mut Parts) -> Result<(), LineFault>
    requires path { parts.old.vias ≡ [] }
    requires body { parts.old.body ≡ [] }
    ensures exact { Fills result parts.new (parts_of line.now) }
    ensures sound { OnOk result (IsParts parts.new) }
{
    fill_parts(line, parts)
}

fn read_parts(line: &Line) -> Result<Parts, LineFault>
    ensures exact { result ≡ parts_of line.now }
    ensures grammar { IsLine line.now }
{
    let mut parts = Parts::unfilled();
    fill_parts(line, &mut parts)?;
    Ok(parts)
}

/// The parts of a packet line, or its first fault.
pub fn read(line: &Line) -> Result<Parts, LineFault>
    ensures exact { result ≡ parts_of line.now }
    ensures sound { IfOk result (λ parts. IsParts parts) }
    // What is read is the packet of that line.
    ensures packet { IfOk result (λ parts. IsPacket line.now parts) }
    // The packet of a line is read, so no line has two.
    ensures only { (parts : Parts) → IsPacket line.now parts → result ≡ Ok parts }
{
    read_parts(line)
}

/// Whether the element is `qA` and one letter without `*`.
fn is_plain_construct(via: &Via) -> bool
    ensures { result ≡ is_construct_via via.now }
{
    is_construct_call(via) && !via.star
}

fn construct_place(vias: &[Via]) -> Option<usize>
    ensures place { result ≡ position is_construct_via vias.now }
    ensures within { IfSome result (λ place. place < length vias.now) }
{
    vias.iter().position(|via| is_plain_construct(via))
}

/// The place in the path, counted from 0, of the first construct: an element `qA` and one letter without `*`.
pub fn construct(parts: &Parts) -> Option<u16>
    ensures { result ≡ construct_at parts.now }
{
    match construct_place(parts.vias.as_slice()) {
        Some(place) => Some(place as u16),
        None => None,
    }
}
