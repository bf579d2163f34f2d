//! The replies to requests, and the paying of those that are owed.
ghost use Rattle.std.specs.Prelude.{◌≡◌, ◌≤◌, OnErr, OnOk, length};
ghost use Rattle.aprs_base.specs.Outside.{gones_with};
ghost use Rattle.aprs_base.specs.declared.events.Sent.{Sent};
ghost use Rattle.http_submit.specs.Owing.{GrewBy, Loses, Pays, PaysOne, PaysPart, PaysSome, reply_of, status_text};

use crate::pool::Owed;
use aprs_base::{Memory, Sent, Wire};
use arrayvec::ArrayVec;

/// A status and its words (RFC 9110, section 15).
fn words(status: u16) -> &'static [u8]
    ensures text { result.now ≡ status_text status }
    ensures short { length result.now ≤ 26 }
{
    match status {
        202 => b"202 Accepted",
        400 => b"400 Bad Request",
        403 => b"403 Forbidden",
        404 => b"404 Not Found",
        405 => b"405 Method Not Allowed",
        408 => b"408 Request Timeout",
        411 => b"411 Length Required",
        413 => b"413 Content Too Large",
        415 => b"415 Unsupported Media Type",
        _ => b"503 Service Unavailable",
    }
}

/// The reply of a status. It has no content, and says that the link is closed after it.
pub fn reply(status: u16) -> ArrayVec<u8, 80>
    ensures { result.items ≡ reply_of status }
{
    let mut reply = ArrayVec::new();
    reply.try_extend_from_slice(b"HTTP/1.1 ").unwrap();
    reply.try_extend_from_slice(words(status)).unwrap();
    reply
        .try_extend_from_slice(b"\r\nContent-Length: 0\r\nConnection: close\r\n\r\n")
        .unwrap();
    reply
}

/// Sends a link its reply, once and whatever it takes of it, and closes it but where it was gone.
#[tactic(auto, using(crate::proofs::OwingLemmas::unsent, crate::proofs::OwingLemmas::unsent_keeps, crate::proofs::OwingLemmas::unclosed))]
fn pay<W: Wire>(inner: &mut W, owed: Owed) -> Result<(), Memory>
    ensures all { OnOk result (GrewBy (W.shown inner.old).told (W.shown inner.new).told (PaysOne owed)) }
    ensures part { OnErr result (GrewBy (W.shown inner.old).told (W.shown inner.new).told (PaysPart owed)) }
    ensures listens { (W.shown inner.new).failed_listens ≡ (W.shown inner.old).failed_listens }
    ensures nexts { (W.shown inner.new).failed_nexts ≡ (W.shown inner.old).failed_nexts }
    ensures links { (W.shown inner.new).links ≡ (W.shown inner.old).links }
    ensures gones { (outcome : Sent) × ((W.shown inner.new).gones ≡ gones_with outcome (W.shown inner.old).gones) }
{
    match inner.send(owed.link, reply(owed.status).as_slice())? {
        Sent::Took(_) => inner.close(owed.link),
        Sent::Gone => Ok(()),
    }
}

/// Pays all, in order.
#[tactic(auto, using(crate::proofs::OwingLemmas::first_part, crate::proofs::OwingLemmas::none_lost))]
pub fn pay_all<W: Wire>(inner: &mut W, owed: &[Owed]) -> Result<(), Memory>
    ensures all { OnOk result (GrewBy (W.shown inner.old).told (W.shown inner.new).told (Pays owed.now)) }
    ensures some { OnErr result (GrewBy (W.shown inner.old).told (W.shown inner.new).told (PaysSome owed.now)) }
    ensures listens { (W.shown inner.new).failed_listens ≡ (W.shown inner.old).failed_listens }
    ensures nexts { (W.shown inner.new).failed_nexts ≡ (W.shown inner.old).failed_nexts }
    ensures links { (W.shown inner.new).links ≡ (W.shown inner.old).links }
    ensures gones { Loses owed.now (W.shown inner.old).gones (W.shown inner.new).gones }
{
    match owed {
        [] => Ok(()),
        [first, rest @ ..] => {
            pay(inner, *first)?;
            pay_all(inner, rest)
        }
    }
}
