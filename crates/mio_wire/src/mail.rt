//! Datagrams that come, and the socket that they are cast from.
ghost use Rattle.std.specs.Prelude.{◌≡◌, ◌<◌, ◌≤◌, ◌⊎◌, ◌↔◌, IsSome, IfOk, IfSome, length, take};
ghost use Rattle.mio_wire.specs.Mail.{caster_after, greater};
ghost use Rattle.mio_wire.specs.Names.{addr_of};
ghost use Rattle.mio_wire.specs.declared.mail.Received.TheVariants.{Datagram, Dropped};

use crate::addresses::addr_of;
use aprs_base::{Addr, Chunk, PortKind};
use mio::net::UdpSocket;
use std::io::{self, ErrorKind};
use std::net::SocketAddr;

/// A socket for datagrams.
#[derive(Drop)]
pub(crate) struct Mailbox {
    pub(crate) number: u16,
    pub(crate) socket: UdpSocket,
    /// How many datagrams it brought in this turn.
    pub(crate) received: u32,
}

/// The socket that datagrams are cast from: its listener's number, and where it stands.
#[derive(Clone, Copy)]
pub(crate) struct Caster {
    pub(crate) number: u16,
    pub(crate) place: usize,
}

/// By the numbers of two listeners, the greater one.
pub(crate) fn greater(other: Option<Caster>, caster: Caster) -> Option<Caster>
    ensures { result ≡ greater other caster }
{
    match other {
        Some(other) if other.number > caster.number => Some(other),
        _ => Some(caster),
    }
}

/// Where datagrams to peers are cast from after one more listener: it is that of a peer group with the greatest number.
pub(crate) fn caster_after(
    caster: Option<Caster>,
    kind: PortKind,
    number: u16,
    place: usize,
) -> Option<Caster>
    ensures { result ≡ caster_after kind number place caster }
{
    match kind {
        PortKind::Core => greater(caster, Caster { number, place }),
        _ => caster,
    }
}

/// As many bytes as a read takes: one more than a datagram may have, so that a longer one shows.
const MOST_RECEIVED: usize = 1461;

/// What a read from a socket for datagrams brought.
pub(crate) enum Received {
    /// There is no more, until the poll tells of it.
    Nothing,
    /// A datagram that is too long or empty, or nothing because of a signal.
    Dropped,
    Datagram(Addr, Chunk),
}

/// The bytes of a datagram: None where it has none, or more than 1,460.
fn whole_datagram(bytes: &[u8]) -> Option<Chunk>
    ensures some { IsSome result ↔ ((1 ≤ length bytes.now) × (length bytes.now ≤ 1460)) }
    ensures whole { IfSome result (λ c. c ≡ bytes.now) }
{
    if bytes.is_empty() {
        return None;
    }
    Chunk::new(bytes)
}

/// Reads a datagram.
pub(crate) fn receive(socket: &UdpSocket) -> Received {
    let mut bytes = [0; MOST_RECEIVED];
    let answer = socket.recv_from(&mut bytes);
    received_of(&bytes, answer)
}

/// What a read brought, by the system's answer to it: how many of the bytes are a datagram, and where it comes from.
fn received_of(bytes: &[u8], answer: io::Result<(usize, SocketAddr)>) -> Received
    requires { IfOk answer (λ r. r.0 ≤ length bytes.now) }
    ensures whole { IfOk answer (λ r. 1 ≤ r.0 → r.0 ≤ 1460 → result ≡ Datagram (addr_of r.1) (take r.0 bytes.now)) }
    ensures dropped { IfOk answer (λ r. (r.0 ≡ 0) ⊎ (1460 < r.0) → result ≡ Dropped) }
{
    match answer {
        Ok((count, from)) => match whole_datagram(&bytes[..count]) {
            Some(chunk) => Received::Datagram(addr_of(from), chunk),
            None => Received::Dropped,
        },
        Err(error) if error.kind() == ErrorKind::Interrupted => Received::Dropped,
        Err(_) => Received::Nothing,
    }
}
