//! Where lines come from.
ghost use Rattle.std.specs.Prelude.{◌≡◌, ℕ, ◌<◌, ◌≤◌, ◌&&◌, ◌∷◌, ◌++◌, List, length, true, not};
ghost use Rattle.std.specs.Char.{is_ascii_alphanumeric};
ghost use Rattle.aprs_base.specs.Bytes.{is_station};
ghost use Rattle.q_construct.specs.Rule.{has_station, hex_byte, hex_digit, hex_of, is_client, is_own, is_submission, is_unverified, name_of, same};

use aprs_base::{Addr, Call, copy_call};

/// Where a line came from.
#[derive(Drop)]
pub enum Origin {
    /// A datagram with a login.
    Udp {
        login: Call,
    },
    /// A link that was opened to this server.
    Client {
        login: Call,
        verified: bool,
        only: bool,
    },
    /// The server at this address, to which this one has linked itself.
    Uplink(Addr),
    /// A server of the same group.
    Peer(Call),
}

/// A hexadecimal digit, in upper case.
fn hex_digit(digit: u8) -> u8
    requires { digit < 16 }
    ensures value { result ≡ hex_digit digit }
    ensures letter { is_ascii_alphanumeric result ≡ true }
{
    if digit < 10 {
        b'0' + digit
    } else {
        b'A' - 10 + digit
    }
}

/// The address as eight hexadecimal digits.
fn hex_call(addr: &Addr) -> Call
    ensures value { result ≡ hex_of addr.now }
    ensures station { is_station result ≡ true }
{
    let [a, b, c, d] = addr.ip;
    let text = [
        hex_digit(a / 16),
        hex_digit(a % 16),
        hex_digit(b / 16),
        hex_digit(b % 16),
        hex_digit(c / 16),
        hex_digit(c % 16),
        hex_digit(d / 16),
        hex_digit(d % 16),
    ];
    match Call::read(&text) {
        Some(call) => call,
        None => unreachable!(),
    }
}

/// The login, the address or the peer's call.
pub fn origin_name(origin: &Origin) -> Call
    ensures value { result ≡ name_of origin.now }
    ensures station { has_station origin.now ≡ true → is_station result ≡ true }
{
    match origin {
        Origin::Udp { login } => copy_call(login),
        Origin::Client { login, .. } => copy_call(login),
        Origin::Uplink(addr) => hex_call(addr),
        Origin::Peer(call) => copy_call(call),
    }
}

/// Whether a user of this server sent the line, and not another server.
pub fn is_submission(origin: &Origin) -> bool
    ensures { result ≡ is_submission origin.now }
{
    matches!(origin, Origin::Udp { .. } | Origin::Client { .. })
}

/// Whether an unverified link sends a packet of another source.
pub fn is_unverified_for(origin: &Origin, source: &Call) -> bool
    ensures { result ≡ (is_unverified origin.now && not (same source.now (name_of origin.now))) }
{
    match origin {
        Origin::Client {
            login,
            verified: false,
            ..
        } => *source != *login,
        _ => false,
    }
}

/// Whether the call is the link's own login.
pub fn is_own(origin: &Origin, call: &Call) -> bool
    ensures { result ≡ is_own origin.now call.now }
{
    match origin {
        Origin::Client { login, .. } => *call == *login,
        _ => false,
    }
}
