//! Addresses of the system and of the trait `Wire`.
ghost use Rattle.std.specs.Prelude.{◌≡◌, Some};
ghost use Rattle.mio_wire.specs.Names.{addr_of, ipv4_of};

use aprs_base::Addr;
use std::net::{Ipv4Addr, SocketAddr, SocketAddrV4};

/// The address of a socket of IPv4.
pub(crate) fn socket_of(at: Addr) -> SocketAddr
    ensures { ipv4_of result ≡ Some at }
{
    SocketAddr::V4(SocketAddrV4::new(Ipv4Addr::from(at.ip), at.port))
}

/// The address that a socket's is, where it is one of IPv4.
pub(crate) fn ipv4_of(socket: SocketAddr) -> Option<Addr>
    ensures { result ≡ ipv4_of socket }
{
    match socket {
        SocketAddr::V4(at) => Some(Addr {
            ip: at.ip().octets(),
            port: at.port(),
        }),
        SocketAddr::V6(_) => None,
    }
}

/// The address that a peer has; that of an IPv6 peer, which no listener of IPv4 has, is left out.
pub(crate) fn addr_of(socket: SocketAddr) -> Addr
    ensures { result ≡ addr_of socket }
{
    match socket {
        SocketAddr::V4(at) => Addr {
            ip: at.ip().octets(),
            port: at.port(),
        },
        SocketAddr::V6(at) => Addr {
            ip: [0; 4],
            port: at.port(),
        },
    }
}
