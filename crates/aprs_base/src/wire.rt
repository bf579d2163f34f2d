//! The network: listeners, links that come and go, and datagrams.
ghost use Rattle.aprs_base.specs.Outside.{AfterAct, AfterListen, AfterNext, AfterSend, WireShown, with_cast, with_closed, with_dial};

use crate::events::{Event, Sent, WireError};
use crate::packets::{ListenSpec, UplinkSpec};
use crate::texts::{Addr, Memory};

/// A network, by all that happened on it. A call that succeeds appends its happening, any other none.
/// Three counts tell of its faults: of calls of `listen` that failed, of calls of `next` that failed, and of links that a send
/// found gone. Each is one more after such a call and the same after any other, and stays at the greatest u64.
pub trait Wire {
    ghost shown: { Self → WireShown };

    /// Listens at an address. `Failed` counts.
    fn listen(&mut self, n: u16, spec: &ListenSpec) -> Result<(), WireError>
        ensures { AfterListen (shown self.old) (shown self.new) n spec.now result };

    /// The next event, which may be waited for. `Failed` counts.
    fn next(&mut self) -> Result<Event, WireError>
        ensures { AfterNext (shown self.old) (shown self.new) result };

    /// Offers bytes to a link, which takes a part of them or is gone. `Gone` counts.
    fn send(&mut self, link: u32, bytes: &[u8]) -> Result<Sent, Memory>
        ensures { AfterSend (shown self.old) (shown self.new) link bytes.now result };

    /// Closes a link.
    fn close(&mut self, link: u32) -> Result<(), Memory>
        ensures { AfterAct (shown self.old) (shown self.new) (with_closed link) result };

    /// Begins to dial an uplink, which is answered by an event.
    fn dial(&mut self, uplink: u16, spec: &UplinkSpec) -> Result<(), Memory>
        ensures { AfterAct (shown self.old) (shown self.new) (with_dial uplink spec.now) result };

    /// Sends a datagram to a peer.
    fn cast(&mut self, peer: u16, to: Addr, bytes: &[u8]) -> Result<(), Memory>
        ensures { AfterAct (shown self.old) (shown self.new) (with_cast peer to bytes.now) result };
}
