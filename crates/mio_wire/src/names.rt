//! The addresses of uplinks. One in digits is asked of nobody; a name is looked up when its uplink is dialled, and again once all
//! addresses that were found have been tried.
ghost use Rattle.std.specs.Prelude.{◌≡◌, ◌-◌, ◌<◌, OnOk, OnSome, IfNone, IfOk, slice_get, vec_len};
ghost use Rattle.std.specs.Net.Grammar.{IsIpv4Text};
ghost use Rattle.std.specs.declared.net.ipv4_addr.Ipv4Addr.{Ipv4Addr};
ghost use Rattle.mio_wire.specs.Names.{IsIn, IsTurn};

use crate::addresses::ipv4_of;
use aprs_base::{Addr, UplinkSpec};
use std::alloc::{AllocError, Global};
use std::net::{Ipv4Addr, Net, ToSocketAddrs};
use std::str;

/// The addresses that were found for an uplink.
#[derive(Drop)]
struct Name {
    uplink: u16,
    spec: UplinkSpec,
    found: Vec<Addr>,
    /// How many of them were tried.
    tried: usize,
}

/// What was found for each uplink that was dialled by name.
#[derive(Drop)]
pub(crate) struct Names {
    alloc: Global,
    list: Vec<Name>,
}

impl Names {
    pub(crate) fn new(alloc: Global) -> Names {
        Names {
            alloc,
            list: Vec::new(alloc),
        }
    }

    /// The address at which an uplink is to be tried next. None where its name has no address of IPv4, or can't be looked up.
    pub(crate) fn next_address<R: Net>(
        &mut self,
        rt: &R,
        uplink: u16,
        spec: &UplinkSpec,
    ) -> Result<Option<Addr>, AllocError>
        ensures digits { (a : Ipv4Addr) → IsIpv4Text spec.now.host a → IfOk result (IsIn spec.now.host spec.now.port) }
        ensures unasked { (a : Ipv4Addr) → IsIpv4Text spec.now.host a → self.new ≡ self.old }
    {
        if let Some(address) = in_digits(spec) {
            return Ok(Some(address));
        }
        let place = self.place_of(uplink, spec)?;
        self.list[place].next(rt, self.alloc)
    }

    /// Where what was found for an uplink stands, which may be nothing yet.
    fn place_of(&mut self, uplink: u16, spec: &UplinkSpec) -> Result<usize, AllocError>
        ensures { IfOk result (λ place. place < vec_len self.new.list) }
    {
        let known = self
            .list
            .iter()
            .position(|name| name.uplink == uplink && name.spec == *spec);
        match known {
            Some(place) => Ok(place),
            None => {
                self.list.push(Name {
                    uplink,
                    spec: spec.clone().unwrap(),
                    found: Vec::new(self.alloc),
                    tried: 0,
                })?;
                Ok(self.list.len() - 1)
            }
        }
    }
}

/// The address of an uplink whose host is written in digits.
fn in_digits(spec: &UplinkSpec) -> Option<Addr>
    ensures some { OnSome result (IsIn spec.now.host spec.now.port result) }
    ensures none { IfNone result ((a : Ipv4Addr) → ¬ (IsIpv4Text spec.now.host a)) }
{
    match Ipv4Addr::parse_ascii(spec.host.as_slice()) {
        Ok(ip) => Some(Addr {
            ip: ip.octets(),
            port: spec.port,
        }),
        Err(_) => None,
    }
}

impl Name {
    /// The next address that was not tried since the last look-up, which is made anew where all were. Those that were found stay
    /// until a look-up gives others.
    fn next<R: Net>(&mut self, rt: &R, alloc: Global) -> Result<Option<Addr>, AllocError>
        ensures turn { OnOk result (IsTurn self.old.found.items self.old.tried self.new.found.items self.new.tried) }
        ensures address { IfOk result (λ o. o ≡ slice_get self.new.found.items (self.new.tried - 1)) }
        ensures kept { (self.new.uplink ≡ self.old.uplink) × (self.new.spec ≡ self.old.spec) }
    {
        let mut tried = self.tried;
        if tried >= self.found.len() {
            let found = look_up(rt, alloc, &self.spec)?;
            if !found.is_empty() {
                self.found = found;
            }
            tried = 0;
        }
        self.tried = tried.saturating_add(1);
        Ok(self.found.get(tried).copied())
    }
}

/// The addresses of IPv4 that a name has: none where it can't be looked up.
fn look_up<R: Net>(rt: &R, alloc: Global, spec: &UplinkSpec) -> Result<Vec<Addr>, AllocError> {
    let mut found = Vec::new(alloc);
    let Ok(host) = str::from_utf8(spec.host.as_slice()) else {
        return Ok(found);
    };
    let Ok(addresses) = (host, spec.port).to_socket_addrs(rt) else {
        return Ok(found);
    };
    for address in addresses {
        if let Some(at) = ipv4_of(address) {
            found.push(at)?;
        }
    }
    Ok(found)
}
