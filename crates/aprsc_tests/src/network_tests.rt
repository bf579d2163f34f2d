//! A server with an uplink, and one that takes and gives packets by datagrams.

use crate::client::{Client, FIRST, SECOND, THIRD, release};
use crate::server::{full_feed, serve};
use std::alloc::{AllocError, Global};
use std::net::{Net, TcpStream, UdpSocket};
use std::test::Fail;
use std::time::{Clock, Duration};
use std::{io, thread};

const HUB: u16 = 24116;

const LEAF: u16 = 24117;

const HUB_CONF: &str =
    "ServerId T2HUB\nPassCode 11653\nListen \"full\" fullfeed tcp 127.0.0.1 24116\n";

const LEAF_CONF: &str = "ServerId T2LEAF\nPassCode 10963\n\
    Listen \"full\" fullfeed tcp 127.0.0.1 24117\n\
    Uplink \"hub\" full tcp 127.0.0.1 24116\nUpstreamTimeout 60s\n";

/// A client of the leaf speaks until one of the hub hears it: at most so often, since its server joins the hub soon.
fn reaches_hub(alloc: Global, leaf: &mut Client, hub: &mut Client) -> io::Result<bool> {
    hub.waits(500)?;
    for number in 0..40 {
        leaf.says(format!(in alloc; "N0CALL>APRS:>up {number}\r\n")?.as_bytes())?;
        if let Ok(line) = hub.next_line()
            && line.starts_with(b"N0CALL>APRS,TCPIP*,qAC,T2LEAF:>up ")
        {
            return Ok(true);
        }
    }
    Ok(false)
}

/// Packets go both ways between the clients of two servers, and between those of the leaf once the hub has ended.
fn speak_through<R: Clock + Net<Stream = TcpStream>>(
    rt: &R,
    alloc: Global,
    mut hub: Client,
) -> io::Result<bool> {
    let mut first = Client::open_at(rt, alloc, ("T2LEAF", LEAF), FIRST)?;
    let reached = reaches_hub(alloc, &mut first, &mut hub)?;
    hub.says(b"K1ABC>APRS:>down\r\n")?;
    first.hears(b"K1ABC>APRS,TCPIP*,qAC,T2HUB:>down\r\n")?;
    drop(hub);
    let mut second = Client::open_at(rt, alloc, ("T2LEAF", LEAF), THIRD)?;
    second.says(b"K1XYZ>APRS:>still here\r\n")?;
    first.hears(b"K1XYZ>APRS,TCPIP*,qAC,T2LEAF:>still here\r\n")?;
    Ok(reached)
}

#[test]
fn speaks_through_an_uplink(rt: HostRuntime) -> Result<(), Fail> {
    let handle = rt.clone()?;
    let hub = thread::spawn(&rt, move || {
        serve(&handle, handle.alloc(), HUB_CONF, 1) == Some(0)
    })?;
    let client = Client::open_at(&rt, rt.alloc(), ("T2HUB", HUB), SECOND)?;
    let handle = rt.clone()?;
    let clients = thread::spawn(&rt, move || {
        let reached = speak_through(&handle, handle.alloc(), client);
        let reached = matches!(reached, Ok(true));
        if !reached {
            release(&handle, LEAF, 3);
        }
        reached
    })?;
    let status = serve(&rt, rt.alloc(), LEAF_CONF, 3);
    assert!(rt; clients.join(&rt) && status == Some(0));
    assert!(rt; hub.join(&rt));
    Ok(())
}

/// The port at which clients log in, and whose server takes datagrams of two kinds.
const MIXED: u16 = 24118;

/// What takes submissions, what takes packets of peers, and the one peer.
const GATES: &str = "Listen \"submit\" udpsubmit udp 127.0.0.1 24119\n\
    PeerGroup \"peers\" udp 127.0.0.1 24120 T2HUB 127.0.0.1 24121\n";

fn mixed(alloc: Global) -> Result<String, AllocError> {
    let mut conf = full_feed(alloc, MIXED)?;
    conf.push_str(GATES)?;
    Ok(conf)
}

/// The peer's socket.
fn peer<R: Net>(rt: &R) -> io::Result<UdpSocket> {
    let peer = UdpSocket::bind(rt, "127.0.0.1:24121")?;
    peer.set_read_timeout(Some(Duration::from_secs(20)))?;
    Ok(peer)
}

/// Whether the next datagram at the peer is this one, from the group's port.
fn is_told(peer: &UdpSocket, line: &[u8]) -> io::Result<bool> {
    let mut bytes = [0; 600];
    let (count, from) = peer.recv_from(&mut bytes)?;
    Ok(bytes.get(..count) == Some(line) && from.port() == 24120)
}

/// A packet is submitted by a datagram, which goes to a client and to the peer.
fn submits<R: Net>(rt: &R, client: &mut Client, peer: &UdpSocket) -> io::Result<bool> {
    let sender = UdpSocket::bind(rt, "127.0.0.1:0")?;
    sender.send_to(
        b"user K1XYZ pass 14986 vers t 1\r\nK1XYZ>APRS:>by mail\r\n",
        "127.0.0.1:24119",
    )?;
    let heard = b"K1XYZ>APRS,TCPIP*,qAU,T2TEST:>by mail\r\n";
    client.hears(heard)?;
    is_told(peer, heard)
}

/// A packet of the peer goes to a client, and one of the client to the peer.
fn exchanges(client: &mut Client, peer: &UdpSocket) -> io::Result<bool> {
    peer.send_to(b"K1ABC>APRS:>of the peer\r\n", "127.0.0.1:24120")?;
    client.hears(b"K1ABC>APRS,qAS,T2HUB:>of the peer\r\n")?;
    client.says(b"N0CALL>APRS:>of the client\r\n")?;
    is_told(peer, b"N0CALL>APRS,TCPIP*,qAC,T2TEST:>of the client\r\n")
}

fn speak_by_datagrams<R: Clock + Net<Stream = TcpStream>>(
    rt: &R,
    alloc: Global,
) -> io::Result<bool> {
    let peer = peer(rt)?;
    let mut client = Client::open(rt, alloc, MIXED, FIRST)?;
    Ok(submits(rt, &mut client, &peer)? && exchanges(&mut client, &peer)?)
}

#[test]
fn speaks_by_datagrams(rt: HostRuntime) -> Result<(), Fail> {
    let handle = rt.clone()?;
    let clients = thread::spawn(&rt, move || {
        let spoken = speak_by_datagrams(&handle, handle.alloc());
        release(&handle, MIXED, 1);
        matches!(spoken, Ok(true))
    })?;
    let conf = mixed(rt.alloc())?;
    let status = serve(&rt, rt.alloc(), conf.as_str(), 1);
    assert!(rt; clients.join(&rt) && status == Some(0));
    Ok(())
}
