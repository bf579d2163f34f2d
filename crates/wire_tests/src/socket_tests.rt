//! Links, dials and datagrams over loopback. Each test has ports of its own, below those that the system gives away.
use aprs_base::{Addr, Chunk, Event, ListenSpec, PortKind, Sent, UplinkSpec, Wire, WireError};
use arrayvec::ArrayVec;
use mio_wire::MioWire;
use std::io::{self, Read, Write};
use std::net::{
    Ipv4Addr, Net, Shutdown, SocketAddr, SocketAddrV4, TcpListener, TcpStream, UdpSocket,
};
use std::test::Fail;
use std::thread;
use std::time::{Clock, Duration, SystemTime};

fn loopback(port: u16) -> Addr {
    Addr {
        ip: [127, 0, 0, 1],
        port,
    }
}

fn listens<W: Wire>(wire: &mut W, n: u16, kind: PortKind, port: u16) -> Result<(), WireError> {
    let at = loopback(port);
    wire.listen(n, &ListenSpec { kind, at })
}

/// What an event is, but for addresses and most of its bytes.
#[derive(Clone, Copy, PartialEq, Eq, Debug)]
enum Seen {
    Tick,
    Opened(u16, u32),
    /// A link's bytes, by the first of them.
    Bytes(u32, u8),
    Room(u32),
    Ended(u32),
    /// A dial's answer, with the port of its address.
    Joined(u16, u32, u16),
    Unjoined(u16),
    /// A datagram, by the first of its bytes and their number.
    Datagram(u16, u8, usize),
    Stop,
    Failed,
}

fn first_of(bytes: &Chunk) -> u8 {
    bytes.bytes().first().copied().unwrap_or(0)
}

fn seen_of(event: &Event) -> Seen {
    match event {
        Event::Tick(_) => Seen::Tick,
        Event::Opened { listener, link, .. } => Seen::Opened(*listener, *link),
        Event::Bytes(link, bytes) => Seen::Bytes(*link, first_of(bytes)),
        Event::Room(link) => Seen::Room(*link),
        Event::Ended(link) => Seen::Ended(*link),
        Event::Joined { uplink, link, at } => Seen::Joined(*uplink, *link, at.port),
        Event::Unjoined(uplink) => Seen::Unjoined(*uplink),
        Event::Datagram {
            listener,
            bytes,
            ..
        } => Seen::Datagram(*listener, first_of(bytes), bytes.bytes().len()),
        Event::Stop => Seen::Stop,
    }
}

/// The next event.
fn next<W: Wire>(wire: &mut W) -> Seen {
    match wire.next() {
        Ok(event) => seen_of(&event),
        Err(_) => Seen::Failed,
    }
}

/// Whether this is the next event but for ticks.
fn gives<W: Wire>(wire: &mut W, want: Seen) -> bool {
    for _ in 0..100 {
        let seen = next(wire);
        if seen != Seen::Tick {
            return seen == want;
        }
    }
    false
}

fn takes<W: Wire>(wire: &mut W, link: u32, bytes: &[u8]) -> bool {
    wire.send(link, bytes) == Ok(Sent::Took(bytes.len()))
}

fn is_gone<W: Wire>(wire: &mut W, link: u32) -> bool {
    wire.send(link, b"x") == Ok(Sent::Gone)
}

/// Connects to a wire that listens, and takes its opening.
fn meet<R: Net<Stream = TcpStream>, W: Wire>(
    rt: &R,
    wire: &mut W,
    link: u32,
    address: &str,
) -> io::Result<TcpStream> {
    let stream = TcpStream::connect(rt, address)?;
    let _ = gives(wire, Seen::Opened(0, link));
    Ok(stream)
}

/// Says a line, and hears its answer.
fn greet<R: Net>(rt: &R) -> io::Result<bool> {
    let mut stream = TcpStream::connect(rt, "127.0.0.1:24001")?;
    stream.write_all(b"hello\r\n")?;
    let mut answer = [0; 4];
    stream.read_exact(&mut answer)?;
    Ok(answer == *b"ok\r\n")
}

/// Answers a link's line, up to the stop after its end.
fn answers<W: Wire>(wire: &mut W) -> bool {
    gives(wire, Seen::Opened(3, 1))
        && gives(wire, Seen::Bytes(1, b'h'))
        && takes(wire, 1, b"ok\r\n")
        && gives(wire, Seen::Ended(1))
        && gives(wire, Seen::Stop)
}

#[test]
fn serves_a_link_and_stops(rt: HostRuntime) -> Result<(), Fail> {
    let mut wire = MioWire::new(&rt, rt.alloc(), Some(1));
    let _ = listens(&mut wire, 3, PortKind::Full, 24001);
    let handle = rt.clone()?;
    let client = thread::spawn(&rt, move || greet(&handle))?;
    let served = answers(&mut wire);
    assert!(rt; matches!(client.join(&rt), Ok(true)) && served);
    Ok(())
}

/// The client says that it ends, and hears on. A tick comes before its end, so that it gets what its last bytes bring.
fn hears_on<W: Wire>(wire: &mut W, client: &mut TcpStream) -> io::Result<bool> {
    client.write_all(b"x")?;
    client.shutdown(Shutdown::Write)?;
    let served = gives(wire, Seen::Bytes(1, b'x'))
        && takes(wire, 1, b"1")
        && next(wire) == Seen::Tick
        && gives(wire, Seen::Ended(1))
        && is_gone(wire, 1);
    let mut heard = [0; 2];
    Ok(client.read(&mut heard)? == 1 && served)
}

/// The client goes with an answer that it hasn't read, which resets its connection.
fn resets<W: Wire>(wire: &mut W, client: TcpStream) -> io::Result<bool> {
    let served = takes(wire, 2, b"2");
    client.peek(&mut [0])?;
    drop(client);
    Ok(served && gives(wire, Seen::Ended(2)))
}

/// The server closes the link.
fn is_closed<W: Wire>(wire: &mut W, client: &mut TcpStream) -> io::Result<bool> {
    client.write_all(b"y")?;
    let served = gives(wire, Seen::Bytes(3, b'y')) && wire.close(3) == Ok(()) && is_gone(wire, 3);
    Ok(client.read(&mut [0])? == 0 && served)
}

/// One link after the other ends, and the others go on.
fn end_apart<R: Net<Stream = TcpStream>, W: Wire>(rt: &R, wire: &mut W) -> io::Result<bool> {
    let mut first = meet(rt, wire, 1, "127.0.0.1:24002")?;
    let second = meet(rt, wire, 2, "127.0.0.1:24002")?;
    let mut third = meet(rt, wire, 3, "127.0.0.1:24002")?;
    Ok(hears_on(wire, &mut first)? && resets(wire, second)? && is_closed(wire, &mut third)?)
}

#[test]
fn keeps_links_apart(rt: HostRuntime) {
    let mut wire = MioWire::new(&rt, rt.alloc(), None);
    let _ = listens(&mut wire, 0, PortKind::Igate, 24002);
    assert!(rt; matches!(end_apart(&rt, &mut wire), Ok(true)));
}

/// A client that has sent more than the server reads hears the last that it is told, and an end.
fn hears_the_last<R: Net<Stream = TcpStream>, W: Wire>(
    rt: &R,
    wire: &mut W,
    bytes: &[u8],
) -> io::Result<bool> {
    let mut client = meet(rt, wire, 1, "127.0.0.1:24020")?;
    client.write_all(bytes)?;
    let closed = gives(wire, Seen::Bytes(1, b'p'))
        && takes(wire, 1, b"no\r\n")
        && wire.close(1) == Ok(())
        && is_gone(wire, 1)
        && next(wire) == Seen::Tick;
    let mut last = [0; 4];
    client.read_exact(&mut last)?;
    Ok(closed && last == *b"no\r\n" && client.read(&mut [0])? == 0)
}

#[test]
fn a_closed_link_hears_the_last(rt: HostRuntime) -> Result<(), Fail> {
    let bytes = Vec::from_elem(rt.alloc(), b'p', 100_000)?;
    let mut wire = MioWire::new(&rt, rt.alloc(), None);
    let _ = listens(&mut wire, 0, PortKind::Igate, 24020);
    assert!(rt; matches!(hears_the_last(&rt, &mut wire, bytes.as_slice()), Ok(true)));
    Ok(())
}

/// How many offers the link takes whole, each answered by a tick, before one that it doesn't.
fn whole_offers<W: Wire>(wire: &mut W, bytes: &[u8]) -> usize {
    let mut offers = 0;
    for count in 0..1000 {
        offers = count;
        if !takes(wire, 1, bytes) || next(wire) != Seen::Tick {
            break;
        }
    }
    offers
}

/// A link that hasn't read takes no more, and has room again once it has read.
fn reads_late<R: Net<Stream = TcpStream>, W: Wire>(
    rt: &R,
    wire: &mut W,
    bytes: &mut [u8],
) -> io::Result<bool> {
    let mut client = meet(rt, wire, 1, "127.0.0.1:24003")?;
    let _ = next(wire);
    for _ in 0..whole_offers(wire, bytes) {
        client.read_exact(bytes)?;
    }
    Ok(gives(wire, Seen::Room(1)))
}

#[test]
fn says_when_there_is_room(rt: HostRuntime) -> Result<(), Fail> {
    let mut bytes = Vec::from_elem(rt.alloc(), b'z', 65_536)?;
    let mut wire = MioWire::new(&rt, rt.alloc(), None);
    let _ = listens(&mut wire, 0, PortKind::Only, 24003);
    assert!(rt; matches!(reads_late(&rt, &mut wire, bytes.as_mut_slice()), Ok(true)));
    Ok(())
}

/// How many pieces of the first link come before something else, and whether there are as many ticks.
fn pieces<W: Wire>(wire: &mut W) -> (usize, bool) {
    let (mut pieces, mut ticks) = (0usize, 0usize);
    for _ in 0..400 {
        match next(wire) {
            Seen::Tick => ticks = ticks.saturating_add(1),
            Seen::Bytes(1, _) => pieces = pieces.saturating_add(1),
            _ => break,
        }
    }
    (pieces, pieces == ticks)
}

/// What comes of one link that floods before something comes of another.
fn flood<R: Net<Stream = TcpStream>, W: Wire>(
    rt: &R,
    wire: &mut W,
    lines: &[u8],
) -> io::Result<(usize, bool)> {
    let mut first = meet(rt, wire, 1, "127.0.0.1:24004")?;
    let mut second = meet(rt, wire, 2, "127.0.0.1:24004")?;
    let _ = next(wire);
    first.set_nonblocking(true)?;
    first.write(lines)?;
    second.write_all(b"hi\r\n")?;
    Ok(pieces(wire))
}

#[test]
fn a_flood_keeps_nobody_waiting(rt: HostRuntime) -> Result<(), Fail> {
    let lines = Vec::from_elem(rt.alloc(), b'\n', 200_000)?;
    let mut wire = MioWire::new(&rt, rt.alloc(), None);
    let _ = listens(&mut wire, 0, PortKind::Full, 24004);
    // One read of at most 2,920 bytes in pieces of 1,460, and a tick after each, since each has more than 400 line ends.
    assert!(rt; matches!(flood(&rt, &mut wire, lines.as_slice()), Ok((1..=2, true))));
    Ok(())
}

/// Two clients go, and then a third speaks: what it says comes before their ends.
fn speaks_before_ends<R: Net<Stream = TcpStream> + Clock, W: Wire>(
    rt: &R,
    wire: &mut W,
) -> io::Result<bool> {
    let first = meet(rt, wire, 1, "127.0.0.1:24020")?;
    let second = meet(rt, wire, 2, "127.0.0.1:24020")?;
    let mut third = meet(rt, wire, 3, "127.0.0.1:24020")?;
    // The tick of their openings, and that of the next second, before which the sockets were asked.
    let ticked = next(wire) == Seen::Tick && next(wire) == Seen::Tick;
    drop(first);
    drop(second);
    third.write_all(b"hi\r\n")?;
    thread::sleep(rt, Duration::from_millis(100));
    Ok(
        ticked
            && gives(wire, Seen::Bytes(3, b'h'))
            && gives(wire, Seen::Ended(1))
            && gives(wire, Seen::Ended(2)),
    )
}

#[test]
fn lines_come_before_ends(rt: HostRuntime) {
    let mut wire = MioWire::new(&rt, rt.alloc(), None);
    let _ = listens(&mut wire, 0, PortKind::Full, 24020);
    assert!(rt; matches!(speaks_before_ends(&rt, &mut wire), Ok(true)));
}

/// What no second listener can do.
fn refuses<W: Wire>(wire: &mut W) -> bool {
    listens(wire, 0, PortKind::Dupe, 24005) == Ok(())
        && listens(wire, 1, PortKind::Full, 24005) == Err(WireError::Failed)
        && listens(wire, 2, PortKind::Submit, 24006) == Ok(())
        && listens(wire, 3, PortKind::Core, 24006) == Err(WireError::Failed)
}

#[test]
fn refuses_a_second_listener(rt: HostRuntime) {
    let mut wire = MioWire::new(&rt, rt.alloc(), None);
    assert!(rt; refuses(&mut wire));
}

/// Sends an empty datagram, one of a byte too many, and one of as many as there may be.
fn submits<R: Net>(rt: &R) -> io::Result<()> {
    let client = UdpSocket::bind(rt, "127.0.0.1:24008")?;
    client.send_to(&[], "127.0.0.1:24007")?;
    client.send_to(&[b'a'; 1461], "127.0.0.1:24007")?;
    client.send_to(&[b'b'; 1460], "127.0.0.1:24007")?;
    Ok(())
}

#[test]
fn hands_up_whole_datagrams(rt: HostRuntime) {
    let mut wire = MioWire::new(&rt, rt.alloc(), None);
    let listened = listens(&mut wire, 4, PortKind::Submit, 24007);
    let sent = submits(&rt).is_ok();
    assert!(rt; listened == Ok(()) && sent && gives(&mut wire, Seen::Datagram(4, b'b', 1460)));
}

/// Whether a cast to a peer comes from the peer group's listener with the greatest number, and one to a downlink from the listener
/// for datagrams that has it.
fn casts<R: Net, W: Wire>(rt: &R, wire: &mut W) -> io::Result<bool> {
    let peer = UdpSocket::bind(rt, "127.0.0.1:24012")?;
    let cast = listens(wire, 5, PortKind::Core, 24009) == Ok(())
        && listens(wire, 2, PortKind::Core, 24010) == Ok(())
        && listens(wire, 7, PortKind::Submit, 24011) == Ok(())
        && wire.cast(255, loopback(24012), b"cast") == Ok(())
        && wire.cast(256, loopback(24012), b"lines") == Ok(());
    let mut bytes = [0; 9];
    let (count, from) = peer.recv_from(&mut bytes)?;
    let (lines, port) = peer.recv_from(&mut bytes)?;
    Ok(cast && count == 4 && from.port() == 24009 && lines == 5 && port.port() == 24011)
}

#[test]
fn casts_from_the_listener_of_its_kind(rt: HostRuntime) {
    let mut wire = MioWire::new(&rt, rt.alloc(), None);
    assert!(rt; matches!(casts(&rt, &mut wire), Ok(true)));
}

fn dials<W: Wire>(wire: &mut W, uplink: u16, host: &[u8], port: u16) -> bool {
    let Ok(host) = ArrayVec::try_from(host) else {
        return false;
    };
    wire.dial(uplink, &UplinkSpec { host, port }) == Ok(())
}

/// An uplink is joined, and bytes go both ways.
fn joins<R: Net<Stream = TcpStream, Listener = TcpListener>, W: Wire>(
    rt: &R,
    wire: &mut W,
) -> io::Result<bool> {
    let listener = TcpListener::bind(rt, "127.0.0.1:24013")?;
    let joined = dials(wire, 2, b"127.0.0.1", 24013) && gives(wire, Seen::Joined(2, 1, 24013));
    let (mut uplink, _) = listener.accept()?;
    uplink.write_all(b"# hello\r\n")?;
    let spoken = gives(wire, Seen::Bytes(1, b'#')) && takes(wire, 1, b"user");
    let mut heard = [0; 4];
    uplink.read_exact(&mut heard)?;
    drop(uplink);
    Ok(joined && spoken && heard == *b"user" && gives(wire, Seen::Ended(1)))
}

#[test]
fn joins_an_uplink(rt: HostRuntime) {
    let mut wire = MioWire::new(&rt, rt.alloc(), None);
    assert!(rt; matches!(joins(&rt, &mut wire), Ok(true)));
}

/// Uplinks where nobody listens, and whose host is no name: this one is answered after the tick of another second.
fn fails_to_join<W: Wire>(wire: &mut W) -> bool {
    dials(wire, 4, b"127.0.0.1", 24014)
        && gives(wire, Seen::Unjoined(4))
        && dials(wire, 5, b"\xff", 24014)
        && next(wire) == Seen::Tick
        && gives(wire, Seen::Unjoined(5))
}

#[test]
fn answers_a_dial_that_fails(rt: HostRuntime) {
    let mut wire = MioWire::new(&rt, rt.alloc(), None);
    assert!(rt; fails_to_join(&mut wire));
}

/// Another address of loopback.
fn elsewhere(port: u16) -> Addr {
    Addr {
        ip: [127, 0, 0, 2],
        port,
    }
}

fn is_at(socket: SocketAddr, at: Addr) -> bool {
    socket == SocketAddr::V4(SocketAddrV4::new(Ipv4Addr::from(at.ip), at.port))
}

/// Where the link comes from that is opened next.
fn opened_from<W: Wire>(wire: &mut W) -> Addr {
    for _ in 0..100 {
        match wire.next() {
            Ok(Event::Opened { from, .. }) => return from,
            Ok(Event::Tick(_)) => {}
            _ => break,
        }
    }
    loopback(0)
}

/// Listens at that address alone, and a link comes from its client's.
fn listens_there<R: Net<Stream = TcpStream>, W: Wire>(rt: &R, wire: &mut W) -> io::Result<bool> {
    let kind = PortKind::Full;
    let at = elsewhere(24015);
    let listened = wire.listen(0, &ListenSpec { kind, at }) == Ok(())
        && TcpStream::connect(rt, "127.0.0.1:24015").is_err();
    let client = TcpStream::connect(rt, "127.0.0.2:24015")?;
    let opened = is_at(client.local_addr()?, opened_from(wire));
    drop(client);
    Ok(listened && opened && gives(wire, Seen::Ended(1)))
}

/// Dials that address, and casts from one there to another.
fn reaches_there<R: Net<Stream = TcpStream, Listener = TcpListener>, W: Wire>(
    rt: &R,
    wire: &mut W,
) -> io::Result<bool> {
    let listener = TcpListener::bind(rt, "127.0.0.2:24016")?;
    let joined = dials(wire, 2, b"127.0.0.2", 24016) && gives(wire, Seen::Joined(2, 2, 24016));
    let _ = listener.accept()?;
    let peer = UdpSocket::bind(rt, "127.0.0.2:24017")?;
    let kind = PortKind::Core;
    let at = elsewhere(24018);
    let cast = wire.listen(1, &ListenSpec { kind, at }) == Ok(())
        && wire.cast(0, elsewhere(24017), b"cast") == Ok(());
    let (count, from) = peer.recv_from(&mut [0; 9])?;
    Ok(joined && cast && count == 4 && is_at(from, at))
}

#[test]
fn keeps_to_its_addresses(rt: HostRuntime) {
    let mut wire = MioWire::new(&rt, rt.alloc(), None);
    assert!(rt; matches!(listens_there(&rt, &mut wire), Ok(true)));
    assert!(rt; matches!(reaches_there(&rt, &mut wire), Ok(true)));
}

/// The second that the system's clock shows.
fn second<R: Clock>(rt: &R) -> u64 {
    SystemTime::now(rt)
        .ok()
        .and_then(|now| now.duration_since(SystemTime::UNIX_EPOCH).ok())
        .map_or(0, |since| since.as_secs())
}

/// A tick whose second the clock shows between the call and its answer.
fn ticks<R: Clock, W: Wire>(rt: &R, wire: &mut W) -> bool {
    let before = second(rt);
    matches!(wire.next(), Ok(Event::Tick(moment)) if before <= moment && moment <= second(rt))
}

/// What a client says while the process stands still comes before the tick of the second in which it goes on.
fn hears_before_time<R: Net<Stream = TcpStream> + Clock, W: Wire>(
    rt: &R,
    wire: &mut W,
) -> io::Result<bool> {
    let mut client = meet(rt, wire, 1, "127.0.0.1:24019")?;
    let _ = next(wire);
    thread::sleep(rt, Duration::from_millis(1100));
    client.write_all(b"user\r\n")?;
    Ok(next(wire) == Seen::Bytes(1, b'u') && next(wire) == Seen::Tick)
}

#[test]
fn goes_by_the_clock(rt: HostRuntime) {
    let mut wire = MioWire::new(&rt, rt.alloc(), None);
    assert!(rt; ticks(&rt, &mut wire) && ticks(&rt, &mut wire) && ticks(&rt, &mut wire));
    let _ = listens(&mut wire, 0, PortKind::Full, 24019);
    assert!(rt; matches!(hears_before_time(&rt, &mut wire), Ok(true)));
}
