//! A client of the server, over loopback.

use std::alloc::Global;
use std::io::{self, BufRead, BufReader, Write};
use std::net::{Net, SocketAddr, TcpStream};
use std::thread;
use std::time::{Clock, Duration};

/// The seconds that a client waits for bytes at most.
const PATIENCE: u64 = 20;

/// A call and its passcode.
pub(crate) const FIRST: (&str, u16) = ("N0CALL", 13023);

pub(crate) const SECOND: (&str, u16) = ("K1ABC", 14993);

pub(crate) const THIRD: (&str, u16) = ("K1XYZ", 14986);

/// A client that speaks in lines.
#[derive(Drop)]
pub(crate) struct Client {
    stream: BufReader<TcpStream>,
    line: Vec<u8>,
}

fn address(port: u16) -> SocketAddr {
    SocketAddr::from(([127, 0, 0, 1], port))
}

/// Connects to a port as soon as the server listens.
fn connect<R: Clock + Net<Stream = TcpStream>>(rt: &R, port: u16) -> io::Result<TcpStream> {
    for _ in 0..500 {
        if let Ok(stream) = TcpStream::connect(rt, address(port)) {
            return Ok(stream);
        }
        thread::sleep(rt, Duration::from_millis(10));
    }
    TcpStream::connect(rt, address(port))
}

/// Opens and ends so many links, so that a server whose clients gave up early stops.
pub(crate) fn release<R: Net<Stream = TcpStream>>(rt: &R, port: u16, ends: u32) {
    for _ in 0..ends {
        let _ = TcpStream::connect(rt, address(port));
    }
}

/// Three clients of T2TEST that have logged in: N0CALL, K1ABC and K1XYZ.
pub(crate) fn three<R: Clock + Net<Stream = TcpStream>>(
    rt: &R,
    alloc: Global,
    port: u16,
) -> io::Result<[Client; 3]> {
    Ok([
        Client::open(rt, alloc, port, FIRST)?,
        Client::open(rt, alloc, port, SECOND)?,
        Client::open(rt, alloc, port, THIRD)?,
    ])
}

impl Client {
    /// Opens a link, and logs in with a call and its passcode at T2TEST.
    pub(crate) fn open<R: Clock + Net<Stream = TcpStream>>(
        rt: &R,
        alloc: Global,
        port: u16,
        login: (&str, u16),
    ) -> io::Result<Client> {
        Client::open_at(rt, alloc, ("T2TEST", port), login)
    }

    /// Opens a link to a server at a port, and logs in.
    pub(crate) fn open_at<R: Clock + Net<Stream = TcpStream>>(
        rt: &R,
        alloc: Global,
        (server, port): (&str, u16),
        (call, code): (&str, u16),
    ) -> io::Result<Client> {
        let stream = connect(rt, port)?;
        stream.set_read_timeout(Some(Duration::from_secs(PATIENCE)))?;
        let mut client = Client {
            stream: BufReader::new(alloc, stream)?,
            line: Vec::new(alloc),
        };
        client.hears(b"# aprsc 1.0\r\n")?;
        let login = format!(in alloc; "user {call} pass {code} vers t 1\r\n")?;
        client.says(login.as_bytes())?;
        let reply = format!(in alloc; "# logresp {call} verified, server {server}\r\n")?;
        client.hears(reply.as_bytes())?;
        Ok(client)
    }

    /// Waits for bytes so many milliseconds at most from now on.
    pub(crate) fn waits(&mut self, millis: u64) -> io::Result<()> {
        self.stream
            .get_mut()
            .set_read_timeout(Some(Duration::from_millis(millis)))
    }

    /// Says these bytes.
    pub(crate) fn says(&mut self, bytes: &[u8]) -> io::Result<()> {
        self.stream.get_mut().write_all(bytes)
    }

    /// The next line but for the dates that all links are told: nothing at the link's end.
    pub(crate) fn next_line(&mut self) -> io::Result<&[u8]> {
        for _ in 0..10 {
            self.line.clear();
            self.stream.read_until(b'\n', &mut self.line)?;
            if !self.line.starts_with(b"# aprsc 1.0 ") {
                break;
            }
        }
        Ok(self.line.as_slice())
    }

    /// Hears the next line, which is to be this one.
    pub(crate) fn hears(&mut self, line: &[u8]) -> io::Result<()> {
        if self.next_line()? == line {
            Ok(())
        } else {
            Err(io::Error::from(io::ErrorKind::InvalidData))
        }
    }
}
