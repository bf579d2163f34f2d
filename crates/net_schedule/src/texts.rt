//! The texts that come to the servers of a network.
ghost use Rattle.std.specs.Prelude.{◌≡◌, ◌++◌, [], ◌+◌, ◌≤◌, length};
ghost use Rattle.link_queue.specs.Lines.{ended_line};
ghost use Rattle.net_history.specs.Network.{address_of};
ghost use Rattle.net_history.specs.Steps.{login_line};

use aprs_base::{Addr, Call, Chunk, Line};
use arrayvec::ArrayVec;
use itoa::Buffer;
use login_pass::passcode;

/// The address of a server: 10.0 and its number.
pub(crate) fn address_of(server: u16) -> Addr
    ensures { result ≡ address_of server }
{
    let [high, low] = server.to_be_bytes();
    Addr {
        ip: [10, 0, high, low],
        port: 1,
    }
}

fn empty() -> Chunk
    ensures { result ≡ [] }
{
    Chunk {
        text: ArrayVec::new(),
    }
}

fn append(text: &mut Chunk, bytes: &[u8])
    requires { length text.old + length bytes.now ≤ 1460 }
    ensures { text.new ≡ text.old ++ bytes.now }
{
    text.text.try_extend_from_slice(bytes).unwrap();
}

/// A line with its end.
pub(crate) fn ended(line: &Line) -> Chunk
    ensures { result ≡ ended_line line.now }
{
    let mut text = empty();
    append(&mut text, line.bytes());
    append(&mut text, b"\r\n");
    text
}

/// The login of a client, with its line end.
pub(crate) fn login(call: &Call) -> Chunk
    ensures { result ≡ ended_line (login_line call.now) }
{
    let mut digits = Buffer::new();
    let mut text = empty();
    append(&mut text, b"user ");
    append(&mut text, call.bytes());
    append(&mut text, b" pass ");
    append(&mut text, digits.format(passcode(call)).as_bytes());
    append(&mut text, b"\r\n");
    text
}
