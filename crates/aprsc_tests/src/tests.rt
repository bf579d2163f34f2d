//! The server and its clients. Each test has ports of its own, below those that the system gives away.

use crate::client::{Client, FIRST, release, three};
use crate::server::serve_full;
use std::alloc::Global;
use std::net::{Net, TcpStream};
use std::test::Fail;
use std::time::Clock;
use std::{io, thread};

#[test]
fn logs_a_client_in(rt: HostRuntime) -> Result<(), Fail> {
    let handle = rt.clone()?;
    let client = thread::spawn(&rt, move || {
        let opened = Client::open(&handle, handle.alloc(), 24111, FIRST).is_ok();
        release(&handle, 24111, 1);
        opened
    })?;
    let status = serve_full(&rt, rt.alloc(), 24111, 1);
    assert!(rt; client.join(&rt) && status == Some(0));
    Ok(())
}

/// A client goes in the middle of a line with a packet that it hasn't read, which resets its link, and the others go on.
fn one_resets<R: Clock + Net<Stream = TcpStream>>(
    rt: &R,
    alloc: Global,
    port: u16,
) -> io::Result<()> {
    let [mut first, mut second, mut third] = three(rt, alloc, port)?;
    first.says(b"N0CALL>APRS,WIDE1-1:>hi\r\n")?;
    third.hears(b"N0CALL>APRS,TCPIP*,qAC,T2TEST:>hi\r\n")?;
    second.says(b"K1ABC>APRS:>cut o")?;
    drop(second);
    third.says(b"K1XYZ>APRS:>there\r\n")?;
    first.hears(b"K1XYZ>APRS,TCPIP*,qAC,T2TEST:>there\r\n")
}

#[test]
fn ends_a_link_that_resets_alone(rt: HostRuntime) -> Result<(), Fail> {
    let handle = rt.clone()?;
    let clients = thread::spawn(&rt, move || {
        let heard = one_resets(&handle, handle.alloc(), 24112);
        release(&handle, 24112, 3);
        heard.is_ok()
    })?;
    let status = serve_full(&rt, rt.alloc(), 24112, 3);
    assert!(rt; clients.join(&rt) && status == Some(0));
    Ok(())
}
