//! Readers that fall behind, and readers that keep up.

use crate::client::{Client, release, three};
use crate::packets::{heard, said};
use crate::server::serve_full;
use std::alloc::Global;
use std::io;
use std::net::{Net, TcpStream};
use std::sync::Wait;
use std::test::Fail;
use std::thread::{self, Threads};
use std::time::{Clock, Duration};

/// The packets that are said at once.
const BATCH: u32 = 100;

/// More packets than the system and the server hold for a client, and than are said in the two seconds after which the stream
/// of a closed link is let go.
const MOST: u32 = 4_000_000;

/// The lines that the server keeps for a client that doesn't read.
const KEPT: u32 = 1000;

/// Says a batch, which another client hears whole.
fn say_batch(alloc: Global, sender: &mut Client, reader: &mut Client, from: u32) -> io::Result<()> {
    let to = from.saturating_add(BATCH);
    sender.says(said(alloc, from..to)?.as_slice())?;
    for number in from..to {
        reader.hears(heard(alloc, number)?.as_slice())?;
    }
    Ok(())
}

/// One client never reads, and another hears each packet at once. How many packets come before the first is closed.
fn one_never_reads<R: Clock + Net<Stream = TcpStream>>(
    rt: &R,
    alloc: Global,
    port: u16,
) -> io::Result<u32> {
    let [mut first, mut second, mut third] = three(rt, alloc, port)?;
    for from in (0..MOST).step_by(100) {
        // Its link takes a remark until it is closed.
        if second.says(b"# here\r\n").is_err() {
            return Ok(from);
        }
        say_batch(alloc, &mut first, &mut third, from)?;
    }
    Ok(MOST)
}

#[test]
fn closes_a_link_that_is_too_far_behind(rt: HostRuntime) -> Result<(), Fail> {
    let handle = rt.clone()?;
    let clients = thread::spawn(&rt, move || {
        let heard = one_never_reads(&handle, handle.alloc(), 24113);
        release(&handle, 24113, 2);
        matches!(heard, Ok(count) if count >= KEPT && count < MOST)
    })?;
    let status = serve_full(&rt, rt.alloc(), 24113, 2);
    assert!(rt; clients.join(&rt) && status == Some(0));
    Ok(())
}

/// How many packets come while nobody reads, fewer than the server keeps for each.
const PAUSE: u32 = 900;

/// How many come up to the end of a burst that follows.
const BURST: u32 = 2_500;

/// Whether two clients hear these packets.
fn both_hear(alloc: Global, one: &mut Client, other: &mut Client, count: u32) -> io::Result<()> {
    for number in 0..count {
        let packet = heard(alloc, number)?;
        one.hears(packet.as_slice())?;
        other.hears(packet.as_slice())?;
    }
    Ok(())
}

/// Two clients hear the packets that came while they paused.
fn two_pause<R: Clock + Net<Stream = TcpStream>>(
    rt: &R,
    alloc: Global,
    port: u16,
) -> io::Result<()> {
    let [mut first, mut second, mut third] = three(rt, alloc, port)?;
    first.says(said(alloc, 0..PAUSE)?.as_slice())?;
    thread::sleep(rt, Duration::from_secs(1));
    both_hear(alloc, &mut second, &mut third, PAUSE)
}

#[test]
fn gives_readers_that_pause_their_backlog(rt: HostRuntime) -> Result<(), Fail> {
    let handle = rt.clone()?;
    let clients = thread::spawn(&rt, move || {
        let heard = two_pause(&handle, handle.alloc(), 24114).is_ok();
        release(&handle, 24114, 3);
        heard
    })?;
    let status = serve_full(&rt, rt.alloc(), 24114, 3);
    assert!(rt; clients.join(&rt) && status == Some(0));
    Ok(())
}

/// Two clients hear a burst of packets while they read.
fn two_keep_up<R: Clock + Net<Stream = TcpStream> + Threads + Wait>(
    rt: &R,
    alloc: Global,
    port: u16,
) -> io::Result<bool> {
    let [mut first, mut second, mut third] = three(rt, alloc, port)?;
    let burst = said(alloc, 0..BURST)?;
    let Ok(sender) = thread::spawn(rt, move || first.says(burst.as_slice()).is_ok()) else {
        return Ok(false);
    };
    let heard = both_hear(alloc, &mut second, &mut third, BURST);
    Ok(sender.join(rt) && heard.is_ok())
}

#[test]
fn serves_readers_that_keep_up(rt: HostRuntime) -> Result<(), Fail> {
    let handle = rt.clone()?;
    let clients = thread::spawn(&rt, move || {
        let kept_up = two_keep_up(&handle, handle.alloc(), 24115);
        release(&handle, 24115, 3);
        matches!(kept_up, Ok(true))
    })?;
    let status = serve_full(&rt, rt.alloc(), 24115, 3);
    assert!(rt; clients.join(&rt) && status == Some(0));
    Ok(())
}
