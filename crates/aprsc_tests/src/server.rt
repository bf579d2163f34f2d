//! Servers on ports of loopback.

use aprs_base::{MemFile, MemFiles, MemSink, Memory, OpenGate, Text};
use aprsc_daemon::aprsc;
use mio_wire::MioWire;
use std::alloc::{AllocError, Global};
use std::hash::RandomState;
use std::marker::Sync;
use std::net::Net;
use std::random::RandomSource;
use std::sync::Wait;
use std::thread::Threads;
use std::time::Clock;

/// A configuration with a full feed at a port.
pub(crate) fn full_feed(alloc: Global, port: u16) -> Result<String, AllocError> {
    format!(in alloc;
        "ServerId T2TEST\nPassCode 8385\nListen \"full\" fullfeed tcp 127.0.0.1 {port}\n"
    )
}

/// The words of a server whose configuration is in the file `c`.
fn words(alloc: Global) -> Result<Vec<String>, AllocError> {
    let mut words = Vec::new(alloc);
    words.push(String::from_str(alloc, "-c")?)?;
    words.push(String::from_str(alloc, "c")?)?;
    Ok(words)
}

/// The files of a server with a configuration.
fn files(alloc: Global, conf: &str) -> Result<MemFiles, Memory> {
    let mut listed = Vec::new(alloc);
    listed.push(MemFile {
        name: Text::copied(alloc, b"c")?,
        bytes: Text::copied(alloc, conf.as_bytes())?,
    })?;
    Ok(MemFiles::new(listed, Vec::new(alloc)))
}

/// Serves a configuration until so many links have ended by themselves, and gives the status:
/// none where it couldn't begin.
pub(crate) fn serve<R>(rt: &R, alloc: Global, conf: &str, ends: u32) -> Option<u8>
where
    R: Clock + Net + RandomSource + Sync + Threads + Wait,
{
    let words = words(alloc).ok()?;
    let mut files = files(alloc, conf).ok()?;
    let mut wire = MioWire::new(rt, alloc, Some(ends));
    let mut sink = MemSink::new(alloc, Vec::new(alloc), 1000);
    let hasher = RandomState::new(rt).ok()?;
    Some(aprsc(
        rt,
        alloc,
        words.as_slice(),
        &mut files,
        &mut wire,
        &mut sink,
        &hasher,
        &mut Vec::new(alloc),
        &OpenGate,
    ))
}

/// Serves a full feed at a port until so many links have ended by themselves, and gives the status.
pub(crate) fn serve_full<R>(rt: &R, alloc: Global, port: u16, ends: u32) -> Option<u8>
where
    R: Clock + Net + RandomSource + Sync + Threads + Wait,
{
    let conf = full_feed(alloc, port).ok()?;
    serve(rt, alloc, conf.as_str(), ends)
}
