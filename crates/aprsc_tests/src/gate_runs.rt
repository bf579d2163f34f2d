//! Parts of the links that two workers match at the same time.
use aprs_base::{Addr, Event, MemFile, MemFiles, MemSink, MemWire, Text};
use aprsc_daemon::aprsc;
use meeting_gate::Meeting;
use std::alloc::Global;
use std::hash::RandomState;
use std::marker::Sync;
use std::random::RandomSource;
use std::sync::Wait;
use std::sync::atomic::Ordering;
use std::test::Fail;
use std::thread::Threads;

const CONF: &[u8] = b"ServerId T2TEST\nPassCode 8385\nListen \"full\" fullfeed tcp 0.0.0.0 10152\n";

const CLIENT: Addr = Addr {
    ip: [127, 0, 0, 1],
    port: 4000,
};

/// One round: so many links are opened, and then the server is to stop.
fn openings(alloc: Global, count: u32) -> Result<Vec<Event>, Fail> {
    let mut events = Vec::new(alloc);
    for number in 0..count {
        events.push(Event::Opened {
            listener: 0,
            link: number.saturating_add(1),
            from: CLIENT,
        })?;
    }
    events.push(Event::Stop)?;
    Ok(events)
}

/// Serves these events by two workers, whose parts go through this gate.
fn run_through<R: Threads + Sync + Wait + RandomSource>(
    rt: &R,
    alloc: Global,
    events: Vec<Event>,
    gate: &Meeting,
) -> Result<u8, Fail> {
    let mut words = Vec::new(alloc);
    for word in ["-c", "c", "-w", "2"] {
        words.push(String::from_str(alloc, word)?)?;
    }
    let file = MemFile {
        name: Text::copied(alloc, b"c")?,
        bytes: Text::copied(alloc, CONF)?,
    };
    let mut listed = Vec::new(alloc);
    listed.push(file)?;
    let mut files = MemFiles::new(listed, Vec::new(alloc));
    let mut wire = MemWire::new(alloc, events, Vec::new(alloc), None, None)?;
    let mut sink = MemSink::new(alloc, Vec::new(alloc), 1000);
    Ok(aprsc(
        rt,
        alloc,
        words.as_slice(),
        &mut files,
        &mut wire,
        &mut sink,
        &RandomState::new(rt)?,
        &mut Vec::new(alloc),
        gate,
    ))
}

#[test]
fn two_workers_match_at_the_same_time(rt: HostRuntime) -> Result<(), Fail> {
    let alloc = rt.alloc();
    let meeting = Meeting::default();
    let status = run_through(&rt, alloc, openings(alloc, 64)?, &meeting)?;
    assert!(rt; status == 0);
    assert_eq!(rt; meeting.entered.load(Ordering::SeqCst), 2);
    assert_eq!(rt; meeting.met.load(Ordering::SeqCst), 2);
    assert_eq!(rt; meeting.left.load(Ordering::SeqCst), 2);
    Ok(())
}
