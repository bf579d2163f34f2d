//! What a core counts, and what its window keeps.
use crate::cores::{bytes, core_of, datagram, opened, round};
use aprs_base::{Event, Line};
use dupe_window::Key;
use server_core::Core;
use std::mem::forget;
use tnc2_line::read;

/// How many packets were accepted, duplicates and other things refused, and packet lines put into the texts of links.
fn counts_of(core: &Core) -> [u64; 4] {
    let totals = core.totals();
    [
        totals.accepted,
        totals.duplicate,
        totals.refused,
        totals.queued,
    ]
}

/// A full feed of two clients, and a third link that is shown duplicates.
#[test]
fn counts_what_was_said(rt: HostRuntime) {
    let mut core = core_of(&rt, rt.alloc());
    round(&rt, rt.alloc(), &mut core, &[Event::Tick(1000)]);
    assert!(rt; counts_of(&core) == [0, 0, 0, 0]);
    // A packet for link 2, its duplicate for link 3, no packet, and a filter where there is none.
    let said = b"N0CALL>APRS:>hi\r\nN0CALL>APRS:>hi\r\nN0CALL>APRS\r\n#filter b/K1\r\n";
    let first = [
        opened(1, 0),
        opened(2, 0),
        opened(3, 3),
        bytes(&rt, 1, b"user N0CALL pass 13023 vers t 1\r\n"),
        bytes(&rt, 2, b"user K1ABC pass 14993 vers t 1\r\n"),
        bytes(&rt, 3, b"user K1XYZ pass 14986 vers t 1\r\n"),
        bytes(&rt, 1, said),
        Event::Tick(1001),
    ];
    round(&rt, rt.alloc(), &mut core, &first);
    assert!(rt; counts_of(&core) == [1, 1, 2, 2]);
    // A datagram that is refused whole counts once, and what link 2 had is still counted when it has ended.
    let refused = b"user N0CALL pass 13024\r\nN0CALL>APRS:>ho\r\nN0CALL>APRS:>hu";
    let second = [
        datagram(&rt, 4, 7000, refused),
        Event::Ended(2),
        bytes(&rt, 1, b"N0CALL>APRS:>ho\r\n"),
        Event::Tick(1002),
    ];
    round(&rt, rt.alloc(), &mut core, &second);
    assert!(rt; counts_of(&core) == [2, 1, 3, 2]);
    round(&rt, rt.alloc(), &mut core, &[Event::Stop]);
    assert!(rt; counts_of(&core) == [2, 1, 3, 2]);
    forget(core);
}

/// When the window has the packet of a line at a moment, with the moment at which it was accepted.
fn seen(core: &Core, line: &[u8], now: u64) -> Option<u64> {
    let line = Line::new(line)?;
    let parts = read(&line).ok()?;
    core.window().seen(&Key::of(&parts), now)
}

/// A window keeps what was accepted less than half a minute before, and what is past is let go as time goes on.
#[test]
fn keeps_what_is_less_than_half_a_minute_old(rt: HostRuntime) {
    let mut core = core_of(&rt, rt.alloc());
    let events = [Event::Tick(1000)];
    round(&rt, rt.alloc(), &mut core, &events);
    let said = [
        opened(1, 0),
        bytes(
            &rt,
            1,
            b"user N0CALL pass 13023\r\nN0CALL>APRS,WIDE1-1:>hi\r\n",
        ),
        Event::Tick(1029),
    ];
    round(&rt, rt.alloc(), &mut core, &said);
    assert!(rt; seen(&core, b"N0CALL>APRS-5:>hi  ", 1029) == Some(1000));
    assert!(rt; seen(&core, b"N0CALL>APRS:>ho", 1029).is_none());
    round(&rt, rt.alloc(), &mut core, &[Event::Tick(1030)]);
    assert!(rt; seen(&core, b"N0CALL>APRS:>hi", 1029).is_none());
    forget(core);
}
