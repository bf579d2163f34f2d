//! Lines told to slots, and the journals of the system.
use aprs_base::{CountJournal, Failed, Journal, JournalLine, Kind, MemJournal, Memory, Slot};
use aprsc_daemon::{ErrorJournal, FileJournal, tell_all};
use arrayvec::ArrayVec;
use std::alloc::Global;
use std::fs;
use std::process::Abort;
use std::test::Fail;

fn line_of<R: Abort>(rt: &R, kind: Kind, moment: u64, text: &[u8]) -> JournalLine {
    let text = ArrayVec::try_from(text).expect(rt, "a line's text");
    JournalLine { kind, moment, text }
}

/// Slots of two journals in memory, one of which fails at its third line, and of a count of two lines.
fn three_slots(alloc: Global) -> Result<Vec<Slot>, Memory> {
    let failing = MemJournal::new(alloc, 7, Some(2), 65536)?;
    let loops = MemJournal::new(alloc, 2, None, 65536)?;
    let mut slots = Vec::new(alloc);
    slots.push(Slot::Live {
        journal: Box::new(alloc, failing)?,
        lines: 0,
    })?;
    slots.push(Slot::Live {
        journal: Box::new(alloc, loops)?,
        lines: u64::MAX,
    })?;
    slots.push(Slot::Live {
        journal: Box::new(alloc, CountJournal::new(5, 2))?,
        lines: 40,
    })?;
    Ok(slots)
}

fn count_of(slot: &Slot) -> (bool, u64) {
    match slot {
        Slot::Live { lines, .. } => (true, *lines),
        Slot::Dead { lines } => (false, *lines),
    }
}

#[test]
fn slots_take_lines_of_their_kinds(rt: HostRuntime) -> Result<(), Fail> {
    let alloc = rt.alloc();
    let mut slots = three_slots(alloc)?;
    let first = [
        line_of(&rt, Kind::Session, 1000, b"open 1 0"),
        line_of(&rt, Kind::Loop, 1000, b"loop 1 names-server"),
    ];
    tell_all(&mut slots, &first);
    let second = [
        line_of(&rt, Kind::Refusal, 1001, b"refused 1 no-colon"),
        line_of(&rt, Kind::Session, 1001, b"end 1 ended"),
    ];
    tell_all(&mut slots, &second);
    let want = [(false, 2), (true, u64::MAX), (false, 42)];
    for (slot, want) in slots.iter().zip(want) {
        assert!(rt; count_of(slot) == want);
    }
    if let Some(Slot::Live { journal, .. }) = slots.get(1) {
        assert!(rt; journal.kept() == Some(b"1000 loop 1 names-server\n".as_slice()));
    }
    Ok(())
}

#[test]
fn appends_to_the_file(rt: HostRuntime) -> Result<(), Fail> {
    fs::write(&rt, "aprsc.log", b"1 open 1 0\n")?;
    let mut journal = FileJournal::new(rt.clone()?);
    let long = [b'x'; 200];
    assert!(rt; journal.wants(Kind::Refusal) && journal.wants(Kind::Session));
    assert!(rt; journal.line(Kind::Refusal, u64::MAX, b"refused 1 no-user") == Ok(()));
    assert!(rt; journal.line(Kind::Loop, 2, &long) == Ok(()));
    assert!(rt; journal.line(Kind::Session, 3, b"end 1 ended") == Ok(()));
    assert!(rt; journal.kept().is_none());
    let text = fs::read(&rt, "aprsc.log")?;
    fs::remove_file(&rt, "aprsc.log")?;
    assert!(rt; text.starts_with(b"1 open 1 0\n18446744073709551615 refused 1 no-user\n2 xxx"));
    assert!(rt; text.ends_with(b"xxx\n3 end 1 ended\n"));
    assert!(rt; text.len() == 11 + 39 + 203 + 14);
    fs::create_dir(&rt, "aprsc.log")?;
    let answer = FileJournal::new(rt.clone()?).line(Kind::Session, 3, b"end 1 ended");
    fs::remove_dir(&rt, "aprsc.log")?;
    assert!(rt; answer == Err(Failed));
    Ok(())
}

#[test]
fn tells_the_standard_error(rt: HostRuntime) {
    let mut journal = ErrorJournal::new(&rt);
    let cases = [
        (Kind::Refusal, false),
        (Kind::Loop, true),
        (Kind::Session, true),
    ];
    for (kind, want) in cases {
        assert!(rt; journal.wants(kind) == want);
    }
    assert!(rt; journal.line(Kind::Session, 1000, b"open 1 0") == Ok(()));
}
