//! A wire in memory, by scripts written here.
use aprs_base::{
    Addr, Came, Chunk, Event, Happening, ListenSpec, MemWire, PortKind, Text, UplinkSpec, Wire,
};
use arrayvec::ArrayVec;
use std::alloc::Global;
use std::process::Abort;
use std::test::Fail;

const HERE: Addr = Addr {
    ip: [127, 0, 0, 1],
    port: 14580,
};

fn chunk_of<R: Abort>(rt: &R, text: &[u8]) -> Chunk {
    Chunk::new(text).expect(rt, "a chunk")
}

/// An event that came.
fn came(alloc: Global, event: &Event) -> Result<Happening, Fail> {
    Ok(Happening::Event(Came::of(alloc, event)?))
}

#[test]
fn gives_events_then_stop(rt: HostRuntime) -> Result<(), Fail> {
    let alloc = rt.alloc();
    let opened = Event::Opened {
        listener: 0,
        link: 1,
        from: HERE,
    };
    let bytes = Event::Bytes(1, chunk_of(&rt, b"# hi\r\n"));
    let events = vec![in alloc; Event::Tick(1000), opened.clone()?, bytes.clone()?]?;
    let mut wire = MemWire::new(alloc, events, vec![in alloc]?, None, Some(1))?;
    let good = [true, false, true, true, true, true];
    for is_given in good {
        assert!(rt; wire.next().is_ok() == is_given);
    }
    let done = [
        came(alloc, &Event::Tick(1000))?,
        came(alloc, &opened)?,
        came(alloc, &bytes)?,
        came(alloc, &Event::Stop)?,
        came(alloc, &Event::Stop)?,
    ];
    assert!(rt; wire.done.as_slice() == done.as_slice());
    Ok(())
}

#[test]
fn tells_what_comes_from_elsewhere(rt: HostRuntime) -> Result<(), Fail> {
    let alloc = rt.alloc();
    let mut wire = MemWire::new(alloc, vec![in alloc]?, vec![in alloc]?, None, None)?;
    let opened = Event::Opened {
        listener: 0,
        link: 1,
        from: HERE,
    };
    wire.note(&opened)?;
    wire.note(&Event::Ended(1))?;
    let done = [came(alloc, &opened)?, came(alloc, &Event::Ended(1))?];
    assert!(rt; wire.done.as_slice() == done.as_slice());
    Ok(())
}

#[test]
fn tells_what_was_done(rt: HostRuntime) -> Result<(), Fail> {
    let alloc = rt.alloc();
    let spec = ListenSpec {
        kind: PortKind::Full,
        at: HERE,
    };
    let uplink = UplinkSpec {
        host: ArrayVec::try_from(b"localhost".as_slice())?,
        port: 10152,
    };
    let mut wire = MemWire::new(alloc, vec![in alloc]?, vec![in alloc]?, Some(1), None)?;
    assert!(rt; wire.listen(0, &spec).is_ok());
    assert!(rt; wire.listen(1, &spec).is_err());
    wire.close(3)?;
    wire.dial(2, &uplink)?;
    wire.cast(1, HERE, b"N0CALL>APRS:>x")?;
    let done = [
        Happening::Listen(0),
        Happening::Closed(3),
        Happening::Dialled(2),
        Happening::Cast(1, Text::copied(alloc, b"N0CALL>APRS:>x")?),
    ];
    assert!(rt; wire.done.as_slice() == done.as_slice());
    assert!(rt;
        wire.listened.len() == 1
            && wire.listened[0].at == spec.at
            && wire.listened[0].kind == spec.kind
    );
    assert!(rt; wire.dialled.as_slice() == [uplink].as_slice());
    assert!(rt; wire.cast_to.as_slice() == [HERE].as_slice());
    Ok(())
}

#[test]
fn wants_links_in_order(rt: HostRuntime) -> Result<(), Fail> {
    let alloc = rt.alloc();
    let cases: [([u32; 2], bool); 4] = [
        ([1, 2], true),
        ([0, 1], false),
        ([1, 1], false),
        ([1, 3], false),
    ];
    for (links, want) in cases {
        let mut events = Vec::new(alloc);
        for link in links {
            events.push(Event::Opened {
                listener: 0,
                link,
                from: HERE,
            })?;
            events.push(Event::Ended(link))?;
        }
        let wire = MemWire::new(alloc, events, vec![in alloc]?, None, None);
        assert!(rt; wire.is_ok() == want);
    }
    Ok(())
}
