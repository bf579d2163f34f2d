//! Requests for the status page, and what the front for packets by HTTP hands up.

use crate::fields::no_memory;
use aprs_base::{Addr, Came, Chunk, Event, Happening, MemWire, WireError};
use http_submit::HttpFront;
use row_texts::{RowError, read_bytes, write_bytes};
use status_page::{Get, read_get};
use std::alloc::{AllocError, Global};

/// The listener that the front takes requests of.
const PORT: u16 = 5;

const CLIENT: Addr = Addr {
    ip: [192, 0, 2, 7],
    port: 40_000,
};

/// Adds what is asked for.
fn put_get(text: &mut String, get: Get) -> Result<(), AllocError> {
    match get {
        Get::Whole => text.push_str("whole"),
        Get::More => text.push_str("more"),
        Get::Refused(status) => write!(text, "refused {status}"),
    }
}

/// What the bytes ask for that came on a link of the status page.
pub fn get(alloc: Global, field: &str) -> Result<String, RowError> {
    let bytes = read_bytes(alloc, field)?;
    let mut text = String::new(alloc);
    put_get(&mut text, read_get(bytes.as_slice()))?;
    Ok(text)
}

/// Adds what is asked for from so many bytes on.
fn put_from(text: &mut String, length: usize, get: Get) -> Result<(), AllocError> {
    write!(text, ", from {length} ")?;
    put_get(text, get)
}

/// What each beginning of the bytes on a link of the status page asks for: from how many of them on they ask for what.
pub fn get_grown(alloc: Global, field: &str) -> Result<String, RowError> {
    let bytes = read_bytes(alloc, field)?;
    let mut last = read_get(b"");
    let mut text = String::new(alloc);
    put_get(&mut text, last)?;
    for length in 1..=bytes.len() {
        let get = read_get(&bytes[..length]);
        if get != last {
            put_from(&mut text, length, get)?;
        }
        last = get;
    }
    Ok(text)
}

/// A tick, and a link that is opened and says this byte by byte.
fn events_of(alloc: Global, bytes: &[u8]) -> Result<Vec<Event>, RowError> {
    let opened = Event::Opened {
        listener: PORT,
        link: 1,
        from: CLIENT,
    };
    let mut events = vec![in alloc; Event::Tick(1000), opened]?;
    for byte in bytes {
        let said = Chunk::new(&[*byte]).ok_or(RowError::Word)?;
        events.push(Event::Bytes(1, said))?;
    }
    Ok(events)
}

/// Adds an address, with a blank before and behind its port.
fn put_addr(text: &mut String, addr: &Addr) -> Result<(), AllocError> {
    let [a, b, c, d] = addr.ip;
    write!(text, "{a}.{b}.")?;
    write!(text, "{c}.{d} ")?;
    write!(text, "{} ", addr.port)
}

/// Adds what is handed up in place of an event.
fn put_event(alloc: Global, text: &mut String, event: &Event) -> Result<(), AllocError> {
    let Event::Datagram {
        listener,
        from,
        bytes,
    } = event
    else {
        return text.push_str("another event");
    };
    write!(text, "datagram {listener} ")?;
    put_addr(text, from)?;
    text.push_str(write_bytes(alloc, bytes.bytes())?.as_str())
}

fn no_event(error: WireError) -> RowError {
    match error {
        WireError::Memory => RowError::Memory(AllocError),
        WireError::Failed => RowError::Word,
    }
}

/// Whether that is the event that came last.
fn is_last(alloc: Global, wire: &MemWire, event: &Event) -> Result<bool, RowError> {
    let same = Happening::Event(Came::of(alloc, event).map_err(no_memory)?);
    Ok(wire.done.last() == Some(&same))
}

/// Takes the next event through the front, and adds what is handed up where that is another.
fn put_next(
    alloc: Global,
    text: &mut String,
    front: &mut HttpFront,
    wire: &mut MemWire,
    number: usize,
) -> Result<(), RowError> {
    let up = front.next(wire).map_err(no_event)?;
    if !is_last(alloc, wire, &up)? {
        write!(text, ", {number} as ")?;
        put_event(alloc, text, &up)?;
    }
    Ok(())
}

/// A wire that gives these events.
fn wire_of(alloc: Global, events: Vec<Event>) -> Result<MemWire, RowError> {
    match MemWire::new(alloc, events, Vec::new(alloc), None, None) {
        Ok(wire) => Ok(wire),
        Err(_) => Err(RowError::Word),
    }
}

/// What a front hands up of so many events of a wire.
fn handed_by(alloc: Global, wire: &mut MemWire, count: usize) -> Result<String, RowError> {
    let mut front = HttpFront::new(alloc, Some(PORT)).map_err(no_memory)?;
    let mut text = format!(in alloc; "of {count}")?;
    for number in 1..=count {
        put_next(alloc, &mut text, &mut front, wire, number)?;
    }
    Ok(text)
}

/// What is handed up in place of an event where a request comes byte by byte, and of which event.
pub fn handed_up(alloc: Global, field: &str) -> Result<String, RowError> {
    let events = events_of(alloc, read_bytes(alloc, field)?.as_slice())?;
    let count = events.len();
    let mut wire = wire_of(alloc, events)?;
    handed_by(alloc, &mut wire, count)
}
