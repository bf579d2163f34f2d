//! The events that rows bring.

use aprs_base::{Addr, Chunk, Event};
use row_texts::{RowError, read_bytes, split_word};
use std::alloc::{AllocError, Global};
use std::net::Ipv4Addr;
use std::num::ParseIntError;
use std::str::FromStr;

/// The most bytes that an event brings.
const PIECE: usize = 1460;

/// Where a client comes from whose row doesn't say it.
const CLIENT: Addr = Addr {
    ip: [127, 0, 0, 1],
    port: 4000,
};

/// Where an uplink is whose row doesn't say it.
const UPLINK: Addr = Addr {
    ip: [10, 0, 0, 9],
    port: 10152,
};

/// A number, and what follows it.
pub fn number<T: FromStr<Err = ParseIntError>>(row: &str) -> Result<(T, &str), RowError> {
    let (word, rest) = split_word(row);
    Ok((word.parse()?, rest))
}

/// An address and a port, and what follows them.
fn address(row: &str) -> Result<(Addr, &str), RowError> {
    let (word, rest) = split_word(row);
    let ip: Ipv4Addr = word.parse().map_err(|_| RowError::Word)?;
    let (port, rest) = number(rest)?;
    let ip = ip.octets();
    Ok((Addr { ip, port }, rest))
}

/// The address that a row ends with, or else this one.
fn address_or(row: &str, other: Addr) -> Result<Addr, RowError> {
    if row.is_empty() {
        return Ok(other);
    }
    let (at, _) = address(row)?;
    Ok(at)
}

fn chunk_of(bytes: &[u8]) -> Result<Chunk, RowError> {
    Chunk::new(bytes).ok_or(RowError::Word)
}

fn opened(row: &str) -> Result<Event, RowError> {
    let (link, rest) = number(row)?;
    let (listener, rest) = number(rest)?;
    let from = address_or(rest, CLIENT)?;
    Ok(Event::Opened {
        listener,
        link,
        from,
    })
}

fn joined(row: &str) -> Result<Event, RowError> {
    let (uplink, rest) = number(row)?;
    let (link, rest) = number(rest)?;
    let at = address_or(rest, UPLINK)?;
    Ok(Event::Joined { uplink, link, at })
}

fn datagram(alloc: Global, row: &str) -> Result<Event, RowError> {
    let (listener, rest) = number(row)?;
    let (from, text) = address(rest)?;
    let text = read_bytes(alloc, text)?;
    let bytes = chunk_of(text.as_slice())?;
    Ok(Event::Datagram {
        listener,
        from,
        bytes,
    })
}

fn event_of(alloc: Global, word: &str, rest: &str) -> Result<Event, RowError> {
    match word {
        "tick" => Ok(Event::Tick(rest.parse()?)),
        "open" => opened(rest),
        "joined" => joined(rest),
        "unjoined" => Ok(Event::Unjoined(rest.parse()?)),
        "datagram" => datagram(alloc, rest),
        "room" => Ok(Event::Room(rest.parse()?)),
        "ended" => Ok(Event::Ended(rest.parse()?)),
        "stop" => Ok(Event::Stop),
        _ => Err(RowError::Word),
    }
}

/// Adds an item.
pub fn push<T: Drop>(items: &mut Vec<T>, item: T) -> Result<(), RowError> {
    match items.push(item) {
        Ok(()) => Ok(()),
        Err(failed) => Err(RowError::Memory(AllocError::from(failed))),
    }
}

/// A link says a text in pieces of at most so many bytes.
pub fn say(events: &mut Vec<Event>, link: u32, text: &[u8], most: usize) -> Result<(), RowError> {
    for piece in text.chunks(most.max(1)) {
        push(events, Event::Bytes(link, chunk_of(piece)?))?;
    }
    Ok(())
}

/// A link says the text that ends a row, in pieces of at most so many bytes.
fn says(alloc: Global, events: &mut Vec<Event>, row: &str, most: usize) -> Result<(), RowError> {
    let (link, text) = number(row)?;
    let text = read_bytes(alloc, text)?;
    say(events, link, text.as_slice(), most)
}

/// A text in which `\#` stands for a number.
fn numbered(alloc: Global, text: &str, number: u32) -> Result<String, AllocError> {
    let number = format!(in alloc; "{number}")?;
    text.replace(alloc, "\\#", number.as_str())
}

/// A link says a text so many times, as one text in which `\#` counts from 1.
fn says_lines(alloc: Global, events: &mut Vec<Event>, row: &str) -> Result<(), RowError> {
    let (link, rest) = number(row)?;
    let (times, unit) = number::<u32>(rest)?;
    let mut text = Vec::new(alloc);
    for count in 1..=times {
        let unit = numbered(alloc, unit, count)?;
        text.extend_from_slice(read_bytes(alloc, unit.as_str())?.as_slice())?;
    }
    say(events, link, text.as_slice(), PIECE)
}

/// Adds the events of a row.
pub fn add_events(alloc: Global, events: &mut Vec<Event>, row: &str) -> Result<(), RowError> {
    let (word, rest) = split_word(row);
    match word {
        "says" => says(alloc, events, rest, PIECE),
        "bytes" => says(alloc, events, rest, 1),
        "lines" => says_lines(alloc, events, rest),
        _ => push(events, event_of(alloc, word, rest)?),
    }
}

/// Adds the events of rows that are parted by ` ; `, so many times, where `\#` counts from 1.
pub fn repeat(alloc: Global, events: &mut Vec<Event>, row: &str) -> Result<(), RowError> {
    let (times, rows) = number::<u32>(row)?;
    for count in 1..=times {
        let rows = numbered(alloc, rows, count)?;
        for row in rows.as_str().split(" ; ") {
            add_events(alloc, events, row)?;
        }
    }
    Ok(())
}
