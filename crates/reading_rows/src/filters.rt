//! Filters, and which packets pass them.

use crate::fields::{no_memory, read_line, yes_or_no};
use aprs_base::{Packet, Place, Source};
use aprs_body::classify;
use arrayvec::ArrayVec;
use filter_eval::{Friends, POSITION_AGE, Seen, passes};
use filter_lang::{FilterError, FilterSet, read};
use row_texts::{RowError, read_bytes, split_word, write_bytes};
use std::alloc::{AllocError, Global};
use std::sync::Arc;

/// When the packets are accepted.
const NOW: u64 = 1_000_000;

fn fault_text(alloc: Global, fault: FilterError) -> Result<String, RowError> {
    match fault {
        FilterError::Memory => Err(RowError::Memory(AllocError)),
        FilterError::TooMany(letter) => { Ok(format!(in alloc; "TooMany {}", char::from(letter))?) }
        fault => Ok(format!(in alloc; "{fault:?}")?),
    }
}

/// A filter's canonical text, or the first fault.
pub fn canonical(alloc: Global, field: &str) -> Result<String, RowError> {
    let text = read_bytes(alloc, field)?;
    match read(alloc, text.as_slice()) {
        Ok(filter) => {
            let written = filter.write(alloc).map_err(no_memory)?;
            Ok(write_bytes(alloc, written.as_bytes())?)
        }
        Err(fault) => fault_text(alloc, fault),
    }
}

fn read_filter(alloc: Global, field: &str) -> Result<FilterSet, RowError> {
    let text = read_bytes(alloc, field)?;
    match read(alloc, text.as_slice()) {
        Ok(filter) => Ok(filter),
        Err(FilterError::Memory) => Err(RowError::Memory(AllocError)),
        Err(_) => Err(RowError::Word),
    }
}

fn read_packet(alloc: Global, field: &str) -> Result<Packet, RowError> {
    let line = read_line(alloc, field)?;
    let Ok(parts) = tnc2_line::read(&line) else {
        return Err(RowError::Word);
    };
    let body = classify(&parts.dest, parts.body.as_slice());
    let line = Arc::new(alloc, line)?;
    Ok(Packet {
        from: Source::Link(1),
        moment: NOW,
        parts,
        body,
        line,
    })
}

/// Where a station was seen at 60 degrees north, 25 degrees east, so many seconds ago; `-` where it wasn't.
fn seen(age: &str) -> Result<Option<Seen>, RowError> {
    if age == "-" {
        return Ok(None);
    }
    let place = Place {
        lat: 60_000_000,
        lon: 25_000_000,
        table: b'/',
        code: b'-',
        used: 19,
    };
    let moment = NOW.saturating_sub(age.parse::<u64>()?);
    Ok(Some(Seen { place, moment }))
}

/// Where the calls of the first and the second term were seen.
fn friends(first: &str, second: &str) -> Result<Friends, RowError> {
    let mut at = ArrayVec::new();
    at.push(seen(first)?);
    at.push(seen(second)?);
    Ok(Friends { at })
}

/// Whether a packet passes a filter, where no station was seen.
pub fn unseen(alloc: Global, row: &str) -> Result<String, RowError> {
    let (filter, packet) = split_word(row);
    let filter = read_filter(alloc, filter)?;
    let packet = read_packet(alloc, packet)?;
    let passed = passes(&filter, &packet, &friends("-", "-")?, None, None, false);
    yes_or_no(alloc, passed)
}

/// Whether a packet passes a filter, with how long ago the calls of the first and the second term, the login and the
/// source were seen, and whether the source is a gate.
pub fn sighted(alloc: Global, row: &str) -> Result<String, RowError> {
    let (filter, row) = split_word(row);
    let (first, row) = split_word(row);
    let (second, row) = split_word(row);
    let (login, row) = split_word(row);
    let (source, row) = split_word(row);
    let (gate, packet) = split_word(row);
    let friends = friends(first, second)?;
    let filter = read_filter(alloc, filter)?;
    let packet = read_packet(alloc, packet)?;
    let passed = passes(
        &filter,
        &packet,
        &friends,
        seen(login)?,
        seen(source)?,
        gate == "gate",
    );
    yes_or_no(alloc, passed)
}

/// Whether what was seen so many seconds ago still counts.
pub fn fresh(alloc: Global, age: &str) -> Result<String, RowError> {
    match seen(age)? {
        Some(seen) => yes_or_no(alloc, seen.is_fresh(NOW)),
        None => Err(RowError::Word),
    }
}

/// For how many seconds a position counts.
pub fn position_age(alloc: Global) -> Result<String, RowError> {
    Ok(format!(in alloc; "{POSITION_AGE}")?)
}
